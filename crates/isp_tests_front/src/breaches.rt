//! All breaches of sources, of names and types, and of rates, exits and exports, against lists that were worked out by hand.
mod lists;
mod name_rows;
mod names;
mod refused;
mod rows;
