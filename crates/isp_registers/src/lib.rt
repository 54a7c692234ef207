//! The registers of a function while its code is written: those with which it begins, and those that a walk reserves.
#![tactic(auto)]

mod beginning;
mod copies;
mod numbered;
mod rates;
mod register_rows;
mod registers;
mod reserve;

pub use beginning::{begin, no_registers};
pub use numbered::{MaskNumber, PlaceNumber, RegisterNumber, Slot, TextNumber};
pub use rates::value_rate;
pub use register_rows::RegisterRows;
pub use registers::{RegisterName, RegisterRow, Registers};
pub use reserve::Reserve;
