//! Constants that a function keeps in registers.

use isp_base::{Elem, Rate};

/// A constant of a type, by its bits, at the rate at which it is wanted.
#[derive(Clone, Copy)]
pub struct Constant {
    pub rate: Rate,
    pub elem: Elem,
    pub bits: u64,
}
