//! Operands that go together.
use isp_code::{Division, Register};

/// An access to an array: its index, or a vector of them, the mask, and the place of its trap.
#[derive(Clone, Copy)]
pub(crate) struct Access {
    pub(crate) array: Register,
    pub(crate) index: Register,
    pub(crate) mask: Register,
    pub(crate) place: u32,
}

/// The lanes that an instruction writes: those of a mask, in a vector register.
#[derive(Clone, Copy)]
pub(crate) struct Target {
    pub(crate) register: Register,
    pub(crate) mask: Register,
}

/// A division: its operator, what is divided by what, the mask, and the place of its trap.
#[derive(Clone, Copy)]
pub(crate) struct Ratio {
    pub(crate) op: Division,
    pub(crate) dividend: Register,
    pub(crate) divisor: Register,
    pub(crate) mask: Register,
    pub(crate) place: u32,
}
