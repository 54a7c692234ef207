//! Why no module is made.
ghost use Rattle.std.specs.Prelude.{◌≡◌};
ghost use Rattle.isp_wasm_module.specs.declared.refusal.Stopped.TheVariants.{Memory};
ghost use Rattle.isp_wasm_module.specs.reader.Refusals.{stopped};

use std::alloc::AllocError;

/// Why no module is made. A function goes by its number in the code.
#[derive(Clone, Copy, Debug, PartialEq, Eq)]
pub enum Refusal {
    /// Memory was refused.
    Memory,
    /// A register has no local, or a place or a text is not there: none of accepted code is so.
    NoLocal,
    /// A part of the module would have 4,294,967,296 bytes, or the code as many functions.
    TooLong,
    /// It is exported and not covered: of it, or of any function where it calls one, the arrays, the instructions or the texts have more than 32 bits.
    NotCovered(usize),
    /// It takes more than 1,000 parameters; an array is two.
    TooManyParameters(usize),
    /// It has more than 50,000 locals, the parameters among them.
    TooManyLocals(usize),
}

/// Why a module of code that fits is not written.
#[derive(Clone, Copy)]
pub(crate) enum Stopped {
    Memory,
    NoLocal,
    TooLong,
}

impl From<AllocError> for Stopped {
    ghost from_gives = { λ _ e. e ≡ Memory };

    fn from(_error: AllocError) -> Stopped {
        Stopped::Memory
    }
}

impl From<isp_wasm_write::Refusal> for Stopped {
    ghost from_gives = { λ r e. e ≡ stopped r };

    fn from(refusal: isp_wasm_write::Refusal) -> Stopped {
        match refusal {
            isp_wasm_write::Refusal::Memory => Stopped::Memory,
            isp_wasm_write::Refusal::NoLocal => Stopped::NoLocal,
            isp_wasm_write::Refusal::TooManyParameters
            | isp_wasm_write::Refusal::TooManyLocals
            | isp_wasm_write::Refusal::TooLong => Stopped::TooLong,
        }
    }
}
