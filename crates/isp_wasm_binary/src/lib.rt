//! Modules of WebAssembly as bytes: their definition, what is written piece by piece, and that no two modules have the
//! same bytes.
#![tactic(auto)]

mod bytes;
mod operators;
mod words;

ghost use Rattle.isp_wasm_binary.specs.Binary.{ModulesTell};
ghost use Rattle.isp_wasm_binary.specs.Reading.{NumbersAreSaid};
ghost use Rattle.isp_wasm_binary.specs.Same.{SectionsTell};

pub use bytes::Bytes;
pub use operators::{Binary, Bitwise, Division, Shape, Shift, Size, Test, Unary, Whole};
pub use words::Width;

/// Numbers in LEB128 are read back, and no fewer bytes say them.
pub fn numbers_are_said()
    ensures { NumbersAreSaid }
{}

/// Sections that differ have other bytes; the code of functions counts by its instructions, one after the other.
pub fn sections_tell()
    ensures { SectionsTell }
{}

/// So have modules: from the bytes one knows the functions, with what they are exported as, take and give, their locals and
/// instructions, and the first bytes of the memory.
pub fn modules_tell()
    ensures { ModulesTell }
{}
