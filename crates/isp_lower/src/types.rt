//! What writers of code read, what they append to, and the owner of it all.
ghost use Rattle.std.specs.Prelude.{◌≤◌, length};

use crate::closing::Closed;
use crate::header::Heading;
use crate::line::Line;
use isp_base::{Gang, Span, Ty};
use isp_registers::{Registers, Reserve};
use isp_typed::TypedFunction;

/// What does not change while the code of a function is written: the functions that it may call, by number, its registers,
/// how many masks it has, and what it gives back. Beside these the varying variable that counts the lanes of a run, if there is one, and
/// whether code is for lanes of the run alone.
#[derive(Clone, Copy)]
pub struct Scope<'a> {
    pub callees: &'a [TypedFunction],
    pub registers: &'a Registers,
    pub masks: u32,
    pub answer: Option<Ty>,
    pub run: Option<usize>,
    pub in_run: bool,
    pub ghost few_scalars: { length registers.now.scalars ≤ 4294967295 },
    pub ghost few_vectors: { length registers.now.vectors ≤ 4294967295 },
    pub ghost few_arrays: { length registers.now.arrays ≤ 4294967295 },
}

/// Code while it is written, and the places in the source and the texts that it names, by number.
#[derive(Drop)]
pub struct Body {
    pub places: Vec<Span>,
    pub texts: Vec<Vec<u8>>,
    pub code: Vec<Line>,
}

/// The code of a program while it is written: the functions that are closed, and one at work. Where memory is refused,
/// all is as it was before the call.
#[derive(Drop)]
pub struct Emitter<'p> {
    pub gang: Gang,
    /// The functions of the program, by number.
    pub callees: &'p [TypedFunction],
    /// Those that are closed, by number.
    pub functions: Vec<Closed>,
    /// That of the function at work, if there is one.
    pub heading: Option<Heading>,
    /// Its registers, and how many masks it has.
    pub reserved: Reserve,
    /// Its code, and the places in the source and the texts that all functions name.
    pub body: Body,
}
