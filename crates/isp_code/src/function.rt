//! Functions of the machine.
use crate::instr::Instr;
use isp_base::{Elem, Name};

/// How a parameter is passed: as one value, as a value in each lane, or as an array by reference.
#[derive(Clone, Copy)]
pub enum ParamKind {
    Scalar,
    Vector,
    Array,
}

/// A parameter. It is the next register of its class.
#[derive(Drop)]
pub struct Param {
    pub name: Name,
    pub kind: ParamKind,
    pub elem: Elem,
}

/// Whether all lanes share a local array, or each has its own.
#[derive(Clone, Copy)]
pub enum Sharing {
    Shared,
    PerInstance,
}

/// A local array, with its number of elements. It is the next array.
#[derive(Clone, Copy)]
pub struct Local {
    pub sharing: Sharing,
    pub elem: Elem,
    pub size: u32,
}

/// What a function gives back.
#[derive(Clone, Copy)]
pub enum Returns {
    Nothing,
    Scalar(Elem),
    Vector(Elem),
}

/// A function: its registers by class, and its instructions.
///
/// The parameters are the first registers of their classes, in their order. After them come the local arrays, the
/// further scalar registers and the further vector registers. Mask registers are counted alone; the first has the
/// mask of the call.
#[derive(Drop)]
pub struct Function {
    pub name: Name,
    pub exported: bool,
    pub returns: Returns,
    pub params: Vec<Param>,
    pub locals: Vec<Local>,
    pub scalars: Vec<Elem>,
    pub vectors: Vec<Elem>,
    pub masks: u32,
    pub code: Vec<Instr>,
}
