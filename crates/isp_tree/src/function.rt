//! Functions.

use crate::stmt::Block;
use crate::types::{TypeWords, Word};
use isp_base::Span;

/// A word before a function's type.
#[derive(Clone, Copy)]
pub enum Linkage {
    Export,
    Static,
    Inline,
}

/// A parameter: a value, or an array, which is written with `[]`.
#[derive(Drop)]
pub struct Param {
    pub ty: TypeWords,
    pub word: Word,
    pub is_array: bool,
    pub span: Span,
}

/// A function, from its first word to the end of its body.
#[derive(Drop)]
pub struct Function {
    pub linkages: Vec<Linkage>,
    pub result: TypeWords,
    pub word: Word,
    pub params: Vec<Param>,
    pub body: Block,
    pub span: Span,
}
