//! A walk over a function, and what stays the same in it.
use isp_base::Ty;
use isp_exprs::{Scope, Setting};
use isp_typed::{Variable, Verdict};

/// What stays the same in a function: the program around it, and what it gives back.
#[derive(Clone, Copy)]
pub struct Context<'a> {
    pub setting: Setting<'a>,
    pub answer: Verdict<Option<Ty>>,
}

/// A walk: the names in scope, and the variables of the function so far.
#[derive(Drop)]
pub struct Walk {
    pub scope: Scope,
    pub variables: Vec<Variable>,
}
