//! Functions and programs.
ghost use Rattle.std.specs.Prelude.{◌≡◌};
ghost use Rattle.isp_typed.specs.Fine.{IsFine};
ghost use Rattle.isp_typed.specs.Scoped.{IsScoped};
ghost use Rattle.isp_typed.specs.Views.{program_of};

use crate::stmt::TypedBlock;
use crate::variable::Variable;
use isp_base::{Gang, Name, Signature, Span, Ty};
use std::marker::Model;

/// A function.
#[derive(Drop)]
pub struct TypedFunction {
    pub name: Name,
    /// Where its name stands.
    pub span: Span,
    pub exported: bool,
    /// What a caller sees of it, rates aside.
    pub signature: Signature,
    /// Where the name of each parameter stands.
    pub params: Vec<Span>,
    pub result: Option<Ty>,
    /// What each of its variables holds, the parameters first.
    pub variables: Vec<Variable>,
    pub body: TypedBlock,
}

/// A gang size, and functions in the order of the text, each known by its number from 0.
#[derive(Drop)]
pub struct Program {
    pub gang: Gang,
    pub functions: Vec<TypedFunction>,
}

/// A program whose names and types are found. Contracts see the program.
///
/// Each is fine: a variable is used as what it holds, an operand has the element type that its node
/// works in, a call fits the function that it calls, a local array has 1 to 65,536 elements. Names
/// differ, and there are fewer than 16,777,216 nodes.
///
/// Each is scoped: what is used is a parameter or was declared before in a block around it, variables
/// are numbered in the order of the text, each is declared once, and `before` and `inside` are the
/// count so far. A `foreach` has one to three ranges; names of functions and parameters are words.
#[derive(Drop)]
pub struct Typed {
    program: Program,
}

impl Model for Typed {
    ghost use Rattle.isp_typed.specs.declared.function.Program.{Program};
    ghost use Rattle.isp_typed.specs.contracts.function.TypedFunction as function_code;
    ghost use Rattle.std.specs.Coded.{codes};

    ghost Value = { Program };

    ghost coded = { Prim.hlevel (codes, function_code.the_row.coded) };

    ghost use Rattle.isp_typed.specs.Fine.{IsFine};
    ghost use Rattle.isp_typed.specs.Scoped.{IsScoped};
    ghost use Rattle.isp_typed.specs.Views.{program_of};

    ghost view = { λ t. t.program };

    ghost invariant = { λ t. IsFine (program_of t.program) × IsScoped (program_of t.program) };
}

impl Typed {
    /// The program of these functions.
    pub fn new(program: Program) -> Typed
        requires fine { IsFine (program_of program) }
        requires scoped { IsScoped (program_of program) }
        ensures { result ≡ program }
    {
        Typed { program }
    }

    /// The gang size and the functions.
    pub fn program(&self) -> &Program
        ensures same { result.now ≡ self.now }
        ensures fine { IsFine (program_of self.now) }
        ensures scoped { IsScoped (program_of self.now) }
    {
        &self.program
    }
}
