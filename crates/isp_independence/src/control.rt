//! Where a statement stands.
ghost use Rattle.std.specs.Prelude.{◌≡◌};
ghost use Rattle.isp_typed.specs.Views.{function_of, stmt_of};
ghost use Rattle.isp_independence.specs.Control.{is_together};

use crate::exits::{has_varying, parts};
use isp_base::{Rate, Ty};
use isp_tree::Jump;
use isp_typed::{TypedFunction, TypedStmt};

/// Which instances may be missing where a statement stands, and since which declarations. A variable is declared outside of
/// something where its number is less than the number of variables before it.
#[derive(Clone, Copy)]
pub struct Control {
    /// Not the whole gang may have come to the function's body, so each `foreach` is a breach.
    pub incomplete: bool,
    /// The function gives one value for the gang.
    pub together: bool,
    /// It stands under varying control.
    pub varying: bool,
    /// The variables before the innermost varying branch, `foreach` or loop in which instances part.
    pub outside: usize,
    /// The variables before the body of the innermost loop with a varying `continue`.
    pub turned: usize,
}

fn is_together(answer: Option<Ty>) -> bool
    ensures { result ≡ is_together answer }
{
    match answer {
        Some(
            Ty {
                rate: Rate::Uniform,
                ..
            },
        ) => true,
        Some(_) | None => false,
    }
}

impl Control {
    ghost use Rattle.isp_independence.specs.Control.{branch, loop as of_loop, parted, round, start, turn};

    /// At the start of a function's body.
    pub fn start(incomplete: bool, function: &TypedFunction) -> Control
        ensures { result ≡ start incomplete (function_of function.now) }
    {
        Control {
            incomplete,
            together: is_together(function.result),
            varying: false,
            outside: 0,
            turned: 0,
        }
    }

    fn parted(self, before: usize) -> Control
        ensures { result ≡ parted before self }
    {
        Control {
            varying: true,
            outside: before,
            ..self
        }
    }

    /// In a branch of an `if` with a test of this rate.
    pub fn branch(self, rate: Rate, before: usize) -> Control
        ensures { result ≡ branch rate before self }
    {
        match rate {
            Rate::Varying => self.parted(before),
            Rate::Uniform => self,
        }
    }

    /// In a loop with a test of this rate: its first part, its test and its step too.
    pub fn of_loop(self, test: Option<Rate>, before: usize, body: &TypedStmt) -> Control
        ensures { result ≡ of_loop test before (stmt_of body.now) self }
    {
        if parts(test, body) {
            self.parted(before)
        } else {
            self
        }
    }

    /// In the body of a loop.
    pub fn turn(self, before: usize, body: &TypedStmt) -> Control
        ensures { result ≡ turn before (stmt_of body.now) self }
    {
        if has_varying(Jump::Continue, body) {
            Control {
                varying: true,
                turned: before,
                ..self
            }
        } else {
            self
        }
    }

    /// In the body of a `foreach`.
    pub fn round(self, before: usize) -> Control
        ensures { result ≡ round before self }
    {
        Control {
            outside: before,
            ..self
        }
    }
}
