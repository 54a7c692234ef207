//! A walk over a function, and what stays the same in it.
ghost use Rattle.std.specs.Prelude.{◌≡◌, ◌++◌, ◌∷◌, [], IfOk, Ok};
ghost use Rattle.isp_exprs.specs.Scopes.{with_name};

use isp_base::Ty;
use isp_exprs::{Known, Scope, Setting};
use isp_lex::Fault;
use isp_tree::Word;
use isp_typed::{Variable, Verdict};
use std::alloc::{AllocError, Global};

/// What stays the same in a function: the program around it, and what it gives back.
#[derive(Clone, Copy)]
pub struct Context<'a> {
    pub setting: Setting<'a>,
    pub answer: Verdict<Option<Ty>>,
}

/// A walk: the names in scope, the variables of the function so far, and what is found.
#[derive(Drop)]
pub struct Walk {
    pub scope: Scope,
    pub variables: Vec<Variable>,
    pub found: Vec<Fault>,
}

impl Walk {
    /// Nothing is found yet.
    pub fn new(alloc: Global) -> Walk
        ensures { result.found.items ≡ [] }
    {
        Walk {
            scope: Scope::new(alloc),
            variables: Vec::new(alloc),
            found: Vec::new(alloc),
        }
    }

    /// A new function begins, with no names and no variables.
    pub fn begin(&mut self)
        ensures found { self.new.found.items ≡ self.old.found.items }
        ensures names { self.new.scope ≡ [] }
        ensures variables { self.new.variables.items ≡ [] }
    {
        self.scope.leave(0);
        self.variables.clear();
    }

    /// One more name, for one more variable.
    pub fn declare(
        &mut self,
        alloc: Global,
        word: &Word,
        variable: Variable,
    ) -> Result<(), AllocError>
        ensures found { IfOk result (λ u. self.new.found.items ≡ self.old.found.items) }
        ensures names { IfOk result (λ u. self.new.scope ≡ with_name self.old.scope self.old.variables.items word.now.name (Ok variable)) }
        ensures variables { IfOk result (λ u. self.new.variables.items ≡ self.old.variables.items ++ variable ∷ []) }
    {
        let number = self.variables.len();
        self.variables.push(variable)?;
        self.scope
            .push(alloc, &word.name, Ok(Known { number, variable }))
    }
}
