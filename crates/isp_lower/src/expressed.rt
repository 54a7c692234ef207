//! Code of one expression or assignment, for who owns an emitter.
ghost use Rattle.std.specs.Prelude.{◌≡◌, ◌≤◌, length, IfOk, OnErr, OnOk};
ghost use Rattle.isp_typed.specs.Views.{expr_of, functions_of, simple_of};
ghost use Rattle.isp_lower_code.specs.Asks.{Ask, expr_asks, simple_asks};
ghost use Rattle.isp_lower_code.specs.Callees.{rates_in};
ghost use Rattle.isp_lower_code.specs.Found.{found};
ghost use Rattle.isp_lower_code.specs.Rated.{IsFineExpr, IsFineSimple, IsRated, SimpleRated};
ghost use Rattle.isp_lower_code.specs.Rows.{layout_of};
ghost use Rattle.isp_registers.specs.Growth.{rows_of};
ghost use Rattle.isp_registers.specs.Reserved.{Has};
ghost use Rattle.isp_lower.specs.Adding.{Adds, FewMore, Takes, expr_in, layout_in, simple_in};
ghost use Rattle.isp_lower.specs.Drafts.{HasAllNamed, draft_of};
ghost use Rattle.isp_lower.specs.Emitted.{Present, layout};
ghost use Rattle.isp_lower.specs.reader.Apart.{IsApart, TakesOver};

use crate::expression::expr;
use crate::sites::Site;
use crate::statements::simple;
use crate::types::{Body, Emitter, Scope};
use isp_registers::{RegisterNumber, Reserve};
use isp_typed::{TypedExpr, TypedFunction, TypedSimple};
use std::alloc::AllocError;

/// What one expression or assignment adds to an emitter: what is reserved with it, and a body in which its code stands after as many
/// instructions as there were. It is made apart, so that a refusal leaves no trace.
#[derive(Drop)]
struct Addition {
    reserved: Reserve,
    body: Body,
}

/// Where code is written with what is reserved.
fn scope<'a>(callees: &'a [TypedFunction], reserved: &'a Reserve) -> Scope<'a>
    requires scalars { length reserved.now.registers.scalars ≤ 4294967295 }
    requires vectors { length reserved.now.registers.vectors ≤ 4294967295 }
    requires arrays { length reserved.now.registers.arrays ≤ 4294967295 }
    ensures layout { layout result ≡ layout_of (rates_in (functions_of callees.now)) (rows_of reserved.now.registers) }
    ensures present { (a : Ask) → Has reserved.now a → Present result a }
{
    Scope {
        callees,
        registers: &reserved.registers,
        masks: reserved.masks,
        answer: None,
        run: None,
        in_run: false,
    }
}

impl Emitter<'_> {
    /// What is reserved so far, and no code.
    fn addition(&self) -> Result<Addition, AllocError>
        ensures reserved { IfOk result (λ more. more.reserved ≡ self.now.reserved) }
        ensures body { IfOk result (λ more. IsApart self.now.body more.body) }
    {
        let alloc = *self.functions.allocator();
        Ok(Addition {
            reserved: self.reserved.copied(alloc)?,
            body: self.body.apart(alloc)?,
        })
    }

    /// Takes an addition over. Where memory is refused, all is as it was.
    fn add(&mut self, more: Addition) -> Result<(), AllocError>
        requires { length self.old.body.code.items ≤ length more.body.code.items }
        ensures rest { OnOk result (self.new ≡ record self.old { reserved = more.reserved; body = self.new.body }) }
        ensures body { OnOk result (TakesOver self.old.body more.body self.new.body) }
        ensures refused { OnErr result (draft_of self.new ≡ draft_of self.old) }
    {
        self.body.join(more.body)?;
        self.reserved = more.reserved;
        Ok(())
    }

    /// The code of an expression for the lanes of a mask register, in the slots from one on; it gives the register of the
    /// value, scalar where the expression is uniform. The function at work has the variables that it names, and afterwards
    /// each register and mask that the code asks for. There is room for these. 0 where memory is refused.
    pub fn expr(&mut self, x: &TypedExpr, site: Site) -> Result<RegisterNumber, AllocError>
        requires fine { IsFineExpr (draft_of self.old).callees (expr_of x.now) }
        requires rated { IsRated (draft_of self.old).callees (expr_of x.now) }
        requires takes { Takes (draft_of self.old) (expr_asks (expr_of x.now) site.slot.number) site }
        ensures register { IfOk result (λ d. d.number ≡ found (layout_in self.new) (expr_of x.now) site.slot.number) }
        ensures code { OnOk result (Adds self.old self.new (expr_in self.new (expr_of x.now) site)) }
        ensures has { OnOk result (Has self.new.reserved (expr_asks (expr_of x.now) site.slot.number)) }
        ensures few { OnOk result (FewMore (draft_of self.old) (draft_of self.new) (expr_asks (expr_of x.now) site.slot.number)) }
        ensures all_named { HasAllNamed (draft_of self.old) → OnOk result (HasAllNamed (draft_of self.new)) }
        ensures refused { OnErr result (draft_of self.new ≡ draft_of self.old) }
    {
        let mut more = self.addition()?;
        more.reserved.expr(x, site.slot)?;
        let on = scope(self.callees, &more.reserved);
        let to = expr(&mut more.body, &on, x, site)?;
        self.add(more)?;
        Ok(to)
    }

    /// The code of an assignment, or of what else stands before a semicolon, for the lanes of a mask register, in the slots
    /// from one on. 0 as for an expression.
    pub fn store(&mut self, x: &TypedSimple, site: Site) -> Result<(), AllocError>
        requires fine { IsFineSimple (draft_of self.old).callees (simple_of x.now) }
        requires rated { SimpleRated (draft_of self.old).callees (simple_of x.now) }
        requires takes { Takes (draft_of self.old) (simple_asks (simple_of x.now) site.slot.number) site }
        ensures code { OnOk result (Adds self.old self.new (simple_in self.new (simple_of x.now) site)) }
        ensures has { OnOk result (Has self.new.reserved (simple_asks (simple_of x.now) site.slot.number)) }
        ensures few { OnOk result (FewMore (draft_of self.old) (draft_of self.new) (simple_asks (simple_of x.now) site.slot.number)) }
        ensures all_named { HasAllNamed (draft_of self.old) → OnOk result (HasAllNamed (draft_of self.new)) }
        ensures refused { OnErr result (draft_of self.new ≡ draft_of self.old) }
    {
        let mut more = self.addition()?;
        more.reserved.simple(x, site.slot)?;
        let on = scope(self.callees, &more.reserved);
        simple(&mut more.body, &on, x, site)?;
        self.add(more)?;
        Ok(())
    }
}
