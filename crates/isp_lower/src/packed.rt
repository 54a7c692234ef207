//! The code of packed calls.
ghost use Rattle.std.specs.Prelude.{◌≡◌, IfOk, OnOk};
ghost use Rattle.isp_typed.specs.Typed.{t_packed_load, t_packed_store};
ghost use Rattle.isp_typed.specs.Views.{base_of, expr_of};
ghost use Rattle.isp_lower_code.specs.Asks.{base_asks, expr_asks};
ghost use Rattle.isp_lower_code.specs.Code.{base_register};
ghost use Rattle.isp_lower.specs.Emitted.{Present, layout};
ghost use Rattle.isp_lower.specs.Written.{Writes, base_at, node_at};

use crate::expression::{index, operand};
use crate::leaves::constant;
use crate::sites::{Site, Target};
use crate::types::{Body, Scope};
use crate::written::{put_packed_load, put_packed_store};
use isp_base::{Elem, Rate, Ty};
use isp_registers::RegisterNumber;
use isp_typed::{TypedBase, TypedExpr};
use std::alloc::AllocError;

/// The number of the first element of a packed call, as int64.
#[cycle(expr)]
fn base(
    b: &mut Body,
    on: &Scope,
    base: &TypedBase,
    site: Site,
) -> Result<RegisterNumber, AllocError>
    requires { Present on.now (base_asks (base_of base.now) site.slot.number) }
    ensures register { IfOk result (λ d. d.number ≡ base_register (layout on.now) (base_of base.now) site.slot.number) }
    ensures code { OnOk result (Writes b.old b.new (base_at on.now (base_of base.now) site)) }
{
    match base {
        TypedBase::Whole { .. } => {
            let first = on.spare(Rate::Uniform, Elem::I64, site.slot);
            b.push(constant(first, Elem::I64, 0))?;
            Ok(first)
        }
        TypedBase::From { index: inner, .. } => index(b, on, Rate::Uniform, inner, site),
    }
}

/// A register gets the count of a packed store: the first element's number, the value in each lane, then the instruction.
#[cycle(expr)]
pub(crate) fn packed_store_to(
    b: &mut Body,
    on: &Scope,
    into: &TypedBase,
    x: &TypedExpr,
    target: Target,
) -> Result<(), AllocError>
    requires { Present on.now (expr_asks (t_packed_store (base_of into.now) (expr_of x.now) target.span) target.site.slot.number) }
    ensures { OnOk result (Writes b.old b.new (node_at on.now (t_packed_store (base_of into.now) (expr_of x.now) target.span) target)) }
{
    let first = base(b, on, into, target.site)?;
    let from = operand(b, on, Rate::Varying, x, target.site.next())?;
    put_packed_store(b, on, into.array(), first, from, target)?;
    Ok(())
}

/// A register gets the count of a packed load, and a variable what is loaded.
#[cycle(expr)]
pub(crate) fn packed_load_to(
    b: &mut Body,
    on: &Scope,
    from: &TypedBase,
    variable: usize,
    target: Target,
) -> Result<(), AllocError>
    requires { Present on.now (expr_asks (t_packed_load (base_of from.now) variable target.span) target.site.slot.number) }
    ensures { OnOk result (Writes b.old b.new (node_at on.now (t_packed_load (base_of from.now) variable target.span) target)) }
{
    let first = base(b, on, from, target.site)?;
    let ty = Ty {
        rate: Rate::Varying,
        elem: from.array().ty.elem,
    };
    let into = on.variable(variable, ty);
    put_packed_load(b, on, from.array(), first, into, target)?;
    Ok(())
}
