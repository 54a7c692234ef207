//! Elements of arrays: how code reaches them, and their values.
ghost use Rattle.std.specs.Prelude.{◌≡◌, [], true, IfOk, OnOk};
ghost use Rattle.isp_typed.specs.Typed.{t_element, t_place};
ghost use Rattle.isp_typed.specs.Views.{expr_of};
ghost use Rattle.isp_lower_code.specs.Asks.{element_asks, expr_asks, is_lane, start_asks, target_asks};
ghost use Rattle.isp_lower_code.specs.Elements.{counts, index_by, is_run, start_code, start_in};
ghost use Rattle.isp_lower.specs.Emitted.{Appends, Present, layout};
ghost use Rattle.isp_lower.specs.Written.{Writes, element_index_at, node_at};

use crate::expression::index;
use crate::leaves::constant;
use crate::sites::{Element, Site, Target};
use crate::truths::{is_lane, is_run};
use crate::types::{Body, Scope};
use crate::written::read_to;
use isp_base::{Elem, Rate};
use isp_registers::RegisterNumber;
use isp_typed::{ArrayVariable, TypedExpr};
use std::alloc::AllocError;

/// The number of a run's first element: that of lane 0, or the place of the run.
fn start(
    b: &mut Body,
    on: &Scope,
    index: &TypedExpr,
    site: Site,
) -> Result<RegisterNumber, AllocError>
    requires asked { Present on.now (start_asks (expr_of index.now) site.slot.number) }
    requires counts { counts (layout on.now) (expr_of index.now) ≡ true }
    ensures register { IfOk result (λ d. d.number ≡ start_in (layout on.now) (is_lane (expr_of index.now)) site.slot.number) }
    ensures code { OnOk result (Appends b.old b.new (λ pc p. start_code (layout on.now) (is_lane (expr_of index.now)) site.slot.number) []) }
{
    if is_lane(index) {
        let to = on.spare(Rate::Uniform, Elem::I64, site.slot);
        b.push(constant(to, Elem::I64, 0))?;
        Ok(to)
    } else {
        Ok(on.place())
    }
}

/// The index of an element: that of its lane, or in a run of elements that of lane 0.
#[cycle(expr)]
pub(crate) fn element_index(
    b: &mut Body,
    on: &Scope,
    array: ArrayVariable,
    rate: Rate,
    x: &TypedExpr,
    site: Site,
) -> Result<RegisterNumber, AllocError>
    requires { Present on.now (element_asks array.ty.rate rate (expr_of x.now) site.slot.number (expr_asks (expr_of x.now) site.slot.number)) }
    ensures register { IfOk result (λ d. d.number ≡ index_by (layout on.now) (is_run (layout on.now) array.ty.rate (expr_of x.now)) rate (expr_of x.now) site.slot.number) }
    ensures code { OnOk result (Writes b.old b.new (element_index_at on.now array rate (expr_of x.now) site)) }
{
    if is_run(on, array.ty.rate, x) {
        start(b, on, x, site)
    } else {
        index(b, on, rate, x, site)
    }
}

/// A register gets what an element has.
#[cycle(expr)]
pub(crate) fn element_to(
    b: &mut Body,
    on: &Scope,
    array: ArrayVariable,
    inner: &TypedExpr,
    target: Target,
) -> Result<(), AllocError>
    requires { Present on.now (target_asks (t_element array (expr_of inner.now) target.ty target.span) target.site.slot.number) }
    ensures { OnOk result (Writes b.old b.new (node_at on.now (t_place (t_element array (expr_of inner.now) target.ty target.span)) target)) }
{
    let index = element_index(b, on, array, target.ty.rate, inner, target.site)?;
    let element = Element {
        array,
        is_run: is_run(on, array.ty.rate, inner),
        index,
        ty: target.ty,
        span: target.span,
    };
    read_to(b, on, element, target.to, target.site.mask)?;
    Ok(())
}
