//! What stands before a semicolon, and declared variables and arrays.
ghost use Rattle.std.specs.Prelude.{[], OnOk};
ghost use Rattle.isp_typed.specs.Views.{item_of, items_of, simple_of};
ghost use Rattle.isp_lower_code.specs.Asks.{item_asks, items_asks, simple_asks, zero_asks};
ghost use Rattle.isp_lower.specs.Emitted.{Appends, Present, layout};
ghost use Rattle.isp_lower_code.specs.Items.{item_code, item_places, items_code, items_places, zero_code};
ghost use Rattle.isp_lower_code.specs.Simple.{simple_code, simple_places};

use crate::assigned::{assign, variable_to};
use crate::changed::{change_by, step};
use crate::expression::{call_to, expr};
use crate::leaves::{clear, constant, copy, splat};
use crate::sites::{Home, Operation, Site};
use crate::types::{Body, Scope};
use isp_base::{Rate, Ty};
use isp_typed::{TypedItem, TypedSimple};
use std::alloc::AllocError;

/// The code of what stands before a semicolon, under a mask, in the slots from one on.
pub fn simple(b: &mut Body, on: &Scope, x: &TypedSimple, site: Site) -> Result<(), AllocError>
    requires { Present on.now (simple_asks (simple_of x.now) site.slot.number) }
    ensures { OnOk result (Appends b.old b.new (λ pc p. simple_code (layout on.now) (simple_of x.now) pc p site.mask.number site.slot.number) (simple_places (layout on.now) (simple_of x.now))) }
{
    match x {
        TypedSimple::Value(value) => {
            expr(b, on, value, site)?;
            Ok(())
        }
        TypedSimple::Call(call) => call_to(b, on, None, call, site),
        TypedSimple::Assign { target, value, .. } => { assign(b, on, target, value, site) }
        TypedSimple::Update {
            operator,
            elem,
            target,
            value,
            span,
        } => {
            let operation = Operation {
                operator: *operator,
                elem: *elem,
                span: *span,
            };
            change_by(b, on, operation, target, value, site)
        }
        TypedSimple::Step {
            operator,
            elem,
            target,
            span,
        } => {
            let operation = Operation {
                operator: *operator,
                elem: *elem,
                span: *span,
            };
            step(b, on, operation, target, site)
        }
    }
}

/// A variable begins with 0.
fn zero_to(b: &mut Body, on: &Scope, number: usize, ty: Ty, site: Site) -> Result<(), AllocError>
    requires { Present on.now (zero_asks ty.rate ty.elem number site.slot.number) }
    ensures { OnOk result (Appends b.old b.new (λ pc p. zero_code (layout on.now) ty.rate ty.elem number site.mask.number site.slot.number) []) }
{
    match ty.rate {
        Rate::Uniform => {
            let to = on.variable(number, ty);
            b.push(constant(to, ty.elem, 0))?;
            Ok(())
        }
        Rate::Varying => {
            let to = on.variable(number, ty);
            if let Some(from) = on.kept(Rate::Varying, ty.elem, 0) {
                b.push(copy(Rate::Varying, to, from, site.mask))?;
                return Ok(());
            }
            let from = on.spare(Rate::Uniform, ty.elem, site.slot);
            b.push(constant(from, ty.elem, 0))?;
            b.push(splat(to, from, site.mask))?;
            Ok(())
        }
    }
}

/// The code of a declared variable or array.
fn item(b: &mut Body, on: &Scope, x: &TypedItem, site: Site) -> Result<(), AllocError>
    requires { Present on.now (item_asks site.slot.number (item_of x.now)) }
    ensures { OnOk result (Appends b.old b.new (λ pc p. item_code (layout on.now) (item_of x.now) pc p site.mask.number site.slot.number) (item_places (layout on.now) (item_of x.now))) }
{
    match x {
        TypedItem::Plain { number, ty, .. } => zero_to(b, on, *number, *ty, site),
        TypedItem::Value {
            number,
            ty,
            value,
            span,
        } => {
            let home = Home {
                number: *number,
                ty: *ty,
                span: *span,
            };
            variable_to(b, on, home, value, site)
        }
        TypedItem::Array { array, .. } => {
            let to = on.array(*array);
            b.push(clear(to, site.mask))?;
            Ok(())
        }
    }
}

/// The code of declared variables and arrays, under a mask, in the slots from one on: each begins with its value, or
/// with 0.
pub fn declared(b: &mut Body, on: &Scope, items: &[TypedItem], site: Site) -> Result<(), AllocError>
    requires { Present on.now (items_asks site.slot.number (items_of items.now)) }
    ensures { OnOk result (Appends b.old b.new (λ pc p. items_code (layout on.now) (items_of items.now) pc p site.mask.number site.slot.number) (items_places (layout on.now) (items_of items.now))) }
{
    for x in items.iter() {
        item(b, on, x, site)?;
    }
    Ok(())
}
