//! Variables and elements that get a value.
ghost use Rattle.std.specs.Prelude.{◌≡◌, OnOk};
ghost use Rattle.isp_typed.specs.Views.{expr_of, place_of};
ghost use Rattle.isp_lower_code.specs.Asks.{ArrayOf, assign_asks, operand_asks, variable_asks};
ghost use Rattle.isp_lower_code.specs.Stays.{writes_last, writes_part};
ghost use Rattle.isp_lower.specs.Emitted.{Present, layout};
ghost use Rattle.isp_lower_code.specs.Layout.{Layout};
ghost use Rattle.isp_lower.specs.Written.{Writes, assign_at, element_to_at, variable_at};

use crate::elements::element_index;
use crate::expression::{cast_to, copied, operand};
use crate::sites::{Element, Home, Site, Target};
use crate::truths::{is_kept, is_run, is_short};
use crate::types::{Body, Scope};
use crate::written::write_from;
use isp_base::Rate;
use isp_typed::{TypedExpr, TypedPlace};
use std::alloc::AllocError;

/// Whether the last instruction writes the value, where one of a rate is wanted.
fn writes_part(wanted: Rate, given: Rate, written: bool) -> bool
    ensures { (l : Layout) → result ≡ writes_part l wanted given written }
{
    match (wanted, given) {
        (Rate::Varying, Rate::Uniform) => true,
        _ => written,
    }
}

/// Whether the last instruction of an expression writes its value.
fn writes_last(on: &Scope, x: &TypedExpr) -> bool
    ensures { result ≡ writes_last (layout on.now) (expr_of x.now) }
{
    match x {
        TypedExpr::Cast { operand, ty, .. } => {
            writes_part(ty.rate, operand.ty().rate, writes_last(on, operand))
        }
        TypedExpr::Choose {
            test,
            then,
            otherwise,
            ty,
            ..
        } => is_short(on, ty.rate, test, then, otherwise),
        TypedExpr::Place(TypedPlace::Variable { number, ty, .. }) => on.copies(ty.rate, *number),
        TypedExpr::Constant { value, .. } => !on.keeps(Rate::Uniform, value.elem, value.bits),
        TypedExpr::Convert { elem, operand } => !is_kept(on, *elem, operand),
        TypedExpr::Place(TypedPlace::Element { .. })
        | TypedExpr::ProgramIndex { .. }
        | TypedExpr::Unary { .. }
        | TypedExpr::Binary { .. }
        | TypedExpr::Compare { .. }
        | TypedExpr::Call { .. }
        | TypedExpr::Library { .. }
        | TypedExpr::PackedStore { .. }
        | TypedExpr::PackedLoad { .. } => true,
        TypedExpr::Logic { .. } => false,
    }
}

/// A variable gets a value.
pub(crate) fn variable_to(
    b: &mut Body,
    on: &Scope,
    home: Home,
    x: &TypedExpr,
    site: Site,
) -> Result<(), AllocError>
    requires { Present on.now (variable_asks home.ty.rate home.ty.elem home.number (expr_of x.now) site.slot.number) }
    ensures { OnOk result (Writes b.old b.new (variable_at on.now home (expr_of x.now) site)) }
{
    let to = on.variable(home.number, home.ty);
    let target = Target::new(to, home.ty, home.span, site);
    if writes_part(home.ty.rate, x.ty().rate, writes_last(on, x)) {
        cast_to(b, on, x, target)?;
        Ok(())
    } else {
        copied(b, on, x, target)?;
        Ok(())
    }
}

/// An element gets a value, once its index is in a register.
fn element_to(
    b: &mut Body,
    on: &Scope,
    element: Element,
    x: &TypedExpr,
    site: Site,
) -> Result<(), AllocError>
    requires array { Present on.now (ArrayOf element.array) }
    requires value { Present on.now (operand_asks element.ty.rate (expr_of x.now) site.slot.number) }
    ensures { OnOk result (Writes b.old b.new (element_to_at on.now element (expr_of x.now) site)) }
{
    let from = operand(b, on, element.ty.rate, x, site)?;
    write_from(b, on, element, from, site.mask)?;
    Ok(())
}

/// A place gets a value: the index of an element comes before the right side.
pub(crate) fn assign(
    b: &mut Body,
    on: &Scope,
    place: &TypedPlace,
    x: &TypedExpr,
    site: Site,
) -> Result<(), AllocError>
    requires { Present on.now (assign_asks (place_of place.now) (expr_of x.now) site.slot.number) }
    ensures { OnOk result (Writes b.old b.new (assign_at on.now (place_of place.now) (expr_of x.now) site)) }
{
    match place {
        TypedPlace::Variable { number, ty, span } => {
            let home = Home {
                number: *number,
                ty: *ty,
                span: *span,
            };
            variable_to(b, on, home, x, site)
        }
        TypedPlace::Element {
            array,
            index: inner,
            ty,
            span,
        } => {
            let at = element_index(b, on, *array, ty.rate, inner, site)?;
            let element = Element {
                array: *array,
                is_run: is_run(on, array.ty.rate, inner),
                index: at,
                ty: *ty,
                span: *span,
            };
            element_to(b, on, element, x, site.next())
        }
    }
}
