//! Places that an operator reads and writes: `op=`, `++` and `--`.
ghost use Rattle.std.specs.Prelude.{◌≡◌, ◌<◌, ◌+◌, [], IfOk, OnOk};
ghost use Rattle.isp_base.specs.Ranks.{same_elem};
ghost use Rattle.isp_typed.specs.Typed.{t_variable};
ghost use Rattle.isp_typed.specs.Views.{expr_of, place_of};
ghost use Rattle.isp_lower_code.specs.Asks.{ArrayOf, one_asks, operand_asks, spare_ask, step_asks, update_asks, work_asks};
ghost use Rattle.isp_lower.specs.Emitted.{Appends, Present, layout};
ghost use Rattle.isp_lower_code.specs.Simple.{one_code, one_in};
ghost use Rattle.isp_lower.specs.Written.{Writes, change_by_at, changed_at, element_by_at, element_step_at, step_at, update_at};

use crate::elements::element_index;
use crate::expression::operand;
use crate::leaves::{convert, read_by, write_by};
use crate::located::{constant_to, in_vector, kept_found, lift};
use crate::sites::{Element, Held, Home, Operation, Site, Target};
use crate::truths::is_run;
use crate::types::{Body, Scope};
use crate::written::operate_to;
use isp_base::{Elem, Rate, Ty, Value};
use isp_registers::RegisterNumber;
use isp_typed::{TypedExpr, TypedPlace};
use std::alloc::AllocError;

/// Whether two element types are one.
fn same_elem(a: Elem, b: Elem) -> bool
    ensures { result ≡ same_elem a b }
{
    a == b
}

/// A register gets an operator on what another has and on a value, each converted where the operator works in another
/// type than theirs.
fn update_to(
    b: &mut Body,
    on: &Scope,
    operation: Operation,
    from: RegisterNumber,
    by: RegisterNumber,
    target: Target,
) -> Result<(), AllocError>
    requires { Present on.now (work_asks (same_elem target.ty.elem operation.elem) target.ty.rate operation.elem target.site.slot.number) }
    ensures { OnOk result (Writes b.old b.new (update_at on.now operation from by target)) }
{
    let operator = operation.operator;
    if same_elem(target.ty.elem, operation.elem) {
        operate_to(b, operator, from, by, target)?;
        Ok(())
    } else {
        let ty = Ty {
            rate: target.ty.rate,
            elem: operation.elem,
        };
        let held = on.spare(ty.rate, ty.elem, target.site.slot);
        b.push(convert(ty.rate, held, from, target.site.mask))?;
        let work = Target::new(held, ty, target.span, target.site);
        operate_to(b, operator, held, by, work)?;
        b.push(convert(ty.rate, target.to, held, target.site.mask))?;
        Ok(())
    }
}

/// An element is read into a slot, changed and written. Both accesses name one place.
fn change_element(
    b: &mut Body,
    on: &Scope,
    operation: Operation,
    element: Element,
    by: RegisterNumber,
    site: Site,
) -> Result<(), AllocError>
    requires array { Present on.now (ArrayOf element.array) }
    requires work { Present on.now (work_asks (same_elem element.ty.elem operation.elem) element.ty.rate operation.elem site.slot.number) }
    requires held { Present on.now (spare_ask element.ty.rate element.ty.elem site.slot.number) }
    ensures { OnOk result (Writes b.old b.new (changed_at on.now operation element by site)) }
{
    let ty = element.ty;
    let array = on.array(element.array);
    let held = on.spare(ty.rate, ty.elem, site.slot);
    let number = b.place(element.span)?;
    b.add(read_by(element, held, array, site.mask, number))?;
    let target = Target::new(held, ty, operation.span, site);
    update_to(b, on, operation, held, by, target)?;
    b.add(write_by(element, array, held, site.mask, number))?;
    Ok(())
}

/// A variable gets an operator on itself and the value of an expression.
fn change_variable_by(
    b: &mut Body,
    on: &Scope,
    operation: Operation,
    home: Home,
    x: &TypedExpr,
    site: Site,
) -> Result<(), AllocError>
    requires { Present on.now (update_asks operation.elem (t_variable home.number home.ty home.span) (expr_of x.now) site.slot.number) }
    ensures { OnOk result (Writes b.old b.new (change_by_at on.now operation (t_variable home.number home.ty home.span) (expr_of x.now) site)) }
{
    let to = on.variable(home.number, home.ty);
    let by = operand(b, on, home.ty.rate, x, site)?;
    let target = Target::new(to, home.ty, operation.span, site.next());
    update_to(b, on, operation, to, by, target)?;
    Ok(())
}

/// An element gets an operator on itself and the value of an expression, once its index is in a register.
fn change_element_by(
    b: &mut Body,
    on: &Scope,
    operation: Operation,
    element: Element,
    x: &TypedExpr,
    site: Site,
) -> Result<(), AllocError>
    requires array { Present on.now (ArrayOf element.array) }
    requires slots { site.slot.number + 1 < 4294967296 }
    requires value { Present on.now (operand_asks element.ty.rate (expr_of x.now) site.slot.number) }
    requires work { Present on.now (work_asks (same_elem element.ty.elem operation.elem) element.ty.rate operation.elem (site.slot.number + 1)) }
    requires held { Present on.now (spare_ask element.ty.rate element.ty.elem (site.slot.number + 1)) }
    ensures { OnOk result (Writes b.old b.new (element_by_at on.now operation element (expr_of x.now) site)) }
{
    let by = operand(b, on, element.ty.rate, x, site)?;
    change_element(b, on, operation, element, by, site.next())?;
    Ok(())
}

/// `op=`: the index of an element comes before the right side.
pub(crate) fn change_by(
    b: &mut Body,
    on: &Scope,
    operation: Operation,
    place: &TypedPlace,
    x: &TypedExpr,
    site: Site,
) -> Result<(), AllocError>
    requires { Present on.now (update_asks operation.elem (place_of place.now) (expr_of x.now) site.slot.number) }
    ensures { OnOk result (Writes b.old b.new (change_by_at on.now operation (place_of place.now) (expr_of x.now) site)) }
{
    match place {
        TypedPlace::Variable { number, ty, span } => {
            let home = Home {
                number: *number,
                ty: *ty,
                span: *span,
            };
            change_variable_by(b, on, operation, home, x, site)
        }
        TypedPlace::Element {
            array,
            index: inner,
            ty,
            span,
        } => {
            let at = element_index(b, on, *array, ty.rate, inner, site)?;
            let element = Element {
                array: *array,
                is_run: is_run(on, array.ty.rate, inner),
                index: at,
                ty: *ty,
                span: *span,
            };
            change_element_by(b, on, operation, element, x, site.next())
        }
    }
}

/// The number 1 as a value of a type and rate.
fn one(
    b: &mut Body,
    on: &Scope,
    rate: Rate,
    elem: Elem,
    site: Site,
) -> Result<RegisterNumber, AllocError>
    requires { Present on.now (one_asks rate elem site.slot.number) }
    ensures register { IfOk result (λ d. d.number ≡ one_in (layout on.now) rate elem site.slot.number) }
    ensures code { OnOk result (Appends b.old b.new (λ pc p. one_code (layout on.now) rate elem site.mask.number site.slot.number) []) }
{
    let ty = Ty {
        rate: Rate::Uniform,
        elem,
    };
    let value = Value { elem, bits: 1 };
    if let Some(to) = in_vector(on, rate, Some(value)) {
        return Ok(to);
    }
    let from = kept_found(on, Rate::Uniform, elem, 1, site.slot);
    constant_to(b, on, value, from)?;
    lift(b, on, rate, Held { from, ty }, site)
}

/// A variable gets an operator on itself and 1.
fn step_variable(
    b: &mut Body,
    on: &Scope,
    operation: Operation,
    home: Home,
    site: Site,
) -> Result<(), AllocError>
    requires { Present on.now (step_asks operation.elem (t_variable home.number home.ty home.span) site.slot.number) }
    ensures { OnOk result (Writes b.old b.new (step_at on.now operation (t_variable home.number home.ty home.span) site)) }
{
    let to = on.variable(home.number, home.ty);
    let by = one(b, on, home.ty.rate, operation.elem, site)?;
    let target = Target::new(to, home.ty, operation.span, site.next());
    update_to(b, on, operation, to, by, target)?;
    Ok(())
}

/// An element gets an operator on itself and 1, once its index is in a register.
fn step_element(
    b: &mut Body,
    on: &Scope,
    operation: Operation,
    element: Element,
    site: Site,
) -> Result<(), AllocError>
    requires array { Present on.now (ArrayOf element.array) }
    requires slots { site.slot.number + 1 < 4294967296 }
    requires one { Present on.now (one_asks element.ty.rate operation.elem site.slot.number) }
    requires work { Present on.now (work_asks (same_elem element.ty.elem operation.elem) element.ty.rate operation.elem (site.slot.number + 1)) }
    requires held { Present on.now (spare_ask element.ty.rate element.ty.elem (site.slot.number + 1)) }
    ensures { OnOk result (Writes b.old b.new (element_step_at on.now operation element site)) }
{
    let by = one(b, on, element.ty.rate, operation.elem, site)?;
    change_element(b, on, operation, element, by, site.next())?;
    Ok(())
}

/// `++` and `--`.
pub(crate) fn step(
    b: &mut Body,
    on: &Scope,
    operation: Operation,
    place: &TypedPlace,
    site: Site,
) -> Result<(), AllocError>
    requires { Present on.now (step_asks operation.elem (place_of place.now) site.slot.number) }
    ensures { OnOk result (Writes b.old b.new (step_at on.now operation (place_of place.now) site)) }
{
    match place {
        TypedPlace::Variable { number, ty, span } => {
            let home = Home {
                number: *number,
                ty: *ty,
                span: *span,
            };
            step_variable(b, on, operation, home, site)
        }
        TypedPlace::Element {
            array,
            index: inner,
            ty,
            span,
        } => {
            let at = element_index(b, on, *array, ty.rate, inner, site)?;
            let element = Element {
                array: *array,
                is_run: is_run(on, array.ty.rate, inner),
                index: at,
                ty: *ty,
                span: *span,
            };
            step_element(b, on, operation, element, site.next())
        }
    }
}
