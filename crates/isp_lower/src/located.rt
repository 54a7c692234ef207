//! Where the values of expressions are found.
ghost use Rattle.std.specs.Prelude.{◌≡◌, ℕ, is_some, true, IfOk, IfSome, OnOk};
ghost use Rattle.isp_typed.specs.Typed.{t_convert, type_of};
ghost use Rattle.isp_typed.specs.Views.{expr_of};
ghost use Rattle.isp_lower_code.specs.Asks.{Register, copy_asks, expr_asks, lift_asks, spare_ask};
ghost use Rattle.isp_lower_code.specs.Found.{found, in_vector, is_copied, kept_found, lifted, variable_found, vector_of};
ghost use Rattle.isp_lower_code.specs.Stays.{stays};
ghost use Rattle.isp_lower.specs.Emitted.{Present, layout};
ghost use Rattle.isp_lower_code.specs.Rows.{Variable};
ghost use Rattle.isp_lower.specs.Written.{Writes, constant_at, lift_at, moved_at, variable_read_at};

use crate::leaves::{constant, copy, splat};
use crate::sites::{Held, Home, Site};
use crate::truths::constant_of;
use crate::types::{Body, Scope};
use isp_base::{Elem, Rate, Ty, Value, convert as value_as};
use isp_registers::{MaskNumber, RegisterNumber, Slot};
use isp_typed::{TypedExpr, TypedPlace};
use std::alloc::AllocError;

/// The register in which one of a rate is found where another rate is wanted.
fn lifted(
    on: &Scope,
    wanted: Rate,
    given: Rate,
    elem: Elem,
    from: RegisterNumber,
    slot: Slot,
) -> RegisterNumber
    requires { Present on.now (lift_asks wanted given elem slot.number) }
    ensures { result.number ≡ lifted (layout on.now) wanted given elem from.number slot.number }
{
    match (wanted, given) {
        (Rate::Varying, Rate::Uniform) => on.spare(Rate::Varying, elem, slot),
        _ => from,
    }
}

/// A value where one of a rate is wanted: one value goes to each lane.
pub(crate) fn lift(
    b: &mut Body,
    on: &Scope,
    wanted: Rate,
    held: Held,
    site: Site,
) -> Result<RegisterNumber, AllocError>
    requires { Present on.now (lift_asks wanted held.ty.rate held.ty.elem site.slot.number) }
    ensures register { IfOk result (λ d. d.number ≡ lifted (layout on.now) wanted held.ty.rate held.ty.elem held.from.number site.slot.number) }
    ensures code { OnOk result (Writes b.old b.new (lift_at on.now wanted held site)) }
{
    match (wanted, held.ty.rate) {
        (Rate::Varying, Rate::Uniform) => {
            let to = on.spare(Rate::Varying, held.ty.elem, site.slot);
            b.push(splat(to, held.from, site.mask))?;
            Ok(to)
        }
        _ => Ok(held.from),
    }
}

/// The register in which a variable's value is found: its own, or one of the slot where it is copied.
fn variable_found(on: &Scope, number: usize, ty: Ty, slot: Slot) -> RegisterNumber
    requires own { Present on.now (Register ty.rate (Variable number) ty.elem) }
    requires copy { Present on.now (copy_asks ty.rate ty.elem slot.number) }
    ensures { result.number ≡ variable_found (layout on.now) (is_copied (layout on.now) ty.rate number) ty number slot.number }
{
    match ty.rate {
        Rate::Varying if on.copies(ty.rate, number) => on.spare(Rate::Varying, ty.elem, slot),
        _ => on.variable(number, ty),
    }
}

/// A variable that is copied goes to a register; another one stays in place.
pub(crate) fn read_variable(
    b: &mut Body,
    on: &Scope,
    home: Home,
    to: RegisterNumber,
    k: MaskNumber,
) -> Result<(), AllocError>
    requires { Present on.now (Register home.ty.rate (Variable home.number) home.ty.elem) }
    ensures { OnOk result (Writes b.old b.new (variable_read_at on.now home to k)) }
{
    if on.copies(home.ty.rate, home.number) {
        let from = on.variable(home.number, home.ty);
        b.push(copy(home.ty.rate, to, from, k))?;
    }
    Ok(())
}

/// The register of a constant: the one that keeps it, or one of the slot.
pub(crate) fn kept_found(
    on: &Scope,
    rate: Rate,
    elem: Elem,
    bits: u64,
    slot: Slot,
) -> RegisterNumber
    requires { Present on.now (spare_ask rate elem slot.number) }
    ensures { result.number ≡ kept_found (layout on.now) ((layout on.now).kept rate elem bits) rate elem bits slot.number }
{
    match on.kept(rate, elem, bits) {
        Some(to) => to,
        None => on.spare(rate, elem, slot),
    }
}

/// The register in which a value as one of another type is found.
fn converted_found(on: &Scope, elem: Elem, x: &TypedExpr, slot: Slot) -> RegisterNumber
    requires { Present on.now (spare_ask (type_of (expr_of x.now)).rate elem slot.number) }
    ensures { result.number ≡ found (layout on.now) (t_convert elem (expr_of x.now)) slot.number }
{
    let rate = x.ty().rate;
    match constant_of(x) {
        Some(value) => {
            let bits = value_as(value.elem, elem, value.bits);
            kept_found(on, rate, elem, bits, slot)
        }
        None => on.spare(rate, elem, slot),
    }
}

/// A constant goes to a register, but where it is kept.
pub(crate) fn constant_to(
    b: &mut Body,
    on: &Scope,
    value: Value,
    to: RegisterNumber,
) -> Result<(), AllocError>
    ensures { OnOk result (Writes b.old b.new (constant_at on.now value to)) }
{
    if !on.keeps(Rate::Uniform, value.elem, value.bits) {
        b.push(constant(to, value.elem, value.bits))?;
    }
    Ok(())
}

/// The vector that keeps a constant where a value of a rate is wanted, if one does.
pub(crate) fn in_vector(on: &Scope, rate: Rate, value: Option<Value>) -> Option<RegisterNumber>
    ensures number { IfSome result (λ d. d.number ≡ vector_of (layout on.now) value) }
    ensures is { is_some result ≡ in_vector (layout on.now) rate value }
{
    match (rate, value) {
        (Rate::Varying, Some(value)) => on.kept(Rate::Varying, value.elem, value.bits),
        _ => None,
    }
}

/// The register in which an expression's value is found: that of a variable that stays in place or of a constant that is kept, else one of
/// the slot.
#[cycle(found)]
pub fn found(on: &Scope, x: &TypedExpr, slot: Slot) -> RegisterNumber
    requires { Present on.now (expr_asks (expr_of x.now) slot.number) }
    ensures { result.number ≡ found (layout on.now) (expr_of x.now) slot.number }
{
    match x {
        TypedExpr::Place(TypedPlace::Variable { number, ty, .. }) => {
            variable_found(on, *number, *ty, slot)
        }
        TypedExpr::Cast { operand, ty, .. } => {
            let from = found(on, operand, slot);
            let given = operand.ty();
            lifted(on, ty.rate, given.rate, given.elem, from, slot)
        }
        TypedExpr::Constant { value, .. } => {
            kept_found(on, Rate::Uniform, value.elem, value.bits, slot)
        }
        TypedExpr::Convert { elem, operand } => converted_found(on, *elem, operand, slot),
        TypedExpr::Place(TypedPlace::Element { .. })
        | TypedExpr::ProgramIndex { .. }
        | TypedExpr::Unary { .. }
        | TypedExpr::Binary { .. }
        | TypedExpr::Compare { .. }
        | TypedExpr::Logic { .. }
        | TypedExpr::Choose { .. }
        | TypedExpr::Call { .. }
        | TypedExpr::Library { .. }
        | TypedExpr::PackedStore { .. }
        | TypedExpr::PackedLoad { .. } => {
            let ty = x.ty();
            on.spare(ty.rate, ty.elem, slot)
        }
    }
}

/// The register of what stays in place, whatever the slot.
pub(crate) fn stayed(on: &Scope, x: &TypedExpr, slot: Slot) -> RegisterNumber
    requires there { Present on.now (expr_asks (expr_of x.now) slot.number) }
    requires stays { stays (layout on.now) (expr_of x.now) ≡ true }
    ensures { (n : ℕ) → result.number ≡ found (layout on.now) (expr_of x.now) n }
{
    found(on, x, slot)
}

/// A value in a slot: a copy, or nothing where it is there.
pub(crate) fn moved(
    b: &mut Body,
    on: &Scope,
    held: Held,
    site: Site,
) -> Result<RegisterNumber, AllocError>
    requires { Present on.now (spare_ask held.ty.rate held.ty.elem site.slot.number) }
    ensures register { IfOk result (λ d. d.number ≡ (layout on.now).spare held.ty.rate held.ty.elem site.slot.number) }
    ensures code { OnOk result (Writes b.old b.new (moved_at on.now held site)) }
{
    let to = on.spare(held.ty.rate, held.ty.elem, site.slot);
    if to.number != held.from.number {
        b.push(copy(held.ty.rate, to, held.from, site.mask))?;
    }
    Ok(to)
}
