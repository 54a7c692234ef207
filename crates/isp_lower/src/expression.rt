//! The code of expressions.
ghost use Rattle.std.specs.Prelude.{◌≡◌, ◌<◌, ◌+◌, true, false, IfOk, OnOk};
ghost use Rattle.isp_base.specs.declared.types.Rate.TheVariants.{Uniform, Varying};
ghost use Rattle.isp_typed.specs.Typed.{t_arguments, t_binary, t_choose, t_compare, t_convert, t_exprs, t_logic, t_place, t_unary, type_of};
ghost use Rattle.isp_typed.specs.Views.{argument_of, arguments_of, call_of, expr_of, exprs_of, place_of};
ghost use Rattle.isp_lower_code.specs.Asks.{argument_asks, arguments_asks, call_asks, expr_asks, index_asks, operand_asks, spare_ask, values_asks, whole_asks};
ghost use Rattle.isp_lower_code.specs.Code.{argument_register, argument_registers, expr_code, value_registers};
ghost use Rattle.isp_lower_code.specs.Found.{found, index, is_whole, operand, whole};
ghost use Rattle.isp_lower_code.specs.Spans.{expr_places};
ghost use Rattle.isp_lower_code.specs.Stays.{is_short};
ghost use Rattle.isp_lower.specs.Emitted.{Appends, Present, layout};
ghost use Rattle.isp_lower_code.specs.Layout.{register};
ghost use Rattle.isp_lower_code.specs.Library.{library_rates};
ghost use Rattle.isp_lower.specs.Written.{Writes, argument_at, arguments_at, by_jump_at, by_masks_at, call_at, chosen_at, convert_at, guarded_at, index_at, library_at, node_at, numbers, operand_at, short_at, side_at, skipped_at, to_at, value_at, values_at, whole_at};

use crate::elements::element_to;
use crate::leaves::{
    array, compare, constant, convert, copy, index as lane_numbers, mask, of_rate, scalar, select,
    splat, the_others, unary, where_so,
};
use crate::library::{Operands, put_library};
use crate::line::Line;
use crate::located::{constant_to, found, in_vector, lift, moved, read_variable, stayed};
use crate::packed::{packed_load_to, packed_store_to};
use crate::sites::{Held, Home, Site, Skip, Target};
use crate::truths::{constant_of, decided, is_kept, is_short, is_whole, known};
use crate::types::{Body, Scope};
use crate::written::{operate_to, put_needing};
use isp_base::{BinOp, Compare, Elem, Rate, Ty, UnaryOp, convert as value_as};
use isp_code::{Arguments, Call, CallBox, Instr, JumpTest, Register};
use isp_registers::{RegisterNumber, Slot, value_rate};
use isp_typed::{Library, Logic, TypedArgument, TypedCall, TypedExpr, TypedPlace};
use smallvec::SmallVec;
use std::alloc::AllocError;

/// The code of an expression under a mask, in the slots from one on. It answers the register of the value, scalar
/// where the expression is uniform.
#[cycle(expr)]
pub fn expr(
    b: &mut Body,
    on: &Scope,
    x: &TypedExpr,
    site: Site,
) -> Result<RegisterNumber, AllocError>
    requires { Present on.now (expr_asks (expr_of x.now) site.slot.number) }
    ensures register { IfOk result (λ d. d.number ≡ found (layout on.now) (expr_of x.now) site.slot.number) }
    ensures code { OnOk result (Appends b.old b.new (λ pc p. expr_code (layout on.now) (expr_of x.now) pc p site.mask.number site.slot.number) (expr_places (layout on.now) (expr_of x.now))) }
{
    let to = found(on, x, site.slot);
    write_to(b, on, x, to, site)?;
    Ok(to)
}

/// The same where the last instruction writes a register, for expressions that have one.
#[cycle(expr)]
fn write_to(
    b: &mut Body,
    on: &Scope,
    x: &TypedExpr,
    to: RegisterNumber,
    site: Site,
) -> Result<(), AllocError>
    requires { Present on.now (expr_asks (expr_of x.now) site.slot.number) }
    ensures { OnOk result (Writes b.old b.new (to_at on.now (expr_of x.now) to site)) }
{
    let target = Target::new(to, x.ty(), x.span(), site);
    match x {
        TypedExpr::Constant { value, .. } => constant_to(b, on, *value, to),
        TypedExpr::ProgramIndex { .. } => b.push(lane_numbers(to, site.mask)),
        TypedExpr::Place(place) => place_to(b, on, place, to, site),
        TypedExpr::Convert { elem, operand } => converted_to(b, on, *elem, operand, to, site),
        TypedExpr::Cast { operand, .. } => cast_to(b, on, operand, target),
        TypedExpr::Unary {
            operator,
            operand,
            ..
        } => unary_to(b, on, *operator, operand, target),
        TypedExpr::Binary {
            operator,
            left,
            right,
            ..
        } => binary_to(b, on, *operator, left, right, target),
        TypedExpr::Compare {
            comparison,
            left,
            right,
            ..
        } => compare_to(b, on, *comparison, left, right, target),
        TypedExpr::Logic {
            logic,
            left,
            right,
            ..
        } => logic_to(b, on, *logic, left, right, target),
        TypedExpr::Choose {
            test,
            then,
            otherwise,
            ..
        } => choose_to(b, on, test, then, otherwise, target),
        TypedExpr::Call { call, ty } => call_to(b, on, Some(of_rate(ty.rate, to)), call, site),
        TypedExpr::Library {
            function,
            values,
            ..
        } => library_to(b, on, *function, values, target),
        TypedExpr::PackedStore { base, value, .. } => packed_store_to(b, on, base, value, target),
        TypedExpr::PackedLoad { base, variable, .. } => packed_load_to(
            b, on, base, *variable, target,
        ),
    }
}

/// The value as one of a rate.
#[cycle(expr)]
#[tactic(auto, using(crate::proofs::Keeping::vector_appends))]
pub fn operand(
    b: &mut Body,
    on: &Scope,
    rate: Rate,
    x: &TypedExpr,
    site: Site,
) -> Result<RegisterNumber, AllocError>
    requires { Present on.now (operand_asks rate (expr_of x.now) site.slot.number) }
    ensures register { IfOk result (λ d. d.number ≡ operand (layout on.now) rate (expr_of x.now) site.slot.number) }
    ensures code { OnOk result (Writes b.old b.new (operand_at on.now rate (expr_of x.now) site)) }
{
    if let Some(to) = in_vector(on, rate, known(x)) {
        return Ok(to);
    }
    let from = expr(b, on, x, site)?;
    let ty = x.ty();
    lift(b, on, rate, Held { from, ty }, site)
}

/// A register gets the result of an operator on one value.
#[cycle(expr)]
fn unary_to(
    b: &mut Body,
    on: &Scope,
    operator: UnaryOp,
    x: &TypedExpr,
    target: Target,
) -> Result<(), AllocError>
    requires { Present on.now (expr_asks (t_unary operator (expr_of x.now) target.ty target.span) target.site.slot.number) }
    ensures { OnOk result (Writes b.old b.new (node_at on.now (t_unary operator (expr_of x.now) target.ty target.span) target)) }
{
    let from = operand(b, on, target.ty.rate, x, target.site)?;
    b.push(unary(target.ty.rate, operator, target.to, from, target.site.mask))?;
    Ok(())
}

/// A register gets the value as one of a rate.
#[cycle(expr)]
pub(crate) fn cast_to(
    b: &mut Body,
    on: &Scope,
    x: &TypedExpr,
    target: Target,
) -> Result<(), AllocError>
    requires { Present on.now (operand_asks target.ty.rate (expr_of x.now) target.site.slot.number) }
    ensures { OnOk result (Writes b.old b.new (value_at on.now true (expr_of x.now) target)) }
{
    match (target.ty.rate, x.ty().rate) {
        (Rate::Varying, Rate::Uniform) => {
            let from = expr(b, on, x, target.site)?;
            b.push(splat(target.to, from, target.site.mask))?;
            Ok(())
        }
        _ => write_to(b, on, x, target.to, target.site),
    }
}

/// A register gets the result of an operator on two values.
#[cycle(expr)]
fn binary_to(
    b: &mut Body,
    on: &Scope,
    operator: BinOp,
    left: &TypedExpr,
    right: &TypedExpr,
    target: Target,
) -> Result<(), AllocError>
    requires { Present on.now (expr_asks (t_binary operator (expr_of left.now) (expr_of right.now) target.ty target.span) target.site.slot.number) }
    ensures { OnOk result (Writes b.old b.new (node_at on.now (t_binary operator (expr_of left.now) (expr_of right.now) target.ty target.span) target)) }
{
    let x = operand(b, on, target.ty.rate, left, target.site)?;
    let y = operand(b, on, target.ty.rate, right, target.site.next())?;
    operate_to(b, operator, x, y, target)?;
    Ok(())
}

/// A register gets the truth of a comparison.
#[cycle(expr)]
fn compare_to(
    b: &mut Body,
    on: &Scope,
    comparison: Compare,
    left: &TypedExpr,
    right: &TypedExpr,
    target: Target,
) -> Result<(), AllocError>
    requires { Present on.now (expr_asks (t_compare comparison (expr_of left.now) (expr_of right.now) target.ty.rate target.span) target.site.slot.number) }
    ensures { OnOk result (Writes b.old b.new (node_at on.now (t_compare comparison (expr_of left.now) (expr_of right.now) target.ty.rate target.span) target)) }
{
    let rate = target.ty.rate;
    let x = operand(b, on, rate, left, target.site)?;
    let y = operand(b, on, rate, right, target.site.next())?;
    b.push(compare(rate, comparison, target.to, x, y, target.site.mask))?;
    Ok(())
}

/// A register gets a value as one of another element type; a constant is loaded as one of that type.
#[cycle(expr)]
fn convert_to(
    b: &mut Body,
    on: &Scope,
    elem: Elem,
    x: &TypedExpr,
    to: RegisterNumber,
    site: Site,
) -> Result<(), AllocError>
    requires { Present on.now (expr_asks (expr_of x.now) site.slot.number) }
    ensures { OnOk result (Writes b.old b.new (convert_at on.now elem (expr_of x.now) to site)) }
{
    match constant_of(x) {
        Some(value) => {
            let bits = value_as(value.elem, elem, value.bits);
            b.push(constant(to, elem, bits))?;
            Ok(())
        }
        None => {
            let from = expr(b, on, x, site)?;
            b.push(convert(x.ty().rate, to, from, site.mask))?;
            Ok(())
        }
    }
}

/// The same, but of a constant that is kept.
#[cycle(expr)]
#[tactic(auto, using(crate::proofs::Keeping::kept_appends))]
fn converted_to(
    b: &mut Body,
    on: &Scope,
    elem: Elem,
    x: &TypedExpr,
    to: RegisterNumber,
    site: Site,
) -> Result<(), AllocError>
    requires { Present on.now (expr_asks (expr_of x.now) site.slot.number) }
    ensures { OnOk result (Writes b.old b.new (to_at on.now (t_convert elem (expr_of x.now)) to site)) }
{
    if is_kept(on, elem, x) {
        Ok(())
    } else {
        convert_to(b, on, elem, x, to, site)
    }
}

/// A whole number as int64.
#[cycle(expr)]
fn whole(b: &mut Body, on: &Scope, x: &TypedExpr, site: Site) -> Result<RegisterNumber, AllocError>
    requires { Present on.now (whole_asks (expr_of x.now) site.slot.number (expr_asks (expr_of x.now) site.slot.number)) }
    ensures register { IfOk result (λ d. d.number ≡ whole (layout on.now) (is_whole (type_of (expr_of x.now)).elem) (expr_of x.now) site.slot.number) }
    ensures code { OnOk result (Writes b.old b.new (whole_at on.now (expr_of x.now) site)) }
{
    let given = x.ty();
    if is_whole(given.elem) {
        expr(b, on, x, site)
    } else {
        let to = on.spare(given.rate, Elem::I64, site.slot);
        convert_to(b, on, Elem::I64, x, to, site)?;
        Ok(to)
    }
}

/// An index as int64, and one for each lane where its place is varying.
#[cycle(expr)]
pub fn index(
    b: &mut Body,
    on: &Scope,
    rate: Rate,
    x: &TypedExpr,
    site: Site,
) -> Result<RegisterNumber, AllocError>
    requires { Present on.now (index_asks rate (expr_of x.now) site.slot.number (expr_asks (expr_of x.now) site.slot.number)) }
    ensures register { IfOk result (λ d. d.number ≡ index (layout on.now) rate (expr_of x.now) site.slot.number) }
    ensures code { OnOk result (Writes b.old b.new (index_at on.now rate (expr_of x.now) site)) }
{
    let from = whole(b, on, x, site)?;
    let ty = Ty {
        rate: x.ty().rate,
        elem: Elem::I64,
    };
    lift(b, on, rate, Held { from, ty }, site)
}

/// A register gets what an element has, or a variable that does not stay in place.
#[cycle(expr)]
fn place_to(
    b: &mut Body,
    on: &Scope,
    place: &TypedPlace,
    to: RegisterNumber,
    site: Site,
) -> Result<(), AllocError>
    requires { Present on.now (expr_asks (t_place (place_of place.now)) site.slot.number) }
    ensures { OnOk result (Writes b.old b.new (to_at on.now (t_place (place_of place.now)) to site)) }
{
    match place {
        TypedPlace::Variable { number, ty, span } => {
            let home = Home {
                number: *number,
                ty: *ty,
                span: *span,
            };
            read_variable(b, on, home, to, site.mask)
        }
        TypedPlace::Element {
            array,
            index: inner,
            ty,
            span,
        } => element_to(b, on, *array, inner, Target::new(to, *ty, *span, site)),
    }
}

/// A register gets the value as one of a rate, by a copy.
#[cycle(expr)]
pub(crate) fn copied(
    b: &mut Body,
    on: &Scope,
    x: &TypedExpr,
    target: Target,
) -> Result<(), AllocError>
    requires { Present on.now (operand_asks target.ty.rate (expr_of x.now) target.site.slot.number) }
    ensures { OnOk result (Writes b.old b.new (value_at on.now false (expr_of x.now) target)) }
{
    let from = operand(b, on, target.ty.rate, x, target.site)?;
    b.push(copy(target.ty.rate, target.to, from, target.site.mask))?;
    Ok(())
}

/// The right side of `&&` or `||`, copied to a register; a jump goes past it.
#[cycle(expr)]
fn right_side(
    b: &mut Body,
    on: &Scope,
    skip: Skip,
    x: &TypedExpr,
    target: Target,
) -> Result<(), AllocError>
    requires { Present on.now (operand_asks target.ty.rate (expr_of x.now) target.site.slot.number) }
    ensures { OnOk result (Writes b.old b.new (skipped_at on.now skip (expr_of x.now) target)) }
{
    let at = b.code.len();
    b.push(Instr::JumpIf {
        test: skip.test,
        register: skip.register,
        target: 0,
    })?;
    copied(b, on, x, target)?;
    b.land(at, skip.test, skip.register);
    Ok(())
}

/// `&&` or `||`, left in the slot.
#[cycle(expr)]
fn logic_to(
    b: &mut Body,
    on: &Scope,
    logic: Logic,
    left: &TypedExpr,
    right: &TypedExpr,
    target: Target,
) -> Result<(), AllocError>
    requires { Present on.now (expr_asks (t_logic logic (expr_of left.now) (expr_of right.now) target.ty.rate target.span) target.site.slot.number) }
    ensures { OnOk result (Writes b.old b.new (node_at on.now (t_logic logic (expr_of left.now) (expr_of right.now) target.ty.rate target.span) target)) }
{
    match target.ty.rate {
        Rate::Uniform => logic_of_one(b, on, logic, left, right, target),
        Rate::Varying => logic_of_each(b, on, logic, left, right, target),
    }
}

/// `&&` or `||` of one value, left in the slot.
#[cycle(expr)]
fn logic_of_one(
    b: &mut Body,
    on: &Scope,
    logic: Logic,
    left: &TypedExpr,
    right: &TypedExpr,
    target: Target,
) -> Result<(), AllocError>
    requires { Present on.now (expr_asks (t_logic logic (expr_of left.now) (expr_of right.now) Uniform target.span) target.site.slot.number) }
    ensures { OnOk result (Writes b.old b.new (node_at on.now (t_logic logic (expr_of left.now) (expr_of right.now) Uniform target.span) target)) }
{
    let from = operand(b, on, Rate::Uniform, left, target.site)?;
    let ty = Ty {
        rate: Rate::Uniform,
        elem: Elem::Bool,
    };
    let result = moved(b, on, Held { from, ty }, target.site)?;
    let skip = Skip {
        test: decided(logic),
        register: scalar(result),
    };
    let aim = Target::new(result, ty, target.span, target.site.next());
    right_side(b, on, skip, right, aim)?;
    Ok(())
}

/// `&&` or `||` of a value in each lane, left in the slot: the right side is for those lanes that need it.
#[cycle(expr)]
fn logic_of_each(
    b: &mut Body,
    on: &Scope,
    logic: Logic,
    left: &TypedExpr,
    right: &TypedExpr,
    target: Target,
) -> Result<(), AllocError>
    requires { Present on.now (expr_asks (t_logic logic (expr_of left.now) (expr_of right.now) Varying target.span) target.site.slot.number) }
    ensures { OnOk result (Writes b.old b.new (node_at on.now (t_logic logic (expr_of left.now) (expr_of right.now) Varying target.span) target)) }
{
    let from = operand(b, on, Rate::Varying, left, target.site)?;
    let ty = Ty {
        rate: Rate::Varying,
        elem: Elem::Bool,
    };
    let result = moved(b, on, Held { from, ty }, target.site)?;
    let needing = target.site.slot.mask();
    put_needing(b, logic, needing, result, target.site.mask)?;
    let skip = Skip {
        test: JumpTest::Off,
        register: mask(needing),
    };
    let aim = Target::new(result, ty, target.span, target.site.under());
    right_side(b, on, skip, right, aim)?;
    Ok(())
}

/// A side of a choice, moved to the slot.
#[cycle(expr)]
fn side(b: &mut Body, on: &Scope, ty: Ty, x: &TypedExpr, site: Site) -> Result<(), AllocError>
    requires to { Present on.now (spare_ask ty.rate ty.elem site.slot.number) }
    requires value { Present on.now (operand_asks ty.rate (expr_of x.now) site.slot.number) }
    ensures { OnOk result (Writes b.old b.new (side_at on.now ty (expr_of x.now) site)) }
{
    let from = operand(b, on, ty.rate, x, site)?;
    moved(b, on, Held { from, ty }, site)?;
    Ok(())
}

/// Both sides, of which a jump by the test takes one.
#[cycle(expr)]
fn choose_by_jump(
    b: &mut Body,
    on: &Scope,
    tested: RegisterNumber,
    then: &TypedExpr,
    otherwise: &TypedExpr,
    target: Target,
) -> Result<(), AllocError>
    requires to { Present on.now (spare_ask target.ty.rate target.ty.elem target.site.slot.number) }
    requires then { Present on.now (operand_asks target.ty.rate (expr_of then.now) target.site.slot.number) }
    requires otherwise { Present on.now (operand_asks target.ty.rate (expr_of otherwise.now) target.site.slot.number) }
    ensures { OnOk result (Writes b.old b.new (by_jump_at on.now tested (expr_of then.now) (expr_of otherwise.now) target)) }
{
    let at = b.code.len();
    b.push(Instr::JumpIf {
        test: JumpTest::False,
        register: scalar(tested),
        target: 0,
    })?;
    side(b, on, target.ty, then, target.site)?;
    let over = b.code.len();
    b.push(Instr::Jump { target: 0 })?;
    b.land(at, JumpTest::False, scalar(tested));
    side(b, on, target.ty, otherwise, target.site)?;
    b.land_always(over);
    Ok(())
}

/// A uniform test, and both sides, of which it takes one.
#[cycle(expr)]
fn choose_one(
    b: &mut Body,
    on: &Scope,
    test: &TypedExpr,
    then: &TypedExpr,
    otherwise: &TypedExpr,
    target: Target,
) -> Result<(), AllocError>
    requires test { Present on.now (expr_asks (expr_of test.now) target.site.slot.number) }
    requires to { Present on.now (spare_ask target.ty.rate target.ty.elem target.site.slot.number) }
    requires then { Present on.now (operand_asks target.ty.rate (expr_of then.now) target.site.slot.number) }
    requires otherwise { Present on.now (operand_asks target.ty.rate (expr_of otherwise.now) target.site.slot.number) }
    ensures { OnOk result (Writes b.old b.new (chosen_at on.now Uniform (expr_of test.now) (expr_of then.now) (expr_of otherwise.now) target)) }
{
    let tested = expr(b, on, test, target.site)?;
    choose_by_jump(b, on, tested, then, otherwise, target)?;
    Ok(())
}

/// A side of a choice for the lanes of a mask, jumped over where it has none.
#[cycle(expr)]
fn masked_side(
    b: &mut Body,
    on: &Scope,
    rate: Rate,
    x: &TypedExpr,
    site: Site,
) -> Result<RegisterNumber, AllocError>
    requires { Present on.now (operand_asks rate (expr_of x.now) site.slot.number) }
    ensures register { IfOk result (λ d. d.number ≡ operand (layout on.now) rate (expr_of x.now) site.slot.number) }
    ensures code { OnOk result (Writes b.old b.new (guarded_at on.now rate (expr_of x.now) site)) }
{
    let at = b.code.len();
    b.push(Instr::JumpIf {
        test: JumpTest::Off,
        register: mask(site.mask),
        target: 0,
    })?;
    let from = operand(b, on, rate, x, site)?;
    b.land(at, JumpTest::Off, mask(site.mask));
    Ok(from)
}

/// Both sides under two masks, which come from one test, and the choice in each lane.
#[cycle(expr)]
fn choose_by_masks(
    b: &mut Body,
    on: &Scope,
    tested: RegisterNumber,
    then: &TypedExpr,
    otherwise: &TypedExpr,
    target: Target,
) -> Result<(), AllocError>
    requires to { Present on.now (spare_ask target.ty.rate target.ty.elem target.site.slot.number) }
    requires slots { target.site.slot.number + 2 < 4294967296 }
    requires then { Present on.now (operand_asks target.ty.rate (expr_of then.now) (target.site.slot.number + 1)) }
    requires otherwise { Present on.now (operand_asks target.ty.rate (expr_of otherwise.now) (target.site.slot.number + 2)) }
    ensures { OnOk result (Writes b.old b.new (by_masks_at on.now tested (expr_of then.now) (expr_of otherwise.now) target)) }
{
    let Site { mask: k, slot } = target.site;
    let ty = target.ty;
    let first_side = target.site.under();
    let second_side = Site {
        mask: slot.next().mask(),
        slot: slot.plus(2),
    };
    b.push(where_so(first_side.mask, tested, k))?;
    let first = masked_side(b, on, ty.rate, then, first_side)?;
    b.push(the_others(second_side.mask, k, first_side.mask))?;
    let second = masked_side(b, on, ty.rate, otherwise, second_side)?;
    let to = on.spare(ty.rate, ty.elem, slot);
    b.push(select(Rate::Varying, to, tested, first, second, k))?;
    Ok(())
}

/// A varying test, and both sides under masks.
#[cycle(expr)]
fn choose_each(
    b: &mut Body,
    on: &Scope,
    test: &TypedExpr,
    then: &TypedExpr,
    otherwise: &TypedExpr,
    target: Target,
) -> Result<(), AllocError>
    requires test { Present on.now (expr_asks (expr_of test.now) target.site.slot.number) }
    requires to { Present on.now (spare_ask target.ty.rate target.ty.elem target.site.slot.number) }
    requires slots { target.site.slot.number + 2 < 4294967296 }
    requires then { Present on.now (operand_asks target.ty.rate (expr_of then.now) (target.site.slot.number + 1)) }
    requires otherwise { Present on.now (operand_asks target.ty.rate (expr_of otherwise.now) (target.site.slot.number + 2)) }
    ensures { OnOk result (Writes b.old b.new (chosen_at on.now Varying (expr_of test.now) (expr_of then.now) (expr_of otherwise.now) target)) }
{
    let tested = expr(b, on, test, target.site)?;
    choose_by_masks(b, on, tested, then, otherwise, target)?;
    Ok(())
}

/// A choice between two variables.
#[cycle(expr)]
fn choose_short(
    b: &mut Body,
    on: &Scope,
    test: &TypedExpr,
    then: &TypedExpr,
    otherwise: &TypedExpr,
    target: Target,
) -> Result<(), AllocError>
    requires asked { Present on.now (expr_asks (t_choose (expr_of test.now) (expr_of then.now) (expr_of otherwise.now) target.ty target.span) target.site.slot.number) }
    requires short { is_short (layout on.now) target.ty.rate (expr_of test.now) (expr_of then.now) (expr_of otherwise.now) ≡ true }
    ensures { OnOk result (Writes b.old b.new (short_at on.now (expr_of test.now) (expr_of then.now) (expr_of otherwise.now) target)) }
{
    let Site { mask: k, slot } = target.site;
    let tested = expr(b, on, test, target.site)?;
    let (first, second) = match test.ty().rate {
        Rate::Uniform => (stayed(on, then, slot), stayed(on, otherwise, slot)),
        Rate::Varying => (
            stayed(on, then, slot.next()),
            stayed(on, otherwise, slot.plus(2)),
        ),
    };
    b.push(select(target.ty.rate, target.to, tested, first, second, k))?;
    Ok(())
}

/// A choice: one instruction between variables, a jump by a uniform test, two masks by a varying one. But for the
/// first, the value is left in the slot.
#[cycle(expr)]
fn choose_to(
    b: &mut Body,
    on: &Scope,
    test: &TypedExpr,
    then: &TypedExpr,
    otherwise: &TypedExpr,
    target: Target,
) -> Result<(), AllocError>
    requires { Present on.now (expr_asks (t_choose (expr_of test.now) (expr_of then.now) (expr_of otherwise.now) target.ty target.span) target.site.slot.number) }
    ensures { OnOk result (Writes b.old b.new (node_at on.now (t_choose (expr_of test.now) (expr_of then.now) (expr_of otherwise.now) target.ty target.span) target)) }
{
    if is_short(on, target.ty.rate, test, then, otherwise) {
        choose_short(b, on, test, then, otherwise, target)?;
        return Ok(());
    }
    match test.ty().rate {
        Rate::Uniform => {
            choose_one(b, on, test, then, otherwise, target)?;
            Ok(())
        }
        Rate::Varying => {
            choose_each(b, on, test, then, otherwise, target)?;
            Ok(())
        }
    }
}

/// The values of a call of the library from left to right, each in a slot of its own, at the rate at which the function takes
/// it; and their registers.
#[cycle(expr)]
fn values(
    b: &mut Body,
    on: &Scope,
    function: Library,
    rate: Rate,
    all: &[TypedExpr],
    site: Site,
) -> Result<SmallVec<RegisterNumber, 3>, AllocError>
    requires { Present on.now (values_asks (library_rates function rate) (t_exprs (exprs_of all.now)) site.slot.number) }
    ensures registers { IfOk result (λ r. numbers r.items ≡ value_registers (layout on.now) (library_rates function rate) (t_exprs (exprs_of all.now)) site.slot.number) }
    ensures code { OnOk result (Writes b.old b.new (values_at on.now (library_rates function rate) (t_exprs (exprs_of all.now)) site)) }
{
    let mut slot = site.slot;
    let mut registers = SmallVec::new(*b.code.allocator());
    for (place, value) in all.iter().enumerate() {
        let taken = value_rate(function, rate, place);
        let at = Site {
            mask: site.mask,
            slot,
        };
        let register = operand(b, on, taken, value, at)?;
        registers.push(register)?;
        slot = at.slot.next();
    }
    Ok(registers)
}

/// A register gets what a function of the library gives.
#[cycle(expr)]
fn library_to(
    b: &mut Body,
    on: &Scope,
    function: Library,
    all: &[TypedExpr],
    target: Target,
) -> Result<(), AllocError>
    requires spare { Present on.now (spare_ask target.ty.rate target.ty.elem target.site.slot.number) }
    requires values { Present on.now (values_asks (library_rates function target.ty.rate) (t_exprs (exprs_of all.now)) target.site.slot.number) }
    ensures { OnOk result (Writes b.old b.new (library_at on.now function (t_exprs (exprs_of all.now)) target)) }
{
    let registers = values(b, on, function, target.ty.rate, all, target.site)?;
    let given = Operands::new(registers.as_slice());
    let spare = on.spare(target.ty.rate, target.ty.elem, target.site.slot);
    put_library(b, function, given, spare, target)?;
    Ok(())
}

/// A value that is handed over at a rate, in a register of that rate.
#[cycle(expr)]
fn passed(
    b: &mut Body,
    on: &Scope,
    rate: Rate,
    x: &TypedExpr,
    site: Site,
) -> Result<Register, AllocError>
    requires { Present on.now (operand_asks Varying (expr_of x.now) site.slot.number) }
    ensures register { IfOk result (λ d. d ≡ register rate (operand (layout on.now) rate (expr_of x.now) site.slot.number)) }
    ensures code { OnOk result (Writes b.old b.new (operand_at on.now rate (expr_of x.now) site)) }
{
    let from = operand(b, on, rate, x, site)?;
    Ok(of_rate(rate, from))
}

/// An argument at the rate of its parameter; an array is handed over as it is.
#[cycle(expr)]
fn argument(
    b: &mut Body,
    on: &Scope,
    rate: Rate,
    x: &TypedArgument,
    site: Site,
) -> Result<Register, AllocError>
    requires { Present on.now (argument_asks (argument_of x.now) site.slot.number) }
    ensures register { IfOk result (λ d. d ≡ argument_register (layout on.now) rate (argument_of x.now) site.slot.number) }
    ensures code { OnOk result (Writes b.old b.new (argument_at on.now rate (argument_of x.now) site)) }
{
    match x {
        TypedArgument::Value(value) => passed(b, on, rate, value, site),
        TypedArgument::Array { array: given, .. } => {
            let from = on.array(*given);
            Ok(array(from))
        }
    }
}

/// The arguments of a function from left to right, each in a slot of its own.
#[cycle(expr)]
fn arguments(
    b: &mut Body,
    on: &Scope,
    function: usize,
    all: &[TypedArgument],
    site: Site,
) -> Result<Arguments, AllocError>
    requires { Present on.now (arguments_asks (t_arguments (arguments_of all.now)) site.slot.number) }
    ensures registers { IfOk result (λ r. r ≡ argument_registers (layout on.now) ((layout on.now).rates function) (t_arguments (arguments_of all.now)) site.slot.number) }
    ensures code { OnOk result (Writes b.old b.new (arguments_at on.now function (t_arguments (arguments_of all.now)) site)) }
{
    let mut slot = site.slot;
    let mut registers = SmallVec::new(*b.code.allocator());
    for (place, x) in all.iter().enumerate() {
        let rate = on.parameter_rate(function, place);
        let at = Site {
            mask: site.mask,
            slot,
        };
        let register = argument(b, on, rate, x, at)?;
        registers.push(register)?;
        slot = slot.next();
    }
    Ok(Arguments::new(registers))
}

/// A call: its arguments, then the instruction, which leaves what the function gives back in a register, if there is one.
#[cycle(expr)]
#[tactic(auto, using(crate::proofs::Arguments::number_fits))]
pub(crate) fn call_to(
    b: &mut Body,
    on: &Scope,
    to: Option<Register>,
    x: &TypedCall,
    site: Site,
) -> Result<(), AllocError>
    requires { Present on.now (call_asks (call_of x.now) site.slot.number) }
    ensures { OnOk result (Writes b.old b.new (call_at on.now to (call_of x.now) site)) }
{
    let given = arguments(b, on, x.function, &x.arguments, site)?;
    let place = b.place(x.span)?;
    let call = Call {
        function: x.function as u32,
        result: to,
        mask: mask(site.mask),
        place: 0,
        arguments: given,
    };
    let boxed = CallBox::new(*b.code.allocator(), call)?;
    b.add(Line::naming(Instr::Call(boxed), place.number))?;
    Ok(())
}
