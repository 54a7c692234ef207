//! One instruction that names a place in the source, or two on masks.
ghost use Rattle.std.specs.Prelude.{◌≡◌, [], length, true, IfOk, OnOk};
ghost use Rattle.isp_base.specs.Values.{divides};
ghost use Rattle.isp_lower_code.specs.Asks.{ArrayOf};
ghost use Rattle.isp_lower_code.specs.Instructions.{operate_places};
ghost use Rattle.isp_lower_code.specs.Pieces.{needing};
ghost use Rattle.isp_lower.specs.Emitted.{Appends, Present};
ghost use Rattle.isp_lower.specs.Written.{Writes, operate_at, packed_load_at, packed_store_at, read_at, write_at};

use crate::leaves::{operate, packed_load, packed_store, read_by, the_others, where_so, write_by};
use crate::sites::{Element, Target};
use crate::types::{Body, Scope};
use isp_base::{BinOp, Span};
use isp_registers::{MaskNumber, PlaceNumber, RegisterNumber};
use isp_typed::{ArrayVariable, Logic};
use std::alloc::AllocError;

/// The lanes of a mask that need the right side, into another mask.
pub fn put_needing(
    b: &mut Body,
    logic: Logic,
    to: MaskNumber,
    from: RegisterNumber,
    k: MaskNumber,
) -> Result<(), AllocError>
    ensures { OnOk result (Appends b.old b.new (λ pc p. needing logic to.number from.number k.number) []) }
{
    b.push(where_so(to, from, k))?;
    match logic {
        Logic::And => Ok(()),
        Logic::Or => {
            b.push(the_others(to, k, to))?;
            Ok(())
        }
    }
}

/// The number of the place of a division's trap, 0 for another operator.
fn place_of(b: &mut Body, operator: BinOp, span: Span) -> Result<PlaceNumber, AllocError>
    ensures place { IfOk result (λ n. divides operator ≡ true → n.number ≡ length b.old.places.items) }
    ensures added { OnOk result (Appends b.old b.new (λ pc p. []) (operate_places operator span)) }
{
    if operator.divides() {
        let number = b.place(span)?;
        Ok(number)
    } else {
        Ok(PlaceNumber { number: 0 })
    }
}

/// A register gets the result of an operator on two values.
pub(crate) fn operate_to(
    b: &mut Body,
    operator: BinOp,
    left: RegisterNumber,
    right: RegisterNumber,
    target: Target,
) -> Result<(), AllocError>
    ensures { OnOk result (Writes b.old b.new (operate_at operator left right target)) }
{
    let place = place_of(b, operator, target.span)?;
    b.add(operate(operator, left, right, target, place))?;
    Ok(())
}

/// A register gets what an element has.
pub(crate) fn read_to(
    b: &mut Body,
    on: &Scope,
    element: Element,
    to: RegisterNumber,
    k: MaskNumber,
) -> Result<(), AllocError>
    requires { Present on.now (ArrayOf element.array) }
    ensures { OnOk result (Writes b.old b.new (read_at on.now element to k)) }
{
    let from = on.array(element.array);
    let place = b.place(element.span)?;
    b.add(read_by(element, to, from, k, place))?;
    Ok(())
}

/// Members store consecutive elements of an array from one on; a register gets their count.
pub(crate) fn put_packed_store(
    b: &mut Body,
    on: &Scope,
    into: ArrayVariable,
    first: RegisterNumber,
    from: RegisterNumber,
    target: Target,
) -> Result<(), AllocError>
    requires { Present on.now (ArrayOf into) }
    ensures { OnOk result (Writes b.old b.new (packed_store_at on.now into first from target)) }
{
    let to = on.array(into);
    let place = b.place(target.span)?;
    b.add(packed_store(target.to, to, first, from, target.site.mask, place))?;
    Ok(())
}

/// Members load consecutive elements of an array from one on into a register; another one gets their count.
pub(crate) fn put_packed_load(
    b: &mut Body,
    on: &Scope,
    from: ArrayVariable,
    first: RegisterNumber,
    into: RegisterNumber,
    target: Target,
) -> Result<(), AllocError>
    requires { Present on.now (ArrayOf from) }
    ensures { OnOk result (Writes b.old b.new (packed_load_at on.now from first into target)) }
{
    let array = on.array(from);
    let place = b.place(target.span)?;
    b.add(packed_load(target.to, array, first, into, target.site.mask, place))?;
    Ok(())
}

/// An element gets what a register has.
pub(crate) fn write_from(
    b: &mut Body,
    on: &Scope,
    element: Element,
    from: RegisterNumber,
    k: MaskNumber,
) -> Result<(), AllocError>
    requires { Present on.now (ArrayOf element.array) }
    ensures { OnOk result (Writes b.old b.new (write_at on.now element from k)) }
{
    let to = on.array(element.array);
    let place = b.place(element.span)?;
    b.add(write_by(element, to, from, k, place))?;
    Ok(())
}
