//! The constants that a function keeps: what they ask for, their registers, and the code with which the function begins.
ghost use Rattle.std.specs.Prelude.{◌≡◌, [], true, OnOk};
ghost use Rattle.isp_base.specs.declared.types.Rate.TheVariants.{Uniform};
ghost use Rattle.isp_lower_code.specs.Asks.{spare_ask};
ghost use Rattle.isp_lower.specs.Emitted.{Appends, Present, layout};
ghost use Rattle.isp_lower_code.specs.Room.{HasNumbers};
ghost use Rattle.isp_registers.specs.Reserved.{Gives};
ghost use Rattle.isp_masks_code.specs.Keeping.{Each, constants_asks, constants_code, keep_at, keep_code};
ghost use Rattle.isp_masks.specs.Kept.{KeepsAll};

use crate::rounds::fill_mask;
use isp_base::Rate;
use isp_lower::{Body, Scope, constant, splat};
use isp_lower_code::Constant;
use isp_registers::{MaskNumber, RegisterNumber, Registers, Reserve, Slot};
use std::alloc::AllocError;

/// What the code asks for that keeps some constants: a mask, and for each a spare scalar of its type.
pub(crate) fn reserved(r: &mut Reserve, all: &[Constant], slot: Slot) -> Result<(), AllocError>
    requires { HasNumbers (constants_asks slot.number all.now) }
    ensures { OnOk result (Gives r.old r.new (constants_asks slot.number all.now)) }
{
    for x in all {
        r.mask(slot);
        r.spare(Rate::Uniform, x.elem, slot)?;
    }
    Ok(())
}

/// Constants are kept, in registers of their own.
pub(crate) fn keep(registers: &mut Registers, all: &[Constant]) -> Result<(), AllocError>
    ensures { OnOk result (KeepsAll registers.old registers.new all.now) }
{
    for x in all {
        registers.keep(*x)?;
    }
    Ok(())
}

/// The register that keeps a constant.
fn kept(on: &Scope, x: Constant) -> RegisterNumber
    requires { (layout on.now).kept x.rate x.elem x.bits ≡ true }
    ensures { result.number ≡ (layout on.now).constant x.rate x.elem x.bits }
{
    match on.kept(x.rate, x.elem, x.bits) {
        Some(to) => to,
        None => unreachable!(),
    }
}

/// A constant goes to the register that keeps it.
fn one(b: &mut Body, on: &Scope, x: Constant, slot: Slot) -> Result<(), AllocError>
    requires kept { (layout on.now).kept x.rate x.elem x.bits ≡ true }
    requires spare { Present on.now (spare_ask Uniform x.elem slot.number) }
    ensures { OnOk result (Appends b.old b.new (λ pc p. keep_at (layout on.now) slot.number x.rate x.elem x.bits) []) }
{
    let to = kept(on, x);
    match x.rate {
        Rate::Uniform => b.push(constant(to, x.elem, x.bits)),
        Rate::Varying => {
            let from = on.spare(Rate::Uniform, x.elem, slot);
            let all = MaskNumber {
                number: slot.number,
            };
            b.push(constant(from, x.elem, x.bits))?;
            b.push(splat(to, from, all))?;
            Ok(())
        }
    }
}

/// Each of some constants.
fn each(b: &mut Body, on: &Scope, all: &[Constant], slot: Slot) -> Result<(), AllocError>
    requires kept { Each (λ x. (layout on.now).kept x.rate x.elem x.bits ≡ true) all.now }
    requires asked { Present on.now (constants_asks slot.number all.now) }
    ensures { OnOk result (Appends b.old b.new (λ pc p. keep_code (layout on.now) slot.number all.now) []) }
{
    for x in all {
        one(b, on, *x, slot)?;
    }
    Ok(())
}

/// The code with which a function begins that keeps some constants.
pub(crate) fn begin(
    b: &mut Body,
    on: &Scope,
    all: &[Constant],
    slot: Slot,
) -> Result<(), AllocError>
    requires kept { Each (λ x. (layout on.now).kept x.rate x.elem x.bits ≡ true) all.now }
    requires asked { Present on.now (constants_asks slot.number all.now) }
    ensures { OnOk result (Appends b.old b.new (λ pc p. constants_code (layout on.now) slot.number all.now) []) }
{
    if all.is_empty() {
        return Ok(());
    }
    let lanes = MaskNumber {
        number: slot.number,
    };
    b.push(fill_mask(lanes))?;
    each(b, on, all, slot)?;
    Ok(())
}
