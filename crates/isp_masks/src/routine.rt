//! The code of functions.
ghost use Rattle.std.specs.Prelude.{◌≡◌, ◌≤◌, true, OnOk};
ghost use Rattle.isp_lower_code.specs.Asks.{Both};
ghost use Rattle.isp_lower.specs.Drafts.{draft_of};
ghost use Rattle.isp_lower_code.specs.FirstRows.{first_rows};
ghost use Rattle.isp_registers.specs.Growth.{Grows, rows_of};
ghost use Rattle.isp_lower.specs.Emitted.{Present, layout};
ghost use Rattle.isp_lower_code.specs.Room.{GrowsBy, HasNumbers, masks_with, registers_asked};
ghost use Rattle.isp_registers.specs.Reserved.{Has};
ghost use Rattle.isp_typed.specs.Views.{block_of, function_of};
ghost use Rattle.isp_masks_code.specs.Asks.{block_asks, result_asks};
ghost use Rattle.isp_masks_code.specs.Keeping.{Each, constants_asks};
ghost use Rattle.isp_masks.specs.Added.{AddsLowered};
ghost use Rattle.isp_masks_code.specs.Lowered.{BodyIsOwn, IsFineFunction, IsSmall};
ghost use Rattle.isp_masks_code.specs.Statements.{returned};
ghost use Rattle.isp_masks.specs.Written.{Writes, function_at};

use crate::keeping::{self, keep};
use crate::masks::{Masks, Spot};
use crate::seen::block_seen;
use crate::statement::block;
use crate::wanted::constants;
use isp_base::Rate;
use isp_code::{Instr, Register};
use isp_lower::{Body, Emitter, Scope, scalar, vector};
use isp_lower_code::Constant;
use isp_registers::{MaskNumber, Reserve, Slot};
use isp_typed::{TypedBlock, TypedFunction};
use std::alloc::AllocError;

/// What the last instruction gives back.
fn returned(on: &Scope) -> Option<Register>
    requires { Present on.now (result_asks on.now.answer) }
    ensures { result ≡ returned (layout on.now) on.now.answer }
{
    match on.answer {
        None => None,
        Some(ty) => {
            let number = on.result(ty);
            match ty.rate {
                Rate::Uniform => Some(scalar(number)),
                Rate::Varying => Some(vector(number)),
            }
        }
    }
}

/// The code of a body, after that of the constants that it keeps. Mask 0 has those that called, masks 1 and 2 get those that continued and
/// that returned.
fn body(b: &mut Body, on: &Scope, kept: &[Constant], x: &TypedBlock) -> Result<(), AllocError>
    requires kept { Each (λ k. (layout on.now).kept k.rate k.elem k.bits ≡ true) kept.now }
    requires constants { Present on.now (constants_asks 3 kept.now) }
    requires body { Present on.now (block_asks on.now.answer (block_of x.now) 3) }
    requires result { Present on.now (result_asks on.now.answer) }
    ensures { OnOk result (Writes b.old b.new (function_at on.now kept.now (block_of x.now))) }
{
    let masks = Masks {
        on: MaskNumber { number: 0 },
        continued: MaskNumber { number: 1 },
        returned: MaskNumber { number: 2 },
    };
    let slot = Slot { number: 3 };
    let seen = block_seen(*b.code.allocator(), x)?;
    keeping::begin(b, on, kept, slot)?;
    block(b, on, x, seen.as_slice(), Spot { masks, slot })?;
    b.push(Instr::Return(returned(on)))?;
    Ok(())
}

/// Reserves the registers and masks that a function's body asks for, and that the code asks for that keeps constants, besides those with
/// which it begins.
fn reserve(asked: &mut Reserve, kept: &[Constant], f: &TypedFunction) -> Result<(), AllocError>
    requires first { rows_of asked.old.registers ≡ first_rows (function_of f.now).variables (function_of f.now).answer }
    requires own { BodyIsOwn (function_of f.now) }
    requires numbers { HasNumbers (block_asks (function_of f.now).answer (function_of f.now).body 3) }
    ensures rows { OnOk result (Grows asked.old.registers asked.new.registers) }
    ensures masks { OnOk result (asked.old.masks ≤ asked.new.masks) }
    ensures body { OnOk result (Has asked.new (Both (constants_asks 3 kept.now) (block_asks (function_of f.now).answer (function_of f.now).body 3))) }
    ensures result { OnOk result (Has asked.new (result_asks (function_of f.now).answer)) }
    ensures few { OnOk result (GrowsBy (registers_asked (Both (constants_asks 3 kept.now) (block_asks (function_of f.now).answer (function_of f.now).body 3))) (rows_of asked.old.registers) (rows_of asked.new.registers)) }
    ensures masks_are { OnOk result (asked.new.masks ≡ masks_with asked.old.masks (Both (constants_asks 3 kept.now) (block_asks (function_of f.now).answer (function_of f.now).body 3))) }
{
    let slot = Slot { number: 3 };
    keeping::reserved(asked, kept, slot)?;
    isp_masks_reserve::block(asked, &f.body, f.result, slot)
}

/// Adds the routine of a function, which is at work afterwards, and the places in the source and the texts that its code
/// names.
pub(crate) fn function(e: &mut Emitter, f: &TypedFunction) -> Result<(), AllocError>
    requires fine { IsFineFunction (function_of f.now) }
    requires small { IsSmall (function_of f.now) }
    ensures { OnOk result (AddsLowered (function_of f.now) (draft_of e.old) (draft_of e.new)) }
{
    let found = constants(*e.body.code.allocator(), &f.body)?;
    let kept = found.as_slice();
    e.begin(f)?;
    reserve(&mut e.reserved, kept, f)?;
    keep(&mut e.reserved.registers, kept)?;
    let on = Scope {
        callees: e.callees,
        registers: &e.reserved.registers,
        masks: e.reserved.masks,
        answer: f.result,
        run: None,
        in_run: false,
    };
    body(&mut e.body, &on, kept, &f.body)?;
    Ok(())
}
