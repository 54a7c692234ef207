//! Packed calls: the lanes of a mask, in order, and consecutive elements.
ghost use Rattle.std.specs.Prelude.{◌≡◌, ◌+◌, ◌<◌, length, IfOk, IfErr, IsTrue};
ghost use Rattle.isp_code.specs.Fine.{AllFine, GoesOn};
ghost use Rattle.isp_code.specs.Operands.{operands};
ghost use Rattle.isp_frames.specs.Moves.{Goes, Fails};
ghost use Rattle.isp_machine.specs.reader.Instructions.{packed_load_of, packed_store_of};
ghost use Rattle.isp_machine.specs.reader.Kinds.{is_packed};
ghost use Rattle.isp_machine.specs.Steps.{Works};
ghost use Rattle.isp_store.specs.Held.{shapes};

use crate::operands::Access;
use isp_base::{Trap, TrapKind};
use isp_code::{Instr, Register};
use isp_frames::frame::Frame;
use isp_frames::here::Here;
use isp_store::Arrays;

// Stores the lanes of a mask at consecutive elements, counts them, and goes on to the next instruction.
#[inline(never)]
fn packed_store<const N: usize>(
    here: &Here,
    frame: &mut Frame<N>,
    stores: &mut Arrays,
    d: Register,
    access: Access,
    y: Register,
) -> Result<(), Trap>
    requires works { Works N here.now (shapes stores.old) frame.old }
    requires operands { AllFine here.now.code here.now.routine (operands (packed_store_of d access y)) }
    requires next { frame.old.pc + 1 < length here.now.routine.code }
    ensures ok { IfOk result (λ _. Goes here.now (packed_store_of d access y) stores.old frame.old stores.new frame.new) }
    ensures err { IfErr result (λ t. Fails here.now (packed_store_of d access y) stores.old frame.old t) }
    ensures same { IfErr result (λ t. frame.new ≡ frame.old) }
    ensures same_stores { IfErr result (λ t. stores.new ≡ stores.old) }
{
    let store = here.store(frame, stores, access.array);
    let index = here.scalar(frame, access.index);
    let value = here.vector(frame, y);
    match stores.pack_store(store, index, value, here.mask(frame, access.mask)) {
        Ok(count) => {
            let _count = here.count();
            frame.set_scalar(d.number, count);
            frame.next();
            Ok(())
        }
        Err(trap) => Err(here.trap(TrapKind::Index, access.place, trap.instance)),
    }
}

// Loads consecutive elements into the lanes of a mask, counts them, and goes on to the next instruction.
#[inline(never)]
fn packed_load<const N: usize>(
    here: &Here,
    frame: &mut Frame<N>,
    stores: &Arrays,
    d: Register,
    access: Access,
    y: Register,
) -> Result<(), Trap>
    requires works { Works N here.now (shapes stores.now) frame.old }
    requires operands { AllFine here.now.code here.now.routine (operands (packed_load_of d access y)) }
    requires next { frame.old.pc + 1 < length here.now.routine.code }
    ensures ok { IfOk result (λ _. Goes here.now (packed_load_of d access y) stores.now frame.old stores.now frame.new) }
    ensures err { IfErr result (λ t. Fails here.now (packed_load_of d access y) stores.now frame.old t) }
    ensures same { IfErr result (λ t. frame.new ≡ frame.old) }
{
    let store = here.store(frame, stores, access.array);
    let index = here.scalar(frame, access.index);
    let mut value = *here.vector(frame, y);
    match stores.pack_load(store, index, here.mask(frame, access.mask), &mut value) {
        Ok(count) => {
            let _count = here.count();
            frame.set_vector(y.number, &value);
            frame.set_scalar(d.number, count);
            frame.next();
            Ok(())
        }
        Err(trap) => Err(here.trap(TrapKind::Index, access.place, trap.instance)),
    }
}

/// Stores or loads the lanes of a mask at consecutive elements, counts them, and goes on to the next instruction.
#[inline(always)]
pub(crate) fn packed<const N: usize>(
    here: &Here,
    frame: &mut Frame<N>,
    stores: &mut Arrays,
    instr: &Instr,
) -> Result<(), Trap>
    requires works { Works N here.now (shapes stores.old) frame.old }
    requires operands { AllFine here.now.code here.now.routine (operands instr.now) }
    requires next { GoesOn here.now.routine frame.old.pc instr.now }
    requires packs { IsTrue (is_packed instr.now) }
    ensures ok { IfOk result (λ _. Goes here.now instr.now stores.old frame.old stores.new frame.new) }
    ensures err { IfErr result (λ t. Fails here.now instr.now stores.old frame.old t) }
    ensures same { IfErr result (λ t. frame.new ≡ frame.old) }
    ensures same_stores { IfErr result (λ t. stores.new ≡ stores.old) }
{
    match instr {
        Instr::PackedStore {
            count,
            array,
            index,
            value,
            mask,
            place,
        } => {
            let access = Access {
                array: *array,
                index: *index,
                mask: *mask,
                place: *place,
            };
            packed_store(here, frame, stores, *count, access, *value)
        }
        Instr::PackedLoad {
            count,
            array,
            index,
            result,
            mask,
            place,
        } => {
            let access = Access {
                array: *array,
                index: *index,
                mask: *mask,
                place: *place,
            };
            packed_load(here, frame, stores, *count, access, *result)
        }
        _ => unreachable!(),
    }
}
