//! Instructions that write arrays.
ghost use Rattle.std.specs.Prelude.{◌≡◌, ◌+◌, ◌<◌, length, IfOk, IfErr, IsTrue};
ghost use Rattle.isp_code.specs.Fine.{AllFine, GoesOn};
ghost use Rattle.isp_code.specs.Operands.{operands};
ghost use Rattle.isp_frames.specs.Moves.{Goes, Fails};
ghost use Rattle.isp_frames.specs.Shapes.{Shaped, Opened};
ghost use Rattle.isp_machine.specs.Steps.{Comes, Works};
ghost use Rattle.isp_machine.specs.reader.Instructions.{store_of, store_run_of};
ghost use Rattle.isp_machine.specs.reader.Kinds.{is_scatter, is_store};
ghost use Rattle.isp_machine.specs.declared.stop.Step.TheVariants.{Went};
ghost use Rattle.isp_store.specs.Held.{shapes};

use crate::operands::Access;
use crate::stop::Step;
use isp_base::{Trap, TrapKind};
use isp_code::{Instr, Register};
use isp_frames::frame::Frame;
use isp_frames::here::Here;
use isp_store::Arrays;

// Stores a scalar, and goes on to the next instruction.
fn store<const N: usize>(
    here: &Here,
    frame: &mut Frame<N>,
    stores: &mut Arrays,
    access: Access,
    y: Register,
) -> Result<(), Trap>
    requires works { Works N here.now (shapes stores.old) frame.old }
    requires operands { AllFine here.now.code here.now.routine (operands (store_of access y)) }
    requires next { frame.old.pc + 1 < length here.now.routine.code }
    ensures ok { IfOk result (λ _. Goes here.now (store_of access y) stores.old frame.old stores.new frame.new) }
    ensures err { IfErr result (λ t. Fails here.now (store_of access y) stores.old frame.old t) }
    ensures same { IfErr result (λ t. frame.new ≡ frame.old) }
    ensures same_stores { IfErr result (λ t. stores.new ≡ stores.old) }
{
    let store = here.store(frame, stores, access.array);
    let index = here.scalar(frame, access.index);
    let bits = here.scalar(frame, y);
    match stores.store(store, index, bits, here.mask(frame, access.mask)) {
        Ok(()) => {
            let _count = here.count();
            frame.next();
            Ok(())
        }
        Err(trap) => Err(here.trap(TrapKind::Index, access.place, trap.instance)),
    }
}

/// Stores lanes, and goes on to the next instruction. A trap is not handed back but written where the run's end stands.
#[inline(never)]
pub(crate) fn scatter<const N: usize>(
    here: &Here,
    frame: &mut Frame<N>,
    stores: &mut Arrays,
    ending: &mut Step,
    instr: &Instr,
)
    requires works { Works N here.now (shapes stores.old) frame.old }
    requires operands { AllFine here.now.code here.now.routine (operands instr.now) }
    requires next { GoesOn here.now.routine frame.old.pc instr.now }
    requires went { ending.old ≡ Went }
    requires scatters { IsTrue (is_scatter instr.now) }
    ensures { Comes here.now instr.now stores.old frame.old stores.new frame.new ending.new }
{
    match instr {
        Instr::Scatter {
            array,
            indices,
            value,
            mask,
            place,
        } => match frame.scatter(
            stores,
            array.number,
            indices.number,
            value.number,
            mask.number,
        ) {
            Ok(()) => {
                let _count = here.count();
                frame.next();
            }
            Err(trap) => {
                *ending = Step::Trapped(here.trap(TrapKind::Index, *place, trap.instance));
            }
        },
        _ => unreachable!(),
    }
}

// Stores lanes at consecutive elements, and goes on to the next instruction.
#[inline(never)]
fn store_run<const N: usize>(
    here: &Here,
    frame: &mut Frame<N>,
    stores: &mut Arrays,
    access: Access,
    y: Register,
) -> Result<(), Trap>
    requires works { Works N here.now (shapes stores.old) frame.old }
    requires operands { AllFine here.now.code here.now.routine (operands (store_run_of access y)) }
    requires next { frame.old.pc + 1 < length here.now.routine.code }
    ensures ok { IfOk result (λ _. Goes here.now (store_run_of access y) stores.old frame.old stores.new frame.new) }
    ensures err { IfErr result (λ t. Fails here.now (store_run_of access y) stores.old frame.old t) }
    ensures same { IfErr result (λ t. frame.new ≡ frame.old) }
    ensures same_stores { IfErr result (λ t. stores.new ≡ stores.old) }
{
    let store = here.store(frame, stores, access.array);
    let index = here.scalar(frame, access.index);
    let value = here.vector(frame, y);
    match stores.store_run(store, index, value, here.mask(frame, access.mask)) {
        Ok(()) => {
            let _count = here.count();
            frame.next();
            Ok(())
        }
        Err(trap) => Err(here.trap(TrapKind::Index, access.place, trap.instance)),
    }
}

/// Stores at one index of an array that all lanes share, and goes on to the next instruction.
#[inline(always)]
pub(crate) fn store_shared<const N: usize>(
    here: &Here,
    frame: &mut Frame<N>,
    stores: &mut Arrays,
    instr: &Instr,
) -> Result<(), Trap>
    requires works { Works N here.now (shapes stores.old) frame.old }
    requires operands { AllFine here.now.code here.now.routine (operands instr.now) }
    requires next { GoesOn here.now.routine frame.old.pc instr.now }
    requires stores { IsTrue (is_store instr.now) }
    ensures ok { IfOk result (λ _. Goes here.now instr.now stores.old frame.old stores.new frame.new) }
    ensures err { IfErr result (λ t. Fails here.now instr.now stores.old frame.old t) }
    ensures same { IfErr result (λ t. frame.new ≡ frame.old) }
    ensures same_stores { IfErr result (λ t. stores.new ≡ stores.old) }
{
    match instr {
        Instr::Store {
            array,
            index,
            value,
            mask,
            place,
        } => {
            let access = Access {
                array: *array,
                index: *index,
                mask: *mask,
                place: *place,
            };
            store(here, frame, stores, access, *value)
        }
        Instr::StoreRun {
            array,
            index,
            value,
            mask,
            place,
        } => {
            let access = Access {
                array: *array,
                index: *index,
                mask: *mask,
                place: *place,
            };
            store_run(here, frame, stores, access, *value)
        }
        _ => unreachable!(),
    }
}

/// Zeroes a local array, and goes on to the next instruction.
#[inline(never)]
pub(crate) fn clear<const N: usize>(
    here: &Here,
    frame: &mut Frame<N>,
    stores: &mut Arrays,
    a: Register,
    k: Register,
)
    requires shaped { Shaped here.now.routine frame.old }
    requires arrays { Opened here.now.routine (shapes stores.old) frame.old }
    requires operands { AllFine here.now.code here.now.routine (operands (Instr.Clear a k)) }
    requires next { frame.old.pc + 1 < length here.now.routine.code }
    ensures { Goes here.now (Instr.Clear a k) stores.old frame.old stores.new frame.new }
{
    let _count = here.count();
    frame.clear(stores, a.number, k.number);
    frame.next();
}
