//! Instructions that write lanes of a vector register.
ghost use Rattle.std.specs.Prelude.{◌≡◌, ◌+◌, ◌<◌, length, Err, IfOk, IfErr};
ghost use Rattle.isp_base.specs.Types.{gang_width};
ghost use Rattle.isp_code.specs.Fine.{AllFine};
ghost use Rattle.isp_code.specs.Operands.{vector_operands};
ghost use Rattle.isp_frames.specs.Moves.{Sure, VectorIs, InPlace, Goes, Fails};
ghost use Rattle.isp_frames.specs.Shapes.{Shaped};
ghost use Rattle.isp_machine.specs.reader.Instructions.{gather_of, load_run_of};
ghost use Rattle.isp_machine.specs.Steps.{Works};
ghost use Rattle.isp_store.specs.Held.{Held, shapes};

use crate::cross::across;
use crate::lanes::{apply, combine, compare, convert, copy, number, select, splat};
use crate::operands::{Access, Target};
use isp_base::{Trap, TrapKind};
use isp_code::{Instr, Register, VectorInstr};
use isp_frames::frame::Frame;
use isp_frames::here::Here;
use isp_store::Arrays;

/// What an instruction that cannot fail leaves in the lanes of the register, which is written where it stands.
#[inline(always)]
pub(crate) fn change<const N: usize>(
    here: &Here,
    frame: &mut Frame<N>,
    register: Register,
    instr: &VectorInstr,
)
    requires gang { N ≡ gang_width here.now.code.gang }
    requires shaped { Shaped here.now.routine frame.old }
    requires operands { AllFine here.now.code here.now.routine (vector_operands register instr.now) }
    requires sure { Sure instr.now }
    ensures pc { frame.new.pc ≡ frame.old.pc }
    ensures written { (s : Held) → InPlace here.now s frame.old register instr.now frame.new }
{
    match *instr {
        VectorInstr::Copy { value, mask } => copy(here, frame, Target { register, mask }, value),
        VectorInstr::Convert { value, mask } => {
            convert(here, frame, Target { register, mask }, value)
        }
        VectorInstr::Unary { op, value, mask } => {
            apply(here, frame, Target { register, mask }, op, value)
        }
        VectorInstr::Binary {
            op,
            left,
            right,
            mask,
        } => combine(here, frame, Target { register, mask }, op, left, right),
        VectorInstr::Compare {
            op,
            left,
            right,
            mask,
        } => compare(here, frame, Target { register, mask }, op, left, right),
        VectorInstr::Select {
            test,
            if_true,
            if_false,
            mask,
        } => {
            let target = Target { register, mask };
            select(here, frame, target, test, if_true, if_false)
        }
        VectorInstr::Splat { value, mask } => splat(here, frame, Target { register, mask }, value),
        VectorInstr::Index(mask) => number(here, frame, Target { register, mask }),
        VectorInstr::Gather { .. } | VectorInstr::LoadRun { .. } => unreachable!(),
        _ => across(here, frame, register, instr),
    }
}

// What the instruction leaves in the lanes of the register. A gather stands apart from the others, which then have no trap to hand on: joined
// with theirs it would be stored in pieces, and the processor would wait for them.
#[inline(always)]
fn vector_value<const N: usize>(
    here: &Here,
    frame: &mut Frame<N>,
    stores: &Arrays,
    d: Register,
    instr: VectorInstr,
) -> Result<(), Trap>
    requires works { Works N here.now (shapes stores.now) frame.old }
    requires operands { AllFine here.now.code here.now.routine (vector_operands d instr) }
    ensures pc { IfOk result (λ _. frame.new.pc ≡ frame.old.pc) }
    ensures ok { IfOk result (λ _. InPlace here.now stores.now frame.old d instr frame.new) }
    ensures err { IfErr result (λ t. VectorIs here.now stores.now frame.old d instr (Err t)) }
    ensures same { IfErr result (λ t. frame.new ≡ frame.old) }
{
    match instr {
        VectorInstr::Gather {
            array,
            indices,
            mask,
            place,
        } => {
            let access = Access {
                array,
                index: indices,
                mask,
                place,
            };
            gather(here, frame, stores, d, access)
        }
        VectorInstr::LoadRun {
            array,
            index,
            mask,
            place,
        } => {
            let access = Access {
                array,
                index,
                mask,
                place,
            };
            load_run(here, frame, stores, d, access)
        }
        _ => {
            change(here, frame, d, &instr);
            Ok(())
        }
    }
}

/// The elements at the lanes' indices.
#[inline(always)]
pub(crate) fn gather<const N: usize>(
    here: &Here,
    frame: &mut Frame<N>,
    stores: &Arrays,
    d: Register,
    access: Access,
) -> Result<(), Trap>
    requires works { Works N here.now (shapes stores.now) frame.old }
    requires operands { AllFine here.now.code here.now.routine (vector_operands d (gather_of access)) }
    ensures pc { IfOk result (λ _. frame.new.pc ≡ frame.old.pc) }
    ensures ok { IfOk result (λ _. InPlace here.now stores.now frame.old d (gather_of access) frame.new) }
    ensures err { IfErr result (λ t. VectorIs here.now stores.now frame.old d (gather_of access) (Err t)) }
    ensures same { IfErr result (λ t. frame.new ≡ frame.old) }
{
    match frame.gather(
        stores,
        d.number,
        access.array.number,
        access.index.number,
        access.mask.number,
    ) {
        Ok(()) => Ok(()),
        Err(trap) => Err(here.trap(TrapKind::Index, access.place, trap.instance)),
    }
}

/// The elements from an index on.
#[inline(always)]
pub(crate) fn load_run<const N: usize>(
    here: &Here,
    frame: &mut Frame<N>,
    stores: &Arrays,
    d: Register,
    access: Access,
) -> Result<(), Trap>
    requires works { Works N here.now (shapes stores.now) frame.old }
    requires operands { AllFine here.now.code here.now.routine (vector_operands d (load_run_of access)) }
    ensures pc { IfOk result (λ _. frame.new.pc ≡ frame.old.pc) }
    ensures ok { IfOk result (λ _. InPlace here.now stores.now frame.old d (load_run_of access) frame.new) }
    ensures err { IfErr result (λ t. VectorIs here.now stores.now frame.old d (load_run_of access) (Err t)) }
    ensures same { IfErr result (λ t. frame.new ≡ frame.old) }
{
    let store = here.store(frame, stores, access.array);
    let index = here.scalar(frame, access.index);
    here.mask_told(frame, access.mask);
    here.vector_told(frame, d);
    match frame.load_run(stores, d.number, store, index, access.mask.number) {
        Ok(()) => Ok(()),
        Err(trap) => Err(here.trap(TrapKind::Index, access.place, trap.instance)),
    }
}

/// Writes the lanes of a mask in a vector register, and goes on to the next instruction.
#[inline(always)]
pub(crate) fn vector<const N: usize>(
    here: &Here,
    frame: &mut Frame<N>,
    stores: &Arrays,
    d: Register,
    instr: VectorInstr,
) -> Result<(), Trap>
    requires works { Works N here.now (shapes stores.now) frame.old }
    requires operands { AllFine here.now.code here.now.routine (vector_operands d instr) }
    requires next { frame.old.pc + 1 < length here.now.routine.code }
    ensures ok { IfOk result (λ _. Goes here.now (Instr.Vector d instr) stores.now frame.old stores.now frame.new) }
    ensures err { IfErr result (λ t. Fails here.now (Instr.Vector d instr) stores.now frame.old t) }
    ensures same { IfErr result (λ t. frame.new ≡ frame.old) }
{
    vector_value(here, frame, stores, d, instr)?;
    let _count = here.count();
    frame.next();
    Ok(())
}
