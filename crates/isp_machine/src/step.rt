//! One instruction.
ghost use Rattle.std.specs.Prelude.{◌≡◌, Some, slice_get, IfOk, IfErr, OnOk, OnErr};
ghost use Rattle.isp_code.specs.Fine.{AllFine, CallsFine, GoesOn};
ghost use Rattle.isp_code.specs.Machine.{arrive, step};
ghost use Rattle.isp_code.specs.Operands.{operands};
ghost use Rattle.isp_frames.specs.Moves.{InLoop, Goes, Fails};
ghost use Rattle.isp_machine.specs.Steps.{Done, MayRefuse, Refuses, Steady, conf_now, given_shapes, stands_as, Works};
ghost use Rattle.isp_machine.specs.declared.stop.Step.TheVariants.{Went};
ghost use Rattle.isp_store.specs.Held.{shapes};

use crate::calls::call;
use crate::divide::divide;
use crate::jumps::{fail, jump, jump_if};
use crate::masks::mask;
use crate::packed::packed;
use crate::returns::give_back;
use crate::run::Run;
use crate::scalars::scalar;
use crate::stop::Step;
use crate::stores::{clear, scatter, store_shared};
use crate::vectors::vector;
use isp_base::Trap;
use isp_code::Instr;
use isp_frames::frame::Frame;
use isp_frames::here::Here;
use isp_says::{print_scalar, print_vector, say};
use isp_store::Arrays;
use isp_verify::Verified;
use std::alloc::{AllocError, Global};

// The instructions that neither write text nor call nor return, but for scatters.
//
// What runs at each instruction is inlined in the machine's loop. What takes many registers (divisions, scatters, text, calls) is not, so that
// the others need not save them.
#[inline(always)]
fn compute<const N: usize>(
    here: &Here,
    frame: &mut Frame<N>,
    stores: &mut Arrays,
    instr: &Instr,
) -> Result<(), Trap>
    requires works { Works N here.now (shapes stores.old) frame.old }
    requires operands { AllFine here.now.code here.now.routine (operands instr.now) }
    requires next { GoesOn here.now.routine frame.old.pc instr.now }
    requires computes { InLoop instr.now }
    ensures ok { IfOk result (λ _. Goes here.now instr.now stores.old frame.old stores.new frame.new) }
    ensures err { IfErr result (λ t. Fails here.now instr.now stores.old frame.old t) }
    ensures same { IfErr result (λ t. frame.new ≡ frame.old) }
    ensures same_stores { IfErr result (λ t. stores.new ≡ stores.old) }
{
    match instr {
        Instr::Scalar { result, instr } => scalar(here, frame, stores, *result, *instr)?,
        Instr::Vector { result, instr } => vector(here, frame, stores, *result, *instr)?,
        Instr::Mask { result, instr } => mask(here, frame, *result, instr),
        Instr::Divide { .. } => divide(here, frame, instr)?,
        Instr::Store { .. } | Instr::StoreRun { .. } => store_shared(here, frame, stores, instr)?,
        Instr::PackedStore { .. } | Instr::PackedLoad { .. } => packed(here, frame, stores, instr)?,
        Instr::Clear { array, mask } => clear(here, frame, stores, *array, *mask),
        Instr::Jump { target } => jump(here, frame, *target),
        Instr::JumpIf {
            test,
            register,
            target,
        } => jump_if(here, frame, *test, *register, *target),
        Instr::Fail { mask, place } => fail(here, frame, *mask, *place)?,
        _ => unreachable!(),
    }
    Ok(())
}

// One instruction. Where the run is then at an end, so is said in its place. Where memory is refused nothing changes.
//
// An end is not handed back but written where it stays, so that the others have nothing to hand on.
#[inline(always)]
fn execute<const N: usize>(
    alloc: Global,
    code: &Verified,
    here: &Here,
    run: &mut Run<N>,
    ending: &mut Step,
    instr: &Instr,
) -> Result<(), AllocError>
    requires code { here.now.code ≡ code.now }
    requires found { slice_get here.now.code.routines run.old.frame.function ≡ Some here.now.routine }
    requires sound { Steady N here.now.code run.old }
    requires operands { AllFine here.now.code here.now.routine (operands instr.now) }
    requires calls { CallsFine here.now.code here.now.routine instr.now }
    requires next { GoesOn here.now.routine run.old.frame.pc instr.now }
    requires went { ending.old ≡ Went }
    ensures done { OnOk result (Done N here.now instr.now run.old run.new ending.new) }
    ensures same { OnErr result (run.new ≡ run.old) }
    ensures same_ending { OnErr result (ending.new ≡ ending.old) }
    ensures refused { OnErr result (MayRefuse instr.now) }
{
    match instr {
        Instr::Say { text } => {
            say(here, &mut run.frame.at, &mut run.out, *text)?;
            Ok(())
        }
        Instr::PrintScalar(x) => {
            print_scalar(here, &mut run.frame.at, &mut run.out, *x)?;
            Ok(())
        }
        Instr::PrintVector { vector, mask } => {
            print_vector(alloc, here, &mut run.frame.at, &mut run.out, *vector, *mask)?;
            Ok(())
        }
        Instr::Call(c) => call(alloc, code, here, run, ending, c.get()),
        Instr::Return(x) => {
            give_back(here, run, ending, *x);
            Ok(())
        }
        Instr::Scatter { .. } => {
            scatter(here, &mut run.frame.at, &mut run.stores, ending, instr);
            Ok(())
        }
        _ => {
            if let Err(trap) = compute(here, &mut run.frame.at, &mut run.stores, instr) {
                *ending = Step::Trapped(trap);
            }
            Ok(())
        }
    }
}

/// The instruction before which the run stands, and its end where it is then at one. Where memory is refused nothing changes.
#[inline(always)]
pub(crate) fn step<const N: usize>(
    alloc: Global,
    code: &Verified,
    run: &mut Run<N>,
    ending: &mut Step,
) -> Result<(), AllocError>
    requires steady { Steady N code.now run.old }
    requires went { ending.old ≡ Went }
    ensures arrives { OnOk result (arrive code.now (step code.now (conf_now run.old)) (conf_now run.old) ≡ stands_as ending.new (conf_now run.new)) }
    ensures steady { OnOk result (Steady N code.now run.new) }
    ensures given { OnOk result (given_shapes run.new.stores ≡ given_shapes run.old.stores) }
    ensures same { OnErr result (run.new ≡ run.old) }
    ensures same_ending { OnErr result (ending.new ≡ ending.old) }
    ensures refused { OnErr result (Refuses code.now (conf_now run.old)) }
{
    let here = Here::new(code, run.frame.at.function());
    let instr = here.instr(run.frame.at.pc());
    execute(alloc, code, &here, run, ending, instr)
}
