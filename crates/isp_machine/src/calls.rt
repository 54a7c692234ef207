//! Calls.
ghost use Rattle.std.specs.Prelude.{◌≡◌, ◌+◌, ◌<◌, ◌≤◌, ◌^◌, ◌++◌, ◌∷◌, [], length, slice_get, vec_len, vec_capacity, Some, IfOk, OnOk, OnErr};
ghost use Rattle.isp_code.specs.Fine.{IsThere, CallFine};
ghost use Rattle.isp_code.specs.Listing.{Routine};
ghost use Rattle.isp_frames.specs.Begun.{Begun, given, new_stores, no_frame};
ghost use Rattle.isp_machine.specs.Steps.{Done, Steady};
ghost use Rattle.isp_machine.specs.declared.stop.Step.TheVariants.{Went};

use crate::run::Run;
use crate::stop::Step;
use isp_base::TrapKind;
use isp_code::{Call, Class, Instr, Register};
use isp_frames::frame::{Frame, FrameBox};
use isp_frames::here::Here;
use isp_frames::kernels::first_lane;
use isp_frames::zeros::Zeros;
use isp_lanes::LaneMask;
use isp_store::Arrays;
use isp_verify::Verified;
use std::alloc::{AllocError, Global};
use std::mem;

/// As many calls run at most, one in the other.
const MOST_CALLS: usize = 256;

/// Begins a call of a function of the code with what the registers of a frame hold, and opens its
/// local arrays. Where memory is refused no store is open that was not.
pub(crate) fn begin<const N: usize>(
    alloc: Global,
    code: &Verified,
    stores: &mut Arrays,
    frame: &mut Frame<N>,
    number: usize,
    mask: &LaneMask<N>,
    zeros: &Zeros<N>,
) -> Result<(), AllocError>
    requires { number < length code.now.routines }
    ensures begun { OnOk result ((g : Routine) → slice_get code.now.routines number ≡ Some g → Begun N g number mask.now (length stores.old.rows) (given frame.old) frame.new) }
    ensures stores { OnOk result ((g : Routine) → slice_get code.now.routines number ≡ Some g → stores.new ≡ record stores.old { rows = stores.old.rows ++ new_stores g.locals }) }
    ensures all { OnOk result (stores.new.params + frame.new.locals ≡ length stores.new.rows) }
    ensures starts { (g : Routine) → slice_get code.now.routines number ≡ Some g → 0 < length g.code }
    ensures masks { (g : Routine) → slice_get code.now.routines number ≡ Some g → 0 < g.masks }
    ensures err { OnErr result (stores.new ≡ stores.old) }
{
    mask.told();
    let function = &code.code().functions()[number];
    frame.begin(alloc, stores, number, function, mask, zeros)
}

// The memory of the last call that is over, where some is kept, else a frame without registers.
fn room<const N: usize>(
    alloc: Global,
    rooms: &mut Vec<FrameBox<N>>,
) -> Result<FrameBox<N>, AllocError>
    requires { N ≤ 64 }
    ensures kept { 0 < length rooms.old.items → IfOk result (λ f. rooms.old.items ≡ rooms.new.items ++ f ∷ []) }
    ensures none { length rooms.old.items ≡ 0 → IfOk result (λ f. f ≡ no_frame N) }
{
    match rooms.pop() {
        Some(room) => Ok(room),
        None => FrameBox::empty(alloc),
    }
}

// The frame waits at its next instruction for a result, and the other stands in its place.
fn wait<const N: usize>(
    frame: &mut FrameBox<N>,
    waiting: &mut Vec<FrameBox<N>>,
    callee: FrameBox<N>,
    to: Option<Register>,
    under: &LaneMask<N>,
)
    requires next { frame.old.pc + 1 < 2 ^ 64 }
    requires room { vec_len waiting.old < vec_capacity waiting.old }
    ensures waiting { waiting.new.items ≡ waiting.old.items ++ record frame.old { pc = frame.old.pc + 1; to = to; under = under.now } ∷ [] }
    ensures frame { frame.new ≡ callee.entry }
{
    under.told();
    frame.at.wait(to, under);
    waiting.push_reserved(mem::replace(frame, callee));
}

/// Calls a function, or traps where as many calls run as may. Where memory is refused nothing
/// changes. The new frame takes the memory of a call that is over, where some is kept.
#[inline(never)]
pub(crate) fn call<const N: usize>(
    alloc: Global,
    code: &Verified,
    here: &Here,
    run: &mut Run<N>,
    ending: &mut Step,
    call: &Call,
) -> Result<(), AllocError>
    requires code { here.now.code ≡ code.now }
    requires found { slice_get code.now.routines run.old.frame.function ≡ Some here.now.routine }
    requires sound { Steady N code.now run.old }
    requires mask { IsThere here.now.routine Class.Mask call.now.mask }
    requires place { call.now.place < length here.now.code.places }
    requires fine { CallFine here.now.code here.now.routine call.now }
    requires next { run.old.frame.pc + 1 < length here.now.routine.code }
    requires went { ending.old ≡ Went }
    ensures ok { OnOk result (Done N here.now (Instr.Call call.now) run.old run.new ending.new) }
    ensures same { OnErr result (run.new ≡ run.old) }
    ensures same_ending { OnErr result (ending.new ≡ ending.old) }
{
    let mask = *here.mask(&run.frame.at, call.mask);
    mask.told();
    if run.waiting.len() >= MOST_CALLS - 1 {
        let lane = first_lane(&mask);
        *ending = Step::Trapped(here.trap(TrapKind::Depth, call.place, lane));
        return Ok(());
    }
    let _count = here.count();
    run.waiting.reserve(1)?;
    // The calls that wait and this one leave their frames where they return: that place is made here.
    run.rooms.reserve(run.waiting.len() + 2)?;
    let mut callee = room(alloc, &mut run.rooms)?;
    let arguments = call.arguments.as_slice();
    callee.at.pass_call(here, &run.frame.at, arguments, &mask)?;
    begin(
        alloc,
        code,
        &mut run.stores,
        &mut callee.at,
        call.function as usize,
        &mask,
        &run.zeros.at,
    )?;
    wait(&mut run.frame, &mut run.waiting, callee, call.result, &mask);
    Ok(())
}
