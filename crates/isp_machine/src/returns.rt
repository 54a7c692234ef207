//! Returns.
ghost use Rattle.std.specs.Prelude.{◌≡◌, ◌≤◌, ℕ, List, length, slice_get, Some};
ghost use Rattle.isp_code.specs.Calls.{answer};
ghost use Rattle.isp_code.specs.Fine.{IsGiven, IsThere};
ghost use Rattle.isp_code.specs.Listing.{Routine};
ghost use Rattle.isp_code.specs.Registers.{elem_of};
ghost use Rattle.isp_machine.specs.Receives.{Takes, TakesLanes, Receives};
ghost use Rattle.isp_frames.specs.Rows.{FrameRows};
ghost use Rattle.isp_frames.specs.Shapes.{Shaped, GivesOne};
ghost use Rattle.isp_machine.specs.Steps.{Done, Steady};
ghost use Rattle.isp_machine.specs.declared.stop.Step.TheVariants.{Went};
ghost use Rattle.isp_frames.specs.Views.{conf_of};
ghost use Rattle.isp_store.specs.Held.{Held};

use crate::run::Run;
use crate::stop::Step;
use isp_base::Value;
use isp_code::{Class, Instr, Register};
use isp_frames::frame::{Frame, FrameBox};
use isp_frames::here::Here;
use std::mem;

// The value that a run ends with.
fn answer<const N: usize>(here: &Here, frame: &Frame<N>, x: Option<Register>) -> Option<Value>
    requires shaped { Shaped here.now.routine frame.now }
    requires given { IsGiven here.now.routine here.now.routine.returns x }
    requires one { GivesOne here.now.routine.returns }
    ensures { (s : Held) (ws : List FrameRows) (out : List ℕ) → result ≡ answer here.now.routine (conf_of s frame.now ws out) x }
{
    match x {
        None => None,
        Some(x) => Some(Value {
            elem: here.elem(x),
            bits: here.scalar(frame, x),
        }),
    }
}

// The lanes that called get those of the result.
fn receive_lanes<const N: usize>(
    here: &Here,
    callee: &Frame<N>,
    x: Register,
    caller: &mut Frame<N>,
    d: Register,
)
    requires shaped { Shaped here.now.routine callee.now }
    requires x { IsThere here.now.routine Class.Vector x }
    requires takes { TakesLanes (elem_of here.now.routine x) caller.old d }
    ensures { (k : Routine) → Shaped k caller.old → IsThere k Class.Vector d → elem_of k d ≡ elem_of here.now.routine x → caller.old.to ≡ Some d → Receives k callee.now (Some x) caller.old caller.new }
{
    caller.under().told();
    caller.vector(d.number).told();
    let value = here.vector(callee, x);
    value.told();
    caller.receive(d.number, value);
}

// A register of the caller gets the result.
fn receive<const N: usize>(
    here: &Here,
    callee: &Frame<N>,
    x: Option<Register>,
    caller: &mut Frame<N>,
)
    requires shaped { Shaped here.now.routine callee.now }
    requires given { IsGiven here.now.routine here.now.routine.returns x }
    requires takes { Takes here.now.routine caller.old }
    ensures { (t : Takes here.now.routine caller.old) → Receives t.routine callee.now x caller.old caller.new }
{
    let Some(x) = x else { return };
    let Some(d) = caller.to() else { return };
    match d.class {
        Class::Vector => receive_lanes(here, callee, x, caller, d),
        _ => caller.set_scalar(d.number, here.scalar(callee, x)),
    }
}

// Keeps the memory of a call that is over for a later one. The call has made the place for it; were there none, it would be dropped.
fn keep<const N: usize>(rooms: &mut Vec<FrameBox<N>>, callee: FrameBox<N>)
    requires { N ≤ 64 }
    ensures { length rooms.old.items ≤ length rooms.new.items }
{
    let mut room = callee;
    room.at.end();
    match rooms.push(room) {
        Ok(()) => {}
        Err(_dropped) => {}
    }
}

/// Goes back to the call that waits, or ends the run.
#[inline(never)]
pub(crate) fn give_back<const N: usize>(
    here: &Here,
    run: &mut Run<N>,
    ending: &mut Step,
    x: Option<Register>,
)
    requires found { slice_get here.now.code.routines run.old.frame.function ≡ Some here.now.routine }
    requires sound { Steady N here.now.code run.old }
    requires given { IsGiven here.now.routine here.now.routine.returns x }
    requires went { ending.old ≡ Went }
    ensures { Done N here.now (Instr.Return x) run.old run.new ending.new }
{
    match run.waiting.pop() {
        None => *ending = Step::Ended(answer(here, &run.frame.at, x)),
        Some(caller) => {
            let callee = mem::replace(&mut run.frame, caller);
            receive(here, &callee.at, x, &mut run.frame.at);
            run.stores.close_locals(run.frame.at.locals());
            callee.at.under().told();
            keep(&mut run.rooms, callee);
        }
    }
}
