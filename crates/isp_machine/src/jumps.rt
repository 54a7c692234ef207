//! Jumps and assertions.
ghost use Rattle.std.specs.Prelude.{◌≡◌, ◌+◌, ◌<◌, ℕ, List, length, IfOk, IfErr};
ghost use Rattle.isp_base.specs.Types.{gang_width};
ghost use Rattle.isp_code.specs.Fine.{IsThere, OperandFine};
ghost use Rattle.isp_code.specs.Lines.{jumps};
ghost use Rattle.isp_code.specs.Operands.{tested};
ghost use Rattle.isp_frames.specs.Moves.{Goes, Fails};
ghost use Rattle.isp_frames.specs.Rows.{FrameRows};
ghost use Rattle.isp_frames.specs.Shapes.{Shaped, Opened};
ghost use Rattle.isp_frames.specs.Views.{conf_of};
ghost use Rattle.isp_store.specs.Held.{Held, shapes};

use isp_base::{Trap, TrapKind};
use isp_code::{Class, Instr, JumpTest, Register};
use isp_frames::frame::Frame;
use isp_frames::here::Here;
use isp_frames::kernels::{all_lanes, any_lane, first_lane};

/// Jumps.
pub(crate) fn jump<const N: usize>(here: &Here, frame: &mut Frame<N>, to: u32)
    requires { Shaped here.now.routine frame.old }
    ensures { (s : Held) → Opened here.now.routine (shapes s) frame.old → Goes here.now (Instr.Jump to) s frame.old s frame.new }
{
    frame.jump(to as usize);
}

// Whether control jumps.
fn jumps<const N: usize>(here: &Here, frame: &Frame<N>, test: JumpTest, x: Register) -> bool
    requires gang { N ≡ gang_width here.now.code.gang }
    requires shaped { Shaped here.now.routine frame.now }
    requires fine { OperandFine here.now.code here.now.routine (tested test x) }
    ensures { (s : Held) (ws : List FrameRows) (out : List ℕ) → jumps here.now.code here.now.routine (conf_of s frame.now ws out) test x ≡ result }
{
    match test {
        JumpTest::False => here.scalar(frame, x) == 0,
        JumpTest::True => here.scalar(frame, x) != 0,
        JumpTest::Off => !any_lane(here.mask(frame, x)),
        JumpTest::On => any_lane(here.mask(frame, x)),
        JumpTest::All => all_lanes(here.mask(frame, x)),
    }
}

/// Jumps where a register passes a test, else goes on to the next instruction.
pub(crate) fn jump_if<const N: usize>(
    here: &Here,
    frame: &mut Frame<N>,
    test: JumpTest,
    x: Register,
    to: u32,
)
    requires gang { N ≡ gang_width here.now.code.gang }
    requires shaped { Shaped here.now.routine frame.old }
    requires fine { OperandFine here.now.code here.now.routine (tested test x) }
    requires next { frame.old.pc + 1 < length here.now.routine.code }
    ensures { (s : Held) → Opened here.now.routine (shapes s) frame.old → Goes here.now (Instr.JumpIf test x to) s frame.old s frame.new }
{
    if jumps(here, frame, test, x) {
        frame.jump(to as usize);
        return;
    }
    let _count = here.count();
    frame.next();
}

/// Traps where a lane of the mask is on, else goes on to the next instruction.
pub(crate) fn fail<const N: usize>(
    here: &Here,
    frame: &mut Frame<N>,
    x: Register,
    place: u32,
) -> Result<(), Trap>
    requires gang { N ≡ gang_width here.now.code.gang }
    requires shaped { Shaped here.now.routine frame.old }
    requires there { IsThere here.now.routine Class.Mask x }
    requires place { place < length here.now.code.places }
    requires next { frame.old.pc + 1 < length here.now.routine.code }
    ensures ok { IfOk result (λ _. (s : Held) → Opened here.now.routine (shapes s) frame.old → Goes here.now (Instr.Fail x place) s frame.old s frame.new) }
    ensures err { IfErr result (λ t. (s : Held) → Fails here.now (Instr.Fail x place) s frame.old t) }
    ensures same { IfErr result (λ t. frame.new ≡ frame.old) }
{
    if any_lane(here.mask(frame, x)) {
        let lane = first_lane(here.mask(frame, x));
        return Err(here.trap(TrapKind::Assert, place, lane));
    }
    let _count = here.count();
    frame.next();
    Ok(())
}
