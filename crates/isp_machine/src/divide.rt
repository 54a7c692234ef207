//! Divisions, of scalars and of lanes.
ghost use Rattle.std.specs.Prelude.{◌≡◌, ◌+◌, ◌<◌, ◌^◌, length, IfOk, IfErr, IsTrue};
ghost use Rattle.isp_base.specs.Types.{gang_width};
ghost use Rattle.isp_base.specs.Values.{width, op_bits};
ghost use Rattle.isp_code.specs.Fine.{AllFine, GoesOn, IsThere};
ghost use Rattle.isp_code.specs.Lines.{division_of};
ghost use Rattle.isp_code.specs.Operands.{operands};
ghost use Rattle.isp_code.specs.Registers.{elem_of};
ghost use Rattle.isp_frames.specs.Moves.{Goes, Fails};
ghost use Rattle.isp_frames.specs.Shapes.{Shaped, Opened};
ghost use Rattle.isp_machine.specs.reader.Instructions.{divide_of};
ghost use Rattle.isp_machine.specs.reader.Kinds.{is_division};
ghost use Rattle.isp_store.specs.Held.{Held, shapes};

use crate::operands::Ratio;
use isp_base::{Elem, Trap, TrapKind, apply_nonzero};
use isp_code::{Class, Division, Instr, Register};
use isp_frames::frame::Frame;
use isp_frames::here::Here;
use isp_frames::kernels::{divided, division_operator, first_lane};

fn quotient(op: Division, elem: Elem, x: u64, y: u64) -> u64
    requires x_fits { x < 2 ^ width elem }
    requires y_fits { y < 2 ^ width elem }
    requires divisor { 0 < y }
    ensures value { result ≡ op_bits (division_of op) elem x y }
    ensures fits { result < 2 ^ width elem }
{
    apply_nonzero(division_operator(op), elem, x, y)
}

// Divides scalars. The trap names the lowest lane of the mask, or lane 0.
fn divide_scalars<const N: usize>(
    here: &Here,
    frame: &mut Frame<N>,
    d: Register,
    ratio: Ratio,
) -> Result<(), Trap>
    requires gang { N ≡ gang_width here.now.code.gang }
    requires shaped { Shaped here.now.routine frame.old }
    requires next { frame.old.pc + 1 < length here.now.routine.code }
    requires place { ratio.place < length here.now.code.places }
    requires d { IsThere here.now.routine Class.Scalar d }
    requires x { IsThere here.now.routine Class.Scalar ratio.dividend }
    requires y { IsThere here.now.routine Class.Scalar ratio.divisor }
    requires like_x { elem_of here.now.routine ratio.dividend ≡ elem_of here.now.routine d }
    requires like_y { elem_of here.now.routine ratio.divisor ≡ elem_of here.now.routine d }
    requires k { IsThere here.now.routine Class.Mask ratio.mask }
    ensures ok { IfOk result (λ _. (s : Held) → Opened here.now.routine (shapes s) frame.old → Goes here.now (divide_of d ratio) s frame.old s frame.new) }
    ensures err { IfErr result (λ t. (s : Held) → Fails here.now (divide_of d ratio) s frame.old t) }
    ensures same { IfErr result (λ t. frame.new ≡ frame.old) }
{
    let divisor = here.scalar(frame, ratio.divisor);
    if divisor == 0 {
        let lane = first_lane(here.mask(frame, ratio.mask));
        return Err(here.trap(TrapKind::Divide, ratio.place, lane));
    }
    let bits = quotient(
        ratio.op,
        here.elem(d),
        here.scalar(frame, ratio.dividend),
        divisor,
    );
    let _count = here.count();
    frame.set_scalar(d.number, bits);
    frame.next();
    Ok(())
}

// Divides the lanes of a mask. The trap names the lowest of them that divides by zero.
fn divide_lanes<const N: usize>(
    here: &Here,
    frame: &mut Frame<N>,
    d: Register,
    ratio: Ratio,
) -> Result<(), Trap>
    requires gang { N ≡ gang_width here.now.code.gang }
    requires shaped { Shaped here.now.routine frame.old }
    requires next { frame.old.pc + 1 < length here.now.routine.code }
    requires place { ratio.place < length here.now.code.places }
    requires d { IsThere here.now.routine Class.Vector d }
    requires x { IsThere here.now.routine Class.Vector ratio.dividend }
    requires y { IsThere here.now.routine Class.Vector ratio.divisor }
    requires like_x { elem_of here.now.routine ratio.dividend ≡ elem_of here.now.routine d }
    requires like_y { elem_of here.now.routine ratio.divisor ≡ elem_of here.now.routine d }
    requires k { IsThere here.now.routine Class.Mask ratio.mask }
    ensures ok { IfOk result (λ _. (s : Held) → Opened here.now.routine (shapes s) frame.old → Goes here.now (divide_of d ratio) s frame.old s frame.new) }
    ensures err { IfErr result (λ t. (s : Held) → Fails here.now (divide_of d ratio) s frame.old t) }
    ensures same { IfErr result (λ t. frame.new ≡ frame.old) }
{
    here.mask_told(frame, ratio.mask);
    here.vector_told(frame, d);
    here.vector_told(frame, ratio.dividend);
    here.vector_told(frame, ratio.divisor);
    match divided(
        frame,
        ratio.op,
        d.number,
        ratio.dividend.number,
        ratio.divisor.number,
        ratio.mask.number,
    ) {
        Ok(()) => {
            let _count = here.count();
            frame.next();
            Ok(())
        }
        Err(lane) => Err(here.trap(TrapKind::Divide, ratio.place, lane)),
    }
}

/// Divides, and goes on to the next instruction.
#[inline(never)]
pub(crate) fn divide<const N: usize>(
    here: &Here,
    frame: &mut Frame<N>,
    instr: &Instr,
) -> Result<(), Trap>
    requires gang { N ≡ gang_width here.now.code.gang }
    requires shaped { Shaped here.now.routine frame.old }
    requires operands { AllFine here.now.code here.now.routine (operands instr.now) }
    requires next { GoesOn here.now.routine frame.old.pc instr.now }
    requires divides { IsTrue (is_division instr.now) }
    ensures ok { IfOk result (λ _. (s : Held) → Opened here.now.routine (shapes s) frame.old → Goes here.now instr.now s frame.old s frame.new) }
    ensures err { IfErr result (λ t. (s : Held) → Fails here.now instr.now s frame.old t) }
    ensures same { IfErr result (λ t. frame.new ≡ frame.old) }
{
    match instr {
        Instr::Divide {
            op,
            result,
            dividend,
            divisor,
            mask,
            place,
        } => {
            let ratio = Ratio {
                op: *op,
                dividend: *dividend,
                divisor: *divisor,
                mask: *mask,
                place: *place,
            };
            match result.class {
                Class::Vector => divide_lanes(here, frame, *result, ratio),
                _ => divide_scalars(here, frame, *result, ratio),
            }
        }
        _ => unreachable!(),
    }
}
