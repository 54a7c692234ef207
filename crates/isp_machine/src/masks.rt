//! Instructions that write a mask register.
ghost use Rattle.std.specs.Prelude.{◌≡◌, ◌+◌, ◌<◌, ◌≤◌, ◌&&◌, length, nat_lt, pos, ◌+ℤ◌, int_lt};
ghost use Rattle.isp_base.specs.Maps.{lane_of, on, where_true};
ghost use Rattle.isp_base.specs.Sets.{flag_of, everyone, nobody, lone, lowest};
ghost use Rattle.isp_base.specs.Types.{gang_width};
ghost use Rattle.isp_base.specs.Values.{number};
ghost use Rattle.isp_base.specs.declared.types.Elem.TheVariants.{Bool as Truth, I64};
ghost use Rattle.isp_code.specs.Fine.{AllFine, IsThere};
ghost use Rattle.isp_code.specs.Lines.{combined};
ghost use Rattle.isp_base.specs.Truths.{is_true};
ghost use Rattle.isp_code.specs.Operands.{mask_operands};
ghost use Rattle.isp_frames.specs.Moves.{MaskIs, Goes};
ghost use Rattle.isp_frames.specs.Shapes.{Shaped, Opened};
ghost use Rattle.isp_frames.specs.Views.{scalars_at};
ghost use Rattle.isp_store.specs.Held.{Held, shapes};

use isp_code::{Class, Instr, MaskInstr, MaskOp, Register};
use isp_frames::frame::Frame;
use isp_frames::here::Here;
use isp_lanes::{LaneMask, Lanes};

fn combined<const N: usize>(op: MaskOp, x: &LaneMask<N>, y: &LaneMask<N>) -> LaneMask<N>
    ensures { flag_of result ≡ combined op (flag_of x.now) (flag_of y.now) }
{
    x.told();
    y.told();
    match op {
        MaskOp::And => x.and(y),
        MaskOp::Or => x.or(y),
        MaskOp::AndNot => x.and_not(y),
    }
}

fn full<const N: usize>() -> LaneMask<N>
    requires { N ≤ 64 }
    ensures { flag_of result ≡ everyone N }
{
    LaneMask::full()
}

fn none<const N: usize>() -> LaneMask<N>
    requires { N ≤ 64 }
    ensures { flag_of result ≡ nobody }
{
    LaneMask::none()
}

fn tested<const N: usize>(x: &Lanes<N>, mask: &LaneMask<N>) -> LaneMask<N>
    requires { x.now.elem ≡ Truth }
    ensures { flag_of result ≡ where_true is_true (on (flag_of mask.now) (lane_of x.now.bits)) }
{
    x.told();
    mask.told();
    mask.test(x)
}

fn lowest_alone<const N: usize>(mask: &LaneMask<N>) -> LaneMask<N>
    ensures { flag_of result ≡ lone (lowest N (flag_of mask.now)) }
{
    mask.told();
    mask.lowest()
}

fn range<const N: usize>(here: &Here, frame: &Frame<N>, x: Register, y: Register) -> LaneMask<N>
    requires few { N ≤ 64 }
    requires shaped { Shaped here.now.routine frame.now }
    requires x { IsThere here.now.routine Class.Scalar x }
    requires y { IsThere here.now.routine Class.Scalar y }
    ensures { flag_of result ≡ (λ p. nat_lt p N && int_lt (number I64 (scalars_at frame.now x.number) +ℤ pos p) (number I64 (scalars_at frame.now y.number))) }
{
    LaneMask::range(here.scalar(frame, x), here.scalar(frame, y))
}

// What the instruction gives.
fn mask_value<const N: usize>(
    here: &Here,
    frame: &Frame<N>,
    d: Register,
    instr: MaskInstr,
) -> LaneMask<N>
    requires gang { N ≡ gang_width here.now.code.gang }
    requires few { N ≤ 64 }
    requires shaped { Shaped here.now.routine frame.now }
    requires operands { AllFine here.now.code here.now.routine (mask_operands d instr) }
    ensures { MaskIs here.now frame.now instr (flag_of result) }
{
    match instr {
        MaskInstr::Copy(x) => *here.mask(frame, x),
        MaskInstr::Binary { op, left, right } => combined(
            op,
            here.mask(frame, left),
            here.mask(frame, right),
        ),
        MaskInstr::Full => full(),
        MaskInstr::Off => none(),
        MaskInstr::Test { vector, mask } => tested(
            here.vector(frame, vector),
            here.mask(frame, mask),
        ),
        MaskInstr::Lowest(x) => lowest_alone(here.mask(frame, x)),
        MaskInstr::Range { first, end } => range(here, frame, first, end),
    }
}

/// Writes a mask register, and goes on to the next instruction.
pub(crate) fn mask<const N: usize>(
    here: &Here,
    frame: &mut Frame<N>,
    d: Register,
    instr: &MaskInstr,
)
    requires gang { N ≡ gang_width here.now.code.gang }
    requires few { N ≤ 64 }
    requires shaped { Shaped here.now.routine frame.old }
    requires operands { AllFine here.now.code here.now.routine (mask_operands d instr.now) }
    requires next { frame.old.pc + 1 < length here.now.routine.code }
    ensures { (s : Held) → Opened here.now.routine (shapes s) frame.old → Goes here.now (Instr.Mask d instr.now) s frame.old s frame.new }
{
    let value = mask_value(here, frame, d, *instr);
    let _count = here.count();
    frame.set_mask(d.number, value);
    frame.next();
}
