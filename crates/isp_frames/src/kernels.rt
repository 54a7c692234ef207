//! Masks, and what is left in the lanes of one, as the table of instructions has them.
ghost use Rattle.std.specs.Prelude.{◌≡◌, ◌<◌, ◌≤◌, length, None, Some, IfOk, IfErr};
ghost use Rattle.isp_base.specs.Access.{is_zero};
ghost use Rattle.isp_base.specs.Maps.{lane_of, on, over, map2, lowest_failing};
ghost use Rattle.isp_base.specs.Sets.{flag_of, lowest, any, all};
ghost use Rattle.isp_base.specs.Cross.{or_zero};
ghost use Rattle.isp_base.specs.Values.{op_bits};
ghost use Rattle.isp_code.specs.Lines.{plain_of, division_of};
ghost use Rattle.isp_frames.specs.Arrays.{vector_in};
ghost use Rattle.isp_frames.specs.Moves.{LanesAre};
ghost use Rattle.isp_frames.specs.Views.{masked_at};

use crate::frame::Frame;
use isp_base::BinOp;
use isp_code::{Division, Plain};
use isp_lanes::{LaneMask, Lanes};

/// The operator on values.
pub fn plain_operator(op: Plain) -> BinOp
    ensures { result ≡ plain_of op }
{
    match op {
        Plain::Add => BinOp::Add,
        Plain::Sub => BinOp::Sub,
        Plain::Mul => BinOp::Mul,
        Plain::And => BinOp::And,
        Plain::Or => BinOp::Or,
        Plain::Xor => BinOp::Xor,
        Plain::Shl => BinOp::Shl,
        Plain::Shr => BinOp::Shr,
        Plain::Min => BinOp::Min,
        Plain::Max => BinOp::Max,
    }
}

/// The operator on values.
pub fn division_operator(op: Division) -> BinOp
    ensures { result ≡ division_of op }
{
    match op {
        Division::Div => BinOp::Div,
        Division::Rem => BinOp::Rem,
    }
}

/// The number of the lowest lane of a mask, or 0.
pub fn first_lane<const N: usize>(mask: &LaneMask<N>) -> usize
    ensures value { result ≡ or_zero (lowest N (flag_of mask.now)) }
    ensures low { result ≤ 64 }
{
    mask.told();
    mask.first()
}

/// Whether a lane of a mask is on.
pub fn any_lane<const N: usize>(mask: &LaneMask<N>) -> bool
    ensures { result ≡ any N (flag_of mask.now) }
{
    mask.told();
    mask.any()
}

/// Whether all lanes of a mask are on.
pub fn all_lanes<const N: usize>(mask: &LaneMask<N>) -> bool
    ensures { result ≡ all N (flag_of mask.now) }
{
    mask.told();
    mask.all()
}

/// The lanes of another vector.
pub fn copied<const N: usize>(value: &mut Lanes<N>, x: &Lanes<N>, mask: &LaneMask<N>)
    requires { x.now.elem ≡ value.old.elem }
    ensures elem { value.new.elem ≡ value.old.elem }
    ensures lanes { lane_of value.new.bits ≡ over (on (flag_of mask.now) (lane_of x.now.bits)) (lane_of value.old.bits) }
{
    value.told();
    x.told();
    mask.told();
    value.copy(x, mask);
}

/// A division of vectors, by their numbers. Where a lane of the mask divides by zero the answer is
/// the lowest such lane, and nothing changes.
pub fn divided<const N: usize>(
    frame: &mut Frame<N>,
    op: Division,
    d: u32,
    x: u32,
    y: u32,
    k: u32,
) -> Result<(), usize>
    requires d { d < length frame.old.vectors }
    requires x { x < length frame.old.vectors }
    requires y { y < length frame.old.vectors }
    requires k { k < length frame.old.masks }
    requires x_elem { (vector_in frame.old x).elem ≡ (vector_in frame.old d).elem }
    requires y_elem { (vector_in frame.old y).elem ≡ (vector_in frame.old d).elem }
    ensures none { IfOk result (λ _. lowest_failing N (is_zero (division_of op) (vector_in frame.old d).elem) (masked_at frame.old k y) ≡ None) }
    ensures lanes { IfOk result (λ _. LanesAre frame.old d (map2 (op_bits (division_of op) (vector_in frame.old d).elem) (masked_at frame.old k x) (masked_at frame.old k y)) frame.new) }
    ensures pc { IfOk result (λ _. frame.new.pc ≡ frame.old.pc) }
    ensures lowest { IfErr result (λ lane. lowest_failing N (is_zero (division_of op) (vector_in frame.old d).elem) (masked_at frame.old k y) ≡ Some lane) }
    ensures same { IfErr result (λ _. frame.new ≡ frame.old) }
{
    frame.mask(k).told();
    frame.vector(d).told();
    frame.vector(x).told();
    frame.vector(y).told();
    match frame.binary(division_operator(op), d, x, y, k) {
        Ok(()) => Ok(()),
        Err(lane) => Err(lane),
    }
}
