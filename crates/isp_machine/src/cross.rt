//! Instructions across the lanes of a mask.
ghost use Rattle.std.specs.Prelude.{◌≡◌, ◌<◌, ◌^◌, Ok, IsTrue};
ghost use Rattle.isp_base.specs.Maps.{lane_of, on, over};
ghost use Rattle.isp_base.specs.Sets.{flag_of};
ghost use Rattle.isp_base.specs.Types.{gang_width};
ghost use Rattle.isp_base.specs.Values.{number, width};
ghost use Rattle.isp_base.specs.declared.types.Elem.TheVariants.{Bool as Truth, I32};
ghost use Rattle.isp_code.specs.Fine.{IsThere, AllFine};
ghost use Rattle.isp_code.specs.Lines.{exchanged, reduced, scan_of};
ghost use Rattle.isp_code.specs.Operands.{scalar_operands, vector_operands};
ghost use Rattle.isp_code.specs.Registers.{elem_of};
ghost use Rattle.isp_machine.specs.Crossing.{reduced_elem};
ghost use Rattle.isp_frames.specs.Moves.{InPlace, ScalarIs};
ghost use Rattle.isp_frames.specs.Shapes.{Shaped};
ghost use Rattle.isp_machine.specs.reader.Kinds.{is_across};
ghost use Rattle.isp_store.specs.Held.{Held};

use crate::operands::Target;
use isp_base::BinOp;
use isp_code::{Class, Exchange, Reduction, Register, ScalarInstr, Scan, VectorInstr};
use isp_frames::frame::Frame;
use isp_frames::here::Here;
use isp_lanes::{LaneMask, Lanes};

/// The operator on values.
fn scan_operator(scan: Scan) -> BinOp
    ensures { result ≡ scan_of scan }
{
    match scan {
        Scan::Add => BinOp::Add,
        Scan::And => BinOp::And,
        Scan::Or => BinOp::Or,
    }
}

// What a reduction makes of the lanes of a mask.
fn reduced<const N: usize>(reduction: Reduction, x: &Lanes<N>, mask: &LaneMask<N>) -> u64
    requires some { 0 < N }
    requires any { reduction ≡ Reduction.Any → x.now.elem ≡ Truth }
    requires all { reduction ≡ Reduction.All → x.now.elem ≡ Truth }
    ensures value { result ≡ reduced reduction x.now.elem N (on (flag_of mask.now) (lane_of x.now.bits)) }
    ensures fits { result < 2 ^ width (reduced_elem reduction x.now.elem) }
{
    match reduction {
        Reduction::Add => isp_cross::reduce_add(x, mask),
        Reduction::Min => isp_cross::reduce_min(x, mask),
        Reduction::Max => isp_cross::reduce_max(x, mask),
        Reduction::Equal => u64::from(isp_cross::reduce_equal(x, mask)),
        Reduction::Any => u64::from(isp_cross::any(x, mask)),
        Reduction::All => u64::from(isp_cross::all(x, mask)),
    }
}

/// One value of the lanes of a mask.
pub(crate) fn reduce<const N: usize>(
    here: &Here,
    frame: &Frame<N>,
    d: Register,
    reduction: Reduction,
    x: Register,
    k: Register,
) -> u64
    requires gang { N ≡ gang_width here.now.code.gang }
    requires shaped { Shaped here.now.routine frame.now }
    requires operands { AllFine here.now.code here.now.routine (scalar_operands d (ScalarInstr.Reduce reduction x k)) }
    ensures value { (s : Held) → ScalarIs here.now s frame.now d (ScalarInstr.Reduce reduction x k) (Ok result) }
    ensures fits { result < 2 ^ width (elem_of here.now.routine d) }
{
    reduced(reduction, here.vector(frame, x), here.mask(frame, k))
}

/// The value of one lane.
pub(crate) fn extract<const N: usize>(
    here: &Here,
    frame: &Frame<N>,
    d: Register,
    x: Register,
    i: Register,
    k: Register,
) -> u64
    requires gang { N ≡ gang_width here.now.code.gang }
    requires shaped { Shaped here.now.routine frame.now }
    requires operands { AllFine here.now.code here.now.routine (scalar_operands d (ScalarInstr.Extract x i k)) }
    ensures value { (s : Held) → ScalarIs here.now s frame.now d (ScalarInstr.Extract x i k) (Ok result) }
    ensures fits { result < 2 ^ width (elem_of here.now.routine d) }
{
    let lane = here.scalar(frame, i);
    isp_cross::extract(here.vector(frame, x), lane, here.mask(frame, k))
}

// The result of an operator on the values of the lower lanes.
fn scan<const N: usize>(here: &Here, frame: &mut Frame<N>, target: Target, scan: Scan, x: Register)
    requires gang { N ≡ gang_width here.now.code.gang }
    requires shaped { Shaped here.now.routine frame.old }
    requires operands { AllFine here.now.code here.now.routine (vector_operands target.register (VectorInstr.Scan scan x target.mask)) }
    ensures pc { frame.new.pc ≡ frame.old.pc }
    ensures written { (s : Held) → InPlace here.now s frame.old target.register (VectorInstr.Scan scan x target.mask) frame.new }
{
    let mut value = *here.vector(frame, target.register);
    let from = here.vector(frame, x);
    let mask = here.mask(frame, target.mask);
    isp_cross::exclusive_scan(scan_operator(scan), &mut value, from, mask);
    frame.set_vector(target.register.number, &value);
}

// What the lanes of a mask get from one another by a number, which has the bits of an int32.
fn exchanged<const N: usize>(
    exchange: Exchange,
    value: &mut Lanes<N>,
    x: &Lanes<N>,
    count: u64,
    mask: &LaneMask<N>,
)
    requires some { 0 < N }
    requires elem { x.now.elem ≡ value.old.elem }
    requires count { count < 2 ^ 32 }
    ensures elem { value.new.elem ≡ value.old.elem }
    ensures lanes { lane_of value.new.bits ≡ over (on (flag_of mask.now) (exchanged exchange N (on (flag_of mask.now) (lane_of x.now.bits)) (number I32 count))) (lane_of value.old.bits) }
{
    match exchange {
        Exchange::Broadcast => isp_cross::broadcast(value, x, count, mask),
        Exchange::Rotate => isp_cross::rotate(value, x, count, mask),
        Exchange::Shift => isp_cross::shift(value, x, count, mask),
    }
}

// What another lane has, by one number.
fn exchange<const N: usize>(
    here: &Here,
    frame: &mut Frame<N>,
    target: Target,
    exchange: Exchange,
    x: Register,
    i: Register,
)
    requires gang { N ≡ gang_width here.now.code.gang }
    requires shaped { Shaped here.now.routine frame.old }
    requires operands { AllFine here.now.code here.now.routine (vector_operands target.register (VectorInstr.Exchange exchange x i target.mask)) }
    ensures pc { frame.new.pc ≡ frame.old.pc }
    ensures written { (s : Held) → InPlace here.now s frame.old target.register (VectorInstr.Exchange exchange x i target.mask) frame.new }
{
    let mut value = *here.vector(frame, target.register);
    let from = here.vector(frame, x);
    let count = here.scalar(frame, i);
    let mask = here.mask(frame, target.mask);
    exchanged(exchange, &mut value, from, count, mask);
    frame.set_vector(target.register.number, &value);
}

// What the lane has that each lane's number names.
fn shuffle<const N: usize>(
    here: &Here,
    frame: &mut Frame<N>,
    target: Target,
    x: Register,
    i: Register,
)
    requires gang { N ≡ gang_width here.now.code.gang }
    requires shaped { Shaped here.now.routine frame.old }
    requires operands { AllFine here.now.code here.now.routine (vector_operands target.register (VectorInstr.Shuffle x i target.mask)) }
    ensures pc { frame.new.pc ≡ frame.old.pc }
    ensures written { (s : Held) → InPlace here.now s frame.old target.register (VectorInstr.Shuffle x i target.mask) frame.new }
{
    let mut value = *here.vector(frame, target.register);
    let from = here.vector(frame, x);
    let lanes = here.vector(frame, i);
    let mask = here.mask(frame, target.mask);
    isp_cross::shuffle(&mut value, from, lanes, mask);
    frame.set_vector(target.register.number, &value);
}

// The same of two vectors side by side.
fn shuffle_two<const N: usize>(
    here: &Here,
    frame: &mut Frame<N>,
    target: Target,
    x: Register,
    y: Register,
    i: Register,
)
    requires gang { N ≡ gang_width here.now.code.gang }
    requires shaped { Shaped here.now.routine frame.old }
    requires operands { AllFine here.now.code here.now.routine (vector_operands target.register (VectorInstr.ShuffleTwo x y i target.mask)) }
    ensures pc { frame.new.pc ≡ frame.old.pc }
    ensures written { (s : Held) → InPlace here.now s frame.old target.register (VectorInstr.ShuffleTwo x y i target.mask) frame.new }
{
    let mut value = *here.vector(frame, target.register);
    let first = here.vector(frame, x);
    let second = here.vector(frame, y);
    let lanes = here.vector(frame, i);
    let mask = here.mask(frame, target.mask);
    isp_cross::shuffle_two(&mut value, first, second, lanes, mask);
    frame.set_vector(target.register.number, &value);
}

// The vector with another value in one lane.
fn insert<const N: usize>(
    here: &Here,
    frame: &mut Frame<N>,
    target: Target,
    x: Register,
    i: Register,
    y: Register,
)
    requires gang { N ≡ gang_width here.now.code.gang }
    requires shaped { Shaped here.now.routine frame.old }
    requires operands { AllFine here.now.code here.now.routine (vector_operands target.register (VectorInstr.Insert x i y target.mask)) }
    ensures pc { frame.new.pc ≡ frame.old.pc }
    ensures written { (s : Held) → InPlace here.now s frame.old target.register (VectorInstr.Insert x i y target.mask) frame.new }
{
    let mut value = *here.vector(frame, target.register);
    let from = here.vector(frame, x);
    let lane = here.scalar(frame, i);
    let bits = here.scalar(frame, y);
    let mask = here.mask(frame, target.mask);
    isp_cross::insert(&mut value, from, lane, bits, mask);
    frame.set_vector(target.register.number, &value);
}

/// What an instruction across lanes leaves in the lanes of the register, which is written where it stands.
pub(crate) fn across<const N: usize>(
    here: &Here,
    frame: &mut Frame<N>,
    register: Register,
    instr: &VectorInstr,
)
    requires gang { N ≡ gang_width here.now.code.gang }
    requires shaped { Shaped here.now.routine frame.old }
    requires operands { AllFine here.now.code here.now.routine (vector_operands register instr.now) }
    requires across { IsTrue (is_across instr.now) }
    ensures pc { frame.new.pc ≡ frame.old.pc }
    ensures written { (s : Held) → InPlace here.now s frame.old register instr.now frame.new }
{
    match *instr {
        VectorInstr::Scan { op, value, mask } => {
            scan(here, frame, Target { register, mask }, op, value)
        }
        VectorInstr::Exchange {
            op,
            vector,
            by,
            mask,
        } => exchange(here, frame, Target { register, mask }, op, vector, by),
        VectorInstr::Shuffle {
            vector,
            lanes,
            mask,
        } => shuffle(here, frame, Target { register, mask }, vector, lanes),
        VectorInstr::ShuffleTwo {
            first,
            second,
            lanes,
            mask,
        } => shuffle_two(here, frame, Target { register, mask }, first, second, lanes),
        VectorInstr::Insert {
            vector,
            lane,
            value,
            mask,
        } => insert(here, frame, Target { register, mask }, vector, lane, value),
        _ => unreachable!(),
    }
}
