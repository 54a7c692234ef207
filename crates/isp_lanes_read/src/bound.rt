//! What sets bound the value of a mask that is written.
ghost use Rattle.std.specs.Prelude.{◌≡◌};
ghost use Rattle.isp_lanes_read.specs.Rows.{seen_row};
ghost use Rattle.isp_lanes_read.specs.reader.Known.{combined_lower, combined_upper, covers, implied, lower, meets, set_of, upper};

use crate::known::Known;
use crate::table::LaneSet;
use isp_code::{MaskInstr, MaskOp, Register};

/// Sets that bound a value, from above or from below: one set alone; two, of which each one bounds it; or two that bound it
/// together.
#[derive(Clone, Copy)]
pub(crate) enum Bound {
    One(LaneSet),
    Either(LaneSet, LaneSet),
    Together(LaneSet, LaneSet),
}

/// The set that a mask register holds.
pub(crate) fn set_of(mask: Register) -> LaneSet
    ensures { result ≡ set_of mask }
{
    LaneSet::Mask(mask.number)
}

fn combined_upper(op: MaskOp, left: LaneSet, right: LaneSet) -> Bound
    ensures { result ≡ combined_upper op left right }
{
    match op {
        MaskOp::And => Bound::Either(left, right),
        MaskOp::Or => Bound::Together(left, right),
        MaskOp::AndNot => Bound::One(left),
    }
}

fn combined_lower(op: MaskOp, left: LaneSet, right: LaneSet) -> Bound
    ensures { result ≡ combined_lower op left right }
{
    match op {
        MaskOp::And => Bound::Together(left, right),
        MaskOp::Or => Bound::Either(left, right),
        MaskOp::AndNot => Bound::One(LaneSet::Nobody),
    }
}

/// What bounds the value of a mask from above.
pub(crate) fn upper(instr: &MaskInstr) -> Bound
    ensures { result ≡ upper instr.now }
{
    match *instr {
        MaskInstr::Copy(x) => Bound::One(set_of(x)),
        MaskInstr::Binary { op, left, right } => combined_upper(op, set_of(left), set_of(right)),
        MaskInstr::Full => Bound::One(LaneSet::Gang),
        MaskInstr::Off => Bound::One(LaneSet::Nobody),
        MaskInstr::Test { mask, .. } => Bound::One(set_of(mask)),
        MaskInstr::Lowest(x) => Bound::One(set_of(x)),
        MaskInstr::Range { .. } => Bound::One(LaneSet::Gang),
    }
}

/// And from below.
pub(crate) fn lower(instr: &MaskInstr) -> Bound
    ensures { result ≡ lower instr.now }
{
    match *instr {
        MaskInstr::Copy(x) => Bound::One(set_of(x)),
        MaskInstr::Binary { op, left, right } => combined_lower(op, set_of(left), set_of(right)),
        MaskInstr::Full => Bound::One(LaneSet::Gang),
        _ => Bound::One(LaneSet::Nobody),
    }
}

impl<'a> Known<'a> {
    /// Whether a value that is bounded from above lies in a set.
    pub(crate) fn holds_upper(&self, bound: Bound, whole: LaneSet) -> bool
        ensures { result ≡ meets (λ a. implied (seen_row self.now.row) self.now.more a whole) bound }
    {
        match bound {
            Bound::One(a) => self.implies(a, whole),
            Bound::Either(a, b) => self.implies(a, whole) || self.implies(b, whole),
            Bound::Together(a, b) => self.implies(a, whole) && self.implies(b, whole),
        }
    }

    /// Whether a set lies in a value that is bounded from below.
    pub(crate) fn in_lower(&self, part: LaneSet, bound: Bound) -> bool
        ensures { result ≡ meets (implied (seen_row self.now.row) self.now.more part) bound }
    {
        match bound {
            Bound::One(a) => self.implies(part, a),
            Bound::Either(a, b) => self.implies(part, a) || self.implies(part, b),
            Bound::Together(a, b) => self.implies(part, a) && self.implies(part, b),
        }
    }

    /// Whether lanes that are bounded from above are among those that may be read.
    pub(crate) fn covers_upper(&self, vector: u32, bound: Bound) -> bool
        ensures { result ≡ meets (covers (seen_row self.now.row) self.now.more vector) bound }
    {
        match bound {
            Bound::One(a) => self.covers(vector, a),
            Bound::Either(a, b) => self.covers(vector, a) || self.covers(vector, b),
            Bound::Together(a, b) => self.covers(vector, a) && self.covers(vector, b),
        }
    }
}
