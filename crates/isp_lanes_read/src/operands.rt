//! Whether the lanes that an instruction reads are among those that a line has.
ghost use Rattle.std.specs.Prelude.{◌≡◌, [], ◌∷◌, map};
ghost use Rattle.std.specs.List.{list_all};
ghost use Rattle.isp_code.specs.Calls.{numbers};
ghost use Rattle.isp_code.specs.declared.register.Class.TheVariants as class;
ghost use Rattle.isp_lanes_read.specs.Reads.{back_reads, mask_reads, number_under, reads, scalar_reads, under, vector_reads};
ghost use Rattle.isp_lanes_read.specs.Rows.{seen_row};
ghost use Rattle.isp_lanes_read.specs.reader.Passing.{covers_reading};
ghost use Rattle.isp_code.specs.Listing.{routine_of};

use crate::known::Known;
use crate::reads::{gives_lanes, is_vector, under};
use crate::table::{LaneSet, Reading, Row};
use isp_code::{Function, Instr, MaskInstr, Register, ScalarInstr, VectorInstr};

impl<'a> Row<'a> {
    fn has(&self, r: Reading) -> bool
        ensures { result ≡ covers_reading (seen_row self.now) r }
    {
        let known = Known {
            row: *self,
            more: None,
        };
        known.covers(r.vector, r.lanes)
    }

    fn has_all(&self, readings: &[Reading]) -> bool
        ensures { result ≡ list_all (covers_reading (seen_row self.now)) readings.now }
    {
        for r in readings {
            if !self.has(*r) {
                return false;
            }
        }
        true
    }

    fn has_scalar(&self, instr: &ScalarInstr) -> bool
        ensures { result ≡ list_all (covers_reading (seen_row self.now)) (scalar_reads instr.now) }
    {
        match *instr {
            ScalarInstr::Reduce { vector, mask, .. } => self.has_all(&[under(mask, vector)]),
            ScalarInstr::Extract { vector, mask, .. } => self.has_all(&[under(mask, vector)]),
            _ => true,
        }
    }

    fn has_pair(&self, mask: Register, left: Register, right: Register) -> bool
        ensures { result ≡ list_all (covers_reading (seen_row self.now)) (under mask left ∷ under mask right ∷ []) }
    {
        self.has_all(&[under(mask, left), under(mask, right)])
    }

    fn has_three(&self, mask: Register, first: Register, second: Register, third: Register) -> bool
        ensures { result ≡ list_all (covers_reading (seen_row self.now)) (under mask first ∷ under mask second ∷ under mask third ∷ []) }
    {
        self.has_all(&[under(mask, first), under(mask, second), under(mask, third)])
    }

    fn has_vector(&self, instr: &VectorInstr) -> bool
        ensures { result ≡ list_all (covers_reading (seen_row self.now)) (vector_reads instr.now) }
    {
        match *instr {
            VectorInstr::Copy { value, mask } => self.has_all(&[under(mask, value)]),
            VectorInstr::Convert { value, mask } => self.has_all(&[under(mask, value)]),
            VectorInstr::Unary { value, mask, .. } => self.has_all(&[under(mask, value)]),
            VectorInstr::Binary {
                left,
                right,
                mask,
                ..
            } => self.has_pair(mask, left, right),
            VectorInstr::Compare {
                left,
                right,
                mask,
                ..
            } => self.has_pair(mask, left, right),
            VectorInstr::Select {
                test,
                if_true,
                if_false,
                mask,
            } => self.has_three(mask, test, if_true, if_false),
            VectorInstr::Splat { .. } => true,
            VectorInstr::Index(_) => true,
            VectorInstr::Gather { indices, mask, .. } => self.has_all(&[under(mask, indices)]),
            VectorInstr::LoadRun { .. } => true,
            VectorInstr::Scan { value, mask, .. } => self.has_all(&[under(mask, value)]),
            VectorInstr::Exchange { vector, mask, .. } => self.has_all(&[under(mask, vector)]),
            VectorInstr::Shuffle {
                vector,
                lanes,
                mask,
            } => self.has_pair(mask, vector, lanes),
            VectorInstr::ShuffleTwo {
                first,
                second,
                lanes,
                mask,
            } => self.has_three(mask, first, second, lanes),
            VectorInstr::Insert { vector, mask, .. } => self.has_all(&[under(mask, vector)]),
        }
    }

    fn has_tested(&self, instr: &MaskInstr) -> bool
        ensures { result ≡ list_all (covers_reading (seen_row self.now)) (mask_reads instr.now) }
    {
        match *instr {
            MaskInstr::Test { vector, mask } => self.has_all(&[under(mask, vector)]),
            _ => true,
        }
    }

    // The vectors among the registers that a call passes.
    fn has_passed(&self, mask: Register, passed: &[Register]) -> bool
        ensures { result ≡ list_all (covers_reading (seen_row self.now)) (map (number_under mask) (numbers class.Vector passed.now)) }
    {
        for x in passed {
            if is_vector(*x) && !self.has(under(mask, *x)) {
                return false;
            }
        }
        true
    }

    // A vector that a function gives back, in the lanes of the call.
    fn has_back(&self, gives: bool, back: Option<Register>) -> bool
        ensures { result ≡ list_all (covers_reading (seen_row self.now)) (back_reads gives back) }
    {
        match (gives, back) {
            (true, Some(x)) => self.has_all(&[Reading {
                vector: x.number,
                lanes: LaneSet::Call,
            }]),
            _ => true,
        }
    }

    /// Whether a line has all lanes that an instruction of a function reads.
    pub(crate) fn has_operands(&self, function: &Function, instr: &Instr) -> bool
        ensures { result ≡ list_all (covers_reading (seen_row self.now)) (reads (routine_of function.now) instr.now) }
    {
        match instr {
            Instr::Scalar { instr, .. } => self.has_scalar(instr),
            Instr::Vector { instr, .. } => self.has_vector(instr),
            Instr::Mask { instr, .. } => self.has_tested(instr),
            Instr::Divide {
                result,
                dividend,
                divisor,
                mask,
                ..
            } => { !is_vector(*result) || self.has_pair(*mask, *dividend, *divisor) }
            Instr::Scatter {
                indices,
                value,
                mask,
                ..
            } => self.has_pair(*mask, *indices, *value),
            Instr::StoreRun { value, mask, .. } => self.has_all(&[under(*mask, *value)]),
            Instr::PackedStore { value, mask, .. } => self.has_all(&[under(*mask, *value)]),
            Instr::PrintVector { vector, mask } => self.has_all(&[under(*mask, *vector)]),
            Instr::Call(call) => self.has_passed(call.get().mask, call.get().arguments.as_slice()),
            Instr::Return(back) => self.has_back(gives_lanes(function.returns), *back),
            _ => true,
        }
    }
}
