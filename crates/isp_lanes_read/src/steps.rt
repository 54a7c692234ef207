//! What holds of sets, and which lanes may be read, over one instruction.
ghost use Rattle.std.specs.Prelude.{◌≡◌, Some};
ghost use Rattle.std.specs.List.{list_all};
ghost use Rattle.isp_lanes_read.specs.Rows.{seen_row};
ghost use Rattle.isp_lanes_read.specs.reader.Passing.{comes, comes_back, covers_reading, follows, is_rewritten, mask_written};

use crate::bound::{lower, set_of, upper};
use crate::known::Known;
use crate::reads::written;
use crate::table::{Inclusion, Reading};
use isp_code::{Instr, MaskInstr, Register};

impl<'a> Known<'a> {
    // An inclusion after a mask was written.
    fn follows_mask(&self, mask: Register, value: &MaskInstr, x: Inclusion) -> bool
        ensures { result ≡ follows (seen_row self.now.row) self.now.more (Some (record { mask = mask; value = value.now })) x }
    {
        let set = set_of(mask);
        match (x.part.is(set), x.whole.is(set)) {
            (true, true) => true,
            (true, false) => self.holds_upper(upper(value), x.whole),
            (false, true) => self.in_lower(x.part, lower(value)),
            (false, false) => self.implies(x.part, x.whole),
        }
    }

    /// An inclusion after an instruction.
    pub(crate) fn follows(&self, instr: &Instr, x: Inclusion) -> bool
        ensures { result ≡ follows (seen_row self.now.row) self.now.more (mask_written instr.now) x }
    {
        match instr {
            Instr::Mask { result, instr } => self.follows_mask(*result, instr, x),
            _ => self.implies(x.part, x.whole),
        }
    }

    // Lanes that are read after a mask was written, without what else is written.
    fn comes_mask(&self, mask: Register, value: &MaskInstr, r: Reading) -> bool
        ensures { result ≡ comes_back (seen_row self.now.row) self.now.more (Some (record { mask = mask; value = value.now })) r }
    {
        if r.lanes.is(set_of(mask)) {
            self.covers_upper(r.vector, upper(value))
        } else {
            self.covers(r.vector, r.lanes)
        }
    }

    fn comes_back(&self, instr: &Instr, r: Reading) -> bool
        ensures { result ≡ comes_back (seen_row self.now.row) self.now.more (mask_written instr.now) r }
    {
        match instr {
            Instr::Mask { result, instr } => self.comes_mask(*result, instr, r),
            _ => self.covers(r.vector, r.lanes),
        }
    }

    fn is_rewritten(&self, write: Option<Reading>, r: Reading) -> bool
        ensures { result ≡ is_rewritten (seen_row self.now.row) self.now.more write r }
    {
        match write {
            None => false,
            Some(w) => r.vector == w.vector && self.implies(r.lanes, w.lanes),
        }
    }

    /// Lanes that are read after an instruction.
    pub(crate) fn comes(&self, instr: &Instr, r: Reading) -> bool
        ensures { result ≡ comes (seen_row self.now.row) self.now.more instr.now r }
    {
        self.is_rewritten(written(instr), r) || self.comes_back(instr, r)
    }

    /// Whether all inclusions that a line tells after an instruction follow.
    pub(crate) fn all_follow(&self, instr: &Instr, within: &[Inclusion]) -> bool
        ensures { result ≡ list_all (follows (seen_row self.now.row) self.now.more (mask_written instr.now)) within.now }
    {
        for x in within {
            if !self.follows(instr, *x) {
                return false;
            }
        }
        true
    }

    /// Whether all lanes that are read after an instruction are those that it writes, or may be read before it.
    pub(crate) fn all_come(&self, instr: &Instr, read: &[Reading]) -> bool
        ensures { result ≡ list_all (comes (seen_row self.now.row) self.now.more instr.now) read.now }
    {
        for r in read {
            if !self.comes(instr, *r) {
                return false;
            }
        }
        true
    }
}
