//! Writes that need not keep the lanes that are off, and instructions that can be left out.
ghost use Rattle.std.specs.Prelude.{◌≡◌, ◌+◌, ◌<◌, not};
ghost use Rattle.std.specs.List.{list_all, list_any};
ghost use Rattle.isp_lanes_read.specs.Free.{is_free, is_free_write, is_of, is_useless, stays_in};
ghost use Rattle.isp_lanes_read.specs.reader.Known.{in_row};
ghost use Rattle.isp_lanes_read.specs.Rows.{row_at, rows_of, seen_row};

use crate::known::Known;
use crate::reads::{is_pure, written};
use crate::table::{LaneSet, Reading, Row, Tables};
use isp_code::Instr;

impl<'a> Row<'a> {
    fn reads_of(&self, vector: u32) -> bool
        ensures { result ≡ list_any (is_of vector) self.now.read.now }
    {
        for r in self.read {
            if r.vector == vector {
                return true;
            }
        }
        false
    }

    /// Whether an instruction can be left out, by the line after it.
    pub(crate) fn lets_go(&self, instr: &Instr) -> bool
        ensures { result ≡ is_useless (seen_row self.now) instr.now }
    {
        match instr {
            Instr::Vector { result, instr } => is_pure(instr) && !self.reads_of(result.number),
            _ => false,
        }
    }

    fn stays_in(&self, write: Reading, r: Reading) -> bool
        ensures { result ≡ stays_in (seen_row self.now) write r }
    {
        let known = Known {
            row: *self,
            more: None,
        };
        r.vector != write.vector || known.implies(r.lanes, write.lanes)
    }

    fn all_stay_in(&self, write: Reading, read: &[Reading]) -> bool
        ensures { result ≡ list_all (stays_in (seen_row self.now) write) read.now }
    {
        for r in read {
            if !self.stays_in(write, *r) {
                return false;
            }
        }
        true
    }
}

impl Tables {
    /// Whether each lane of one set is in another before instruction `pc` of function `f`; a mask is full where the gang is in it.
    pub fn is_within(&self, f: usize, pc: usize, part: LaneSet, whole: LaneSet) -> bool
        ensures { result ≡ in_row (row_at (rows_of self.now) f pc) part whole }
    {
        Row::at(self.lines(f), pc).tells(part, whole)
    }

    /// Whether instruction `pc` of function `f` is a write whose lanes that are off nobody reads again: it need not keep them.
    pub fn is_free(&self, f: usize, pc: usize, instr: &Instr) -> bool
        requires { pc < 18446744073709551615 }
        ensures { result ≡ is_free (row_at (rows_of self.now) f pc) (row_at (rows_of self.now) f (pc + 1)) instr.now }
    {
        let lines = self.lines(f);
        match written(instr) {
            None => false,
            Some(write) => Row::at(lines, pc).all_stay_in(write, Row::at(lines, pc + 1).read),
        }
    }

    /// Whether instruction `pc` of function `f` can be left out: it cannot trap, and writes a vector that nobody reads again.
    pub fn is_useless(&self, f: usize, pc: usize, instr: &Instr) -> bool
        requires { pc < 18446744073709551615 }
        ensures { result ≡ is_useless (row_at (rows_of self.now) f (pc + 1)) instr.now }
    {
        Row::at(self.lines(f), pc + 1).lets_go(instr)
    }
}
