//! What follows from a line of a table by one step: which sets lie in which, and which lanes are read.
ghost use Rattle.std.specs.Prelude.{◌≡◌};
ghost use Rattle.isp_lanes_read.specs.Rows.{seen_row};
ghost use Rattle.isp_lanes_read.specs.reader.Known.{is_plain, is_listed, in_row, through, implied, is_reading, covers};
ghost use Rattle.std.specs.List.{list_any};

use crate::table::{Inclusion, LaneSet, Row};

// Each set lies in itself and in the gang, and the empty one in each.
pub(crate) fn is_plain(part: LaneSet, whole: LaneSet) -> bool
    ensures { result ≡ is_plain part whole }
{
    part.is(whole) || whole.is(LaneSet::Gang) || part.is(LaneSet::Nobody)
}

impl<'a> Row<'a> {
    fn is_listed(&self, part: LaneSet, whole: LaneSet) -> bool
        ensures { result ≡ is_listed (seen_row self.now) part whole }
    {
        self.within
            .iter()
            .any(|x| x.part.is(part) && x.whole.is(whole))
    }

    /// Whether a line tells that each lane of one set is in another.
    pub(crate) fn tells(&self, part: LaneSet, whole: LaneSet) -> bool
        ensures { result ≡ in_row (seen_row self.now) part whole }
    {
        is_plain(part, whole)
            || self.is_listed(part, whole)
            || self.is_listed(part, LaneSet::Nobody)
            || self.is_listed(LaneSet::Gang, whole)
    }
}

/// What is known at a line, with one more inclusion that a jump tells.
#[derive(Clone, Copy)]
pub(crate) struct Known<'a> {
    pub row: Row<'a>,
    pub more: Option<Inclusion>,
}

impl<'a> Known<'a> {
    fn through(&self, part: LaneSet, whole: LaneSet) -> bool
        ensures { result ≡ through (seen_row self.now.row) self.now.more part whole }
    {
        match self.more {
            None => false,
            Some(x) => self.row.tells(part, x.part) && self.row.tells(x.whole, whole),
        }
    }

    /// Whether each lane of one set is in another.
    pub(crate) fn implies(&self, part: LaneSet, whole: LaneSet) -> bool
        ensures { result ≡ implied (seen_row self.now.row) self.now.more part whole }
    {
        self.row.tells(part, whole) || self.through(part, whole)
    }

    fn is_read(&self, vector: u32, lanes: LaneSet) -> bool
        ensures { result ≡ list_any (is_reading (seen_row self.now.row) self.now.more vector lanes) self.now.row.read.now }
    {
        for r in self.row.read {
            if r.vector == vector && self.implies(lanes, r.lanes) {
                return true;
            }
        }
        false
    }

    /// Whether lanes of a vector are among those that may be read.
    pub(crate) fn covers(&self, vector: u32, lanes: LaneSet) -> bool
        ensures { result ≡ covers (seen_row self.now.row) self.now.more vector lanes }
    {
        self.implies(lanes, LaneSet::Nobody) || self.is_read(vector, lanes)
    }
}
