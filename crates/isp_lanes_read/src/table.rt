//! The tables of some code: what is known of its masks, and which lanes are read, before each instruction.
ghost use Rattle.std.specs.Prelude.{◌≡◌, map};
ghost use Rattle.isp_lanes_read.specs.Rows.{row_in, row_of, rows_of, seen_row, table_at};
ghost use Rattle.isp_lanes_read.specs.reader.Known.{same_set};

/// A set of lanes, as a function names it.
#[derive(Clone, Copy)]
pub enum LaneSet {
    /// The lanes of a mask register.
    Mask(u32),
    /// All lanes of the gang.
    Gang,
    /// The lanes for which the function was called, whatever has become of its first mask.
    Call,
    /// No lane.
    Nobody,
}

impl LaneSet {
    /// Whether two names are the same.
    pub fn is(self, other: LaneSet) -> bool
        ensures { result ≡ same_set self other }
    {
        match (self, other) {
            (LaneSet::Mask(k), LaneSet::Mask(j)) => k == j,
            (LaneSet::Gang, LaneSet::Gang) => true,
            (LaneSet::Call, LaneSet::Call) => true,
            (LaneSet::Nobody, LaneSet::Nobody) => true,
            _ => false,
        }
    }
}

/// Each lane of one set is in another.
#[derive(Clone, Copy)]
pub struct Inclusion {
    pub part: LaneSet,
    pub whole: LaneSet,
}

/// The lanes of a vector register, by number, that may still be read, or that an instruction reads or writes.
#[derive(Clone, Copy)]
pub struct Reading {
    pub vector: u32,
    pub lanes: LaneSet,
}

/// What a table says before an instruction: which sets lie in which, and the lanes that may be read from there on.
#[derive(Drop)]
pub struct Line {
    pub within: Vec<Inclusion>,
    pub read: Vec<Reading>,
}

/// The table of a function, a line for each instruction.
#[derive(Drop)]
pub struct Table {
    pub lines: Vec<Line>,
}

/// The tables of some code, one for each function.
#[derive(Drop)]
pub struct Tables {
    pub functions: Vec<Table>,
}

/// A line that is looked at; where there is none, nothing is known and no lane is read.
#[derive(Clone, Copy)]
pub(crate) struct Row<'a> {
    pub within: &'a [Inclusion],
    pub read: &'a [Reading],
}

impl<'a> Row<'a> {
    // The line before an instruction.
    pub(crate) fn at(lines: &'a [Line], pc: usize) -> Row<'a>
        ensures { seen_row result ≡ row_in (map row_of lines.now) pc }
    {
        match lines.get(pc) {
            Some(line) => Row {
                within: line.within.as_slice(),
                read: line.read.as_slice(),
            },
            None => Row {
                within: &[],
                read: &[],
            },
        }
    }
}

impl Tables {
    // The lines of a function.
    pub(crate) fn lines(&self, f: usize) -> &[Line]
        ensures { map row_of result.now ≡ table_at (rows_of self.now) f }
    {
        match self.functions.get(f) {
            Some(table) => table.lines.as_slice(),
            None => &[],
        }
    }
}
