//! The check of the tables of some code.
ghost use Rattle.std.specs.Prelude.{◌≡◌, ◌+◌, ◌<◌, length, map, slice_get, None, Some, IsTrue};
ghost use Rattle.std.specs.List.{list_all};
ghost use Rattle.isp_code.specs.Listing.{routine_of};
ghost use Rattle.isp_lanes_read.specs.Laws.{FreeWrites, MasksHold, RunsAgree};
ghost use Rattle.isp_lanes_read.specs.Rows.{row_in, row_of, rows_of};
ghost use Rattle.isp_lanes_read.specs.Standing.{routine_gives, takes_lanes};
ghost use Rattle.isp_lanes_read.specs.reader.Passing.{at_head, begins_so, call_passes, edge_passes, edges, function_passes, functions_pass, if_passed, if_taken, is_empty, is_full, line_passes, lines_pass, passes, reads_pass};

use crate::bound::set_of;
use crate::known::{Known, is_plain};
use crate::reads::{gives_lanes, is_vector};
use crate::table::{Inclusion, LaneSet, Line, Row, Tables};
use isp_code::{Code, Function, Instr, JumpTest, Register};

fn is_empty(mask: Register) -> Option<Inclusion>
    ensures { result ≡ is_empty mask }
{
    Some(Inclusion {
        part: set_of(mask),
        whole: LaneSet::Nobody,
    })
}

fn is_full(mask: Register) -> Option<Inclusion>
    ensures { result ≡ is_full mask }
{
    Some(Inclusion {
        part: LaneSet::Gang,
        whole: set_of(mask),
    })
}

// What is known of a mask where a jump goes to its target.
pub(crate) fn if_taken(test: JumpTest, mask: Register) -> Option<Inclusion>
    ensures { result ≡ if_taken test mask }
{
    match test {
        JumpTest::Off => is_empty(mask),
        JumpTest::All => is_full(mask),
        _ => None,
    }
}

// And where it goes on.
pub(crate) fn if_passed(test: JumpTest, mask: Register) -> Option<Inclusion>
    ensures { result ≡ if_passed test mask }
{
    match test {
        JumpTest::On => is_empty(mask),
        _ => None,
    }
}

fn takes_lanes(to: Option<Register>) -> bool
    ensures { result ≡ takes_lanes to }
{
    match to {
        None => false,
        Some(d) => is_vector(d),
    }
}

// A set where a call begins.
fn at_head(set: LaneSet) -> LaneSet
    ensures { result ≡ at_head set }
{
    match set {
        LaneSet::Mask(0) => LaneSet::Call,
        LaneSet::Mask(_) => LaneSet::Nobody,
        _ => set,
    }
}

/// Whether an inclusion holds where a call begins.
pub(crate) fn begins_so(x: Inclusion) -> bool
    ensures { result ≡ begins_so x }
{
    is_plain(at_head(x.part), at_head(x.whole))
}

// Whether what a line tells of sets is so there.
fn all_begin_so(within: &[Inclusion]) -> bool
    ensures { result ≡ list_all begins_so within.now }
{
    for x in within {
        if !begins_so(*x) {
            return false;
        }
    }
    true
}

// A function of some code, with the lines of its table.
#[derive(Clone, Copy)]
struct Checker<'a> {
    code: &'a Code,
    function: &'a Function,
    lines: &'a [Line],
}

impl<'a> Checker<'a> {
    // Whether the line before an instruction leads to that at another, to which control goes.
    fn edge_passes(&self, pc: usize, instr: &Instr, to: usize, more: Option<Inclusion>) -> bool
        ensures { result ≡ edge_passes (map row_of self.now.lines.now) (row_in (map row_of self.now.lines.now) pc) instr.now (record { to = to; more = more }) }
    {
        let known = Known {
            row: Row::at(self.lines, pc),
            more,
        };
        let next = Row::at(self.lines, to);
        known.all_follow(instr, next.within) && known.all_come(instr, next.read)
    }

    fn edges_pass(&self, pc: usize, instr: &Instr) -> bool
        requires { pc < length self.now.function.now.code.items }
        ensures { result ≡ list_all (edge_passes (map row_of self.now.lines.now) (row_in (map row_of self.now.lines.now) pc) instr.now) (edges pc instr.now) }
    {
        match instr {
            Instr::Jump { target } => self.edge_passes(pc, instr, *target as usize, None),
            Instr::JumpIf {
                test,
                register,
                target,
            } => {
                self.edge_passes(pc, instr, *target as usize, if_taken(*test, *register))
                    && self.edge_passes(pc, instr, pc + 1, if_passed(*test, *register))
            }
            Instr::Return(_) => true,
            _ => self.edge_passes(pc, instr, pc + 1, None),
        }
    }

    fn reads_pass(&self, pc: usize, instr: &Instr) -> bool
        requires { pc < length self.now.function.now.code.items }
        ensures { result ≡ reads_pass (row_in (map row_of self.now.lines.now) pc) (row_in (map row_of self.now.lines.now) (pc + 1)) (routine_of self.now.function.now) instr.now }
    {
        Row::at(self.lines, pc + 1).lets_go(instr)
            || Row::at(self.lines, pc).has_operands(self.function, instr)
    }

    fn callee_gives(&self, f: u32) -> bool
        ensures { result ≡ routine_gives (slice_get self.now.code.now.routines f) }
    {
        match self.code.functions().get(f as usize) {
            None => false,
            Some(callee) => gives_lanes(callee.returns),
        }
    }

    // Whether a call takes lanes only from a function that gives them, and such a function gives something.
    fn call_passes(&self, instr: &Instr) -> bool
        ensures { result ≡ call_passes self.now.code.now (routine_of self.now.function.now) instr.now }
    {
        match instr {
            Instr::Call(call) => {
                !takes_lanes(call.get().result) || self.callee_gives(call.get().function)
            }
            Instr::Return(back) => !gives_lanes(self.function.returns) || back.is_some(),
            _ => true,
        }
    }

    fn line_passes(&self, pc: usize, instr: &Instr) -> bool
        requires { pc < length self.now.function.now.code.items }
        ensures { result ≡ line_passes self.now.code.now (map row_of self.now.lines.now) (routine_of self.now.function.now) pc instr.now }
    {
        self.reads_pass(pc, instr) && self.call_passes(instr) && self.edges_pass(pc, instr)
    }

    fn lines_pass(&self) -> bool
        ensures { result ≡ lines_pass self.now.code.now (map row_of self.now.lines.now) (routine_of self.now.function.now) 0 self.now.function.now.code.items }
    {
        for (pc, instr) in self.function.code.iter().enumerate() {
            if !self.line_passes(pc, instr) {
                return false;
            }
        }
        true
    }

    fn passes(&self) -> bool
        ensures { result ≡ function_passes self.now.code.now (map row_of self.now.lines.now) (routine_of self.now.function.now) }
    {
        all_begin_so(Row::at(self.lines, 0).within) && self.lines_pass()
    }
}

// Whether the lines of each function pass.
fn all_pass(code: &Code, tables: &Tables) -> bool
    ensures { result ≡ passes code.now (rows_of tables.now) }
{
    let functions = code.functions();
    for (f, function) in functions.iter().enumerate() {
        let checker = Checker {
            code,
            function,
            lines: tables.lines(f),
        };
        if !checker.passes() {
            return false;
        }
    }
    true
}

/// Whether tables are right for some code: by one condition for each instruction, on the lines before it and where control goes
/// on. Where the answer is true, what they say of masks is so wherever a run stands, and no run's outcome depends on lanes that
/// nobody reads, by these tables.
pub fn check(code: &Code, tables: &Tables) -> bool
    ensures exact { result ≡ passes code.now (rows_of tables.now) }
    ensures masks { IsTrue result → MasksHold code.now (rows_of tables.now) }
    ensures runs { IsTrue result → RunsAgree code.now (rows_of tables.now) }
    ensures writes { FreeWrites code.now (rows_of tables.now) }
{
    all_pass(code, tables)
}
