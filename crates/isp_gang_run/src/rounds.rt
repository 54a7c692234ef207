//! Bodies that run over each of a list of sets: `foreach` and `foreach_active`.
ghost use Rattle.std.specs.Prelude.{◌≡◌, [], map, IfErr, OnOk, true};
ghost use Rattle.isp_base.specs.Maps.{on};
ghost use Rattle.isp_base.specs.Sets.{flag_of};
ghost use Rattle.isp_base.specs.Types.{gang_width};
ghost use Rattle.isp_base.specs.Values.{wrap};
ghost use Rattle.isp_base.specs.declared.types.Elem.TheVariants as Elem;
ghost use Rattle.isp_typed.specs.Views.{ranges_of};
ghost use Rattle.isp_meaning.specs.Rounds.{set_indices};
ghost use Rattle.isp_gang_values.specs.Left.{indices_now, is_ready, members_now, number_now, numbers_below, range_seen};
ghost use Rattle.isp_gang_values.specs.Seen.{map_of};
ghost use Rattle.isp_gang_run.specs.Due.{Leaves, LeavesOf, bounds_due, each_due, own};
ghost use Rattle.isp_gang_run.specs.Foreach.{actives, begins, bounds_from, foreaches};
ghost use Rattle.isp_gang_run.specs.Tasks.{Changes, Comes, does};
ghost use Rattle.isp_gang_run.specs.declared.state.Stop.TheVariants as Stop;
ghost use Rattle.isp_gang_run.specs.declared.tasks.Task.TheVariants as Task;

use crate::counting::counted;
use crate::state::{Evaluator, Sets, Stop};
use crate::tasks::Task;
use isp_base::{Gang, Rate};
use isp_gang_values::computed::Computed;
use isp_gang_values::numbers::int;
use isp_gang_values::ranges::{Range, advance, carry, has_number, index_at, is_ready, reset};
use isp_gang_values::row::Row;
use isp_gang_values::sets::{Active, WIDEST, alone, lowest, nobody, without};
use isp_typed::{TypedRange, TypedStmt};

/// The ranges of a `foreach` whose bounds were found, the one whose bounds come next, and those after it.
#[derive(Drop)]
pub struct Bounds<'a> {
    pub range: &'a TypedRange,
    pub rest: &'a [TypedRange],
    pub done: Vec<Range>,
    pub body: &'a TypedStmt,
    pub set: Active,
}

/// The runs of a `foreach` that are left.
#[derive(Drop)]
pub struct Rounds<'a> {
    pub ranges: Vec<Range>,
    pub body: &'a TypedStmt,
    pub set: Active,
}

/// The members of a set that are left, each alone.
#[derive(Clone, Copy)]
pub struct Members<'a> {
    pub index: usize,
    pub body: &'a TypedStmt,
    pub left: Active,
    pub set: Active,
}

// ---- bounds

impl<'a> Evaluator<'a> {
    /// A `foreach`: its bounds come first.
    #[tactic(auto, using(crate::proofs::Foreach::foreach_comes))]
    pub fn foreach(
        &mut self,
        ranges: &'a [TypedRange],
        body: &'a TypedStmt,
        set: Active,
    ) -> Result<(), Stop>
        ensures ok { OnOk result (Comes self.old self.new (foreaches self.old (ranges_of ranges.now) body.entry (flag_of set))) }
        ensures fewer { OnOk result (Leaves self.old self.new (own self.old bounds_due (ranges_of ranges.now) [] body.entry)) }
        ensures err { IfErr result (λ e. e ≡ Stop.Memory) }
    {
        self.work.tick();
        let done = Vec::new(self.alloc);
        self.bounds(ranges, done, body, set)?;
        Ok(())
    }

    // The bounds that are left, then the runs.
    fn bounds(
        &mut self,
        rest: &'a [TypedRange],
        done: Vec<Range>,
        body: &'a TypedStmt,
        set: Active,
    ) -> Result<(), Stop>
        ensures ok { OnOk result (Comes self.old self.new (bounds_from self.old (ranges_of rest.now) (map range_seen done.items)
            body.entry (flag_of set))) }
        ensures fewer { OnOk result (Leaves self.old self.new (own self.old bounds_due (ranges_of rest.now) (map range_seen done.items) body.entry)) }
        ensures err { IfErr result (λ e. e ≡ Stop.Memory) }
    {
        match rest {
            [] => {
                self.begin_rounds(done, body, set)?;
                Ok(())
            }
            [range, rest @ ..] => {
                let bounds = Bounds {
                    range,
                    rest,
                    done,
                    body,
                    set,
                };
                let bounds = Box::new(self.alloc, bounds)?;
                self.both(Task::Value(&range.start, set), Task::Start(bounds))?;
                Ok(())
            }
        }
    }

    /// The start of a range was found.
    pub fn start(&mut self, bounds: Box<Bounds<'a>>) -> Result<(), Stop>
        ensures ok { OnOk result (Comes self.old self.new (does self.old (Task.Start bounds.entry))) }
        ensures fewer { OnOk result (LeavesOf self.old self.new (Task.Start bounds.entry)) }
        ensures err { IfErr result (λ e. e ≡ Stop.Memory) }
    {
        let start = self.value.sole();
        let range = bounds.range;
        let set = bounds.set;
        self.both(Task::Value(&range.end, set), Task::End { start, bounds })?;
        Ok(())
    }

    /// The end of a range was found.
    pub fn end(&mut self, start: u64, bounds: Box<Bounds<'a>>) -> Result<(), Stop>
        ensures ok { OnOk result (Comes self.old self.new (does self.old (Task.End start bounds.entry))) }
        ensures fewer { OnOk result (LeavesOf self.old self.new (Task.End start bounds.entry)) }
        ensures err { IfErr result (λ e. e ≡ Stop.Memory) }
    {
        let start = int(start);
        let end = int(self.value.sole());
        let Bounds {
            range,
            rest,
            mut done,
            body,
            set,
        } = Box::into_inner(bounds);
        done.push(Range {
            index: range.index,
            start,
            end,
            next: 0,
        })?;
        self.bounds(rest, done, body, set)?;
        Ok(())
    }

    // All bounds were found: the first run begins.
    fn begin_rounds(
        &mut self,
        mut ranges: Vec<Range>,
        body: &'a TypedStmt,
        set: Active,
    ) -> Result<(), Stop>
        ensures ok { OnOk result (Comes self.old self.new (begins self.old (map range_seen ranges.items) body.entry (flag_of set))) }
        ensures fewer { OnOk result (Leaves self.old self.new (own self.old bounds_due [] (map range_seen ranges.items) body.entry)) }
        ensures err { IfErr result (λ e. e ≡ Stop.Memory) }
    {
        let count = counted(self.gang(), ranges.as_slice());
        self.work.add(count);
        reset(&mut ranges, 0);
        let rounds = Rounds { ranges, body, set };
        let rounds = Box::new(self.alloc, rounds)?;
        self.rounds(rounds)?;
        Ok(())
    }
}

// ---- runs

impl<'a> Evaluator<'a> {
    /// The next run, if there is one; afterwards all that came go on.
    pub fn rounds(&mut self, mut rounds: Box<Rounds<'a>>) -> Result<(), Stop>
        ensures ok { OnOk result (Comes self.old self.new (does self.old (Task.Rounds rounds.entry))) }
        ensures fewer { OnOk result (LeavesOf self.old self.new (Task.Rounds rounds.entry)) }
        ensures err { IfErr result (λ e. e ≡ Stop.Memory) }
    {
        carry(&mut rounds.ranges);
        let ready = is_ready(rounds.ranges.as_slice());
        if ready {
            self.round(rounds)?;
            Ok(())
        } else {
            self.leave(Sets::all(&rounds.set));
            Ok(())
        }
    }

    // The run that comes next, then the others.
    fn round(&mut self, mut rounds: Box<Rounds<'a>>) -> Result<(), Stop>
        requires { is_ready rounds.value.ranges.items ≡ true }
        ensures ok { OnOk result (Comes self.old self.new (does self.old (Task.Rounds rounds.entry))) }
        ensures fewer { OnOk result (LeavesOf self.old self.new (Task.Rounds rounds.entry)) }
        ensures err { IfErr result (λ e. e ≡ Stop.Memory) }
    {
        let gang = self.gang();
        let body = rounds.body;
        let members = on_now(gang, &rounds.ranges);
        self.set_indices(&rounds.ranges, &members)?;
        advance(gang, &mut rounds.ranges);
        self.both(Task::Run(body, members), Task::Rounds(rounds))?;
        Ok(())
    }

    // Each index is set for the instances that are on.
    fn set_indices(&mut self, ranges: &Vec<Range>, set: &Active) -> Result<(), Stop>
        ensures ok { OnOk result (Changes self.old self.new (set_indices (flag_of set.now) (indices_now ranges.now.items))) }
        ensures err { IfErr result (λ e. e ≡ Stop.Memory) }
    {
        for place in 0..ranges.len() {
            let range = &ranges[place];
            let is_last = place + 1 == ranges.len();
            let row = index_row(range, is_last, set);
            self.write(range.index, Rate::Varying, set, &Computed::Each(row))?;
        }
        Ok(())
    }

    /// A `foreach_active`: each member comes alone.
    #[tactic(auto, using(crate::proofs::Foreach::active_comes))]
    pub fn foreach_active(
        &mut self,
        index: usize,
        body: &'a TypedStmt,
        set: Active,
    ) -> Result<(), Stop>
        ensures ok { OnOk result (Comes self.old self.new (actives self.old index body.entry (flag_of set))) }
        ensures fewer { OnOk result (Leaves self.old self.new (own self.old each_due body.entry)) }
        ensures err { IfErr result (λ e. e ≡ Stop.Memory) }
    {
        self.work.tick();
        let members = Members {
            index,
            body,
            left: set,
            set,
        };
        let members = Box::new(self.alloc, members)?;
        self.members(members)?;
        Ok(())
    }

    /// The next member alone, if there is one; afterwards all that came go on.
    pub fn members(&mut self, members: Box<Members<'a>>) -> Result<(), Stop>
        ensures ok { OnOk result (Comes self.old self.new (does self.old (Task.Members members.entry))) }
        ensures fewer { OnOk result (LeavesOf self.old self.new (Task.Members members.entry)) }
        ensures err { IfErr result (λ e. e ≡ Stop.Memory) }
    {
        let Members {
            index,
            body,
            left,
            set,
        } = *members;
        match lowest(self.gang(), &left) {
            None => {
                self.leave(Sets::all(&set));
                Ok(())
            }
            Some(instance) => {
                self.work.tick();
                let one = alone(instance);
                let number = Computed::One(instance as u64);
                self.write(index, Rate::Uniform, &one, &number)?;
                let others = Members {
                    index,
                    body,
                    left: without(&left, &one),
                    set,
                };
                let others = Box::new(self.alloc, others)?;
                self.both(Task::Run(body, one), Task::Members(others))?;
                Ok(())
            }
        }
    }
}

// The numbers of an index in the instances of a set: in the last range each has its own.
#[tactic(auto, using(isp_gang_values::proofs::Rows::on_made))]
fn index_row(range: &Range, is_last: bool, set: &Active) -> Row
    ensures { map_of result ≡ on (flag_of set.now) (λ p. wrap Elem.I32 (number_now range.now.next is_last p)) }
{
    let mut row = [None; WIDEST];
    for instance in 0..WIDEST {
        row[instance] = if set[instance] {
            Some(index_at(range, is_last, instance))
        } else {
            None
        };
    }
    row
}

// The instances that are on in the run that comes next.
#[tactic(auto, using(isp_gang_values::proofs::Left::nobody_on))]
fn on_now(gang: Gang, ranges: &Vec<Range>) -> Active
    ensures { flag_of result ≡ members_now (gang_width gang) ranges.now.items }
{
    let count = ranges.len();
    if count == 0 {
        nobody()
    } else {
        on_below(gang, &ranges[count - 1])
    }
}

// The instances whose number from one on is below an end.
#[tactic(auto, using(isp_gang_values::proofs::Left::below_made))]
fn on_below(gang: Gang, range: &Range) -> Active
    ensures { flag_of result ≡ numbers_below (gang_width gang) range.now.next range.now.end }
{
    let mut set = [false; WIDEST];
    for instance in 0..gang.width() {
        set[instance] = has_number(range, instance);
    }
    set
}
