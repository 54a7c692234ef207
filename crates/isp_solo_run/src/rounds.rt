//! The runs of a `foreach`: the gang deals them out, and the instance takes those in which it is.
ghost use Rattle.std.specs.Prelude.{◌≡◌, map, OnOk, true, false};
ghost use Rattle.isp_solo_meaning.specs.Loops.{at_indices};
ghost use Rattle.isp_base.specs.Types.{gang_width};
ghost use Rattle.isp_typed.specs.Views.{ranges_of};
ghost use Rattle.isp_gang_values.specs.Left.{indices_now, is_ready, members_now, numbers_below, range_seen};
ghost use Rattle.isp_solo_run.specs.Tasks.{Begins, Bounded, Changes, DoesTask};
ghost use Rattle.isp_solo_run.specs.declared.tasks.Task.TheVariants as Task;

use crate::state::{How, Single, Stop};
use crate::tasks::Task;
use isp_base::{Gang, Rate};
use isp_gang_values::numbers::int;
use isp_gang_values::ranges::{Range, advance, carry, has_number, index_at, is_ready, reset};
use isp_typed::{TypedRange, TypedStmt};
use std::alloc::AllocError;

/// The ranges of a `foreach` whose bounds were found, the one whose bounds come next, and those after it.
#[derive(Drop)]
pub struct Bounds<'a> {
    pub range: &'a TypedRange,
    pub rest: &'a [TypedRange],
    pub done: Vec<Range>,
    pub body: &'a TypedStmt,
}

/// The runs of a `foreach` that are left.
#[derive(Drop)]
pub struct Rounds<'a> {
    pub ranges: Vec<Range>,
    pub body: &'a TypedStmt,
}

// ---- bounds

impl<'a> Single<'a> {
    /// The bounds that are left, then the runs.
    pub fn bounds(
        &mut self,
        rest: &'a [TypedRange],
        done: Vec<Range>,
        body: &'a TypedStmt,
    ) -> Result<(), Stop>
        ensures { Bounded result self.old self.new (ranges_of rest.now) (map range_seen done.items) body.entry }
    {
        match rest {
            [] => self.begin_rounds(done, body),
            [range, rest @ ..] => {
                let bounds = Bounds {
                    range,
                    rest,
                    done,
                    body,
                };
                match Box::new(self.alloc, bounds) {
                    Ok(bounds) => self.both(Task::Value(&range.start), Task::Start(bounds)),
                    Err(_) => Err(Stop::Memory),
                }
            }
        }
    }

    /// The start of a range was found.
    pub fn start(&mut self, bounds: Box<Bounds<'a>>) -> Result<(), Stop>
        ensures { DoesTask result self.old self.new (Task.Start bounds.entry) }
    {
        let start = self.value;
        let range = bounds.range;
        self.both(Task::Value(&range.end), Task::End { start, bounds })
    }

    /// The end of a range was found.
    pub fn end(&mut self, start: u64, bounds: Box<Bounds<'a>>) -> Result<(), Stop>
        ensures { DoesTask result self.old self.new (Task.End start bounds.entry) }
    {
        let start = int(start);
        let end = int(self.value);
        let Bounds {
            range,
            rest,
            mut done,
            body,
        } = Box::into_inner(bounds);
        let found = Range {
            index: range.index,
            start,
            end,
            next: 0,
        };
        match done.push(found) {
            Ok(()) => self.bounds(rest, done, body),
            Err(_) => Err(Stop::Memory),
        }
    }

    // All bounds were found: the first run begins.
    fn begin_rounds(&mut self, mut ranges: Vec<Range>, body: &'a TypedStmt) -> Result<(), Stop>
        ensures { Begins result self.old self.new (map range_seen ranges.items) body.entry }
    {
        reset(&mut ranges, 0);
        match Box::new(self.alloc, Rounds { ranges, body }) {
            Ok(rounds) => self.later(Task::Rounds(rounds)),
            Err(_) => Err(Stop::Memory),
        }
    }
}

// ---- runs

impl<'a> Single<'a> {
    /// The next run, if there is one; else the loop ends.
    pub fn rounds(&mut self, mut rounds: Box<Rounds<'a>>) -> Result<(), Stop>
        ensures { DoesTask result self.old self.new (Task.Rounds rounds.entry) }
    {
        carry(&mut rounds.ranges);
        let ready = is_ready(rounds.ranges.as_slice());
        if ready {
            self.round(rounds)
        } else {
            self.leave(How::Going)
        }
    }

    // The run that comes next, then the others.
    fn round(&mut self, rounds: Box<Rounds<'a>>) -> Result<(), Stop>
        requires { is_ready rounds.value.ranges.items ≡ true }
        ensures { DoesTask result self.old self.new (Task.Rounds rounds.entry) }
    {
        let on = is_on(
            self.setting.program.gang,
            self.setting.instance,
            &rounds.ranges,
        );
        if on {
            self.own_round(rounds)
        } else {
            self.other_round(rounds)
        }
    }

    // The instance is in the run.
    fn own_round(&mut self, mut rounds: Box<Rounds<'a>>) -> Result<(), Stop>
        requires ready { is_ready rounds.value.ranges.items ≡ true }
        requires on { members_now (gang_width self.old.setting.program.now.gang) rounds.value.ranges.items self.old.setting.instance ≡ true }
        ensures { DoesTask result self.old self.new (Task.Rounds rounds.entry) }
    {
        let body = rounds.body;
        match self.set_indices(&rounds.ranges) {
            Ok(()) => {
                advance(self.setting.program.gang, &mut rounds.ranges);
                self.both(Task::Run(body), Task::Rounds(rounds))
            }
            Err(_) => Err(Stop::Memory),
        }
    }

    // It is not.
    fn other_round(&mut self, mut rounds: Box<Rounds<'a>>) -> Result<(), Stop>
        requires ready { is_ready rounds.value.ranges.items ≡ true }
        requires on { members_now (gang_width self.old.setting.program.now.gang) rounds.value.ranges.items self.old.setting.instance ≡ false }
        ensures { DoesTask result self.old self.new (Task.Rounds rounds.entry) }
    {
        advance(self.setting.program.gang, &mut rounds.ranges);
        self.later(Task::Rounds(rounds))
    }

    // Each index has its number in the run.
    fn set_indices(&mut self, ranges: &Vec<Range>) -> Result<(), AllocError>
        ensures { OnOk result (Changes self.old self.new (at_indices self.old.setting.instance (indices_now ranges.now.items))) }
    {
        for place in 0..ranges.len() {
            let range = &ranges[place];
            let is_last = place + 1 == ranges.len();
            let bits = index_at(range, is_last, self.setting.instance);
            self.write(range.index, Rate::Varying, bits)?;
        }
        Ok(())
    }
}

// Whether an instance is in the run that comes next.
fn is_on(gang: Gang, instance: usize, ranges: &Vec<Range>) -> bool
    ensures { result ≡ members_now (gang_width gang) ranges.now.items instance }
{
    let count = ranges.len();
    if count == 0 {
        false
    } else {
        is_below(gang, instance, &ranges[count - 1])
    }
}

// Whether it is of the gang, and its number below an end.
fn is_below(gang: Gang, instance: usize, range: &Range) -> bool
    ensures { result ≡ numbers_below (gang_width gang) range.now.next range.now.end instance }
{
    instance < gang.width() && has_number(range, instance)
}
