//! What the instructions of a run come to.
ghost use Rattle.std.specs.Prelude.{◌≡◌, ◌<◌, ◌≤◌, ℕ, [], IfOk, IfSome, length, replicate, get_or, slice_set};
ghost use Rattle.isp_traces.specs.Named.{group_of};
ghost use Rattle.isp_traces.specs.Tallies.{lanes_of, nothing};
ghost use Rattle.isp_traces.specs.reader.Adding.{Adds, AddsIf, HasRoom, HaveRoom, added_there, one, plus};

use crate::counting::Executed;
use std::alloc::{AllocError, Global};

/// What some instructions come to. `lanes_on` has 128 bits, so no run that a budget allows is too long for it.
#[derive(Clone, Copy, Debug, PartialEq, Eq)]
pub struct Tally {
    /// How many there are.
    pub instructions: u64,
    /// How many of them stand under a mask: K in the table of docs/MACHINE.md.
    pub masked: u64,
    /// How many lanes are on in these masks, all together.
    pub lanes_on: u128,
}

impl Tally {
    /// That of no instruction.
    pub fn nothing() -> Tally
        ensures { result ≡ nothing }
    {
        Tally {
            instructions: 0,
            masked: 0,
            lanes_on: 0,
        }
    }

    /// How many lanes these masks have, all together, in a gang of so many.
    pub fn lanes(self, width: usize) -> u128
        requires { width ≤ 64 }
        ensures { result ≡ lanes_of width self }
    {
        u128::from(self.masked) * width as u128
    }

    // One more instruction, with so many lanes on in its mask, if it has one.
    fn add(&mut self, on: Option<u32>)
        requires { HasRoom self.old }
        ensures { self.new ≡ plus self.old (one on) }
    {
        self.instructions += 1;
        if let Some(on) = on {
            self.masked += 1;
            self.lanes_on += u128::from(on);
        }
    }
}

/// Places of the source in groups, as those of one line are: the group of each place, by its number, and how many groups there
/// are, numbered from 0. A place that has no group here, or one that is not there, is in none.
#[derive(Debug, Drop)]
pub struct Grouping {
    pub of_places: Vec<usize>,
    pub count: usize,
}

impl Grouping {
    /// No groups.
    pub fn none(alloc: Global) -> Grouping
        ensures { (result.of_places.items ≡ []) × (result.count ≡ 0) }
    {
        Grouping {
            of_places: Vec::new(alloc),
            count: 0,
        }
    }
}

/// The group of each place, and what the instructions that name a place of each group come to.
#[derive(Debug, Drop)]
pub struct Groups {
    pub of_places: Vec<usize>,
    pub tallies: Vec<Tally>,
}

impl Groups {
    // Groups in which no instruction is counted yet.
    fn nothing(alloc: Global, grouping: Grouping) -> Result<Groups, AllocError>
        ensures places { IfOk result (λ g. g.of_places ≡ grouping.of_places) }
        ensures tallies { IfOk result (λ g. g.tallies.items ≡ replicate grouping.count nothing) }
    {
        Ok(Groups {
            of_places: grouping.of_places,
            tallies: nothings(alloc, grouping.count)?,
        })
    }

    // The group of a place.
    fn of(&self, place: Option<u32>) -> Option<usize>
        ensures { result ≡ group_of self.now.of_places.items place }
    {
        let place = place?;
        self.of_places.get(place as usize).copied()
    }
}

/// What the instructions of a run come to: all of them, those of each function, by its number, those of each kind, in
/// the order of `Kind::ALL`, and those of each group of places.
#[derive(Debug, Drop)]
pub struct Counts {
    pub total: Tally,
    pub functions: Vec<Tally>,
    pub kinds: Vec<Tally>,
    pub groups: Groups,
}

// So many times nothing.
fn nothings(alloc: Global, count: usize) -> Result<Vec<Tally>, AllocError>
    ensures { IfOk result (λ v. v.items ≡ replicate count nothing) }
{
    let mut tallies = Vec::new(alloc);
    tallies.resize(count, Tally::nothing())?;
    Ok(tallies)
}

// One more instruction in one of the tallies.
fn add_at(tallies: &mut [Tally], at: usize, on: Option<u32>)
    requires there { at < length tallies.old }
    requires room { HasRoom (get_or tallies.old at nothing) }
    ensures { tallies.new ≡ slice_set tallies.old at (plus (get_or tallies.old at nothing) (one on)) }
{
    let mut tally = tallies[at];
    tally.add(on);
    tallies[at] = tally;
}

// The same in the tally of a number that is there, if there is a number.
fn add_there(tallies: &mut [Tally], number: Option<usize>, on: Option<u32>)
    requires room { (p : ℕ) → p < length tallies.old → HasRoom (get_or tallies.old p nothing) }
    ensures { tallies.new ≡ added_there tallies.old number on }
{
    if let Some(number) = number {
        if number < tallies.len() {
            add_at(tallies, number, on);
        }
    }
}

impl Counts {
    // Those of no instruction, of code with so many functions, and of groups of places.
    pub(crate) fn nothing(
        alloc: Global,
        functions: usize,
        grouping: Grouping,
    ) -> Result<Counts, AllocError>
        ensures total { IfOk result (λ c. c.total ≡ nothing) }
        ensures functions { IfOk result (λ c. c.functions.items ≡ replicate functions nothing) }
        ensures kinds { IfOk result (λ c. c.kinds.items ≡ replicate 8 nothing) }
        ensures groups { IfOk result (λ c. c.groups.tallies.items ≡ replicate grouping.count nothing) }
        ensures places { IfOk result (λ c. c.groups.of_places ≡ grouping.of_places) }
    {
        Ok(Counts {
            total: Tally::nothing(),
            functions: nothings(alloc, functions)?,
            kinds: nothings(alloc, 8)?,
            groups: Groups::nothing(alloc, grouping)?,
        })
    }

    // One more instruction.
    fn add(&mut self, executed: Executed)
        requires function { executed.function < length self.old.functions.items }
        requires room { HaveRoom self.old }
        ensures { Adds executed self.old self.new }
    {
        self.total.add(executed.on);
        add_at(&mut self.functions, executed.function, executed.on);
        add_at(&mut self.kinds, executed.kind.number(), executed.on);
        let group = self.groups.of(executed.place);
        add_there(&mut self.groups.tallies, group, executed.on);
    }

    // The same where there is one.
    pub(crate) fn add_if(&mut self, executed: Option<Executed>)
        requires function { IfSome executed (λ e. e.function < length self.old.functions.items) }
        requires room { HaveRoom self.old }
        ensures { AddsIf executed self.old self.new }
    {
        if let Some(executed) = executed {
            self.add(executed);
        }
    }
}
