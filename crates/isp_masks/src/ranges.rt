//! What the code of `foreach` has besides its body: what all runs use, the bounds, and of each range its place and its index.
ghost use Rattle.std.specs.Prelude.{◌≡◌, ◌<◌, ◌+◌, ◌∷◌, [], length, IfOk, OnOk};
ghost use Rattle.isp_base.specs.declared.operators.Compare.TheVariants.{Less, LessOrEqual};
ghost use Rattle.isp_base.specs.declared.types.Elem.TheVariants.{Bool as Truth, I32, I64};
ghost use Rattle.isp_base.specs.declared.types.Rate.TheVariants.{Uniform, Varying};
ghost use Rattle.isp_code.specs.declared.instr.Instr.TheVariants as instr;
ghost use Rattle.isp_code.specs.declared.instr.Plain.TheVariants as plain;
ghost use Rattle.isp_typed.specs.Views.{expr_of, ranges_of};
ghost use Rattle.isp_lower_code.specs.Asks.{Register as Ask, spare_ask};
ghost use Rattle.isp_lower_code.specs.Instructions.{compare, compute, constant, convert, copy, splat};
ghost use Rattle.isp_lower_code.specs.Spans.{expr_places};
ghost use Rattle.isp_lower.specs.Emitted.{Appends, Present, layout};
ghost use Rattle.isp_lower_code.specs.Layout.{mask_register};
ghost use Rattle.isp_lower_code.specs.Rows.{Variable};
ghost use Rattle.isp_masks_code.specs.Asks.{bound_asks, bounds_asks, measures_asks};
ghost use Rattle.isp_masks_code.specs.Ranges.{bound_code, bounds_code, full_back, goes_on, index_step, lane, lane_numbers, last_index, measures_code, narrow, next_from, range_mask, ranges_places, refill, run_place, runs_slot, sum_lanes, test, wide};
ghost use Rattle.isp_masks.specs.Written.{first_sweep, index_codes, indices_at, inner_sweep, last_asks, place_test, range_begin, range_step, runs_begin, sweep_asks};

use crate::looping::next;
use crate::rounds::fill_mask;
use isp_base::{Compare, Elem, Rate, Ty, number};
use isp_code::{Instr, JumpTest, MaskInstr, Plain, Reduction, ScalarInstr, VectorInstr};
use isp_lower::{Body, Line, Scope, Site, index as as_index, mask, scalar, vector};
use isp_registers::{MaskNumber, RegisterNumber, Slot};
use isp_typed::{TypedExpr, TypedRange};
use std::alloc::AllocError;

/// A range at work: the slot of what all runs use, that of the body's first mask, and those of its bounds and of its place.
#[derive(Clone, Copy)]
pub(crate) struct Sweep {
    pub measures: Slot,
    pub masks: Slot,
    pub bounds: Slot,
    pub place: Slot,
}

impl Sweep {
    /// The first range of all.
    #[tactic(auto, using(crate::proofs::RangesWritten::ranges_count))]
    pub(crate) fn first(slot: Slot, all: &[TypedRange]) -> Sweep
        requires { runs_slot slot.number (ranges_of all.now) < 4294967296 }
        ensures { result ≡ first_sweep slot (ranges_of all.now) }
    {
        let count = all.len() as u32;
        let bounds = slot.next().next();
        let place = bounds.plus(count).plus(count);
        Sweep {
            measures: slot,
            masks: place.plus(count).plus(count),
            bounds,
            place,
        }
    }

    /// The range inside, whose bounds and whose place are two slots on.
    pub(crate) fn inner(self) -> Sweep
        requires bounds { self.bounds.number + 1 + 1 < 4294967296 }
        requires place { self.place.number + 1 + 1 < 4294967296 }
        ensures { result ≡ inner_sweep self }
    {
        Sweep {
            measures: self.measures,
            masks: self.masks,
            bounds: self.bounds.next().next(),
            place: self.place.next().next(),
        }
    }
}

/// The index of a range outside: its register, and that of its value as int32.
#[derive(Clone, Copy)]
pub(crate) struct OuterIndex {
    pub index: RegisterNumber,
    pub value: RegisterNumber,
}

// ---- registers

/// A scalar of a slot for int64.
pub(crate) fn wide(on: &Scope, slot: Slot) -> RegisterNumber
    requires { Present on.now (spare_ask Uniform I64 slot.number) }
    ensures { result.number ≡ wide (layout on.now) slot.number }
{
    on.spare(Rate::Uniform, Elem::I64, slot)
}

/// A scalar of a slot for int32.
pub(crate) fn narrow(on: &Scope, slot: Slot) -> RegisterNumber
    requires { Present on.now (spare_ask Uniform I32 slot.number) }
    ensures { result.number ≡ narrow (layout on.now) slot.number }
{
    on.spare(Rate::Uniform, Elem::I32, slot)
}

/// A vector of a slot for int32.
pub(crate) fn lane(on: &Scope, slot: Slot) -> RegisterNumber
    requires { Present on.now (spare_ask Varying I32 slot.number) }
    ensures { result.number ≡ lane (layout on.now) slot.number }
{
    on.spare(Rate::Varying, Elem::I32, slot)
}

/// A scalar of a slot for what a test gives.
pub(crate) fn tested(on: &Scope, slot: Slot) -> RegisterNumber
    requires { Present on.now (spare_ask Uniform Truth slot.number) }
    ensures { result.number ≡ test (layout on.now) slot.number }
{
    on.spare(Rate::Uniform, Elem::Bool, slot)
}

/// The vector of an index.
pub(crate) fn index(on: &Scope, variable: usize) -> RegisterNumber
    requires { Present on.now (Ask Varying (Variable variable) I32) }
    ensures { result.number ≡ (layout on.now).variable Varying variable }
{
    let ty = Ty {
        rate: Rate::Varying,
        elem: Elem::I32,
    };
    on.variable(variable, ty)
}

// ---- instructions

/// A scalar gets 1.
fn one(to: RegisterNumber, elem: Elem) -> Instr
    ensures { result ≡ constant to.number elem 1 }
{
    Instr::Scalar {
        result: scalar(to),
        instr: ScalarInstr::Constant(number(elem, 1)),
    }
}

/// A scalar gets what another has.
fn moved(to: RegisterNumber, from: RegisterNumber) -> Instr
    ensures { result ≡ copy Uniform to.number from.number 0 }
{
    Instr::Scalar {
        result: scalar(to),
        instr: ScalarInstr::Copy(scalar(from)),
    }
}

/// A scalar gets what another has, as a value of its type.
pub(crate) fn converted(to: RegisterNumber, from: RegisterNumber) -> Instr
    ensures { result ≡ convert Uniform to.number from.number 0 }
{
    Instr::Scalar {
        result: scalar(to),
        instr: ScalarInstr::Convert(scalar(from)),
    }
}

/// A scalar gets the sum of two.
fn added(to: RegisterNumber, left: RegisterNumber, right: RegisterNumber) -> Instr
    ensures { result ≡ compute Uniform plain.Add to.number left.number right.number 0 }
{
    Instr::Scalar {
        result: scalar(to),
        instr: ScalarInstr::Binary {
            op: Plain::Add,
            left: scalar(left),
            right: scalar(right),
        },
    }
}

/// A scalar gets what one has beyond another.
fn subtracted(to: RegisterNumber, left: RegisterNumber, right: RegisterNumber) -> Instr
    ensures { result ≡ compute Uniform plain.Sub to.number left.number right.number 0 }
{
    Instr::Scalar {
        result: scalar(to),
        instr: ScalarInstr::Binary {
            op: Plain::Sub,
            left: scalar(left),
            right: scalar(right),
        },
    }
}

/// A scalar gets whether one is at most another.
fn at_most(to: RegisterNumber, left: RegisterNumber, right: RegisterNumber) -> Instr
    ensures { result ≡ compare Uniform LessOrEqual to.number left.number right.number 0 }
{
    Instr::Scalar {
        result: scalar(to),
        instr: ScalarInstr::Compare {
            op: Compare::LessOrEqual,
            left: scalar(left),
            right: scalar(right),
        },
    }
}

/// A scalar gets whether one is less than another.
fn less(to: RegisterNumber, left: RegisterNumber, right: RegisterNumber) -> Instr
    ensures { result ≡ compare Uniform Less to.number left.number right.number 0 }
{
    Instr::Scalar {
        result: scalar(to),
        instr: ScalarInstr::Compare {
            op: Compare::Less,
            left: scalar(left),
            right: scalar(right),
        },
    }
}

/// Each lane gets what a scalar has.
pub(crate) fn spread(to: RegisterNumber, from: RegisterNumber, k: MaskNumber) -> Instr
    ensures { result ≡ splat to.number from.number k.number }
{
    Instr::Vector {
        result: vector(to),
        instr: VectorInstr::Splat {
            value: scalar(from),
            mask: mask(k),
        },
    }
}

/// A scalar gets the sum of what the lanes have.
fn sum_lanes(to: RegisterNumber, from: RegisterNumber, k: MaskNumber) -> Instr
    ensures { result ≡ sum_lanes to.number from.number k.number }
{
    Instr::Scalar {
        result: scalar(to),
        instr: ScalarInstr::Reduce {
            op: Reduction::Add,
            vector: vector(from),
            mask: mask(k),
        },
    }
}

/// Each lane gets its number.
fn lane_numbers(to: RegisterNumber, k: MaskNumber) -> Instr
    ensures { result ≡ lane_numbers to.number k.number }
{
    Instr::Vector {
        result: vector(to),
        instr: VectorInstr::Index(mask(k)),
    }
}

/// Each lane gets the sum of what it has in two vectors.
fn added_lanes(
    to: RegisterNumber,
    left: RegisterNumber,
    right: RegisterNumber,
    k: MaskNumber,
) -> Instr
    ensures { result ≡ compute Varying plain.Add to.number left.number right.number k.number }
{
    Instr::Vector {
        result: vector(to),
        instr: VectorInstr::Binary {
            op: Plain::Add,
            left: vector(left),
            right: vector(right),
            mask: mask(k),
        },
    }
}

/// A mask gets the lanes whose numbers, added to a place, are below an end.
pub(crate) fn range_mask(to: MaskNumber, place: RegisterNumber, end: RegisterNumber) -> Instr
    ensures { result ≡ range_mask to.number place.number end.number }
{
    Instr::Mask {
        result: mask(to),
        instr: MaskInstr::Range {
            first: scalar(place),
            end: scalar(end),
        },
    }
}

// ---- what all runs use, and the bounds

/// How many lanes there are, the lanes' numbers, how many there are in each lane, and 1.
pub(crate) fn measures(
    b: &mut Body,
    on: &Scope,
    slot: Slot,
    k: MaskNumber,
) -> Result<(), AllocError>
    requires { Present on.now (measures_asks slot.number) }
    ensures { OnOk result (Appends b.old b.new (λ pc p. measures_code (layout on.now) slot.number k.number) []) }
{
    let second = slot.next();
    let single = narrow(on, slot);
    let each = lane(on, slot);
    let count = wide(on, slot);
    let short = narrow(on, second);
    b.push(fill_mask(k))?;
    b.push(one(single, Elem::I32))?;
    b.push(spread(each, single, k))?;
    b.push(sum_lanes(count, each, k))?;
    b.push(lane_numbers(each, k))?;
    b.push(converted(short, count))?;
    b.push(spread(lane(on, second), short, k))?;
    b.push(one(wide(on, second), Elem::I64))?;
    Ok(())
}

/// A bound, as int64: a constant is loaded as one.
fn bound(b: &mut Body, on: &Scope, x: &TypedExpr, site: Site) -> Result<(), AllocError>
    requires { Present on.now (bound_asks (expr_of x.now) site.slot.number) }
    ensures { OnOk result (Appends b.old b.new (λ pc p. bound_code (layout on.now) (expr_of x.now) pc p site.mask.number site.slot.number) (expr_places (layout on.now) (expr_of x.now))) }
{
    as_index(b, on, Rate::Uniform, x, site)?;
    Ok(())
}

/// The bounds of ranges, from left to right.
pub(crate) fn bounds(
    b: &mut Body,
    on: &Scope,
    all: &[TypedRange],
    site: Site,
) -> Result<(), AllocError>
    requires { Present on.now (bounds_asks (ranges_of all.now) site.slot.number) }
    ensures { OnOk result (Appends b.old b.new (λ pc p. bounds_code (layout on.now) (ranges_of all.now) pc p site.mask.number site.slot.number) (ranges_places (layout on.now) (ranges_of all.now))) }
{
    let mask = site.mask;
    let mut at = site.slot;
    for x in all {
        let second = at.next();
        bound(b, on, &x.start, Site { mask, slot: at })?;
        bound(b, on, &x.end, Site { mask, slot: second })?;
        at = second.next();
    }
    Ok(())
}

// ---- a range before the last

/// Its place is at its start.
pub(crate) fn begin(b: &mut Body, on: &Scope, it: Sweep) -> Result<(), AllocError>
    requires { Present on.now (sweep_asks it) }
    ensures { OnOk result (Appends b.old b.new (λ pc p. range_begin (layout on.now) it ∷ []) []) }
{
    let to = wide(on, it.place);
    let from = wide(on, it.bounds);
    b.push(moved(to, from))?;
    Ok(())
}

/// Whether its place is before its end.
pub(crate) fn test_place(b: &mut Body, on: &Scope, it: Sweep) -> Result<(), AllocError>
    requires { Present on.now (sweep_asks it) }
    ensures { OnOk result (Appends b.old b.new (λ pc p. place_test (layout on.now) it ∷ []) []) }
{
    let to = tested(on, it.place.next());
    let place = wide(on, it.place);
    let end = wide(on, it.bounds.next());
    b.push(less(to, place, end))?;
    Ok(())
}

/// Its place goes on, by what a slot has; and back to its test.
pub(crate) fn go_on(
    b: &mut Body,
    on: &Scope,
    it: Sweep,
    by: Slot,
    top: usize,
) -> Result<(), AllocError>
    requires place { Present on.now (sweep_asks it) }
    requires by { Present on.now (spare_ask Uniform I64 by.number) }
    ensures { OnOk result (Appends b.old b.new (λ pc p. range_step (layout on.now) it by.number ∷ instr.Jump top ∷ []) []) }
{
    let place = wide(on, it.place);
    let step = wide(on, by);
    b.push(added(place, place, step))?;
    b.add(Line::naming(Instr::Jump { target: 0 }, top))?;
    Ok(())
}

// ---- indices

/// The indices of the ranges outside.
fn outer_indices(b: &mut Body, set: &[OuterIndex], k: MaskNumber) -> Result<(), AllocError>
    ensures { OnOk result (Appends b.old b.new (λ pc p. index_codes k.number set.now) []) }
{
    for x in set {
        b.push(spread(x.index, x.value, k))?;
    }
    Ok(())
}

/// The place of a range that has others inside, as int32.
pub(crate) fn outer_value(b: &mut Body, on: &Scope, it: Sweep) -> Result<RegisterNumber, AllocError>
    requires { Present on.now (sweep_asks it) }
    ensures number { IfOk result (λ r. r.number ≡ narrow (layout on.now) (it.place.number + 1)) }
    ensures added { OnOk result (Appends b.old b.new (λ pc p. convert Uniform (narrow (layout on.now) (it.place.number + 1)) (wide (layout on.now) it.place.number) 0 ∷ []) []) }
{
    let value = narrow(on, it.place.next());
    b.push(converted(value, wide(on, it.place)))?;
    Ok(value)
}

// ---- the last range, in runs

/// The register of its place: that of a run, if its body counts the lanes of one.
pub(crate) fn run_place(on: &Scope, variable: usize, it: Sweep) -> RegisterNumber
    requires range { Present on.now (sweep_asks it) }
    requires index { Present on.now (last_asks variable it) }
    ensures { result.number ≡ run_place (layout on.now) ((layout on.now).loaded variable) it.place.number }
{
    if on.copies(Rate::Varying, variable) {
        wide(on, it.place)
    } else {
        on.place()
    }
}

/// Its place is at its start, and whether the run from there has all lanes.
pub(crate) fn begin_runs(
    b: &mut Body,
    on: &Scope,
    it: Sweep,
    place: RegisterNumber,
) -> Result<(), AllocError>
    requires { Present on.now (sweep_asks it) }
    ensures { OnOk result (Appends b.old b.new (λ pc p. runs_begin (layout on.now) it place.number) []) }
{
    let second = it.place.next();
    let last = wide(on, second);
    let end = wide(on, it.bounds.next());
    b.push(moved(place, wide(on, it.bounds)))?;
    b.push(subtracted(last, end, wide(on, it.measures)))?;
    b.push(at_most(tested(on, second), place, last))?;
    Ok(())
}

/// Its index: its place and the lanes' numbers.
fn last_index(
    b: &mut Body,
    on: &Scope,
    variable: usize,
    it: Sweep,
    place: RegisterNumber,
) -> Result<(), AllocError>
    requires range { Present on.now (sweep_asks it) }
    requires index { Present on.now (last_asks variable it) }
    ensures { OnOk result (Appends b.old b.new (λ pc p. last_index (layout on.now) variable place.number it.place.number it.measures.number it.masks.number) []) }
{
    let k = it.masks.mask();
    let second = it.place.next();
    let single = narrow(on, second);
    let each = lane(on, second);
    b.push(converted(single, place))?;
    b.push(spread(each, single, k))?;
    b.push(added_lanes(index(on, variable), each, lane(on, it.measures), k))?;
    Ok(())
}

/// All indices of a run.
pub(crate) fn indices(
    b: &mut Body,
    on: &Scope,
    variable: usize,
    set: &[OuterIndex],
    it: Sweep,
) -> Result<(), AllocError>
    requires range { Present on.now (sweep_asks it) }
    requires index { Present on.now (last_asks variable it) }
    ensures { OnOk result (Appends b.old b.new (λ pc p. indices_at (layout on.now) variable set.now it) []) }
{
    let place = run_place(on, variable, it);
    outer_indices(b, set, it.masks.mask())?;
    last_index(b, on, variable, it, place)?;
    Ok(())
}

/// Whether its index goes on from run to run: no other is set with it, and no packed load writes it.
#[tactic(auto, using(crate::proofs::RangesWritten::goes_on_is))]
pub(crate) fn goes_on(on: &Scope, variable: usize, set: &[OuterIndex]) -> bool
    ensures { result ≡ goes_on ((layout on.now).loaded variable) set.now }
{
    !on.copies(Rate::Varying, variable) && set.is_empty()
}

/// The step of an index that goes on, which the first run jumps over; and where the next run begins: there, or where all
/// indices are set.
pub(crate) fn step_index(
    b: &mut Body,
    on: &Scope,
    variable: usize,
    alone: bool,
    first: usize,
    it: Sweep,
) -> Result<usize, AllocError>
    requires range { Present on.now (sweep_asks it) }
    requires index { Present on.now (last_asks variable it) }
    ensures from { IfOk result (λ to. to ≡ next_from alone first (length b.old.code.items)) }
    ensures added { OnOk result (Appends b.old b.new (λ pc p. index_step (layout on.now) alone variable it.measures.number it.masks.number pc) []) }
{
    if !alone {
        return Ok(first);
    }
    let own = index(on, variable);
    let at = next(b);
    b.push(Instr::Jump { target: 0 })?;
    let step = next(b);
    b.push(added_lanes(own, own, lane(on, it.measures.next()), it.masks.mask()))?;
    b.land_always(at);
    Ok(step)
}

/// A mask has all lanes again, after a body that somebody may leave.
pub(crate) fn fill_again(b: &mut Body, kept: bool, k: MaskNumber) -> Result<(), AllocError>
    ensures { OnOk result (Appends b.old b.new (λ pc p. refill kept k.number) []) }
{
    if !kept {
        b.push(fill_mask(k))?;
    }
    Ok(())
}

/// The place of the next run, and back where it has all lanes.
pub(crate) fn next_full(
    b: &mut Body,
    on: &Scope,
    it: Sweep,
    place: RegisterNumber,
    to: usize,
) -> Result<(), AllocError>
    requires { Present on.now (sweep_asks it) }
    ensures { OnOk result (Appends b.old b.new (λ pc p. full_back (layout on.now) place.number it.place.number it.measures.number to) []) }
{
    let second = it.place.next();
    let full = tested(on, second);
    b.push(added(place, place, wide(on, it.measures)))?;
    b.push(at_most(full, place, wide(on, second)))?;
    let jump = Instr::JumpIf {
        test: JumpTest::True,
        register: scalar(full),
        target: 0,
    };
    b.add(Line::naming(jump, to))?;
    Ok(())
}
