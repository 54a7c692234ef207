//! What holds of every program. No code is run here: each function carries a law in its contract.
ghost use Rattle.isp_meaning.specs.Distinct.{EachValueOnce};
ghost use Rattle.isp_meaning.specs.Laws.{CountsWork, EachHasOne, FourSets, IdleBranches, MoreTurns, OthersStay};
ghost use Rattle.isp_meaning.specs.Loads.{VariablesStay};
ghost use Rattle.isp_meaning.specs.Nodes.{StraightWork};

/// A run that has ended or trapped stays so for every greater number of turns, and the output of a
/// run that is cut is the beginning of its output for every greater number.
pub fn more_turns()
    ensures { MoreTurns }
{}

/// A branch of an `if` that no instance takes is left out, where the test has a value in each instance: with any other
/// statement in its place the `if` does the same, work included.
pub fn idle_branches()
    ensures { IdleBranches }
{}

/// What the work counts, on two programs: `a[programIndex] = a[programIndex] * 2 + 1;` has work 10
/// in a body, and an empty body 1.
pub fn counts_work()
    ensures { CountsWork }
{}

/// The work of straight code is its nodes and items: an expression without calls of functions, `&&`, `||` and `?:`, and
/// blocks, declarations, assignments, `print` and `assert` of such expressions, over any set that is not empty.
pub fn straight_work()
    ensures { StraightWork }
{}

/// Of the instances over which a statement runs each goes on, breaks, continues or returns, and does
/// one of these alone; no other instance does any.
pub fn four_sets()
    ensures { FourSets }
{}

/// An instance outside the set over which an expression is evaluated has no value of it. Neither an
/// expression nor a statement changes anything of it, whatever is called: its variables, its part of
/// the local arrays of which each instance has its own, and what it returned. Statements with a
/// `foreach` or an `unmasked` in them are left out, since all instances take part in these.
pub fn others_stay()
    ensures { OthersStay }
{}

/// Each instance of the set over which an expression is evaluated has a value of it, or one value stands for all, whatever is
/// called.
pub fn each_has_one()
    ensures { EachHasOne }
{}

/// In a `foreach_unique` each instance that has a value is in exactly one turn, together with all that hold the same and with
/// nobody else; the index is that value. The turns come in the order of the lowest instance of each.
pub fn each_value_once()
    ensures { EachValueOnce }
{}

/// A value changes no variable but those that a packed load in it writes, whatever is called: the
/// function that calls has its variables back as they were.
pub fn variables_stay()
    ensures { VariablesStay }
{}
