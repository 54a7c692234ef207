//! A breach, given to all that lead to it.
ghost use Rattle.std.specs.Prelude.{◌≡◌, ◌∷◌, [], ℕ, List, OnOk, length};
ghost use Rattle.isp_independence.specs.Tables.{lists_of};
ghost use Rattle.isp_independence.specs.reader.Paths.{IsReversed, found_at, row_at};
ghost use Rattle.isp_independence.specs.reader.Visits.{Spreads, Visits};

use crate::dependence::Dependence;
use std::alloc::{AllocError, Global};

/// A function that breaks a rule itself, and how.
#[derive(Clone, Copy)]
pub struct Breach {
    pub function: usize,
    pub dependence: Dependence,
}

/// What was found for a function; nothing past the last.
pub fn known(found: &[Option<Dependence>], function: usize) -> Option<Dependence>
    ensures { result ≡ found_at found.now function }
{
    match found.get(function) {
        Some(known) => *known,
        None => None,
    }
}

/// Gives a function a breach and lets it wait, where it has none yet.
fn visit_one(
    function: usize,
    dependence: Dependence,
    found: &mut Vec<Option<Dependence>>,
    waiting: &mut Vec<usize>,
) -> Result<(), AllocError>
    ensures { OnOk result (Visits (function ∷ []) dependence found.old.items found.new.items waiting.old.items waiting.new.items) }
{
    if function >= found.len() {
        return Ok(());
    }
    match known(found.as_slice(), function) {
        Some(_) => Ok(()),
        None => {
            found[function] = Some(dependence);
            waiting.push(function)?;
            Ok(())
        }
    }
}

/// The same for each function of a row.
fn visit(
    row: &[usize],
    dependence: Dependence,
    found: &mut Vec<Option<Dependence>>,
    waiting: &mut Vec<usize>,
) -> Result<(), AllocError>
    ensures { OnOk result (Visits row.now dependence found.old.items found.new.items waiting.old.items waiting.new.items) }
{
    for function in row {
        visit_one(*function, dependence, found, waiting)?;
    }
    Ok(())
}

/// The same for each caller of a function.
fn visit_callers(
    callers: &[Vec<usize>],
    function: usize,
    dependence: Dependence,
    found: &mut Vec<Option<Dependence>>,
    waiting: &mut Vec<usize>,
) -> Result<(), AllocError>
    ensures { OnOk result (Visits (row_at (lists_of callers.now) function) dependence found.old.items found.new.items waiting.old.items waiting.new.items) }
{
    match callers.get(function) {
        Some(row) => visit(row.as_slice(), dependence, found, waiting),
        None => Ok(()),
    }
}

/// Gives a breach to the function that has it, and to all that lead to it by calls and have found none yet.
pub fn spread(
    alloc: Global,
    callers: &[Vec<usize>],
    breach: Breach,
    found: &mut Vec<Option<Dependence>>,
) -> Result<(), AllocError>
    ensures { OnOk result ((calls : List (List ℕ)) → IsReversed calls (lists_of callers.now) → length found.old.items ≡ length calls → Spreads calls breach.function breach.dependence found.old.items found.new.items) }
{
    let mut waiting = Vec::new(alloc);
    visit(&[breach.function], breach.dependence, found, &mut waiting)?;
    while let Some(function) = waiting.pop() {
        visit_callers(callers, function, breach.dependence, found, &mut waiting)?;
    }
    Ok(())
}
