//! For each function the first breach of those that it reaches.
ghost use Rattle.std.specs.Prelude.{◌≡◌, IfOk, length, replicate};
ghost use Rattle.isp_independence.specs.Tables.{lists_of};
ghost use Rattle.isp_independence.specs.reader.Firsts.{AreFirst, IsListed, IsOrdered};

use crate::callers::callers;
use crate::dependence::Dependence;
use crate::spread::{Breach, spread};
use std::alloc::{AllocError, Global};

/// The functions that break a rule themselves.
fn listed(alloc: Global, own: &[Option<Dependence>]) -> Result<Vec<Breach>, AllocError>
    ensures { IfOk result (λ v. IsListed own.now (length own.now) v.items) }
{
    let mut breaches = Vec::new(alloc);
    for (function, first) in own.iter().enumerate() {
        if let Some(dependence) = first {
            breaches.push(Breach {
                function,
                dependence: *dependence,
            })?;
        }
    }
    Ok(breaches)
}

/// The functions that break a rule themselves, in the order in which breaches are answered.
fn ordered(alloc: Global, own: &[Option<Dependence>]) -> Result<Vec<Breach>, AllocError>
    ensures { IfOk result (λ v. IsOrdered own.now v.items) }
{
    let mut breaches = listed(alloc, own)?;
    breaches.sort_unstable_by_key(|b| (b.dependence.span.start, b.dependence.rule.number()));
    Ok(breaches)
}

/// Nothing found for as many functions.
fn nothing(alloc: Global, count: usize) -> Result<Vec<Option<Dependence>>, AllocError>
    ensures { IfOk result (λ v. v.items ≡ replicate count None) }
{
    let mut found = Vec::new(alloc);
    for _next in 0..count {
        found.push(None)?;
    }
    Ok(found)
}

/// For each function the first of the breaches of those that it reaches, itself among them; None where there is none.
/// Each call is looked at once, whoever reaches it.
pub fn firsts(
    alloc: Global,
    calls: &[Vec<usize>],
    own: &[Option<Dependence>],
) -> Result<Vec<Option<Dependence>>, AllocError>
    requires { length calls.now ≡ length own.now }
    ensures { IfOk result (λ v. AreFirst (lists_of calls.now) own.now v.items) }
{
    let callers = callers(alloc, calls)?;
    let breaches = ordered(alloc, own)?;
    let mut found = nothing(alloc, own.len())?;
    for breach in &breaches {
        spread(alloc, &callers, *breach, &mut found)?;
    }
    Ok(found)
}
