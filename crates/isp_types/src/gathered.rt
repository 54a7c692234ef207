//! What is found one by one, with the first of its faults, whatever it is.
ghost use Rattle.std.specs.Prelude.{◌≡◌, IfOk};
ghost use Rattle.isp_typed.specs.Verdicts.{both, made};
ghost use Rattle.isp_exprs.specs.reader.Lists.{and_one};

use isp_typed::{Verdict, both};
use std::alloc::{AllocError, Global};

/// What is found, in a box.
pub fn boxed<T: Drop>(alloc: Global, found: Verdict<T>) -> Result<Verdict<Box<T>>, AllocError>
    ensures { IfOk result (λ v. made (λ b. b.value) v ≡ found) }
{
    match found {
        Ok(found) => Ok(Ok(Box::new(alloc, found)?)),
        Err(fault) => Ok(Err(fault)),
    }
}

/// One more after the others.
pub fn push<T: Drop>(
    so_far: Verdict<Vec<T>>,
    part: Verdict<T>,
) -> Result<Verdict<Vec<T>>, AllocError>
    ensures { IfOk result (λ v. made (λ l. l.items) v ≡ made and_one (both (made (λ l. l.items) so_far) part)) }
{
    match both(so_far, part) {
        Ok((mut all, one)) => {
            all.push(one)?;
            Ok(Ok(all))
        }
        Err(fault) => Ok(Err(fault)),
    }
}

/// One more after the others, out of its box.
pub fn push_boxed<T: Drop>(
    so_far: Verdict<Vec<T>>,
    part: Verdict<Box<T>>,
) -> Result<Verdict<Vec<T>>, AllocError>
    ensures { IfOk result (λ v. made (λ l. l.items) v ≡ made and_one (both (made (λ l. l.items) so_far) (made (λ b. b.value) part))) }
{
    match both(so_far, part) {
        Ok((mut all, one)) => {
            all.push(Box::into_inner(one))?;
            Ok(Ok(all))
        }
        Err(fault) => Ok(Err(fault)),
    }
}
