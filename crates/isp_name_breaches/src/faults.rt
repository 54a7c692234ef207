//! Faults that are pushed: those of the parts of a node, and where they have none its own.
ghost use Rattle.std.specs.Prelude.{◌≡◌, ◌++◌, IfOk, List, Some, length};
ghost use Rattle.isp_lex.specs.declared.fault.Fault.{Fault};
ghost use Rattle.isp_name_breaches.specs.reader.Exprs.{own, refusal, told, unmet};

use isp_lex::Fault;
use isp_typed::{Verdict, unless as fault_unless};
use std::alloc::AllocError;

/// Tells a fault, if there is one.
pub fn tell(found: &mut Vec<Fault>, fault: Option<Fault>) -> Result<(), AllocError>
    ensures { IfOk result (λ u. found.new.items ≡ found.old.items ++ told fault) }
{
    match fault {
        None => Ok(()),
        Some(fault) => {
            found.push(fault)?;
            Ok(())
        }
    }
}

/// Tells the fault of a verdict, if it has one.
pub fn refused<T: Drop>(found: &mut Vec<Fault>, verdict: Verdict<T>) -> Result<(), AllocError>
    ensures { IfOk result (λ u. found.new.items ≡ found.old.items ++ refusal verdict) }
{
    match verdict {
        Ok(_) => Ok(()),
        Err(fault) => tell(found, Some(fault)),
    }
}

/// Tells a fault where what has to hold does not.
pub fn unless(found: &mut Vec<Fault>, holds: bool, fault: Fault) -> Result<(), AllocError>
    ensures { IfOk result (λ u. found.new.items ≡ found.old.items ++ unmet holds fault) }
{
    tell(found, fault_unless(holds, fault))
}

/// Tells a node's own fault where none was told since `before`, so none of its parts.
pub fn own(found: &mut Vec<Fault>, before: usize, fault: Fault) -> Result<(), AllocError>
    ensures { IfOk result (λ u. (seen here : List Fault) → length seen ≡ before → found.old.items ≡ seen ++ here → found.new.items ≡ seen ++ own here (Some fault)) }
{
    if found.len() > before {
        return Ok(());
    }
    found.push(fault)?;
    Ok(())
}
