//! Whether the header of a function is well formed.
ghost use Rattle.std.specs.Prelude.{◌≡◌, List, not, IfOk};
ghost use Rattle.std.specs.List.{list_any};
ghost use Rattle.isp_code.specs.Listing.{Routine, routine_of};
ghost use Rattle.isp_verify.specs.Faults.{is_function, names_differ, is_vector, can_export, header_fits, header_fault};

use crate::fault::Rule;
use isp_code::{Function, Param, ParamKind, Returns};
use std::alloc::{AllocError, Global};
use std::collections::BTreeSet;

// Whether no parameter's name stands twice.
fn names_differ(alloc: Global, params: &[Param]) -> Result<bool, AllocError>
    ensures { IfOk result (λ b. b ≡ names_differ params.now) }
{
    let mut names = BTreeSet::new(alloc);
    for param in params {
        if !names.insert(param.name.as_str())? {
            return Ok(false);
        }
    }
    Ok(true)
}

fn has_vector(params: &[Param]) -> bool
    ensures { result ≡ list_any is_vector params.now }
{
    for param in params {
        if matches!(param.kind, ParamKind::Vector) {
            return true;
        }
    }
    false
}

// Whether a function takes no vector and gives none.
fn can_export(function: &Function) -> bool
    ensures { result ≡ can_export (routine_of function.now) }
{
    !has_vector(&function.params) && !matches!(function.returns, Returns::Vector(_))
}

// `is_new` says that no function before this one has its name.
fn header_fits(alloc: Global, is_new: bool, function: &Function) -> Result<bool, AllocError>
    ensures { IfOk result (λ b. (earlier : List Routine) → is_new ≡ not (list_any (is_function function.now.name) earlier) → b ≡ header_fits earlier (routine_of function.now)) }
{
    let names_differ = names_differ(alloc, &function.params)?;
    let names_fit = is_new && names_differ;
    Ok(names_fit && (!function.exported || can_export(function)) && function.masks != 0)
}

/// The fault of a function's header. `is_new` says that no function before this one has its name.
pub(crate) fn check_header(
    alloc: Global,
    is_new: bool,
    function: &Function,
) -> Result<Option<Rule>, AllocError>
    ensures { IfOk result (λ f. (earlier : List Routine) → is_new ≡ not (list_any (is_function function.now.name) earlier) → f ≡ header_fault earlier (routine_of function.now)) }
{
    if header_fits(alloc, is_new, function)? {
        Ok(None)
    } else {
        Ok(Some(Rule::BadEntry))
    }
}
