//! The exported functions of a program, by their numbers.
ghost use Rattle.std.specs.Prelude.{◌≡◌, ◌++◌, ◌∷◌, [], ℕ, IfOk, List, OnOk};
ghost use Rattle.std.specs.Option.{option_or};
ghost use Rattle.std.specs.BTreeMap.{get_by_text};
ghost use Rattle.isp_rates.specs.Exports.{entry_from, exports_from};

use isp_typed::TypedFunction;
use std::alloc::{AllocError, Global};
use std::collections::BTreeMap;

/// One more number, where the function is exported.
fn push_export(
    numbers: &mut Vec<usize>,
    number: usize,
    one: &TypedFunction,
) -> Result<(), AllocError>
    ensures { OnOk result (numbers.new.items ≡ numbers.old.items ++ exports_from number (one.now ∷ [])) }
{
    if one.exported {
        numbers.push(number)?;
    }
    Ok(())
}

/// The numbers of the exported functions, in the order of the text.
pub fn exports(alloc: Global, functions: &[TypedFunction]) -> Result<Vec<usize>, AllocError>
    ensures { IfOk result (λ v. v.items ≡ exports_from 0 functions.now) }
{
    let mut numbers = Vec::new(alloc);
    for (number, one) in functions.iter().enumerate() {
        push_export(&mut numbers, number, one)?;
    }
    Ok(numbers)
}

/// One more name for a function, where no earlier one has it.
fn name_entry(
    alloc: Global,
    entries: &mut BTreeMap<String, usize>,
    number: usize,
    one: &TypedFunction,
) -> Result<(), AllocError>
    ensures { OnOk result ((w : List ℕ) → get_by_text entries.new w ≡ option_or (get_by_text entries.old w) (entry_from w number (one.now ∷ []))) }
{
    if !one.exported {
        return Ok(());
    }
    if entries.contains_key(one.name.as_str()) {
        return Ok(());
    }
    let name = String::from_str(alloc, one.name.as_str())?;
    entries.insert(name, number)?;
    Ok(())
}

/// The number of each exported function, by its name.
pub fn entries(
    alloc: Global,
    functions: &[TypedFunction],
) -> Result<BTreeMap<String, usize>, AllocError>
    ensures { IfOk result (λ m. (w : List ℕ) → get_by_text m w ≡ entry_from w 0 functions.now) }
{
    let mut entries = BTreeMap::new(alloc);
    for (number, one) in functions.iter().enumerate() {
        name_entry(alloc, &mut entries, number, one)?;
    }
    Ok(entries)
}
