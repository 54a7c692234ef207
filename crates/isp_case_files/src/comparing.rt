//! How an answer differs from what is wanted.
ghost use Rattle.std.specs.Prelude.{◌≡◌, ◌&&◌, true, false, IfNone, IfOk, IfSome, option_map, codes};
ghost use Rattle.serde_json.specs.Find.{as_array, get};
ghost use Rattle.serde_json.specs.View.{items_view, members_view, view};
ghost use Rattle.isp_case_files.specs.Answers.{agree_arrays, agree_result, agrees, answers, array_in, is_held, same, same_found, same_items, same_truths, same_wholes, whole};

use crate::case::{Answer, Verdict};
use serde_json::{Category, Map, Number, Value as Json};
use std::alloc::{AllocError, Global};

/// How the text of an answer, as `isp run` prints it, does by what is wanted. `Differs` says what differs first: of the arrays that
/// are wanted, in the order of their names, the first element, or the number of elements; then the result.
///
/// `AllocError` where memory is refused.
pub fn compare(alloc: Global, wanted: &Answer<'_>, text: &str) -> Result<Verdict, AllocError>
    ensures { IfOk result (λ v. is_held v
        ≡ answers (members_view wanted.now.arrays.now.entries) (option_map (λ d. view d.now) wanted.now.result) text.now) }
{
    match Json::from_str(alloc, text) {
        Ok(found) => compare_values(alloc, wanted, &found),
        Err(error) => {
            if error.classify() == Category::Memory {
                return Err(AllocError);
            }
            Ok(Verdict::Differs(String::from_str(alloc, "no answer")?))
        }
    }
}

fn compare_values(alloc: Global, wanted: &Answer<'_>, found: &Json) -> Result<Verdict, AllocError>
    ensures { IfOk result (λ v. is_held v
        ≡ agrees (members_view wanted.now.arrays.now.entries) (option_map (λ d. view d.now) wanted.now.result) (view found.now)) }
{
    match compare_arrays(alloc, wanted.arrays, found)? {
        Verdict::Holds => compare_results(alloc, wanted.result, found.get("result")),
        Verdict::Differs(what) => Ok(Verdict::Differs(what)),
    }
}

fn compare_arrays(
    alloc: Global,
    arrays: &Map<String, Json>,
    found: &Json,
) -> Result<Verdict, AllocError>
    ensures { IfOk result (λ v. is_held v ≡ agree_arrays (members_view arrays.now.entries) (view found.now)) }
{
    for (name, wanted) in arrays {
        match compare_array(alloc, name.as_str(), wanted, found)? {
            Verdict::Holds => {}
            Verdict::Differs(what) => return Ok(Verdict::Differs(what)),
        }
    }
    Ok(Verdict::Holds)
}

fn compare_array(
    alloc: Global,
    name: &str,
    wanted: &Json,
    found: &Json,
) -> Result<Verdict, AllocError>
    ensures { IfOk result (λ v. is_held v ≡ same_found (view wanted.now) (array_in name.now (view found.now))) }
{
    let Some(array) = array_in(name, found) else {
        return Ok(Verdict::Differs(format!(in alloc; "{name}: no array, wanted {wanted}")?));
    };
    let (Some(values), Some(elements)) = (wanted.as_array(), array.as_array()) else {
        return Ok(Verdict::Differs(format!(in alloc; "{name}: an array, wanted {wanted}")?));
    };
    match first_unlike(values, elements) {
        None => Ok(Verdict::Holds),
        Some(place) => Ok(Verdict::Differs(unlike(alloc, name, place, values, elements)?)),
    }
}

// The array of an answer that has this name.
fn array_in<'v>(name: &str, found: &'v Json) -> Option<&'v Json>
    ensures { option_map (λ v. view v.now) result ≡ array_in name.now (view found.now) }
{
    let arrays = found.get("arrays")?;
    arrays.get(name)
}

// The first place at which two lists differ, which may be the end of the shorter one.
fn first_unlike(wanted: &[Json], found: &[Json]) -> Option<usize>
    ensures none { IfNone result (same_items (items_view wanted.now) (items_view found.now) ≡ true) }
    ensures some { IfSome result (λ _. same_items (items_view wanted.now) (items_view found.now) ≡ false) }
{
    let mut rest = found;
    for (place, value) in wanted.iter().enumerate() {
        let Some((first, others)) = rest.split_first() else {
            return Some(place);
        };
        if !same(value, first) {
            return Some(place);
        }
        rest = others;
    }
    if rest.is_empty() {
        None
    } else {
        Some(wanted.len())
    }
}

// `NAME[PLACE]: ELEMENT, wanted ELEMENT`, or where only one has the place `NAME: length 3, wanted 4`.
fn unlike(
    alloc: Global,
    name: &str,
    place: usize,
    wanted: &[Json],
    found: &[Json],
) -> Result<String, AllocError> {
    match (found.get(place), wanted.get(place)) {
        (Some(element), Some(value)) => {
            format!(in alloc; "{name}[{place}]: {element}, wanted {value}")
        }
        _ => format!(in alloc; "{name}: length {}, wanted {}", found.len(), wanted.len()),
    }
}

fn compare_results(
    alloc: Global,
    wanted: Option<&Json>,
    found: Option<&Json>,
) -> Result<Verdict, AllocError>
    ensures { IfOk result (λ v. is_held v
        ≡ agree_result (option_map (λ d. view d.now) wanted.entry) (option_map (λ d. view d.now) found.entry)) }
{
    if agree_result(wanted, found) {
        return Ok(Verdict::Holds);
    }
    let nothing = Json::Null;
    let what = format!(in alloc;
        "result: {}, wanted {}",
        found.unwrap_or(&nothing),
        wanted.unwrap_or(&nothing)
    )?;
    Ok(Verdict::Differs(what))
}

// No result is `null`.
fn agree_result(wanted: Option<&Json>, found: Option<&Json>) -> bool
    ensures { result ≡ agree_result (option_map (λ d. view d.now) wanted.entry) (option_map (λ d. view d.now) found.entry) }
{
    match (wanted, found) {
        (Some(wanted), Some(found)) => same(wanted, found),
        (Some(value), None) | (None, Some(value)) => value.is_null(),
        (None, None) => true,
    }
}

// Whether two values are the same whole number, the same truth, or both `null`.
fn same(wanted: &Json, found: &Json) -> bool
    ensures { result ≡ same (view wanted.now) (view found.now) }
{
    same_wholes(whole(wanted), whole(found))
        || same_truths(wanted.as_bool(), found.as_bool())
        || (wanted.is_null() && found.is_null())
}

fn whole(value: &Json) -> Option<i128>
    ensures { result ≡ whole (view value.now) }
{
    value.as_number().and_then(Number::as_i128)
}

fn same_wholes(wanted: Option<i128>, found: Option<i128>) -> bool
    ensures { result ≡ same_wholes wanted found }
{
    match (wanted, found) {
        (Some(wanted), Some(found)) => wanted == found,
        _ => false,
    }
}

fn same_truths(wanted: Option<bool>, found: Option<bool>) -> bool
    ensures { result ≡ same_truths wanted found }
{
    match (wanted, found) {
        (Some(wanted), Some(found)) => wanted == found,
        _ => false,
    }
}
