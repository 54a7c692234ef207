//! The cases of a text.
ghost use Rattle.std.specs.Prelude.{◌≡◌, ◌≢◌, ◌≤◌, ◌<◌, Ok, Err, Some, IfOk, IfErr, codes, map, option_map, string_bytes};
ghost use Rattle.serde_json.specs.Data.{depth, items_depth};
ghost use Rattle.serde_json.specs.Find.{as_str, get};
ghost use Rattle.serde_json.specs.Read.{max_depth, read};
ghost use Rattle.serde_json.specs.View.{items_view, view};
ghost use Rattle.isp_case_files.specs.Cases.{IsNoList, answer_in, arguments_in, as_listed, as_wish, case_of, cases_from, cases_of, entry_in, kind_named, name_in, text_from, trap_in, wish_of};

use crate::case::{Answer, Case, Wanted};
use crate::fault::{CaseFault, Member};
use isp_base::TrapKind;
use serde_json::{Category, Value as Json};
use std::alloc::Global;

/// The value that a text of cases is, of which `read_cases` reads them.
///
/// `NotJson` where it is none. `Memory` where memory is refused.
pub fn read_list(alloc: Global, text: &str) -> Result<Json, CaseFault>
    ensures ok { IfOk result (λ v. read text.now ≡ Some (view v)) }
    ensures nests { IfOk result (λ v. depth (view v) ≤ max_depth) }
    ensures err { IfErr result (IsNoList text.now) }
{
    match Json::from_str(alloc, text) {
        Ok(value) => Ok(value),
        Err(error) => {
            if error.classify() == Category::Memory {
                return Err(CaseFault::Memory);
            }
            Err(CaseFault::NotJson {
                line: error.line(),
                column: error.column(),
            })
        }
    }
}

/// The cases of a list, in its order.
///
/// `NotList` where the value is none. Else the first fault of the first case that has one: `NotObject`; then `WrongKind` of the name;
/// `Missing` and `WrongKind` of the entry; `Missing` of the arguments; then `NothingWanted`, `TwoWanted`, or the fault of what is
/// wanted. `Memory` takes the place of what would follow.
pub fn read_cases<'v>(alloc: Global, list: &'v Json) -> Result<Vec<Case<'v>>, CaseFault>
    requires { depth (view list.now) ≤ max_depth }
    ensures ok { IfOk result (λ cs. cases_of (view list.now) ≡ Ok (map as_listed cs.items)) }
    ensures err { IfErr result (λ f. f ≢ CaseFault.Memory → cases_of (view list.now) ≡ Err f) }
{
    match list.as_array() {
        Some(values) => cases_from(alloc, values),
        None => Err(CaseFault::NotList),
    }
}

fn cases_from<'v>(alloc: Global, values: &'v [Json]) -> Result<Vec<Case<'v>>, CaseFault>
    requires { items_depth (items_view values.now) < max_depth }
    ensures ok { IfOk result (λ cs. cases_from 1 (items_view values.now) ≡ Ok (map as_listed cs.items)) }
    ensures err { IfErr result (λ f. f ≢ CaseFault.Memory → cases_from 1 (items_view values.now) ≡ Err f) }
{
    let mut found = Vec::new(alloc);
    for (place, value) in values.iter().enumerate() {
        let one = case_of(alloc, place + 1, value)?;
        found.push(one)?;
    }
    Ok(found)
}

fn case_of<'v>(alloc: Global, number: usize, value: &'v Json) -> Result<Case<'v>, CaseFault>
    requires { depth (view value.now) ≤ max_depth }
    ensures ok { IfOk result (λ c. case_of number (view value.now) ≡ Ok (as_listed c)) }
    ensures err { IfErr result (λ f. f ≢ CaseFault.Memory → case_of number (view value.now) ≡ Err f) }
{
    if !value.is_object() {
        return Err(CaseFault::NotObject(number));
    }
    let name = name_in(alloc, number, value)?;
    let entry = entry_in(alloc, number, value)?;
    let arguments = arguments_in(alloc, number, value)?;
    let wanted = wish_of(number, value)?;
    Ok(Case {
        number,
        name,
        entry,
        arguments,
        wanted,
    })
}

fn name_in(alloc: Global, number: usize, value: &Json) -> Result<Option<String>, CaseFault>
    ensures ok { IfOk result (λ n. name_in number (get (codes "name") (view value.now)) ≡ Ok (option_map (λ s. string_bytes s) n)) }
    ensures err { IfErr result (λ f. f ≢ CaseFault.Memory → name_in number (get (codes "name") (view value.now)) ≡ Err f) }
{
    match value.get("name") {
        Some(name) => Ok(Some(text_from(alloc, number, Member::Name, name)?)),
        None => Ok(None),
    }
}

fn entry_in(alloc: Global, number: usize, value: &Json) -> Result<String, CaseFault>
    ensures ok { IfOk result (λ s. entry_in number (get (codes "entry") (view value.now)) ≡ Ok (string_bytes s)) }
    ensures err { IfErr result (λ f. f ≢ CaseFault.Memory → entry_in number (get (codes "entry") (view value.now)) ≡ Err f) }
{
    match value.get("entry") {
        Some(entry) => text_from(alloc, number, Member::Entry, entry),
        None => Err(CaseFault::Missing(number, Member::Entry)),
    }
}

// The arguments, as a text that reads as they are.
fn arguments_in(alloc: Global, number: usize, value: &Json) -> Result<String, CaseFault>
    requires { depth (view value.now) ≤ max_depth }
    ensures ok { IfOk result (λ s. arguments_in number (get (codes "arguments") (view value.now)) ≡ Ok (read (string_bytes s))) }
    ensures err { IfErr result (λ f. f ≢ CaseFault.Memory → arguments_in number (get (codes "arguments") (view value.now)) ≡ Err f) }
{
    match value.get("arguments") {
        Some(arguments) => Ok(arguments.to_string(alloc)?),
        None => Err(CaseFault::Missing(number, Member::Arguments)),
    }
}

fn text_from(
    alloc: Global,
    number: usize,
    member: Member,
    value: &Json,
) -> Result<String, CaseFault>
    ensures ok { IfOk result (λ s. text_from number member (as_str (view value.now)) ≡ Ok (string_bytes s)) }
    ensures err { IfErr result (λ f. f ≢ CaseFault.Memory → text_from number member (as_str (view value.now)) ≡ Err f) }
{
    match value.as_str() {
        Some(text) => Ok(String::from_str(alloc, text)?),
        None => Err(CaseFault::WrongKind(number, member)),
    }
}

// What is wanted: an answer or a trap.
fn wish_of<'v>(number: usize, value: &'v Json) -> Result<Wanted<'v>, CaseFault>
    ensures ok { IfOk result (λ w. wish_of number (view value.now) ≡ Ok (as_wish w)) }
    ensures err { IfErr result (λ f. wish_of number (view value.now) ≡ Err f) }
{
    match (value.get("answer"), value.get("trap")) {
        (Some(answer), None) => answer_in(number, answer),
        (None, Some(trap)) => trap_in(number, trap),
        (Some(_), Some(_)) => Err(CaseFault::TwoWanted(number)),
        (None, None) => Err(CaseFault::NothingWanted(number)),
    }
}

fn answer_in<'v>(number: usize, value: &'v Json) -> Result<Wanted<'v>, CaseFault>
    ensures ok { IfOk result (λ w. answer_in number (view value.now) ≡ Ok (as_wish w)) }
    ensures err { IfErr result (λ f. answer_in number (view value.now) ≡ Err f) }
{
    let Some(found) = value.get("arrays") else {
        return Err(CaseFault::Missing(number, Member::Arrays));
    };
    match found.as_object() {
        Some(arrays) => Ok(Wanted::Answer(Answer {
            arrays,
            result: value.get("result"),
        })),
        None => Err(CaseFault::WrongKind(number, Member::Arrays)),
    }
}

fn trap_in<'v>(number: usize, value: &Json) -> Result<Wanted<'v>, CaseFault>
    ensures ok { IfOk result (λ w. trap_in number (view value.now) ≡ Ok (as_wish w)) }
    ensures err { IfErr result (λ f. trap_in number (view value.now) ≡ Err f) }
{
    let Some(name) = value.as_str() else {
        return Err(CaseFault::WrongKind(number, Member::Trap));
    };
    match kind_named(name) {
        Some(kind) => Ok(Wanted::Trap(kind)),
        None => Err(CaseFault::WrongKind(number, Member::Trap)),
    }
}

// The kind of trap of this name.
fn kind_named(name: &str) -> Option<TrapKind>
    ensures { result ≡ kind_named name.now }
{
    if name == "divide" {
        Some(TrapKind::Divide)
    } else if name == "index" {
        Some(TrapKind::Index)
    } else if name == "assert" {
        Some(TrapKind::Assert)
    } else if name == "depth" {
        Some(TrapKind::Depth)
    } else {
        None
    }
}
