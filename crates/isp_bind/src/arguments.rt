//! The arguments that a JSON text gives to a signature.
ghost use Rattle.std.specs.Prelude.{◌≡◌, ◌≢◌, ◌<◌, ◌^◌, ℕ, List, IfOk, IfErr, is_some};
ghost use Rattle.std.specs.BTreeMap.{get_by_text};
ghost use Rattle.serde_json.specs.View.{view, items_view, members_view};
ghost use Rattle.isp_base.specs.Values.{width};
ghost use Rattle.isp_bind.specs.Bounds.{AreBound};
ghost use Rattle.isp_bind.specs.Binding.{element_bits, whole_bits, elements_bits, array_argument, argument_of, arguments_of, is_parameter, has_extra, bound_of};

use crate::fault::BindFault;
use isp_base::{Argument, Array, Bound, Elem, Parameter, Signature, Value, greatest_of, low_mask};
use serde_json::{Category, Map, Number, Value as Json};
use std::alloc::{AllocError, Global};
use std::collections::BTreeMap;

/// The elements that an array may have.
const LONGEST: usize = 16_777_216;

/// One argument for each parameter, in the order of the signature.
///
/// `text` is a JSON object with a member for each parameter, by name: a whole number of the element
/// type (`true` or `false` for bool), or a list of them for an array. Of two members of one name the
/// later counts. The first refusal is answered: 70 NotJson, 71 NotObject; for each parameter in order
/// 72 Missing, 74 WrongKind, 76 TooLong (more than 16,777,216 elements) and its elements in order, 74
/// WrongKind or 75 OutOfRange; last 73 Extra. 0 Memory takes the place of what would follow. What the
/// numbers of a JSON text are is as serde_json reads them: see docs/ARGUMENTS.md.
pub fn bind(alloc: Global, signature: &Signature, text: &str) -> Result<Bound, BindFault>
    ensures ok { IfOk result (λ b. bound_of signature.now.params.items text.now
        ≡ Ok b.arguments.items) }
    ensures err { IfErr result (λ e. e ≢ BindFault.Memory
        → bound_of signature.now.params.items text.now ≡ Err e) }
    // What is bound has the signature.
    ensures bound { IfOk result (λ b. AreBound signature.now.params.items b.arguments.items) }
{
    let value = match Json::from_str(alloc, text) {
        Ok(value) => value,
        Err(error) => {
            return Err(if error.classify() == Category::Memory {
                BindFault::Memory
            } else {
                BindFault::NotJson
            });
        }
    };
    let Some(members) = value.as_object() else {
        return Err(BindFault::NotObject);
    };
    let arguments = arguments(alloc, &signature.params, &value)?;
    let names = names(alloc, &signature.params)?;
    if has_extra(&signature.params, &names, members) {
        return Err(BindFault::Extra);
    }
    Ok(Bound { arguments })
}

fn arguments(alloc: Global, params: &[Parameter], value: &Json) -> Result<Vec<Argument>, BindFault>
    ensures ok { IfOk result (λ v. arguments_of params.now (view value.now) ≡ Ok v.items) }
    ensures err { IfErr result (λ e. e ≢ BindFault.Memory
        → arguments_of params.now (view value.now) ≡ Err e) }
{
    let mut arguments = Vec::new(alloc);
    for param in params {
        arguments.push(argument(alloc, param, value)?)?;
    }
    Ok(arguments)
}

// The names of the parameters, each found in steps by the logarithm of their number.
fn names(alloc: Global, params: &[Parameter]) -> Result<BTreeMap<String, ()>, AllocError>
    ensures { IfOk result (λ m. (w : List ℕ) → is_some (get_by_text m w) ≡ is_parameter params.now w) }
{
    let mut names = BTreeMap::new(alloc);
    for param in params {
        let name = String::from_str(alloc, param.name.as_str())?;
        names.insert(name, ())?;
    }
    Ok(names)
}

// Whether a member's key is no parameter's name.
#[tactic(auto, using(crate::proofs::Members::has_extra_keys))]
fn has_extra(
    params: &[Parameter],
    names: &BTreeMap<String, ()>,
    members: &Map<String, Json>,
) -> bool
    requires names { (w : List ℕ) → is_some (get_by_text names.now w) ≡ is_parameter params.now w }
    ensures { result ≡ has_extra params.now (members_view members.now.entries) }
{
    for key in members.keys() {
        if !is_parameter(params, names, key.as_str()) {
            return true;
        }
    }
    false
}

fn is_parameter(params: &[Parameter], names: &BTreeMap<String, ()>, key: &str) -> bool
    requires names { (w : List ℕ) → is_some (get_by_text names.now w) ≡ is_parameter params.now w }
    ensures { result ≡ is_parameter params.now key.now }
{
    names.contains_key(key)
}

fn argument(alloc: Global, param: &Parameter, value: &Json) -> Result<Argument, BindFault>
    ensures ok { IfOk result (λ a. argument_of param.now (view value.now) ≡ Ok a) }
    ensures err { IfErr result (λ e. e ≢ BindFault.Memory
        → argument_of param.now (view value.now) ≡ Err e) }
{
    let elem = param.elem;
    let Some(found) = value.get(param.name.as_str()) else {
        return Err(BindFault::Missing);
    };
    if !param.is_array {
        let bits = element(elem, found)?;
        return Ok(Argument::Value(Value { elem, bits }));
    }
    match found.as_array() {
        Some(values) => array_argument(alloc, elem, values),
        None => Err(BindFault::WrongKind),
    }
}

#[tactic(auto, using(crate::proofs::Members::items_count_view))]
fn array_argument(alloc: Global, elem: Elem, values: &[Json]) -> Result<Argument, BindFault>
    ensures ok { IfOk result (λ a. array_argument elem (Some (items_view values.now)) ≡ Ok a) }
    ensures err { IfErr result (λ e. e ≢ BindFault.Memory
        → array_argument elem (Some (items_view values.now)) ≡ Err e) }
{
    if values.len() > LONGEST {
        return Err(BindFault::TooLong);
    }
    let array = elements(alloc, elem, values)?;
    Ok(Argument::Array(array))
}

fn elements(alloc: Global, elem: Elem, values: &[Json]) -> Result<Array, BindFault>
    ensures elem { IfOk result (λ a. a.elem ≡ elem) }
    ensures ok { IfOk result (λ a. elements_bits elem (items_view values.now) ≡ Ok a.bits) }
    ensures err { IfErr result (λ e. e ≢ BindFault.Memory
        → elements_bits elem (items_view values.now) ≡ Err e) }
{
    let mut array = Array::empty(alloc, elem);
    for value in values {
        array.push(element(elem, value)?)?;
    }
    Ok(array)
}

// The bits of one element.
fn element(elem: Elem, value: &Json) -> Result<u64, BindFault>
    ensures bits { result ≡ element_bits elem (view value.now) }
    ensures fits { IfOk result (λ b. b < 2 ^ width elem) }
{
    match elem {
        Elem::Bool => match value.as_bool() {
            Some(truth) => Ok(u64::from(truth)),
            None => Err(BindFault::WrongKind),
        },
        _ => match value.as_number().and_then(Number::as_i128) {
            Some(whole) => whole_bits(elem, whole),
            None => Err(BindFault::WrongKind),
        },
    }
}

// The bits of a whole number, where the type has it. Those of a negative one stand above the greatest value.
fn whole_bits(elem: Elem, whole: i128) -> Result<u64, BindFault>
    ensures bits { result ≡ whole_bits elem whole }
    ensures fits { IfOk result (λ b. b < 2 ^ width elem) }
{
    let greatest = i128::from(greatest_of(elem));
    let all_bits = i128::from(low_mask(elem));
    if whole > greatest || whole < greatest - all_bits {
        return Err(BindFault::OutOfRange);
    }
    if whole < 0 {
        Ok((whole + all_bits + 1) as u64)
    } else {
        Ok(whole as u64)
    }
}
