//! The answer of a run, as JSON.
ghost use Rattle.std.specs.Prelude.{◌≡◌, ◌∷◌, [], ◌++◌, false, IfOk, OnOk, string_bytes};
ghost use Rattle.std.specs.Fmt.{signed_decimal};
ghost use Rattle.serde_json.specs.Data.{no_members, put, string as text_data};
ghost use Rattle.serde_json.specs.Written.{compact_text, members_text};
ghost use Rattle.isp_bind.specs.Answering.{answer_text, named_arrays, shown_array, shown_bits, shown_result};
ghost use Rattle.isp_bind.specs.Entries.{entries_members};

use isp_base::{Array, Elem, Parameter, Signature, Value, number};
use itoa::Buffer;
use serde_json::Value as Json;
use std::alloc::{AllocError, Global};
use std::collections::BTreeMap;

/// The compact text `{"arrays":{..},"result":..}`.
///
/// `arrays` are those of the array parameters, in the order of the signature; they are written by
/// name in byte order. A bool is `true` or `false`, each number is written whole in decimal, and
/// where nothing is returned the result is `null`.
pub fn answer(
    alloc: Global,
    signature: &Signature,
    arrays: &[Array],
    returned: Option<Value>,
) -> Result<String, AllocError>
    ensures { IfOk result (λ s. string_bytes s
        ≡ answer_text signature.now.params.items arrays.now returned) }
{
    let named = by_name(alloc, &signature.params, arrays)?;
    let mut text = String::from_str(alloc, "{\"arrays\":{")?;
    push_arrays(alloc, &mut text, &named)?;
    text.push_str(",\"result\":")?;
    push_result(&mut text, returned)?;
    text.push_str("}")?;
    Ok(text)
}

// The arrays under the names of their parameters.
fn by_name<'a>(
    alloc: Global,
    params: &'a [Parameter],
    arrays: &'a [Array],
) -> Result<BTreeMap<&'a str, &'a Array>, AllocError>
    ensures { IfOk result (λ m. entries_members m.entries ≡ named_arrays params.now arrays.now no_members) }
{
    let mut named = BTreeMap::new(alloc);
    let mut rest = arrays;
    for param in params {
        let Some((first, others)) = rest.split_first() else {
            break;
        };
        if param.is_array {
            put_named(&mut named, param.name.as_str(), first)?;
            rest = others;
        }
    }
    Ok(named)
}

fn put_named<'a>(
    named: &mut BTreeMap<&'a str, &'a Array>,
    name: &'a str,
    array: &'a Array,
) -> Result<(), AllocError>
    ensures { OnOk result (entries_members named.new.entries
        ≡ put name.now (shown_array array.now) (entries_members named.old.entries)) }
{
    named.insert(name, array)?;
    Ok(())
}

// Each name and its array, and the bracket that closes them.
fn push_arrays(
    alloc: Global,
    text: &mut String,
    named: &BTreeMap<&str, &Array>,
) -> Result<(), AllocError>
    ensures { OnOk result (string_bytes text.new
        ≡ string_bytes text.old ++ members_text false (entries_members named.now.entries)) }
{
    let mut later = false;
    for (name, array) in named {
        if later {
            text.push_str(",")?;
        }
        push_name(alloc, text, name)?;
        push_array(text, array)?;
        later = true;
    }
    text.push_str("}")?;
    Ok(())
}

// A name in quotes and a colon.
fn push_name(alloc: Global, text: &mut String, name: &str) -> Result<(), AllocError>
    ensures { OnOk result (string_bytes text.new
        ≡ string_bytes text.old ++ (compact_text (text_data name.now) ++ 58 ∷ [])) }
{
    let name = Json::try_from_str(alloc, name)?.to_string(alloc)?;
    text.push_str(name.as_str())?;
    text.push_str(":")?;
    Ok(())
}

fn push_array(text: &mut String, array: &Array) -> Result<(), AllocError>
    ensures { OnOk result (string_bytes text.new
        ≡ string_bytes text.old ++ compact_text (shown_array array.now)) }
{
    text.push_str("[")?;
    for place in 0..array.len() {
        if place > 0 {
            text.push_str(",")?;
        }
        push_bits(text, array.elem(), array.at(place))?;
    }
    text.push_str("]")?;
    Ok(())
}

fn push_result(text: &mut String, returned: Option<Value>) -> Result<(), AllocError>
    ensures { OnOk result (string_bytes text.new
        ≡ string_bytes text.old ++ compact_text (shown_result returned)) }
{
    match returned {
        Some(value) => push_bits(text, value.elem, value.bits)?,
        None => text.push_str("null")?,
    }
    Ok(())
}

#[tactic(auto, using(crate::proofs::Texts::whole_text, crate::proofs::Texts::truth_text))]
fn push_bits(text: &mut String, elem: Elem, bits: u64) -> Result<(), AllocError>
    ensures { OnOk result (string_bytes text.new
        ≡ string_bytes text.old ++ compact_text (shown_bits elem bits)) }
{
    match elem {
        Elem::Bool => text.push_str(if bits != 0 { "true" } else { "false" })?,
        _ => push_number(text, number(elem, bits))?,
    }
    Ok(())
}

fn push_number(text: &mut String, number: i128) -> Result<(), AllocError>
    ensures { OnOk result (string_bytes text.new ≡ string_bytes text.old ++ signed_decimal number) }
{
    let mut buffer = Buffer::new();
    text.push_str(buffer.format(number))?;
    Ok(())
}
