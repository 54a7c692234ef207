//! What is printed of a value, and of a list of values.
#![tactic(auto)]

ghost use Rattle.std.specs.Prelude.{◌≡◌, ◌++◌, OnOk, OnErr};
ghost use Rattle.std.specs.Fmt.{signed_decimal};
ghost use Rattle.isp_base.specs.Prints.{comma, item_text, value_text};

use isp_base::{Elem, number};
use itoa::Buffer;
use std::alloc::AllocError;

/// Writes a value as `print` shows it: a whole number in decimal, a bool by its word. `bits` has the value's lowest bits.
///
/// Where memory is refused nothing is written. docs/LANGUAGE.md, Statements, has the rule.
pub fn push_value(out: &mut Vec<u8>, elem: Elem, bits: u64) -> Result<(), AllocError>
    ensures ok { OnOk result (out.new.items ≡ out.old.items ++ value_text elem bits) }
    ensures err { OnErr result (out.new.items ≡ out.old.items) }
{
    match elem {
        Elem::Bool => out.extend_from_slice(if bits != 0 { b"true" } else { b"false" })?,
        _ => push_number(out, number(elem, bits))?,
    }
    Ok(())
}

fn push_number(out: &mut Vec<u8>, number: i128) -> Result<(), AllocError>
    ensures ok { OnOk result (out.new.items ≡ out.old.items ++ signed_decimal number) }
    ensures err { OnErr result (out.new.items ≡ out.old.items) }
{
    let mut buffer = Buffer::new();
    out.extend_from_slice(buffer.format(number).as_bytes())?;
    Ok(())
}

/// Writes what an instance has: its value, or `_` where it has none.
pub fn push_item(out: &mut Vec<u8>, elem: Elem, bits: Option<u64>) -> Result<(), AllocError>
    ensures { OnOk result (out.new.items ≡ out.old.items ++ item_text elem bits) }
{
    match bits {
        Some(bits) => push_value(out, elem, bits),
        None => out.extend_from_slice(b"_"),
    }
}

/// Writes the comma that stands before each item of a list but the first, whose number is 0.
pub fn push_comma(out: &mut Vec<u8>, number: usize) -> Result<(), AllocError>
    ensures { OnOk result (out.new.items ≡ out.old.items ++ comma number) }
{
    if number > 0 {
        out.extend_from_slice(b",")?;
    }
    Ok(())
}
