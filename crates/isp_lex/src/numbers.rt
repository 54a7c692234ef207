//! Numbers.
ghost use Rattle.std.specs.Prelude.{◌≡◌, ◌≤◌, true};
ghost use Rattle.std.specs.Str.{bytes_eq};
ghost use Rattle.isp_lex.specs.Bytes as class;
ghost use Rattle.isp_lex.specs.Bytes.{all};
ghost use Rattle.isp_lex.specs.reader.Numerals.{digits_of, first_type, is_long, is_prefixed, is_unsigned_long, lower, read_number, numeral, suffix_of, types_of};

use crate::bytes::{digits_len, has};
use isp_base::{Elem, Value, greatest_of};

/// The digits of a number.
#[derive(Clone, Copy)]
pub(crate) struct Digits {
    /// Whether they are decimal.
    is_decimal: bool,
    /// The number that they write.
    bits: u64,
}

/// What the suffix of a number asks.
#[derive(Clone, Copy)]
pub(crate) enum Suffix {
    /// Nothing.
    Plain,
    Unsigned,
    Long,
    UnsignedLong,
}

/// The number that digits write, if it is below 2^64.
fn numeral(digits: &str, radix: u32) -> Option<u64>
    requires lower { 2 ≤ radix }
    requires upper { radix ≤ 36 }
    requires plain { all class.is_word_byte digits.now ≡ true }
    ensures { result ≡ numeral radix digits.now }
{
    u64::from_str_radix(digits, radix).ok()
}

/// Whether a text begins with `0` and this letter.
fn is_prefixed(letter: u8, text: &[u8]) -> bool
    ensures { result ≡ is_prefixed letter text.now }
{
    has(text, 0, b'0') && has(text, 1, letter)
}

/// The number that digits with their prefix write.
fn read_digits(text: &str) -> Option<Digits>
    requires { all class.is_word_byte text.now ≡ true }
    ensures { result ≡ digits_of text.now }
{
    if is_prefixed(b'x', text.as_bytes()) {
        return Some(Digits {
            is_decimal: false,
            bits: numeral(&text[2..], 16)?,
        });
    }
    if is_prefixed(b'b', text.as_bytes()) {
        return Some(Digits {
            is_decimal: false,
            bits: numeral(&text[2..], 2)?,
        });
    }
    if has(text.as_bytes(), 0, b'0') && text.len() > 1 {
        return None;
    }
    Some(Digits {
        is_decimal: true,
        bits: numeral(text, 10)?,
    })
}

/// Whether a text is the word, but for the case of letters.
fn is_either(text: &str, word: &str) -> bool
    ensures { result ≡ bytes_eq (lower text.now) (lower word.now) }
{
    text.eq_ignore_ascii_case(word)
}

fn is_long(text: &str) -> bool
    ensures { result ≡ is_long (lower text.now) }
{
    is_either(text, "l") || is_either(text, "ll")
}

fn is_unsigned_long(text: &str) -> bool
    ensures { result ≡ is_unsigned_long (lower text.now) }
{
    is_either(text, "ul")
        || is_either(text, "lu")
        || is_either(text, "ull")
        || is_either(text, "llu")
}

/// What a suffix asks.
fn read_suffix(text: &str) -> Option<Suffix>
    ensures { result ≡ suffix_of (lower text.now) }
{
    if is_either(text, "") {
        Some(Suffix::Plain)
    } else if is_either(text, "u") {
        Some(Suffix::Unsigned)
    } else if is_long(text) {
        Some(Suffix::Long)
    } else if is_unsigned_long(text) {
        Some(Suffix::UnsignedLong)
    } else {
        None
    }
}

/// The first of the types that has the number as a value.
fn first_type(types: &[Elem], bits: u64) -> Option<Elem>
    ensures { result ≡ first_type types.now bits }
{
    for elem in types {
        if bits <= greatest_of(*elem) {
            return Some(*elem);
        }
    }
    None
}

/// The type of a number.
fn elem_of(is_decimal: bool, suffix: Suffix, bits: u64) -> Option<Elem>
    ensures { result ≡ first_type (types_of is_decimal suffix) bits }
{
    match suffix {
        Suffix::Plain if is_decimal => first_type(&[Elem::I32, Elem::I64, Elem::U64], bits),
        Suffix::Plain => first_type(&[Elem::I32, Elem::U32, Elem::I64, Elem::U64], bits),
        Suffix::Unsigned => first_type(&[Elem::U32, Elem::U64], bits),
        Suffix::Long => first_type(&[Elem::I64], bits),
        Suffix::UnsignedLong => first_type(&[Elem::U64], bits),
    }
}

/// The value of a number, with its type.
pub(crate) fn number(text: &str) -> Option<Value>
    requires { all class.is_word_byte text.now ≡ true }
    ensures { result ≡ read_number text.now }
{
    let (front, back) = text.split_at(digits_len(text.as_bytes()));
    let found = read_digits(front)?;
    let elem = elem_of(found.is_decimal, read_suffix(back)?, found.bits)?;
    Some(Value {
        elem,
        bits: found.bits,
    })
}
