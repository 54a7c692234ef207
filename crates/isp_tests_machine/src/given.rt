//! The arguments of a run, in words.
use isp_base::{Argument, Array, Bound, Elem, Value, low_bits};
use isp_tests_support::{number, parted};
use std::alloc::Global;

static ELEMS: [(&str, Elem); 9] = [
    ("b", Elem::Bool),
    ("i8", Elem::I8),
    ("u8", Elem::U8),
    ("i16", Elem::I16),
    ("u16", Elem::U16),
    ("i32", Elem::I32),
    ("u32", Elem::U32),
    ("i64", Elem::I64),
    ("u64", Elem::U64),
];

fn elem_named(name: &str) -> Option<Elem> {
    for (known, elem) in &ELEMS {
        if *known == name {
            return Some(*elem);
        }
    }
    None
}

// The bits of the elements, or of four of them so many times.
fn array(alloc: Global, elem: Elem, words: &str) -> Option<Array> {
    let (items, times) = parted(words, '*');
    let mut array = Array::empty(alloc, elem);
    for _ in 0..number(times).unwrap_or(1) {
        for item in items.split(',') {
            let low = low_bits(array.elem(), number(item)?);
            array.push(low).ok()?;
        }
    }
    Some(array)
}

fn argument(alloc: Global, word: &str) -> Option<Argument> {
    let (kind, bits) = parted(word, ':');
    match kind.strip_suffix("[]") {
        Some(kind) => Some(Argument::Array(array(alloc, elem_named(kind)?, bits)?)),
        None => Some(Argument::Value(Value {
            elem: elem_named(kind)?,
            bits: number(bits)?,
        })),
    }
}

/// The arguments: of each word the type, and the bits of its value or, after `[]`, of its elements. None where a word says no such thing.
pub(crate) fn bound(alloc: Global, words: &str) -> Option<Bound> {
    let mut arguments = Vec::new(alloc);
    for word in words.split_whitespace() {
        arguments.push(argument(alloc, word)?).ok()?;
    }
    Some(Bound { arguments })
}
