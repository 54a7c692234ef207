//! Arguments and answers: what a text is bound to, why it is refused, and what an answer says. What should come out is worked out by hand.
use crate::base::operators::elem_named;
use isp_base::{Argument, Array, Bound, Elem, Name, Parameter, Signature, Value, wrap};
use isp_bind::{answer, bind};
use isp_tests_support::{number, parted};
use std::alloc::{AllocError, Global};
use std::process::Abort;

/// Each line: the parameters, a text, and the refusal, or the answer with the arrays as they were bound and the last value
/// as the result. Both ends of each type, and one past each; what JSON has beside the whole numbers of 64 bits; members by
/// their names, where of two of one name the later counts, and a name may be written by escapes; each refusal.
const TEXTS: &str = r##"x:int8;{"x":-128};{"arrays":{},"result":-128}
x:int8;{"x":127};{"arrays":{},"result":127}
x:int8;{"x":-129};75 OutOfRange
x:int8;{"x":128};75 OutOfRange
x:uint8;{"x":0};{"arrays":{},"result":0}
x:uint8;{"x":255};{"arrays":{},"result":255}
x:uint8;{"x":-1};75 OutOfRange
x:uint8;{"x":256};75 OutOfRange
x:int16;{"x":-32768};{"arrays":{},"result":-32768}
x:int16;{"x":32767};{"arrays":{},"result":32767}
x:int16;{"x":-32769};75 OutOfRange
x:int16;{"x":32768};75 OutOfRange
x:uint16;{"x":0};{"arrays":{},"result":0}
x:uint16;{"x":65535};{"arrays":{},"result":65535}
x:uint16;{"x":-1};75 OutOfRange
x:uint16;{"x":65536};75 OutOfRange
x:int32;{"x":-2147483648};{"arrays":{},"result":-2147483648}
x:int32;{"x":2147483647};{"arrays":{},"result":2147483647}
x:int32;{"x":-2147483649};75 OutOfRange
x:int32;{"x":2147483648};75 OutOfRange
x:uint32;{"x":0};{"arrays":{},"result":0}
x:uint32;{"x":4294967295};{"arrays":{},"result":4294967295}
x:uint32;{"x":-1};75 OutOfRange
x:uint32;{"x":4294967296};75 OutOfRange
x:int64;{"x":-9223372036854775808};{"arrays":{},"result":-9223372036854775808}
x:int64;{"x":9223372036854775807};{"arrays":{},"result":9223372036854775807}
x:int64;{"x":9223372036854775808};75 OutOfRange
x:uint64;{"x":0};{"arrays":{},"result":0}
x:uint64;{"x":18446744073709551615};{"arrays":{},"result":18446744073709551615}
x:uint64;{"x":-1};75 OutOfRange
x:bool;{"x":true};{"arrays":{},"result":true}
x:bool;{"x":false};{"arrays":{},"result":false}
x:bool;{"x":1};74 WrongKind
x:bool;{"x":0};74 WrongKind
x:int32;{"x":true};74 WrongKind
x:int32;{"x":0};{"arrays":{},"result":0}
x:int32;{"x":-0};74 WrongKind
x:uint8;{"x":1.0};74 WrongKind
x:uint8;{"x":1e2};74 WrongKind
x:uint8;{"x":1e400};70 NotJson
x:uint64;{"x":18446744073709551616};74 WrongKind
x:int8;{"x":18446744073709551616};74 WrongKind
x:int64;{"x":-9223372036854775809};74 WrongKind
x:int64;{"x":null};74 WrongKind
x:int64;{"x":"1"};74 WrongKind
x:int64;{"x":[1]};74 WrongKind
x:int64;{"x":{}};74 WrongKind
a:int16[] n:uint8;{"n":1.5,"a":[],"n":7};{"arrays":{"a":[]},"result":7}
a:int16[] n:uint8;{"n":7,"a":[],"n":1.5};74 WrongKind
a:int16[] n:uint8;{"\u0061":[3],"\u006e":4};{"arrays":{"a":[3]},"result":4}
a:int16[] n:uint8;{"A":[3],"n":4};72 Missing
a:int16[] n:uint8;{"b":1};72 Missing
a:int16[] n:uint8;{"b":1,"a":[40000],"n":4};75 OutOfRange
a:int16[] n:uint8;{"b":1,"a":[3],"n":4};73 Extra
a:int16[] n:uint8;{"a":[3],"n":4,"":0};73 Extra
a:int16[] n:uint8;{"n":256,"a":[1,2.5,40000]};74 WrongKind
a:int16[] n:uint8;{"n":256,"a":[1,40000,2.5]};75 OutOfRange
a:int16[] n:uint8;{"n":true,"a":[40000]};75 OutOfRange
x:int8;{};72 Missing
x:int8;{"x":1.5};74 WrongKind
x:int8;{"x":1,"y":2};73 Extra
x:int8;[];71 NotObject
x:int8;{;70 NotJson
"##;

/// Each line: the type of a result, its bits, and the answer.
const RESULTS: &str = r##"bool 1 {"arrays":{},"result":true}
int8 128 {"arrays":{},"result":-128}
uint8 128 {"arrays":{},"result":128}
int16 32768 {"arrays":{},"result":-32768}
uint16 32768 {"arrays":{},"result":32768}
int32 2147483648 {"arrays":{},"result":-2147483648}
uint32 2147483648 {"arrays":{},"result":2147483648}
int64 9223372036854775808 {"arrays":{},"result":-9223372036854775808}
uint64 9223372036854775808 {"arrays":{},"result":9223372036854775808}
"##;

fn parameter(rt: &impl Abort, alloc: Global, name: &str, elem: Elem, is_array: bool) -> Parameter {
    Parameter {
        name: Name::new(String::from_str(alloc, name).expect(rt, "memory")),
        elem,
        is_array,
    }
}

// The parameter that a word names with its type; `[]` stands after the type of an array.
fn worded(rt: &impl Abort, alloc: Global, word: &str) -> Parameter {
    let (name, kind) = parted(word, ':');
    let array = kind.strip_suffix("[]");
    let elem = elem_named(array.unwrap_or(kind)).expect(rt, "a type of another name");
    parameter(rt, alloc, name, elem, array.is_some())
}

/// The parameters that a text names with their types.
pub(crate) fn signature(rt: &impl Abort, alloc: Global, words: &str) -> Signature {
    let mut params = Vec::new(alloc);
    for word in words.split(' ') {
        params.push(worded(rt, alloc, word)).expect(rt, "memory");
    }
    Signature {
        params,
        result: None,
    }
}

/// The arrays among arguments, and the last value.
pub(crate) fn parts(rt: &impl Abort, alloc: Global, bound: Bound) -> (Vec<Array>, Option<Value>) {
    let mut arrays = Vec::new(alloc);
    let mut returned = None;
    for argument in bound.arguments {
        match argument {
            Argument::Array(array) => arrays.push(array).expect(rt, "memory"),
            Argument::Value(value) => returned = Some(value),
        }
    }
    (arrays, returned)
}

// The refusal, or the answer with the arrays as they were bound and the last value as the result.
fn outcome(rt: &impl Abort, alloc: Global, signature: &Signature, text: &str) -> String {
    match bind(alloc, signature, text) {
        Ok(bound) => {
            let (arrays, returned) = parts(rt, alloc, bound);
            answer(alloc, signature, arrays.as_slice(), returned).expect(rt, "memory")
        }
        Err(fault) => format!(in alloc; "{fault}").expect(rt, "memory"),
    }
}

#[test]
fn texts(rt: HostRuntime) {
    let alloc = rt.alloc();
    let mut lines = 0u64;
    for line in TEXTS.lines() {
        let (words, rest) = parted(line, ';');
        let (text, wanted) = parted(rest, ';');
        let found = outcome(&rt, alloc, &signature(&rt, alloc, words), text);
        assert!(rt; found.as_str() == wanted, "{line}: {found}");
        lines = lines.saturating_add(1);
    }
    assert_eq!(rt; lines, 63);
}

pub(crate) fn push_number(array: &mut Array, number: i128) -> Result<(), AllocError> {
    let elem = array.elem();
    array.push(wrap(elem, number))
}

pub(crate) fn array_of(rt: &impl Abort, alloc: Global, elem: Elem, numbers: &[i128]) -> Array {
    let mut array = Array::empty(alloc, elem);
    for number in numbers {
        push_number(&mut array, *number).expect(rt, "memory");
    }
    array
}

// Arrays of each type, whose names are prefixes of one another.
static ARRAYS: [(&str, Elem, [i128; 2]); 9] = [
    ("b", Elem::Bool, [0, 1]),
    ("ab", Elem::I8, [-128, 127]),
    ("a_", Elem::U8, [0, 255]),
    ("a", Elem::I16, [-32768, 32767]),
    ("aa", Elem::U16, [0, 65535]),
    ("aB", Elem::I32, [-2147483648, 2147483647]),
    ("a0", Elem::U32, [0, 4294967295]),
    ("B", Elem::I64, [-9223372036854775808, 9223372036854775807]),
    ("_", Elem::U64, [0, 18446744073709551615]),
];

// By name in byte order.
const OF_ARRAYS: &str =
    "{\"arrays\":{\"B\":[-9223372036854775808,9223372036854775807],\"_\":[0,18446744073709551615],\"a\":[-32768,32767],\"a0\":[0,4294967295],\"aB\":[-2147483648,2147483647],\"a_\":[0,255],\"aa\":[0,65535],\"ab\":[-128,127],\"b\":[false,true]},\"result\":null}";

#[test]
fn answer_of_each_type(rt: HostRuntime) {
    let alloc = rt.alloc();
    let mut params = Vec::new(alloc);
    let mut arrays = Vec::new(alloc);
    for (name, elem, numbers) in &ARRAYS {
        params
            .push(parameter(&rt, alloc, name, *elem, true))
            .expect(&rt, "memory");
        arrays
            .push(array_of(&rt, alloc, *elem, numbers))
            .expect(&rt, "memory");
    }
    let signature = Signature {
        params,
        result: None,
    };
    let text = answer(alloc, &signature, arrays.as_slice(), None).expect(&rt, "memory");
    assert!(rt; text.as_str() == OF_ARRAYS, "{text}");
}

// What is answered of a result alone.
fn answered(rt: &impl Abort, alloc: Global, returned: Value) -> String {
    let signature = Signature {
        params: Vec::new(alloc),
        result: Some(Elem::I8),
    };
    answer(alloc, &signature, &[], Some(returned)).expect(rt, "memory")
}

#[test]
fn result_of_each_type(rt: HostRuntime) {
    let alloc = rt.alloc();
    let mut lines = 0u64;
    for line in RESULTS.lines() {
        let (word, rest) = parted(line, ' ');
        let (bits, shown) = parted(rest, ' ');
        let elem = elem_named(word).expect(&rt, "a type of another name");
        let bits = number(bits).expect(&rt, "no number");
        let text = answered(&rt, alloc, Value { elem, bits });
        assert!(rt; text.as_str() == shown, "{line}: {text}");
        lines = lines.saturating_add(1);
    }
    assert_eq!(rt; lines, 9);
}
