//! Arguments and answers as bytes: what bytes hold, each fault, and what an answer is written as.
mod table;

use crate::base::arguments::{array_of, parts};
use crate::base::operators::elem_named;
use crate::base::refused::holds;
use isp_base::{Array, Elem, Name, Parameter, Signature, Value};
use isp_bind::answer;
use isp_packed::{NoRoom, PackedFault, pack, unpack};
use isp_tests_support::{Tried, parted, sweep_call};
use std::alloc::Global;
use std::process::Abort;
use std::test::Fail;
use table::TABLE;

// The parameter of a number, of the type that a word names; `[]` stands after the type of an array.
fn parameter(rt: &impl Abort, alloc: Global, number: usize, word: &str) -> Parameter {
    let array = word.strip_suffix("[]");
    let elem = elem_named(array.unwrap_or(word)).expect(rt, "a type of another name");
    Parameter {
        name: Name::new(format!(in alloc; "p{number}").expect(rt, "memory")),
        elem,
        is_array: array.is_some(),
    }
}

// Parameters p0, p1 and so on of the types that a text names.
fn signature(rt: &impl Abort, alloc: Global, words: &str) -> Signature {
    let mut params = Vec::new(alloc);
    for (number, word) in words.split_whitespace().enumerate() {
        params
            .push(parameter(rt, alloc, number, word))
            .expect(rt, "memory");
    }
    Signature {
        params,
        result: None,
    }
}

fn bytes_of(rt: &impl Abort, alloc: Global, text: &str) -> Vec<u8> {
    let mut bytes = Vec::new(alloc);
    for word in text.split_whitespace() {
        let byte = word.parse::<u8>().expect(rt, "no byte");
        bytes.push(byte).expect(rt, "memory");
    }
    bytes
}

// What was read from bytes is written as these.
fn check_written(
    rt: &impl Abort,
    alloc: Global,
    arrays: &[Array],
    returned: Option<Value>,
    bytes: &[u8],
) {
    let mut again = Vec::new(alloc);
    again.resize(bytes.len(), 170u8).expect(rt, "memory");
    assert_eq!(rt; pack(arrays, returned, &mut again), Ok(bytes.len()));
    assert!(rt; again.as_slice() == bytes, "{again:?}");
}

// The fault of bytes, or what they hold, as an answer with the value as its result.
fn outcome(rt: &impl Abort, alloc: Global, signature: &Signature, bytes: &[u8]) -> String {
    match unpack(alloc, signature, bytes) {
        Ok(bound) => {
            let (arrays, returned) = parts(rt, alloc, bound);
            check_written(rt, alloc, arrays.as_slice(), returned, bytes);
            answer(alloc, signature, arrays.as_slice(), returned).expect(rt, "memory")
        }
        Err(fault) => format!(in alloc; "{fault}").expect(rt, "memory"),
    }
}

#[test]
fn of_the_table(rt: HostRuntime) {
    let alloc = rt.alloc();
    let mut lines = 0u64;
    for line in TABLE.lines() {
        let (words, rest) = parted(line, ';');
        let (bytes, wanted) = parted(rest, ';');
        let bytes = bytes_of(&rt, alloc, bytes);
        let found = outcome(&rt, alloc, &signature(&rt, alloc, words), bytes.as_slice());
        assert!(rt; found.as_str() == wanted, "{line}: {found}");
        lines = lines.saturating_add(1);
    }
    assert_eq!(rt; lines, 52);
}

// A result has 8 bytes, zero above its width; with fewer bytes than are wanted nothing is written, and bytes after the
// answer stay.
#[test]
fn room_for_an_answer(rt: HostRuntime) {
    let alloc = rt.alloc();
    let arrays = [array_of(&rt, alloc, Elem::U16, &[1, 258])];
    let returned = Some(Value {
        elem: Elem::I8,
        bits: 0x7fe,
    });
    let mut into = [9u8; 22];
    for room in 0..20usize {
        let found = pack(&arrays, returned, &mut into[..room]);
        assert_eq!(rt; found, Err(NoRoom { wanted: 20 }));
    }
    assert_eq!(rt; into, [9; 22]);
    assert_eq!(rt; pack(&arrays, returned, &mut into), Ok(20));
    assert_eq!(rt;
        into,
        [
            2, 0, 0, 0, 0, 0, 0, 0, 1, 0, 2, 1, 254, 0, 0, 0, 0, 0, 0, 0, 9, 9
        ]
    );
}

// [7] and true.
#[test]
fn memory_refused_to_unpack(rt: HostRuntime) -> Result<(), Fail> {
    let alloc = rt.alloc();
    let signature = signature(&rt, alloc, "int32[] bool");
    let bytes = bytes_of(&rt, alloc, "1 0 0 0 0 0 0 0 7 0 0 0 1 0 0 0 0 0 0 0");
    sweep_call(alloc, "unpack", || {
        match unpack(alloc, &signature, bytes.as_slice()) {
            Ok(bound) => Tried::answered(holds(&bound, &[7], 1)),
            Err(fault) => Tried::failed(fault == PackedFault::Memory),
        }
    })
}
