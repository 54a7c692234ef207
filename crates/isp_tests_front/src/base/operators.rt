//! The operators at the ends of every type, and a few by hand.
mod table;

use isp_base::{
    BinOp, Compare, Elem, UnaryOp, apply, apply_unary, common, compare, convert, number, wrap,
};
use isp_tests_support::parted;
use std::alloc::Global;
use std::cmp::Ordering;
use std::process::Abort;
use table::TABLE;

// Each comparison, and whether it holds where the first is less, equal and greater.
static COMPARISONS: [(Compare, bool, bool, bool); 6] = [
    (Compare::Equal, false, true, false),
    (Compare::NotEqual, true, false, true),
    (Compare::Less, true, false, false),
    (Compare::LessOrEqual, true, true, false),
    (Compare::Greater, false, false, true),
    (Compare::GreaterOrEqual, false, true, true),
];

// The types and the operators by the words of the table.
static ELEMS: [(&str, Elem); 9] = [
    ("bool", Elem::Bool),
    ("int8", Elem::I8),
    ("uint8", Elem::U8),
    ("int16", Elem::I16),
    ("uint16", Elem::U16),
    ("int32", Elem::I32),
    ("uint32", Elem::U32),
    ("int64", Elem::I64),
    ("uint64", Elem::U64),
];

static BINARY: [(&str, BinOp); 10] = [
    ("add", BinOp::Add),
    ("sub", BinOp::Sub),
    ("mul", BinOp::Mul),
    ("div", BinOp::Div),
    ("rem", BinOp::Rem),
    ("and", BinOp::And),
    ("or", BinOp::Or),
    ("xor", BinOp::Xor),
    ("shl", BinOp::Shl),
    ("shr", BinOp::Shr),
];

static UNARY: [(&str, UnaryOp); 4] = [
    ("negate", UnaryOp::Negate),
    ("invert", UnaryOp::Invert),
    ("absolute", UnaryOp::Absolute),
    ("not", UnaryOp::Not),
];

// What has a name.
fn named<T: Copy>(table: &[(&str, T)], name: &str) -> Option<T> {
    for (known, it) in table {
        if *known == name {
            return Some(*it);
        }
    }
    None
}

pub(crate) fn elem_named(name: &str) -> Option<Elem> {
    named(&ELEMS, name)
}

// A number of the table; a dash stands where there is no result.
fn entry(text: &str) -> Option<u64> {
    match text.parse::<u64>() {
        Ok(bits) => Some(bits),
        Err(_) => None,
    }
}

fn entries(rt: &impl Abort, alloc: Global, line: &str) -> Vec<Option<u64>> {
    let mut list = Vec::new(alloc);
    for text in line.split(' ') {
        list.push(entry(text)).expect(rt, "memory");
    }
    list
}

// Entries none of which is a dash.
fn values(rt: &impl Abort, alloc: Global, entries: &[Option<u64>]) -> Vec<u64> {
    let mut list = Vec::new(alloc);
    for entry in entries {
        list.push(entry.expect(rt, "a dash")).expect(rt, "memory");
    }
    list
}

fn check_binary(rt: &impl Abort, op: BinOp, elem: Elem, ends: &[u64], results: &[Option<u64>]) {
    assert_eq!(rt;
        results.len() as u128,
        ends.len() as u128 * ends.len() as u128
    );
    let mut results = results.iter();
    for x in ends {
        for y in ends {
            let wanted = results.next().copied().flatten();
            assert!(rt;
                apply(op, elem, *x, *y).ok() == wanted,
                "{op:?} on {elem:?} at {x}, {y}"
            );
        }
    }
}

fn check_unary(rt: &impl Abort, op: UnaryOp, elem: Elem, ends: &[u64], results: &[Option<u64>]) {
    assert_eq!(rt; results.len(), ends.len());
    for (x, result) in ends.iter().zip(results.iter()) {
        let found = Some(apply_unary(op, elem, *x));
        assert!(rt; found == *result, "{op:?} on {elem:?} at {x}");
    }
}

fn check_converted(rt: &impl Abort, to: Elem, from: Elem, ends: &[u64], results: &[Option<u64>]) {
    assert_eq!(rt; results.len(), ends.len());
    for (x, result) in ends.iter().zip(results.iter()) {
        let found = Some(convert(from, to, *x));
        assert!(rt; found == *result, "{from:?} to {to:?} at {x}");
    }
}

// What a line of the table says of the values of a type.
fn check_line(rt: &impl Abort, elem: Elem, ends: &[u64], name: &str, results: &[Option<u64>]) {
    if let Some(op) = named(&BINARY, name) {
        check_binary(rt, op, elem, ends, results);
    } else if let Some(op) = named(&UNARY, name) {
        check_unary(rt, op, elem, ends, results);
    } else {
        let to = elem_named(name).expect(rt, "a line of another name");
        check_converted(rt, to, elem, ends, results);
    }
}

// Whether the comparisons of two values, the least and the greatest are as their order says.
fn is_in_order(elem: Elem, x: u64, y: u64, order: Ordering) -> bool {
    for (comparison, less, equal, greater) in &COMPARISONS {
        let wanted = match order {
            Ordering::Less => *less,
            Ordering::Equal => *equal,
            Ordering::Greater => *greater,
        };
        if compare(*comparison, elem, x, y) != wanted {
            return false;
        }
    }
    let (least, greatest) = if order == Ordering::Less {
        (x, y)
    } else {
        (y, x)
    };
    apply(BinOp::Min, elem, x, y) == Ok(least) && apply(BinOp::Max, elem, x, y) == Ok(greatest)
}

// `ends` stand in the order of their numbers.
fn check_order(rt: &impl Abort, elem: Elem, ends: &[u64]) {
    for (p, x) in ends.iter().enumerate() {
        for (q, y) in ends.iter().enumerate() {
            assert!(rt;
                is_in_order(elem, *x, *y, p.cmp(&q)),
                "{elem:?} at {x}, {y}"
            );
        }
    }
}

// Each line of the table: the operators on the values of the type that stands above it.
#[test]
fn at_the_ends_of_each_type(rt: HostRuntime) {
    let alloc = rt.alloc();
    let mut elem = Elem::Bool;
    let mut ends = Vec::new(alloc);
    let mut lines = 0u64;
    for line in TABLE.lines() {
        let (name, rest) = parted(line, ' ');
        let found = entries(&rt, alloc, rest);
        match name.strip_prefix("values_of_") {
            Some(type_name) => {
                elem = elem_named(type_name).expect(&rt, "a type of another name");
                ends = values(&rt, alloc, found.as_slice());
                check_order(&rt, elem, ends.as_slice());
            }
            None => check_line(&rt, elem, ends.as_slice(), name, found.as_slice()),
        }
        lines = lines.saturating_add(1);
    }
    assert_eq!(rt; lines, 216);
}

/// Each line, by hand: an operator, a type, two values, and the result, or a dash where it divides by zero. Bits above the
/// width are not read.
const BY_HAND: &str = "shr int8 128 1 192
div int32 2147483648 4294967295 2147483648
rem int32 2147483648 4294967295 0
rem int32 7 0 -
add uint8 511 513 0
rem uint8 7 256 -
";

fn try_by_hand(rt: &impl Abort, alloc: Global, line: &str) {
    let (word, rest) = parted(line, ' ');
    let (kind, rest) = parted(rest, ' ');
    let op = named(&BINARY, word).expect(rt, "a line of another name");
    let elem = elem_named(kind).expect(rt, "a type of another name");
    match entries(rt, alloc, rest).as_slice() {
        [Some(x), Some(y), wanted] => {
            assert!(rt; apply(op, elem, *x, *y).ok() == *wanted, "{line}");
        }
        _ => assert!(rt; false, "{line}"),
    }
}

#[test]
fn by_hand(rt: HostRuntime) {
    assert_eq!(rt; number(Elem::I8, wrap(Elem::I8, 200)), -56);
    let mut lines = 0u64;
    for line in BY_HAND.lines() {
        try_by_hand(&rt, rt.alloc(), line);
        lines = lines.saturating_add(1);
    }
    assert_eq!(rt; lines, 6);
}

/// Each line, by hand: two types, and the one to which both are converted.
const COMMON: &str = "bool bool int32
bool int8 int32
uint16 bool int32
uint32 bool uint32
int8 uint8 uint8
uint8 int16 int16
uint64 int64 uint64
";

#[test]
fn common_types(rt: HostRuntime) {
    let mut lines = 0u64;
    for line in COMMON.lines() {
        let (left, rest) = parted(line, ' ');
        let (right, wanted) = parted(rest, ' ');
        let left = elem_named(left).expect(&rt, "a type of another name");
        let right = elem_named(right).expect(&rt, "a type of another name");
        assert!(rt; Some(common(left, right)) == elem_named(wanted), "{line}");
        lines = lines.saturating_add(1);
    }
    assert_eq!(rt; lines, 7);
}
