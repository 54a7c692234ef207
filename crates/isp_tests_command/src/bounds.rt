//! Runs of arguments as they are bound: what they leave, and what comes back where they are refused.
use isp_base::{Argument, Array, Bound, Elem, Gang, Value, low_bits};
use isp_engine::{BoundReport, Image, StartFault, Stop, compile, execute_bound};
use isp_tests_support::Hoard;
use std::alloc::Global;
use std::process::Abort;

// Doubles four elements and adds x, says `y`, and gives one more than x.
const SHORT: &str =
    "export uniform int f(uniform int a[], uniform int x) { a[programIndex] = a[programIndex] * 2 + x; print(\"y\"); return x + 1; }";

// Writes one element, and says `z` for ever.
const ENDLESS: &str =
    "export void f(uniform int a[], uniform int x) { a[1] = x; while (true) print(\"z\"); }";

fn compiled(rt: &impl Abort, alloc: Global, text: &str) -> Image {
    compile(alloc, text, Gang::W4).ok().expect(rt, "no code")
}

fn array(rt: &impl Abort, alloc: Global) -> Argument {
    let mut array = Array::empty(alloc, Elem::I32);
    for bits in [5u64, 6, 7, 8] {
        let low = low_bits(array.elem(), bits);
        array.push(low).expect(rt, "memory");
    }
    Argument::Array(array)
}

// The elements 5, 6, 7 and 8.
fn short(rt: &impl Abort, alloc: Global) -> Bound {
    let mut arguments = Vec::new(alloc);
    arguments.push(array(rt, alloc)).expect(rt, "memory");
    Bound { arguments }
}

// The same, and the value 3.
fn bound(rt: &impl Abort, alloc: Global) -> Bound {
    let mut bound = short(rt, alloc);
    let value = Value {
        elem: Elem::I32,
        bits: 3,
    };
    bound
        .arguments
        .push(Argument::Value(value))
        .expect(rt, "memory");
    bound
}

fn has(array: &Array, items: &[u64]) -> bool {
    if array.len() != items.len() {
        return false;
    }
    for (place, bits) in items.iter().enumerate() {
        if place >= array.len() || array.at(place) != *bits {
            return false;
        }
    }
    true
}

// Whether these are the arguments that went in.
fn came_back(bound: &Bound) -> bool {
    match bound.arguments.as_slice() {
        [Argument::Array(array), Argument::Value(value)] => {
            has(array, &[5, 6, 7, 8]) && value.bits == 3
        }
        _ => false,
    }
}

// Whether one array is left, with these elements.
fn has_left(report: &BoundReport, items: &[u64]) -> bool {
    match report.arrays.as_slice() {
        [array] => has(array, items),
        _ => false,
    }
}

// Whether a run ended with these elements, this output and these bits.
fn ended(report: &BoundReport, items: &[u64], output: &[u8], bits: u64) -> bool {
    matches!(report.stop, Stop::Ended)
        && has_left(report, items)
        && report.output.as_slice() == output
        && report.result.is_some_and(|value| value.bits == bits)
}

// By hand: 2 * 5 + 3, 2 * 6 + 3, 2 * 7 + 3 and 2 * 8 + 3.
#[test]
fn a_run(rt: HostRuntime) {
    let alloc = rt.alloc();
    let image = compiled(&rt, alloc, SHORT);
    let report = execute_bound(alloc, &image, "f", bound(&rt, alloc), 1_000);
    let report = report.ok().expect(&rt, "the run is refused");
    assert!(rt; ended(&report, &[13, 15, 17, 19], b"y", 4));
}

// Whether a run is refused with this fault, and as many arguments come back.
fn is_refused(
    run: Result<BoundReport, (Bound, StartFault)>,
    fault: StartFault,
    count: usize,
) -> bool {
    match run {
        Ok(_report) => false,
        Err((bound, found)) => {
            found == fault && bound.arguments.len() == count && (count == 1 || came_back(&bound))
        }
    }
}

// Another name, and too few arguments.
#[test]
fn no_entry(rt: HostRuntime) {
    let alloc = rt.alloc();
    let image = compiled(&rt, alloc, SHORT);
    let named = execute_bound(alloc, &image, "g", bound(&rt, alloc), 1_000);
    assert!(rt; is_refused(named, StartFault::NoEntry, 2));
    let given = execute_bound(alloc, &image, "f", short(&rt, alloc), 1_000);
    assert!(rt; is_refused(given, StartFault::NoEntry, 1));
}

// Memory is refused before the first instruction.
#[test]
fn no_memory(rt: HostRuntime) {
    let alloc = rt.alloc();
    let image = compiled(&rt, alloc, SHORT);
    let bound = bound(&rt, alloc);
    let mut hoard = Hoard::new(alloc).expect(&rt, "memory");
    hoard.beside(0).expect(&rt, "the pool is too small");
    let run = execute_bound(alloc, &image, "f", bound, 1_000);
    assert!(rt; is_refused(run, StartFault::Memory, 2));
}

// Whether memory was refused to the output in the middle of a run that says `z` for ever.
fn stood_still(report: &BoundReport, items: &[u64]) -> bool {
    matches!(report.stop, Stop::Memory)
        && has_left(report, items)
        && !report.output.is_empty()
        && report.output.iter().all(|byte| *byte == b'z')
        && report.result.is_none()
}

#[test]
fn memory_in_the_middle(rt: HostRuntime) {
    let alloc = rt.alloc();
    let image = compiled(&rt, alloc, ENDLESS);
    let bound = bound(&rt, alloc);
    let mut hoard = Hoard::new(alloc).expect(&rt, "memory");
    hoard.beside(65_536).expect(&rt, "the pool is too small");
    let report = execute_bound(alloc, &image, "f", bound, 100_000_000);
    let report = report.ok().expect(&rt, "the run does not begin");
    assert!(rt; stood_still(&report, &[5, 3, 7, 8]));
}
