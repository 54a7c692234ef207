//! Memory refused to the run of an instance, at each growth.
use crate::programs::{bound, checked};
use isp_solo_run::arrays::Arrays;
use isp_solo_run::running::{Ending, Run, run_alone};
use isp_tests_support::{Tried, sweep_call};
use std::alloc::Global;
use std::test::Fail;

/// A program, and its run by instance 1.
#[derive(Clone, Copy)]
struct Row<'a> {
    source: &'a str,
    /// The arguments in JSON.
    arguments: &'a str,
    gives: u64,
    /// What it stores in each element of a.
    stored: [Option<u64>; 3],
    /// Which elements of a it reads.
    read: [bool; 3],
}

/// The runs take memory for variables, an array of their own, calls, a `foreach`, a `foreach_unique` and what is touched.
const ROWS: [Row<'static>; 2] = [
    // g(x) is x; 1 has i = 1, so it stores 6 + 1 in a[1]; at last it reads that and a[2], and gives 7 + 7.
    Row {
        source: "int g(int x) { int t[2]; t[x & 1] = x; return t[x & 1]; } export uniform int f(uniform int a[]) { foreach (i = 0 ... 3) a[i] += g(i); return a[1] + a[2]; }",
        arguments: "{\"a\":[5,6,7]}",
        gives: 14,
        stored: [None, Some(7), None],
        read: [false, true, true],
    },
    // 1 has a[1] = 2 for u: it stores 7 + 2 in a[2], and gives 0 + 2.
    Row {
        source: "export uniform int f(uniform int a[]) { uniform int n = 0; foreach_unique (u in a[programIndex]) { a[u] += u; n += u; } return n; }",
        arguments: "{\"a\":[0,2,7]}",
        gives: 2,
        stored: [None, None, Some(9)],
        read: [false, true, true],
    },
];

fn is_read(run: &Run, place: usize) -> bool {
    match run.arrays.stores.get(0) {
        Some(array) => array.read_at(place),
        None => false,
    }
}

fn is_right(run: &Run, row: &Row<'_>) -> bool {
    for (place, read) in row.read.iter().enumerate() {
        if is_read(run, place) != *read {
            return false;
        }
    }
    for (place, stored) in row.stored.iter().enumerate() {
        if run.arrays.stored_at(0, place) != *stored {
            return false;
        }
    }
    match run.ending {
        Ending::Gave(bits) => bits == row.gives,
        _ => false,
    }
}

#[test]
fn memory_refused_to_a_run(rt: HostRuntime) -> Result<(), Fail> {
    let alloc = rt.alloc();
    for row in &ROWS {
        let checked = checked(&rt, alloc, row.source);
        let bound = bound(&rt, alloc, &checked, "f", row.arguments);
        let function = checked.entry("f").expect(&rt, "no such entry");
        sweep_call(alloc, "run_alone", || {
            let arguments = bound.arguments.as_slice();
            let arrays = Arrays::new(alloc);
            match run_alone(checked.program(), function, arguments, 0, 1, arrays) {
                Ok(run) => Tried::answered(is_right(&run, row)),
                Err(_) => Tried::Refused,
            }
        })?;
    }
    Ok(())
}
