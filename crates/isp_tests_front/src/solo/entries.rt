//! Entries that are not there.
use crate::programs::{bound, checked};
use isp_solo::{EvalFault, one_by_one};

/// Sources whose `f` takes the arguments, and in which no entry `g` does: it is not exported, so its breach is not looked at; it takes an array of int8.
const SOURCES: [&str; 2] = [
    "void g(uniform int a[]) { print(\"x\"); } export void f(uniform int a[]) { }",
    "export void g(uniform int8 a[]) { print(\"x\"); } export void f(uniform int a[]) { }",
];

#[test]
fn no_entry(rt: HostRuntime) {
    let alloc = rt.alloc();
    for source in SOURCES {
        let checked = checked(&rt, alloc, source);
        let bound = bound(&rt, alloc, &checked, "f", "{\"a\":[1]}");
        let report = one_by_one(alloc, &checked, "g", &bound, 0);
        assert!(rt; matches!(report, Err(EvalFault::NoEntry)), "{source}");
    }
}
