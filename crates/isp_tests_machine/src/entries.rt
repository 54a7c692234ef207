//! Entries that are not there.
use crate::codes::verified;
use crate::given::bound;
use isp_base::{Bound, Gang};
use isp_machine::{Machine, StartFault};
use isp_verify::Verified;
use std::alloc::Global;

// An entry of two arrays.
const FUNCTION: &str = "func f export void\npar a i32 a\npar a b on\nm 1\nret -\nend";

// 50, and the arguments come back.
fn is_refused(alloc: Global, code: &Verified, entry: &str, bound: Bound) -> bool {
    let count = bound.arguments.len();
    match code.gang() {
        Gang::W4 => match Machine::<'_, 4>::start(alloc, code, entry, bound) {
            Ok(_machine) => false,
            Err((bound, fault)) => fault == StartFault::NoEntry && bound.arguments.len() == count,
        },
        _ => false,
    }
}

// The name of an entry, and its arguments.
const NO_ENTRIES: [(&str, &str); 4] = [
    ("g", "i32[]:0,3,0,4 b[]:0,3,0,4"),
    ("f", "u32[]:0,3,0,4 b[]:0,3,0,4"),
    ("f", "i32[]:0,3,0,4 b:1"),
    ("f", "i32[]:0,3,0,4"),
];

#[test]
fn no_entry(rt: HostRuntime) {
    let alloc = rt.alloc();
    let code = verified(&rt, alloc, Gang::W4, FUNCTION);
    for (entry, given) in NO_ENTRIES {
        let bound = bound(alloc, given).expect(&rt, "no arguments");
        assert!(rt;
            is_refused(alloc, &code, entry, bound),
            "{entry} of {given}"
        );
    }
}
