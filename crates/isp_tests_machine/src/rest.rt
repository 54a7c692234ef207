//! What a run leaves behind.
use crate::codes::verified;
use crate::given::bound;
use crate::views::elements;
use isp_base::{Bound, Gang};
use isp_machine::Machine;
use isp_verify::Verified;
use std::alloc::{AllocError, Global};

// One element is written, and a text. The local array is no argument.
const FUNCTION: &str = "func f export void
par a i32 a
par s i64 at
par s i32 x
loc u i32 2
m 1
store a0 s0 s1 m0 p0
say t1
ret -
end";

// How many instructions are made, and the array and the output then.
const LEFT: [(u64, &str); 3] = [
    (0, " [5, 6, 7]"),
    (1, " [5, 9, 7]"),
    (9, " [5, 9, 7]one two"),
];

// The arrays and the output that a machine gives up.
fn left(alloc: Global, mut machine: Machine<'_, 4>, budget: u64) -> Result<String, AllocError> {
    machine.run(budget);
    let rest = machine.into_rest();
    let output = str::from_utf8(rest.output.as_slice()).unwrap_or("no text");
    format!(in alloc; "{}{output}", elements(alloc, rest.arrays.as_slice())?)
}

fn leaves(alloc: Global, code: &Verified, bound: Bound, budget: u64, wanted: &str) -> bool {
    let Gang::W4 = code.gang() else {
        return false;
    };
    match Machine::<'_, 4>::start(alloc, code, "f", bound) {
        Ok(machine) => left(alloc, machine, budget).is_ok_and(|text| text.as_str() == wanted),
        Err((_bound, _fault)) => false,
    }
}

#[test]
fn what_is_left_behind(rt: HostRuntime) {
    let alloc = rt.alloc();
    let code = verified(&rt, alloc, Gang::W4, FUNCTION);
    for (budget, wanted) in LEFT {
        let bound = bound(alloc, "i32[]:5,6,7 i64:1 i32:9").expect(&rt, "no arguments");
        assert!(rt; leaves(alloc, &code, bound, budget, wanted), "{budget}");
    }
}
