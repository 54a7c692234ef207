//! Memory refused to a counted run, at each growth: the same run then gives its arrays, its output and its counts.
use super::runs::verified;
use crate::given::bound;
use isp_machine::StartFault;
use isp_tests_support::{Hoard, Tried, sweep};
use isp_traces::{Counted, count_run, counts_line};
use isp_verify::Verified;
use std::alloc::Global;
use std::test::Fail;

// A call, a local array, a text and a vector that are written. Each asks for memory in the run, and the counts do before it.
const CODE: &str = "isp 1 gang 4
place 0 4
text 6869
func f export void
par a i32 a
s i64
v i32
m 1
const s0 0
vload v0 a0 s0 m0 p0
call f1 v0 m0 p0 v0
vstore a0 s0 v0 m0 p0
ret -
end
func g inner v i32
par v i32 x
loc u i32 100
v i32
m 1
say t0
prv v0 m0
add v1 v0 v0 m0
ret v1
end
";

const GIVEN: &str = "i32[]:10,20,30,40";

const LEFT: [u64; 4] = [20, 40, 60, 80];

const OUTPUT: &str = "hi[10,20,30,40]";

// By hand: 9 instructions, of which all but const, the two ret and say stand under the four lanes of m0.
const COUNTS: &str =
    "{\"instructions\":9,\"masked\":5,\"lanes_on\":20,\"lanes\":20,\"functions\":{\"f\":{\"instructions\":5,\"masked\":3,\"lanes_on\":12,\"lanes\":12},\"g\":{\"instructions\":4,\"masked\":2,\"lanes_on\":8,\"lanes\":8}},\"kinds\":{\"scalars\":{\"instructions\":1,\"masked\":0,\"lanes_on\":0,\"lanes\":0},\"vectors\":{\"instructions\":1,\"masked\":1,\"lanes_on\":4,\"lanes\":4},\"memory\":{\"instructions\":2,\"masked\":2,\"lanes_on\":8,\"lanes\":8},\"masks\":{\"instructions\":0,\"masked\":0,\"lanes_on\":0,\"lanes\":0},\"jumps\":{\"instructions\":0,\"masked\":0,\"lanes_on\":0,\"lanes\":0},\"calls\":{\"instructions\":3,\"masked\":1,\"lanes_on\":4,\"lanes\":4},\"output\":{\"instructions\":2,\"masked\":1,\"lanes_on\":4,\"lanes\":4},\"asserts\":{\"instructions\":0,\"masked\":0,\"lanes_on\":0,\"lanes\":0}}}\n";

// Whether one array is left, with these elements.
fn has_left(counted: &Counted) -> bool {
    match counted.arrays.as_slice() {
        [array] => array.len() == 4 && (0..4).all(|place| array.at(place) == LEFT[place]),
        _ => false,
    }
}

// What comes of a counted run.
fn told(
    alloc: Global,
    code: &Verified,
    answer: Result<Counted, StartFault>,
) -> Result<Tried, Fail> {
    match answer {
        Ok(counted) => {
            let line = counts_line(alloc, code, &counted.counts)?;
            Ok(Tried::answered(
                has_left(&counted)
                    && counted.output.as_slice() == OUTPUT.as_bytes()
                    && line.as_slice() == COUNTS.as_bytes(),
            ))
        }
        Err(fault) => Ok(Tried::failed(fault == StartFault::Memory)),
    }
}

// A run for which there are so many bytes; where it is refused, another one of the same code follows.
fn attempted(
    alloc: Global,
    code: &Verified,
    hoard: &mut Hoard,
    bytes: usize,
) -> Result<Tried, Fail> {
    let first = bound(alloc, GIVEN).ok_or("no arguments")?;
    hoard.beside(bytes)?;
    let answer = count_run(alloc, code, "f", first, 1_000);
    hoard.ample();
    match told(alloc, code, answer)? {
        Tried::Refused => {
            let again = bound(alloc, GIVEN).ok_or("no arguments")?;
            let answer = count_run(alloc, code, "f", again, 1_000);
            Ok(told(alloc, code, answer)?.retried())
        }
        tried => Ok(tried),
    }
}

#[test]
fn memory_refused(rt: HostRuntime) -> Result<(), Fail> {
    let alloc = rt.alloc();
    let code = verified(&rt, alloc, CODE);
    sweep(alloc, "count_run", |hoard, bytes| {
        attempted(alloc, &code, hoard, bytes)
    })
}
