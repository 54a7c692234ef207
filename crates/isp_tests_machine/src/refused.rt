//! Memory that is refused, and then given: at each growth of a call, of each instruction that asks for it, and of a text
//! without an end.
ghost use Rattle.std.specs.Prelude.{◌≡◌};
ghost use Rattle.isp_base.specs.Types.{gang_width};

use crate::codes::verified;
use crate::given::bound;
use crate::views::whole;
use isp_base::{Bound, Elem, Gang};
use isp_machine::{Machine, StartFault, Stop};
use isp_store::Arrays;
use isp_tests_support::{Hoard, Tried, sweep};
use isp_verify::Verified;
use std::alloc::{AllocError, Global};
use std::test::Fail;

/// A run of `f`, and what is seen when it ends.
#[derive(Clone, Copy)]
struct Run<'a> {
    /// What the growth is of.
    name: &'a str,
    functions: &'a str,
    given: &'a str,
    /// How many instructions come before the one that asks for memory.
    before: u64,
    seen: &'a str,
}

// Whether a run ends so.
fn ends<const N: usize>(alloc: Global, machine: &mut Machine<'_, N>, seen: &str) -> bool {
    let stop = machine.run(1_000);
    whole(alloc, machine, stop).is_ok_and(|text| text.as_str() == seen)
}

// Makes the instruction that asks for memory. Where it is refused, nothing is written, and the run goes on from there.
fn asks(
    alloc: Global,
    machine: &mut Machine<'_, 4>,
    run: &Run,
    hoard: &mut Hoard,
    bytes: usize,
) -> Tried {
    if !matches!(machine.run(run.before), Stop::Running) || hoard.beside(bytes).is_err() {
        return Tried::Wrong;
    }
    let length = machine.output().len();
    let first = machine.run(1);
    hoard.ample();
    let stays = machine.output().len() == length;
    let tried = Tried::answered(ends(alloc, machine, run.seen));
    match first {
        Stop::Memory if stays => tried.retried(),
        Stop::Memory => Tried::Wrong,
        _ => tried,
    }
}

fn asked(
    alloc: Global,
    code: &Verified,
    run: &Run,
    hoard: &mut Hoard,
    bytes: usize,
) -> Result<Tried, Fail> {
    let bound = bound(alloc, run.given).ok_or("no arguments")?;
    match code.gang() {
        Gang::W4 => match Machine::<'_, 4>::start(alloc, code, "f", bound) {
            Ok(mut machine) => Ok(asks(alloc, &mut machine, run, hoard, bytes)),
            Err((_bound, _fault)) => Ok(Tried::Wrong),
        },
        _ => Ok(Tried::Wrong),
    }
}

// Two registers are set, and a text or one of them is written.
const SAY: &str = "func f export void
s i32
v i32
m 1
const s0 7
index v0 m0
say t1
ret -
end";

const PRINT_SCALAR: &str = "func f export void
s i32
v i32
m 1
const s0 7
index v0 m0
prs s0
ret -
end";

const PRINT_VECTOR: &str = "func f export void
s i32
v i32
m 1
const s0 7
index v0 m0
prv v0 m0
ret -
end";

// f(n): where n is 0 it gives 0. Else it puts n into a local array, calls itself with n - 1, and gives the sum of what
// comes back, of what the array holds then, and of what it held at first.
const NESTED: &str = "func f export s i32
par s i32 n
loc u i32 2
s b i32 i64 i32
m 1
conv s1 s0
jz s1 L10
const s2 1
sub s2 s0 s2
load s4 a0 s3 m0 p0
store a0 s3 s0 m0 p0
call f0 s2 m0 p1 s2
load s0 a0 s3 m0 p0
add s0 s0 s2
add s0 s0 s4
ret s0
end";

// f calls g(v0, a0) under the lanes below 2, twice, and prints what came back. g prints what it is given and its own array,
// puts the lane numbers plus 5 there in all lanes, stores them in a under its mask, and gives them back.
const CALLER_AND_CALLEE: &str = "func f export void
par a i32 a
s i64 i64
v i32
m 2
index v0 m0
const s1 2
mrange m1 s0 s1
call f1 v0 m1 p1 v0 a0
prv v0 m0
call f1 v0 m1 p1 v0 a0
ret -
end
func g inner v i32
par v i32 x
par a i32 a
loc p i32 4
s i32
v i32 i64 i32
m 2
mfull m1
prv v0 m1
gather v3 a1 v2 m1 p0
prv v3 m0
index v1 m1
const s0 5
splat v3 s0 m1
add v1 v1 v3 m1
scatter a1 v2 v1 m1 p0
gather v3 a1 v2 m1 p0
scatter a0 v2 v3 m0 p0
ret v1
end";

const RUNS: [Run<'static>; 6] = [
    // A text.
    Run {
        name: "say",
        functions: SAY,
        given: "",
        before: 2,
        seen: "ended - \"one two\"",
    },
    // A value.
    Run {
        name: "prs",
        functions: PRINT_SCALAR,
        given: "",
        before: 2,
        seen: "ended - \"7\"",
    },
    // Values.
    Run {
        name: "prv",
        functions: PRINT_VECTOR,
        given: "",
        before: 2,
        seen: "ended - \"[0,1,2,3]\"",
    },
    // The sum of a number is made by calls of f itself.
    Run {
        name: "call with a shared array",
        functions: NESTED,
        given: "i32:1",
        before: 6,
        seen: "ended 1 \"\"",
    },
    // The first of two calls.
    Run {
        name: "call with a lane array",
        functions: CALLER_AND_CALLEE,
        given: "i32[]:9,9",
        before: 3,
        seen: "ended - \"[0,1,0,0][0,0,_,_][5,6,2,3][5,6,0,0][0,0,_,_]\" [6, 9]",
    },
    // The second has the room of the first.
    Run {
        name: "call with kept room",
        functions: CALLER_AND_CALLEE,
        given: "i32[]:9,9",
        before: 17,
        seen: "ended - \"[0,1,0,0][0,0,_,_][5,6,2,3][5,6,0,0][0,0,_,_]\" [6, 9]",
    },
];

#[test]
fn memory_refused_to_runs(rt: HostRuntime) -> Result<(), Fail> {
    let alloc = rt.alloc();
    for run in &RUNS {
        let code = verified(&rt, alloc, Gang::W4, run.functions);
        sweep(alloc, run.name, |hoard, bytes| {
            asked(alloc, &code, run, hoard, bytes)
        })?;
    }
    Ok(())
}

// The run of a machine that is started; where that is refused, it is started again with the arguments that came back.
fn starts<const N: usize>(
    alloc: Global,
    code: &Verified,
    bound: Bound,
    run: &Run,
    hoard: &mut Hoard,
) -> Tried
    requires { N ≡ gang_width code.now.gang }
{
    let first = Machine::<'_, N>::start(alloc, code, "f", bound);
    hoard.ample();
    match first {
        Ok(mut machine) => Tried::answered(ends(alloc, &mut machine, run.seen)),
        Err((bound, fault)) => match Machine::<'_, N>::start(alloc, code, "f", bound) {
            Ok(mut machine) => {
                Tried::failed(fault == StartFault::Memory && ends(alloc, &mut machine, run.seen))
            }
            Err((_bound, _fault)) => Tried::Wrong,
        },
    }
}

fn started(
    alloc: Global,
    code: &Verified,
    run: &Run,
    hoard: &mut Hoard,
    bytes: usize,
) -> Result<Tried, Fail> {
    let bound = bound(alloc, run.given).ok_or("no arguments")?;
    hoard.beside(bytes)?;
    match code.gang() {
        Gang::W4 => Ok(starts::<4>(alloc, code, bound, run, hoard)),
        _ => Ok(Tried::Wrong),
    }
}

// The start of each that has arguments.
#[test]
fn memory_refused_to_the_start(rt: HostRuntime) -> Result<(), Fail> {
    let alloc = rt.alloc();
    for run in &RUNS[3..5] {
        let code = verified(&rt, alloc, Gang::W4, run.functions);
        sweep(alloc, "start", |hoard, bytes| {
            started(alloc, &code, run, hoard, bytes)
        })?;
    }
    Ok(())
}

// One more local array, where the list of them has no room.
fn opened(alloc: Global, elem: Elem, hoard: &mut Hoard, bytes: usize) -> Result<Tried, Fail> {
    let mut arrays = Arrays::new(alloc, Vec::new(alloc));
    for _ in 0..4u32 {
        arrays.open_local(elem, 3)?;
    }
    hoard.beside(bytes)?;
    let first = arrays.open_local(elem, 100);
    hoard.ample();
    if first.is_ok() {
        return Ok(Tried::answered(arrays.locals() == 5));
    }
    let stays = arrays.locals() == 4;
    arrays.open_local(elem, 100)?;
    Ok(Tried::failed(stays && arrays.locals() == 5))
}

#[test]
fn memory_refused_to_a_local_array(rt: HostRuntime) -> Result<(), Fail> {
    let alloc = rt.alloc();
    sweep(alloc, "open_local", |hoard, bytes| {
        opened(alloc, Elem::I32, hoard, bytes)
    })
}

// Whether the output is a text, over and over.
fn repeats(output: &[u8], text: &str) -> bool {
    let text = text.as_bytes();
    let length = text.len().max(1);
    for (place, byte) in output.iter().enumerate() {
        if text.get(place % length) != Some(byte) {
            return false;
        }
    }
    output.len() % length == 0
}

// Runs on while memory is refused: twice it stands before the text.
fn stands(alloc: Global, machine: &mut Machine<'_, 4>) -> Result<bool, AllocError> {
    let hoard = Hoard::new(alloc)?;
    let first = matches!(machine.run(1_000_000), Stop::Memory);
    let length = machine.output().len();
    let second = matches!(machine.run(1), Stop::Memory);
    drop(hoard);
    Ok(first && second && machine.output().len() == length)
}

// Goes on by two instructions, of which the first writes the text once.
fn writes_one(machine: &mut Machine<'_, 4>, text: &str) -> bool {
    let length = machine.output().len();
    matches!(machine.run(1), Stop::Running)
        && machine.output().len().saturating_sub(length) == text.len()
        && matches!(machine.run(1), Stop::Running)
        && machine.output().len().saturating_sub(length) == text.len()
}

fn goes_on(alloc: Global, machine: &mut Machine<'_, 4>, text: &str) -> Result<bool, AllocError> {
    let begins = matches!(machine.run(2), Stop::Running) && machine.output() == text.as_bytes();
    let stood = stands(alloc, machine)?;
    Ok(
        begins
            && stood
            && repeats(machine.output(), text)
            && writes_one(machine, text)
            && repeats(machine.output(), text),
    )
}

fn is_written_once(alloc: Global, code: &Verified, text: &str) -> Result<bool, AllocError> {
    let bound = Bound {
        arguments: Vec::new(alloc),
    };
    match code.gang() {
        Gang::W4 => match Machine::<'_, 4>::start(alloc, code, "f", bound) {
            Ok(mut machine) => goes_on(alloc, &mut machine, text),
            Err((_bound, _fault)) => Ok(false),
        },
        _ => Ok(false),
    }
}

// A text without an end: once its growth is refused it is not written; given memory, it is written once.
#[test]
fn one_text_once(rt: HostRuntime) {
    let alloc = rt.alloc();
    for (functions, text) in [
        ("func f export void\nm 1\nsay t0\njmp L0\nend", "x"),
        ("func f export void\nm 1\nsay t1\njmp L0\nend", "one two"),
    ] {
        let code = verified(&rt, alloc, Gang::W4, functions);
        let once = is_written_once(alloc, &code, text).expect(&rt, "memory");
        assert!(rt; once, "{text}");
    }
}
