//! Memory refused to the front's last two calls, to the evaluator and to the count of work, at each growth.
use crate::programs::{bound, checked};
use isp_base::{Bound, Gang};
use isp_bind::answer;
use isp_lex::{SourceFault, lex};
use isp_model::{EvalFault, Outcome, evaluate, work};
use isp_rates::{Checked, check};
use isp_syntax::{Tree, parse};
use isp_tests_support::{
    CALLS, COUNTER, Hoard, INC, LOCAL_ARRAY, Program, Tried, UNIQUE, sweep, sweep_call,
};
use isp_typed::Typed;
use isp_types::resolve;
use std::alloc::Global;
use std::process::Abort;
use std::test::Fail;

const TURNS: u64 = 1000;

/// Programs with their work.
const WORKS: [(Program<'static>, u64); 2] = [
    // The body, the foreach, its two bounds; for each of 2 runs: itself, the assignment, index and operand on the left, an
    // operator, an index and two operands on the right.
    (INC, 20),
    // The body, the declaration and its item, index and operand of its value; the foreach_unique and its operand; for each
    // of 2 turns: itself, the print and its two values.
    (UNIQUE, 15),
];

// What comes of a run, by its answer and its output.
fn ended(alloc: Global, checked: &Checked, program: &Program<'_>, outcome: &Outcome) -> Tried {
    let Some(signature) = checked.signature(program.entry) else {
        return Tried::Wrong;
    };
    let Outcome::Ends {
        arrays,
        result: returned,
        output,
    } = outcome
    else {
        return Tried::Wrong;
    };
    match answer(alloc, signature, arrays.as_slice(), *returned) {
        Ok(text) => Tried::answered(
            text.as_str() == program.answer && output.as_slice() == program.output.as_bytes(),
        ),
        Err(_) => Tried::Wrong,
    }
}

// What comes of an evaluation with ample memory.
fn judged(alloc: Global, program: &Program<'_>, checked: &Checked, bound: &Bound) -> Tried {
    match evaluate(alloc, checked, program.entry, bound, TURNS) {
        Ok(outcome) => ended(alloc, checked, program, &outcome),
        Err(_) => Tried::Wrong,
    }
}

// What comes of types with ample memory, by the run of their program.
fn rated(alloc: Global, program: &Program<'_>, bound: &Bound, typed: Typed) -> Tried {
    match check(alloc, typed) {
        Ok(checked) => judged(alloc, program, &checked, bound),
        Err(_) => Tried::Wrong,
    }
}

/// What a call is tried with, made before.
#[derive(Clone, Copy)]
struct Given<'a> {
    program: &'a Program<'a>,
    tree: &'a Tree,
    checked: &'a Checked,
    bound: &'a Bound,
}

fn resolves(alloc: Global, given: Given<'_>, hoard: &mut Hoard) -> Result<Tried, Fail> {
    let first = resolve(alloc, given.tree, Gang::W4);
    hoard.ample();
    match first {
        Ok(typed) => Ok(rated(alloc, given.program, given.bound, typed)),
        Err(SourceFault::Memory) => {
            let typed = resolve(alloc, given.tree, Gang::W4)?;
            Ok(rated(alloc, given.program, given.bound, typed).retried())
        }
        Err(SourceFault::Refused(_fault)) => Ok(Tried::Wrong),
    }
}

// Where memory is refused the program is lost, and its rates are asked of a new one.
fn checks(alloc: Global, given: Given<'_>, hoard: &mut Hoard, bytes: usize) -> Result<Tried, Fail> {
    let typed = resolve(alloc, given.tree, Gang::W4)?;
    hoard.beside(bytes)?;
    let first = check(alloc, typed);
    hoard.ample();
    match first {
        Ok(checked) => Ok(judged(alloc, given.program, &checked, given.bound)),
        Err(SourceFault::Memory) => {
            let typed = resolve(alloc, given.tree, Gang::W4)?;
            Ok(rated(alloc, given.program, given.bound, typed).retried())
        }
        Err(SourceFault::Refused(_fault)) => Ok(Tried::Wrong),
    }
}

fn evaluates(alloc: Global, given: Given<'_>, hoard: &mut Hoard) -> Tried {
    let program = given.program;
    let first = evaluate(alloc, given.checked, program.entry, given.bound, TURNS);
    hoard.ample();
    match first {
        Ok(outcome) => ended(alloc, given.checked, program, &outcome),
        Err(EvalFault::Memory) => judged(alloc, program, given.checked, given.bound).retried(),
        Err(_) => Tried::Wrong,
    }
}

/// The calls that are tried.
#[derive(Clone, Copy)]
enum Call {
    Resolve,
    Check,
    Evaluate,
}

const TRIED: [(&str, Call); 3] = [
    ("resolve", Call::Resolve),
    ("check", Call::Check),
    ("evaluate", Call::Evaluate),
];

fn attempt(
    alloc: Global,
    call: Call,
    given: Given<'_>,
    hoard: &mut Hoard,
    bytes: usize,
) -> Result<Tried, Fail> {
    match call {
        Call::Check => checks(alloc, given, hoard, bytes),
        Call::Resolve => {
            hoard.beside(bytes)?;
            resolves(alloc, given, hoard)
        }
        Call::Evaluate => {
            hoard.beside(bytes)?;
            Ok(evaluates(alloc, given, hoard))
        }
    }
}

fn sweep_calls(alloc: Global, given: Given<'_>) -> Result<(), Fail> {
    for (name, call) in TRIED {
        sweep(alloc, name, |hoard, bytes| {
            attempt(alloc, call, given, hoard, bytes)
        })?;
    }
    Ok(())
}

fn swept(rt: &impl Abort, alloc: Global, program: &Program<'_>) -> Result<(), Fail> {
    let tokens = lex(alloc, program.source).ok().expect(rt, "no words");
    let tree = parse(alloc, &tokens).ok().expect(rt, "no tree");
    let checked = checked(rt, alloc, program.source);
    let bound = bound(rt, alloc, &checked, program.entry, program.arguments);
    let given = Given {
        program,
        tree: &tree,
        checked: &checked,
        bound: &bound,
    };
    sweep_calls(alloc, given)
}

#[test]
fn memory_refused_to_rows(rt: HostRuntime) -> Result<(), Fail> {
    for program in &[INC, LOCAL_ARRAY, COUNTER] {
        swept(&rt, rt.alloc(), program)?;
    }
    Ok(())
}

#[test]
fn memory_refused_to_unique_and_calls(rt: HostRuntime) -> Result<(), Fail> {
    for program in &[UNIQUE, CALLS] {
        swept(&rt, rt.alloc(), program)?;
    }
    Ok(())
}

fn counted(alloc: Global, checked: &Checked, bound: &Bound, entry: &str, wanted: u64) -> Tried {
    match work(alloc, checked, entry, bound, TURNS) {
        Ok(count) => Tried::answered(count == wanted),
        Err(fault) => Tried::failed(matches!(fault, EvalFault::Memory)),
    }
}

#[test]
fn memory_refused_to_work(rt: HostRuntime) -> Result<(), Fail> {
    let alloc = rt.alloc();
    for (program, wanted) in &WORKS {
        let checked = checked(&rt, alloc, program.source);
        let bound = bound(&rt, alloc, &checked, program.entry, program.arguments);
        sweep_call(alloc, "work", || {
            counted(alloc, &checked, &bound, program.entry, *wanted)
        })?;
    }
    Ok(())
}
