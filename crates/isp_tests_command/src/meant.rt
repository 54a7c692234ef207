//! The calls that promise the end, of a program for which each premise of the promise is computed.
use isp_base::Gang;
use isp_bind::{answer, bind};
use isp_engine::{Ending, Report, RunFault, execute, front, load_code};
use isp_headline::{Refusal, compile_as_meant, run_as_meant};
use isp_lex::SourceFault;
use isp_solo::{SoloReport, one_by_one};
use isp_tests_support::{INC, LOCAL_ARRAY, Program, Tried, sweep_call};
use std::alloc::Global;
use std::process::Abort;
use std::test::Fail;

// Each instance doubles its element and adds 1.
const DOUBLE: &str =
    "export void f(uniform int a[]) { a[programIndex] = a[programIndex] * 2 + 1; }";

const ARGUMENTS: &str = "{\"a\":[6,0,4,1]}";

// By hand: 2 * 6 + 1, 2 * 0 + 1, 2 * 4 + 1 and 2 * 1 + 1.
const ANSWER: &str = "{\"arrays\":{\"a\":[13,1,9,3]},\"result\":null}";

/// More instructions than any of the programs makes.
const BUDGET: u64 = 10_000;

fn is_right(report: &Report, wanted: &str) -> bool {
    match (&report.ending, &report.answer) {
        (Ending::Ended, Some(text)) => text.as_str() == wanted && report.output.is_empty(),
        _ => false,
    }
}

// The report of a run that is not refused.
fn run(rt: &impl Abort, alloc: Global, source: &str) -> Report {
    let run = run_as_meant(alloc, source, Gang::W4, "f", ARGUMENTS, BUDGET);
    run.ok().expect(rt, "refused")
}

#[test]
fn text_is_run(rt: HostRuntime) {
    assert!(rt; is_right(&run(&rt, rt.alloc(), DOUBLE), ANSWER));
}

// The text is a program, its entry is independent, the arguments are bound, and each instance, alone, ends apart from the others.
#[test]
fn instances_stand_alone(rt: HostRuntime) {
    let alloc = rt.alloc();
    let checked = front(alloc, DOUBLE, Gang::W4)
        .ok()
        .expect(&rt, "no program");
    let signature = checked.signature("f").expect(&rt, "no entry");
    let bound = bind(alloc, signature, ARGUMENTS)
        .ok()
        .expect(&rt, "not bound");
    match one_by_one(alloc, &checked, "f", &bound, 1) {
        Ok(SoloReport::Ended { arrays, result }) => {
            let text = answer(alloc, signature, arrays.as_slice(), result).expect(&rt, "memory");
            assert!(rt; text.as_str() == ANSWER, "{text}");
        }
        _ => assert!(rt; false, "they do not stand alone"),
    }
}

#[test]
fn code_text_is_run(rt: HostRuntime) {
    let alloc = rt.alloc();
    let image = compile_as_meant(alloc, DOUBLE, Gang::W4)
        .ok()
        .expect(&rt, "no code");
    let text = image.text(alloc).expect(&rt, "memory");
    let again = load_code(alloc, text.as_str())
        .ok()
        .expect(&rt, "no code text");
    let report = execute(alloc, &again, "f", ARGUMENTS, BUDGET)
        .ok()
        .expect(&rt, "refused");
    assert!(rt; is_right(&report, ANSWER));
}

// 1,100 blanks stand before the program.
#[test]
fn long_text_is_run(rt: HostRuntime) {
    let alloc = rt.alloc();
    let mut text = String::new(alloc);
    for _ in 0..1_100u32 {
        text.push_str(" ").expect(&rt, "memory");
    }
    text.push_str(DOUBLE).expect(&rt, "memory");
    assert!(rt; is_right(&run(&rt, alloc, text.as_str()), ANSWER));
}

// A source, an entry, arguments, and how the refusal begins.
const REFUSED: [(&str, &str, &str, &str); 3] = [
    ("export void f(", "f", ARGUMENTS, "10 Unexpected at "),
    (DOUBLE, "g", ARGUMENTS, "50 NoEntry"),
    (DOUBLE, "f", "{}", "72 Missing"),
];

#[test]
fn refusals_are_named(rt: HostRuntime) {
    let alloc = rt.alloc();
    for (source, entry, json, wanted) in REFUSED {
        let run = run_as_meant(alloc, source, Gang::W4, entry, json, BUDGET);
        let refusal = run.err().expect(&rt, "not refused");
        let text = format!(in alloc; "{refusal}").expect(&rt, "memory");
        assert!(rt; text.as_str().starts_with(wanted), "{text}");
    }
}

// What comes of a source, by its run.
fn tried(alloc: Global, program: &Program<'_>) -> Tried {
    match run_as_meant(
        alloc,
        program.source,
        Gang::W4,
        program.entry,
        program.arguments,
        BUDGET,
    ) {
        Ok(report) => Tried::answered(is_right(&report, program.answer)),
        Err(Refusal::Source(fault)) => Tried::failed(fault == SourceFault::Memory),
        Err(Refusal::Run(fault)) => Tried::failed(fault == RunFault::Memory),
    }
}

#[test]
fn memory_refused(rt: HostRuntime) -> Result<(), Fail> {
    let alloc = rt.alloc();
    for program in [&INC, &LOCAL_ARRAY] {
        sweep_call(alloc, "run_as_meant", || tried(alloc, program))?;
    }
    Ok(())
}
