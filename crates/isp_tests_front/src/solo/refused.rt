//! Memory refused to the instances, at each growth.
use crate::programs::{bound, checked};
use isp_base::{Bound, Span};
use isp_bind::answer;
use isp_rates::Checked;
use isp_solo::{EvalFault, SoloReport, one_by_one};
use isp_tests_support::{Hoard, INC, Program, Tried, UNIQUE, sweep_call};
use std::alloc::Global;
use std::test::Fail;

/// Its runs take memory for variables, local arrays, calls, a `foreach`, marks and touches. g(x) is x; a becomes 5 + 0, 6 + 1, 7 + 2.
const CALLS: Program<'static> = Program {
    source: "int g(int x) { int t[2]; t[x & 1] = x; return t[x & 1]; } export uniform int f(uniform int a[], uniform int b[]) { foreach (i = 0 ... 3) a[i] = b[i] + g(i); return b[2]; }",
    entry: "f",
    arguments: "{\"a\":[0,0,0],\"b\":[5,6,7]}",
    answer: "{\"arrays\":{\"a\":[5,7,9],\"b\":[5,6,7]},\"result\":7}",
    output: "",
};

// What comes of the instances, by their answer.
fn ended(alloc: Global, checked: &Checked, program: &Program<'_>, report: &SoloReport) -> Tried {
    let Some(signature) = checked.signature(program.entry) else {
        return Tried::Wrong;
    };
    let SoloReport::Ended {
        arrays,
        result: returned,
    } = report
    else {
        return Tried::Wrong;
    };
    match answer(alloc, signature, arrays.as_slice(), *returned) {
        Ok(text) => Tried::answered(text.as_str() == program.answer),
        Err(_) => Tried::Refused,
    }
}

fn tried(alloc: Global, checked: &Checked, program: &Program<'_>, bound: &Bound) -> Tried {
    match one_by_one(alloc, checked, program.entry, bound, 0) {
        Ok(report) => ended(alloc, checked, program, &report),
        Err(fault) => Tried::failed(matches!(fault, EvalFault::Memory)),
    }
}

#[test]
fn memory_refused_to_one_by_one(rt: HostRuntime) -> Result<(), Fail> {
    let alloc = rt.alloc();
    for program in &[INC, CALLS] {
        let checked = checked(&rt, alloc, program.source);
        let bound = bound(&rt, alloc, &checked, program.entry, program.arguments);
        sweep_call(alloc, "one_by_one", || {
            tried(alloc, &checked, program, &bound)
        })?;
    }
    Ok(())
}

// Whether an entry breaks rule 1 by its `foreach_unique`.
fn breaks_rule_1(report: Result<SoloReport, EvalFault>) -> bool {
    match report {
        Err(EvalFault::NotIndependent(found)) => {
            found.rule.number() == 1 && found.span == Span { start: 58, end: 72 }
        }
        _ => false,
    }
}

// That is given where no memory is given.
#[test]
fn refused_without_memory(rt: HostRuntime) {
    let alloc = rt.alloc();
    let checked = checked(&rt, alloc, UNIQUE.source);
    let bound = bound(&rt, alloc, &checked, UNIQUE.entry, UNIQUE.arguments);
    let mut hoard = Hoard::new(alloc).expect(&rt, "memory");
    hoard.beside(0).expect(&rt, "the pool is too small");
    let report = one_by_one(alloc, &checked, UNIQUE.entry, &bound, 0);
    hoard.ample();
    assert!(rt; breaks_rule_1(report));
}
