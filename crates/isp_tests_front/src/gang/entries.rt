//! Entries that are not there.
use crate::programs::{bound, checked};
use isp_base::Bound;
use isp_model::{EvalFault, evaluate, work};
use isp_rates::Checked;
use std::alloc::Global;

/// Functions that differ in their parameters and results alone, and one that is not exported.
const TEXT: &str =
    "export void nothing() { } export void array(uniform int a[]) { } export void narrow(uniform int8 a[]) { } export void value(uniform int a) { } export void both(uniform int a[], uniform int n) { } export void turned(uniform int n, uniform int a[]) { } export uniform int result(uniform int a[]) { return 1; } void hidden() { }";

/// Each line: whether the entry is there for them, the entry that is asked for, a function whose arguments it is given, and these.
const LINES: &str = r##"found nothing nothing {}
found array array {"a":[1,2]}
found result result {"a":[]}
refused dec nothing {}
refused hidden nothing {}
refused Nothing nothing {}
refused noth nothing {}
refused nothings nothing {}
refused nothing array {"a":[1,2]}
refused array nothing {}
refused array narrow {"a":[1,2]}
refused narrow array {"a":[1,2]}
refused array value {"a":1}
refused value array {"a":[1,2]}
refused array both {"a":[1],"n":2}
refused both array {"a":[1,2]}
refused both turned {"n":2,"a":[1]}
refused turned both {"a":[1],"n":2}
found turned turned {"n":2,"a":[1]}
"##;

/// One line of the table.
#[derive(Clone, Copy)]
struct Asked<'a> {
    takes: bool,
    entry: &'a str,
    given: &'a str,
    json: &'a str,
}

fn read(line: &str) -> Option<Asked<'_>> {
    let (word, rest) = line.split_once(' ')?;
    let (entry, rest) = rest.split_once(' ')?;
    let (given, json) = rest.split_once(' ')?;
    Some(Asked {
        takes: word == "found",
        entry,
        given,
        json,
    })
}

// Whether the entry is found.
fn is_found(alloc: Global, checked: &Checked, entry: &str, bound: &Bound) -> bool {
    !matches!(
        evaluate(alloc, checked, entry, bound, 1),
        Err(EvalFault::NoEntry)
    )
}

// Whether it is found where its work is asked for.
fn is_counted(alloc: Global, checked: &Checked, entry: &str, bound: &Bound) -> bool {
    !matches!(
        work(alloc, checked, entry, bound, 1),
        Err(EvalFault::NoEntry)
    )
}

// Whether the entry is there in both, or in neither, as a line says.
fn is_as_told(alloc: Global, checked: &Checked, asked: Asked<'_>, bound: &Bound) -> bool {
    is_found(alloc, checked, asked.entry, bound) == asked.takes
        && is_counted(alloc, checked, asked.entry, bound) == asked.takes
}

#[test]
fn entries_that_are_not_there(rt: HostRuntime) {
    let alloc = rt.alloc();
    let checked = checked(&rt, alloc, TEXT);
    let mut count = 0usize;
    for line in LINES.lines() {
        let asked = read(line).expect(&rt, "a line that says too little");
        let bound = bound(&rt, alloc, &checked, asked.given, asked.json);
        assert!(rt; is_as_told(alloc, &checked, asked, &bound), "{line}");
        count = count.saturating_add(1);
    }
    assert_eq!(rt; count, 19);
}

#[test]
fn refusal_as_text(rt: HostRuntime) {
    let text = format!(in rt.alloc(); "{}", EvalFault::NoEntry).expect(&rt, "memory");
    assert_eq!(rt; text.as_str(), "50 NoEntry");
}
