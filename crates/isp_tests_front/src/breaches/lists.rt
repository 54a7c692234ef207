//! Sources with their breaches between brackets, and the comparison of these with the list that comes out.
use super::rows::{COUNT, ROWS};
use isp_base::Gang;
use isp_breaches::breaches;
use isp_lex::{Fault, SourceFault, lex};
use isp_rates::check;
use isp_syntax::parse;
use isp_typed::Typed;
use isp_types::resolve;
use std::alloc::{AllocError, Global};
use std::process::Abort;
use std::test::Fail;

/// The typed program of a source.
pub(super) fn typed(alloc: Global, source: &str) -> Result<Typed, SourceFault> {
    let tokens = lex(alloc, source)?;
    let tree = parse(alloc, &tokens)?;
    resolve(alloc, &tree, Gang::W4)
}

/// A source without its brackets and the numbers after them.
pub(super) fn plain(alloc: Global, marked: &str) -> Result<String, AllocError> {
    let mut out = String::new(alloc);
    let mut in_number = false;
    for c in marked.chars() {
        match c {
            '⟦' => in_number = true,
            '⟧' => {}
            ' ' if in_number => in_number = false,
            _ => if !in_number {
                out.push(c)?;
            },
        }
    }
    Ok(out)
}

/// A fault between brackets, after what stands before it from a place on.
fn bracketed(alloc: Global, source: &str, from: usize, fault: Fault) -> Result<String, AllocError> {
    let before = source.get(from..fault.span.start).unwrap_or("out of order");
    let place = source
        .get(fault.span.start..fault.span.end)
        .unwrap_or("no place");
    format!(in alloc; "{before}⟦{} {place}⟧", fault.rule.number())
}

/// A source with faults between brackets.
pub(super) fn marked(alloc: Global, source: &str, faults: &[Fault]) -> Result<String, AllocError> {
    let mut out = String::new(alloc);
    let mut from = 0;
    for fault in faults {
        let text = bracketed(alloc, source, from, *fault)?;
        out.push_str(text.as_str())?;
        from = fault.span.end;
    }
    out.push_str(source.get(from..).unwrap_or("past the end"))?;
    Ok(out)
}

/// Why `check` refuses a program.
fn refusal(alloc: Global, typed: Typed) -> Option<Fault> {
    match check(alloc, typed) {
        Err(SourceFault::Refused(fault)) => Some(fault),
        _ => None,
    }
}

/// The breaches of a source are those between its brackets, and `check` answers the first.
fn compare(rt: &impl Abort, alloc: Global, name: &str, wanted: &str) {
    let source = plain(alloc, wanted).expect(rt, "no memory");
    let typed = typed(alloc, source.as_str())
        .ok()
        .expect(rt, "no typed program");
    let faults = breaches(alloc, typed.program()).expect(rt, "no memory");
    let found = marked(alloc, source.as_str(), faults.as_slice()).expect(rt, "no memory");
    assert!(rt; found.as_str() == wanted, "{name}: {found}");
    let first = faults.first().copied();
    assert!(rt;
        refusal(alloc, typed) == first,
        "{name}: check answers another"
    );
}

/// A record of the table: what it shows, and its source in the lines after.
fn compare_record(rt: &impl Abort, alloc: Global, record: &str) {
    let (name, source) = record.split_once('\n').expect(rt, "no source");
    compare(rt, alloc, name, source.strip_suffix('\n').unwrap_or(source));
}

#[test]
fn lists_of_the_table(rt: HostRuntime) {
    let mut left = COUNT;
    for record in ROWS.split("=== ") {
        if !record.is_empty() {
            compare_record(&rt, rt.alloc(), record);
            left = left.checked_sub(1).expect(&rt, "more records");
        }
    }
    assert!(&rt; left == 0, "{left} records are not there");
}

#[test]
fn a_thousand_breaches(rt: HostRuntime) -> Result<(), Fail> {
    let alloc = rt.alloc();
    let mut wanted = String::from_str(alloc, "void f() { ")?;
    for _ in 0..1000 {
        wanted.push_str("⟦31 break⟧; ")?;
    }
    wanted.push('}')?;
    compare(&rt, alloc, "a thousand", wanted.as_str());
    Ok(())
}
