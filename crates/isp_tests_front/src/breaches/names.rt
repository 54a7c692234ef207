//! Sources with their breaches of names and types between brackets, and the comparison of these with the list that comes out.
use super::lists::{marked, plain};
use super::name_rows::{COUNT, ROWS};
use isp_base::Gang;
use isp_lex::{Fault, SourceFault, lex};
use isp_name_breaches::name_breaches;
use isp_syntax::parse;
use isp_tests_support::{Tried, sweep_call};
use isp_tree::Tree;
use isp_types::resolve;
use std::alloc::Global;
use std::process::Abort;
use std::test::Fail;

/// The tree of a source.
fn tree(alloc: Global, source: &str) -> Result<Tree, SourceFault> {
    let tokens = lex(alloc, source)?;
    parse(alloc, &tokens)
}

/// Why `resolve` refuses a tree.
fn refusal(alloc: Global, tree: &Tree) -> Option<Fault> {
    match resolve(alloc, tree, Gang::W4) {
        Err(SourceFault::Refused(fault)) => Some(fault),
        _ => None,
    }
}

/// The breaches of a source are those between its brackets, and `resolve` answers the first.
fn compare(rt: &impl Abort, alloc: Global, name: &str, wanted: &str) {
    let source = plain(alloc, wanted).expect(rt, "no memory");
    let tree = tree(alloc, source.as_str()).ok().expect(rt, "no tree");
    let faults = name_breaches(alloc, &tree, Gang::W4).expect(rt, "no memory");
    let found = marked(alloc, source.as_str(), faults.as_slice()).expect(rt, "no memory");
    assert!(rt; found.as_str() == wanted, "{name}: {found}");
    let first = faults.first().copied();
    assert!(rt;
        refusal(alloc, &tree) == first,
        "{name}: resolve answers another"
    );
}

/// A record of the table: what it shows, and its source in the line after.
fn compare_record(rt: &impl Abort, alloc: Global, record: &str) {
    let (name, source) = record.split_once('\n').expect(rt, "no source");
    compare(rt, alloc, name, source.strip_suffix('\n').unwrap_or(source));
}

#[test]
fn names_of_the_table(rt: HostRuntime) {
    let mut left = COUNT;
    for record in ROWS.split("=== ") {
        if !record.is_empty() {
            compare_record(&rt, rt.alloc(), record);
            left = left.checked_sub(1).expect(&rt, "more records");
        }
    }
    assert!(&rt; left == 0, "{left} records are not there");
}

#[test]
fn a_thousand_names(rt: HostRuntime) -> Result<(), Fail> {
    let alloc = rt.alloc();
    let mut wanted = String::from_str(alloc, "void f() { ")?;
    for _ in 0..1000 {
        wanted.push_str("⟦20 x⟧; ")?;
    }
    wanted.push('}')?;
    compare(&rt, alloc, "a thousand", wanted.as_str());
    Ok(())
}

const SOURCE: &str = "void f(uniform int a[]) { int x = y; { int x[3]; } a[z] = f(&x); }";

const MARKED: &str =
    "void f(uniform int a[]) { int x = ⟦20 y⟧; { int x[3]; } a[⟦20 z⟧] = f(⟦22 &x⟧); }";

fn is_right(alloc: Global, tree: &Tree) -> Tried {
    match name_breaches(alloc, tree, Gang::W4) {
        Ok(faults) => match marked(alloc, SOURCE, faults.as_slice()) {
            Ok(found) => Tried::answered(found.as_str() == MARKED),
            Err(_) => Tried::failed(true),
        },
        Err(_) => Tried::failed(true),
    }
}

#[test]
fn memory_refused_to_names(rt: HostRuntime) -> Result<(), Fail> {
    let alloc = rt.alloc();
    let tree = tree(alloc, SOURCE)?;
    sweep_call(alloc, "name_breaches", || is_right(alloc, &tree))
}
