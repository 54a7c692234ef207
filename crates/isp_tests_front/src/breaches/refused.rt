//! Memory refused to the list of breaches, at each growth.
use super::lists::{marked, typed};
use isp_breaches::breaches;
use isp_tests_support::{Tried, sweep_call};
use isp_typed::Typed;
use std::alloc::Global;
use std::process::Abort;
use std::test::Fail;

const SOURCE: &str = "void f(int v) { break; foreach (i = 0 ... v) return; }";

const MARKED: &str = "void f(int v) { ⟦31 break⟧; foreach (i = 0 ... ⟦30 v⟧) ⟦31 return⟧; }";

fn is_right(alloc: Global, typed: &Typed) -> Tried {
    match breaches(alloc, typed.program()) {
        Ok(faults) => match marked(alloc, SOURCE, faults.as_slice()) {
            Ok(found) => Tried::answered(found.as_str() == MARKED),
            Err(_) => Tried::failed(true),
        },
        Err(_) => Tried::failed(true),
    }
}

#[test]
fn memory_refused_to_breaches(rt: HostRuntime) -> Result<(), Fail> {
    let alloc = rt.alloc();
    let typed = typed(alloc, SOURCE)?;
    sweep_call(alloc, "breaches", || is_right(alloc, &typed))
}
