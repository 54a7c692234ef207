//! What a source comes to: taken, or its first fault.
use isp_lex::{SourceFault, lex};
use isp_syntax::{Tree, parse};
use std::alloc::Global;
use std::process::Abort;
use std::test::Fail;

pub fn tree(alloc: Global, source: &str) -> Result<Tree, SourceFault> {
    let tokens = lex(alloc, source)?;
    parse(alloc, &tokens)
}

/// `taken`, or the fault's number, name and place.
fn outcome(alloc: Global, source: &str) -> Result<String, Fail> {
    match tree(alloc, source) {
        Ok(_tree) => Ok(String::from_str(alloc, "taken")?),
        Err(fault) => Ok(format!(in alloc; "{fault}")?),
    }
}

pub fn assert_same(rt: &impl Abort, source: &str, found: &str, wanted: &str) {
    assert!(rt; found == wanted, "{source}: {found}, not {wanted}");
}

/// Each source with what it is to come to.
pub fn compare_each(rt: &impl Abort, alloc: Global, rows: &[(&str, &str)]) -> Result<(), Fail> {
    for (source, wanted) in rows {
        let found = outcome(alloc, source)?;
        assert_same(rt, source, &found, wanted);
    }
    Ok(())
}

/// Whether what a source comes to begins so.
pub fn comes_to(alloc: Global, source: &str, wanted: &str) -> Result<bool, Fail> {
    let found = outcome(alloc, source)?;
    Ok(found.starts_with(wanted))
}
