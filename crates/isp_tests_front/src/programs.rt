//! What the tests begin with: a program, and the arguments of an entry.
use isp_base::{Bound, Gang};
use isp_bind::bind;
use isp_lex::{SourceFault, lex};
use isp_rates::{Checked, check};
use isp_syntax::parse;
use isp_types::resolve;
use std::alloc::Global;
use std::process::Abort;

/// The program of a source.
pub(crate) fn program(alloc: Global, source: &str, gang: Gang) -> Result<Checked, SourceFault> {
    let tokens = lex(alloc, source)?;
    let tree = parse(alloc, &tokens)?;
    check(alloc, resolve(alloc, &tree, gang)?)
}

/// The program of a source that is not refused, for a gang of four.
pub(crate) fn checked(rt: &impl Abort, alloc: Global, source: &str) -> Checked {
    program(alloc, source, Gang::W4)
        .ok()
        .expect(rt, "no program")
}

/// The arguments of an entry.
pub(crate) fn bound(
    rt: &impl Abort,
    alloc: Global,
    checked: &Checked,
    entry: &str,
    json: &str,
) -> Bound {
    let signature = checked.signature(entry).expect(rt, "no such function");
    bind(alloc, signature, json).ok().expect(rt, "not bound")
}
