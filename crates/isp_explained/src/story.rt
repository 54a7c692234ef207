//! What is said of a failure: where it is, the sentence and the remedy of docs/FAULTS.md.
ghost use Rattle.std.specs.Prelude.{find};
ghost use Rattle.std.specs.Option.{IsSome};
ghost use Rattle.isp_rates.specs.Exports.{is_entry};

use isp_base::{Gang, Trap};
use isp_bind::BindFault;
use isp_engine::{Failure, RunFault, front};
use isp_independence::Dependence;
use isp_lex::{Fault, SourceFault};
use isp_messages::{Source, push_advice, push_arguments, push_place, source_message, trap_message};
use isp_rates::Checked;
use std::alloc::{AllocError, Global};
use std::fmt::Write;

/// What was done, as far as it was read: the source, and the entry with its arguments.
#[derive(Clone, Copy)]
pub struct Asked<'n, 't> {
    source: Source<'n, 't>,
    gang: Gang,
    call: Option<Given<'n, 't>>,
}

/// An entry, and its arguments.
#[derive(Clone, Copy)]
pub struct Given<'n, 't> {
    pub entry: &'n str,
    pub arguments: Source<'n, 't>,
}

impl<'n, 't> Asked<'n, 't> {
    /// A source for a gang, and the entry of it that was run.
    pub fn of(source: Source<'n, 't>, gang: Gang, call: Option<Given<'n, 't>>) -> Asked<'n, 't> {
        Asked { source, gang, call }
    }
}

/// Where a source is refused, why, and what to write instead.
pub fn source_story(
    alloc: Global,
    asked: &Asked<'_, '_>,
    fault: Fault,
) -> Result<String, AllocError> {
    source_message(alloc, asked.source, fault)?.text(alloc)
}

/// Where a run trapped, for which instance, and what to write instead.
pub fn trap_story(alloc: Global, asked: &Asked<'_, '_>, trap: Trap) -> Result<String, AllocError> {
    trap_message(alloc, asked.source, trap, None)?.text(alloc)
}

/// Why an entry was not run: what is exported, or which of its arguments is refused.
pub fn entry_story(
    alloc: Global,
    asked: &Asked<'_, '_>,
    fault: RunFault,
) -> Result<String, AllocError> {
    let mut page = String::new(alloc);
    push_refusal(&mut page, alloc, asked, fault)?;
    push_advice(&mut page, fault.text(), None)?;
    Ok(page)
}

/// The words by which docs/FAULTS.md has a failure without a place.
pub fn plain_fault(failure: &Failure<'_>) -> &'static str {
    match failure {
        Failure::BudgetUsed => "budget used",
        Failure::CannotRead(_) => "cannot read",
        Failure::CannotWrite => "cannot write",
        Failure::Memory => "memory",
        _ => "",
    }
}

// The program of the source, where it is one.
fn checked_again(alloc: Global, asked: &Asked<'_, '_>) -> Result<Option<Checked>, AllocError> {
    match front(alloc, asked.source.text, asked.gang) {
        Ok(checked) => Ok(Some(checked)),
        Err(SourceFault::Memory) => Err(AllocError),
        Err(SourceFault::Refused(_fault)) => Ok(None),
    }
}

// Why an entry was not run.
fn push_refusal(
    page: &mut String,
    alloc: Global,
    asked: &Asked<'_, '_>,
    fault: RunFault,
) -> Result<(), AllocError> {
    let (Some(call), Some(checked)) = (asked.call, checked_again(alloc, asked)?) else {
        return write!(page, "isp: {fault}\n");
    };
    match fault {
        RunFault::Arguments(fault) => push_unbound(page, alloc, &checked, call, fault),
        _ => {
            let (name, entry) = (asked.source.name, call.entry);
            write!(page, "{name}: {fault}: {entry}\n    exported: ")?;
            push_exports(page, &checked)
        }
    }
}

fn push_unbound(
    page: &mut String,
    alloc: Global,
    checked: &Checked,
    call: Given<'_, '_>,
    fault: BindFault,
) -> Result<(), AllocError> {
    match checked.signature(call.entry) {
        Some(signature) => push_arguments(page, alloc, call.arguments, signature, fault),
        None => write!(page, "isp: {fault}\n"),
    }
}

// The names of the exported functions.
fn push_exports(page: &mut String, checked: &Checked) -> Result<(), AllocError> {
    let mut comma = "";
    for k in 0..checked.exports().len() {
        if let Some(name) = checked.export(k) {
            write!(page, "{comma}{name}")?;
            comma = ", ";
        }
    }
    page.push_str(if comma.is_empty() { "nothing\n" } else { "\n" })
}

/// Which rule each exported function breaks that is no independent entry, where, and what to write instead.
pub fn notes(alloc: Global, asked: &Asked<'_, '_>) -> Result<String, AllocError> {
    let mut page = String::new(alloc);
    if let Some(checked) = checked_again(alloc, asked)? {
        push_notes(&mut page, alloc, asked.source, &checked)?;
    }
    Ok(page)
}

fn push_notes(
    page: &mut String,
    alloc: Global,
    source: Source<'_, '_>,
    checked: &Checked,
) -> Result<(), AllocError> {
    for k in 0..checked.exports().len() {
        if let Some(name) = checked.export(k) {
            if let Some(dependence) = breach(checked, name) {
                push_note(page, alloc, source, name, dependence)?;
            }
        }
    }
    Ok(())
}

// The first breach of an exported function as an independent entry.
fn breach(checked: &Checked, name: &str) -> Option<Dependence>
    requires { IsSome (find (is_entry name.now) checked.now.functions.items) }
{
    checked.independent(name).err()
}

fn push_note(
    page: &mut String,
    alloc: Global,
    source: Source<'_, '_>,
    name: &str,
    dependence: Dependence,
) -> Result<(), AllocError> {
    let fault = format!(in alloc; "rule {}", dependence.rule.number())?;
    let what = format!(in alloc; "{name} dependent: {fault}")?;
    push_place(page, source, dependence.span, what.as_str())?;
    push_advice(page, fault.as_str(), None)
}
