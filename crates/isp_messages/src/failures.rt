//! Messages of failures, with the sentence and the remedy of docs/FAULTS.md.
ghost use Rattle.std.specs.Prelude.{◌≡◌, string_bytes, IfOk};
ghost use Rattle.isp_lex.specs.Faults.{rule_text};
ghost use Rattle.isp_messages.specs.Sayings.{Says};

use crate::close::closest;
use crate::message::Message;
use crate::page::Source;
use isp_base::Trap;
use isp_lex::Fault;
use isp_remedies::{Spot, advice_on};
use std::alloc::{AllocError, Global};
use std::fmt::Write;

/// Where a source is refused, why, and what to write instead: the number and the name of the rule, at the span that breaks it.
pub fn source_message<'n, 't>(
    alloc: Global,
    source: Source<'n, 't>,
    fault: Fault,
) -> Result<Message<'n, 't>, AllocError>
    ensures { IfOk result (λ m. Says source.entry.name.now source.entry.text.now fault.span (rule_text fault.rule) m) }
{
    let spot = Spot::new(alloc, source.text, fault.span)?;
    let mut message = Message::new(alloc, format!(in alloc; "{}", fault.rule)?);
    message.source = Some(source);
    message.span = Some(fault.span);
    let words = format!(in alloc; "{}", fault.rule)?;
    advise(&mut message, words.as_str(), spot.as_ref())?;
    Ok(message)
}

/// An element that an instance asked for: an index, how many elements after it, and how many the array has.
#[derive(Clone, Copy, Debug, PartialEq, Eq)]
pub struct Element {
    pub index: i128,
    pub after: usize,
    pub size: usize,
}

/// Where a run trapped, for which instance, at which element if that is known, and what to write instead.
pub fn trap_message<'n, 't>(
    alloc: Global,
    source: Source<'n, 't>,
    trap: Trap,
    element: Option<Element>,
) -> Result<Message<'n, 't>, AllocError> {
    let words = format!(in alloc; "trap {}", trap.kind)?;
    let mut what = format!(in alloc; "{words}, instance {}", trap.instance)?;
    if let Some(element) = element {
        push_element(&mut what, element)?;
    }
    let mut message = Message::new(alloc, what);
    message.source = Some(source);
    message.span = Some(trap.place);
    advise(&mut message, words.as_str(), None)?;
    Ok(message)
}

/// That no exported function has the name of the entry, which ones there are, and which of them is meant.
pub fn entry_message<'n, 't>(
    alloc: Global,
    source: Source<'n, 't>,
    entry: &str,
    exported: &[&str],
) -> Result<Message<'n, 't>, AllocError> {
    let mut what = format!(in alloc; "50 NoEntry: {entry}\n    exported: ")?;
    push_names(&mut what, exported)?;
    if let Some(name) = closest(alloc, entry, exported)? {
        write!(what, "\n    did you mean `{name}`?")?;
    }
    let mut message = Message::new(alloc, what);
    message.source = Some(source);
    advise(&mut message, "50 NoEntry", None)?;
    Ok(message)
}

// The index of an element, and the size of the array.
fn push_element(page: &mut String, element: Element) -> Result<(), AllocError> {
    let index = element.index.saturating_add(element.after as i128);
    let plural = if element.size == 1 { "" } else { "s" };
    write!(
        page,
        ": index {index}, and the array has {} element{plural}",
        element.size
    )
}

// Names with commas between them, or `nothing`.
fn push_names(page: &mut String, names: &[&str]) -> Result<(), AllocError> {
    let mut comma = "";
    for name in names {
        write!(page, "{comma}{name}")?;
        comma = ", ";
    }
    page.push_str(if names.is_empty() { "nothing" } else { "" })
}

/// What is said of a fault that has no place, by the words by which docs/FAULTS.md has it, with a name after them where there is one.
pub fn fault_message<'n, 't>(
    alloc: Global,
    fault: &str,
    name: &str,
) -> Result<Message<'n, 't>, AllocError> {
    let mut what = String::from_str(alloc, fault)?;
    if !name.is_empty() {
        write!(what, " {name}")?;
    }
    let mut message = Message::new(alloc, what);
    advise(&mut message, fault, None)?;
    Ok(message)
}

/// Writes the sentence and the remedy of a fault, by what stands at its place, after a page.
pub fn push_advice(
    page: &mut String,
    fault: &str,
    spot: Option<&Spot<'_>>,
) -> Result<(), AllocError> {
    let Some(advice) = advice_on(fault) else {
        return Ok(());
    };
    page.push_str(advice.sentence)?;
    page.push_str("\nFix: ")?;
    page.push_str(advice.remedy(spot))?;
    page.push_str("\n")
}

/// Puts the sentence and the remedy of a fault into a message, by what stands at its place.
pub fn advise(
    message: &mut Message<'_, '_>,
    fault: &str,
    spot: Option<&Spot<'_>>,
) -> Result<(), AllocError>
    ensures source { message.new.source ≡ message.old.source }
    ensures span { message.new.span ≡ message.old.span }
    ensures what { message.new.what ≡ message.old.what }
{
    let Some(advice) = advice_on(fault) else {
        return Ok(());
    };
    message.sentence.push_str(advice.sentence)?;
    message.fix.push_str(advice.remedy(spot))
}
