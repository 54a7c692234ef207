//! Messages of exported functions: whether each is an independent entry.
ghost use Rattle.std.specs.Prelude.{◌≡◌, ◌++◌, string_bytes, IfOk, OnOk};
ghost use Rattle.isp_messages.specs.Sayings.{Says, export_words, verdict_words};

use crate::failures::advise;
use crate::message::Message;
use crate::page::{Source, push_place_text};
use isp_base::Span;
use isp_independence::Dependence;
use itoa::Buffer;
use std::alloc::{AllocError, Global};

/// Whether the exported function of this name, which stands at a place, is an independent entry, or the first rule that it breaks: which one
/// and where, what the rule says, and what to write instead (docs/INDEPENDENCE.md).
pub fn export_message<'n, 't>(
    alloc: Global,
    source: Source<'n, 't>,
    place: Span,
    name: &str,
    breach: Option<Dependence>,
) -> Result<Message<'n, 't>, AllocError>
    ensures { IfOk result (λ m. Says source.entry.name.now source.entry.text.now place (export_words source.entry.text.now name.now breach) m) }
{
    let what = words_of(alloc, source.text, name, breach)?;
    let mut message = Message::new(alloc, what);
    message.source = Some(source);
    message.span = Some(place);
    explain(&mut message, alloc, breach)?;
    Ok(message)
}

// Its verdict, in words.
fn words_of(
    alloc: Global,
    text: &str,
    name: &str,
    breach: Option<Dependence>,
) -> Result<String, AllocError>
    ensures { IfOk result (λ s. string_bytes s ≡ export_words text.now name.now breach) }
{
    let mut what = String::from_str(alloc, "note: ")?;
    what.push_str(name)?;
    what.push_str(": ")?;
    push_verdict(&mut what, text, breach)?;
    Ok(what)
}

fn push_verdict(what: &mut String, text: &str, breach: Option<Dependence>) -> Result<(), AllocError>
    ensures { OnOk result (string_bytes what.new ≡ string_bytes what.old ++ verdict_words text.now breach) }
{
    match breach {
        None => what.push_str(
            "independent by the rules; `isp solo` looks for clashes of its instances",
        ),
        Some(dependence) => push_dependence(what, text, dependence),
    }
}

fn push_dependence(what: &mut String, text: &str, dependence: Dependence) -> Result<(), AllocError>
    ensures { OnOk result (string_bytes what.new ≡ string_bytes what.old ++ verdict_words text.now (Some dependence)) }
{
    let mut number = Buffer::new();
    what.push_str("not independent: rule ")?;
    what.push_str(number.format(dependence.rule.number()))?;
    what.push_str(" at ")?;
    push_place_text(what, text, dependence.span.start)
}

// Puts the sentence and the remedy of a rule that is broken into a message.
fn explain(
    message: &mut Message<'_, '_>,
    alloc: Global,
    breach: Option<Dependence>,
) -> Result<(), AllocError>
    ensures source { message.new.source ≡ message.old.source }
    ensures span { message.new.span ≡ message.old.span }
    ensures what { message.new.what ≡ message.old.what }
{
    let Some(dependence) = breach else {
        return Ok(());
    };
    let words = rule_of(alloc, dependence)?;
    advise(message, words.as_str(), None)
}

// The words by which docs/FAULTS.md has a rule.
fn rule_of(alloc: Global, dependence: Dependence) -> Result<String, AllocError> {
    let mut number = Buffer::new();
    let mut words = String::from_str(alloc, "rule ")?;
    words.push_str(number.format(dependence.rule.number()))?;
    Ok(words)
}
