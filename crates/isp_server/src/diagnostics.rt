//! The diagnostics of a text.
ghost use Rattle.std.specs.Prelude.{◌≡◌, ℕ, IfOk, List, string_bytes};
ghost use Rattle.serde_json.specs.Data.{item, no_items};
ghost use Rattle.serde_json.specs.View.{items_view, view};
ghost use Rattle.isp_lex.specs.Faults.{rule_text};
ghost use Rattle.isp_server.specs.Sent.{Judges, diagnostic, position, range};

use isp_base::{Gang, Span};
use isp_front::front;
use isp_lex::{Fault, Rule, SourceFault};
use isp_positions::position_of;
use isp_remedies::{Advice, Spot, advice_on};
use serde_json::{Value, json};
use std::alloc::{AllocError, Global};

/// The fault for which a text is refused, with its place and what is said of it, or nothing.
pub(crate) fn diagnostics(alloc: Global, gang: Gang, text: &str) -> Result<Vec<Value>, AllocError>
    ensures { IfOk result (λ found. Judges gang text.now (items_view found.items)) }
{
    match front(alloc, text, gang) {
        Ok(_program) => Ok(Vec::new(alloc)),
        Err(SourceFault::Memory) => Err(AllocError),
        Err(SourceFault::Refused(fault)) => one_fault(alloc, text, fault),
    }
}

fn one_fault(alloc: Global, text: &str, fault: Fault) -> Result<Vec<Value>, AllocError>
    ensures { IfOk result (λ found. (said : List ℕ) × (items_view found.items ≡ item (diagnostic text.now fault said) no_items)) }
{
    let said = said_of(alloc, text, fault)?;
    let found = diagnostic(alloc, text, fault, said.as_str())?;
    Ok(vec![in alloc; found]?)
}

fn diagnostic(alloc: Global, text: &str, fault: Fault, said: &str) -> Result<Value, AllocError>
    ensures { IfOk result (λ v. view v ≡ diagnostic text.now fault said.now) }
{
    let code = code_of(alloc, fault.rule)?;
    let range = range(alloc, text, fault.span)?;
    json!(in alloc; {
        "range": range,
        "severity": 1u8,
        "code": code,
        "source": "isp",
        "message": said
    })
}

fn code_of(alloc: Global, rule: Rule) -> Result<String, AllocError>
    ensures { IfOk result (λ code. string_bytes code ≡ rule_text rule) }
{
    format!(in alloc; "{rule}")
}

/// A span of a text as a range of the protocol.
pub(crate) fn range(alloc: Global, text: &str, span: Span) -> Result<Value, AllocError>
    ensures { IfOk result (λ v. view v ≡ range text.now span) }
{
    let start = position(alloc, text, span.start)?;
    let end = position(alloc, text, span.end)?;
    json!(in alloc; {"start": start, "end": end})
}

fn position(alloc: Global, text: &str, at: usize) -> Result<Value, AllocError>
    ensures { IfOk result (λ v. view v ≡ position text.now at) }
{
    let place = position_of(text.as_bytes(), at.min(text.len()));
    json!(in alloc; {"line": place.line, "character": place.character})
}

// The sentence and the fix of docs/FAULTS.md, by what stands at the place.
fn said_of(alloc: Global, text: &str, fault: Fault) -> Result<String, AllocError> {
    let code = code_of(alloc, fault.rule)?;
    let spot = Spot::new(alloc, text, fault.span)?;
    match advice_on(code.as_str()) {
        Some(advice) => advised(alloc, &advice, spot.as_ref()),
        None => Ok(String::new(alloc)),
    }
}

fn advised(alloc: Global, advice: &Advice, spot: Option<&Spot<'_>>) -> Result<String, AllocError> {
    format!(in alloc; "{}\nFix: {}", advice.sentence, advice.remedy(spot))
}
