//! What is answered to a request for completions at a place of a document.
ghost use Rattle.std.specs.Prelude.{◌≡◌, ◌++◌, ◌∷◌, [], ℕ, IfOk, OnOk, map, option_map, take};
ghost use Rattle.serde_json.specs.Data.{array, no_items};
ghost use Rattle.serde_json.specs.View.{items_view, view};
ghost use Rattle.isp_positions.specs.Positions.{offset_of};
ghost use Rattle.isp_server.specs.Completions.{Completes, CompletesBehind, TextCompletes, completions, library_item, name_item, name_items};
ghost use Rattle.isp_server.specs.Library.{signatures};
ghost use Rattle.isp_server.specs.Told.{items_of};
ghost use Rattle.isp_server.specs.reader.Signatures.{signature_view};
ghost use Rattle.isp_server.specs.reader.Views.{place_view};

use crate::deed::Place;
use crate::library::{Signature, library_entry};
use crate::told::byte_of;
use isp_lex::{SourceFault, Token, Tokens, lex};
use isp_scopes::{name_at, names_before};
use serde_json::{Value, json};
use std::alloc::{AllocError, Global};

// The kinds of items, by the protocol.
const FUNCTION: u8 = 3;

const VARIABLE: u8 = 6;

/// The answer to a request for completions at a place, where its document has this text, if it is open.
pub(crate) fn completion(
    alloc: Global,
    text: Option<&str>,
    at: Place<'_>,
) -> Result<Value, AllocError>
    ensures { IfOk result (λ v. Completes (option_map (λ t. t.now) text.entry) (place_view at.entry) (view v)) }
{
    match text {
        Some(text) => of_text(alloc, text, at),
        None => Ok(Value::Null),
    }
}

// The text before a place.
#[tactic(auto, using(crate::proofs::Cuts::offset_cut))]
fn text_before<'t>(text: &'t str, at: Place<'_>) -> &'t str
    ensures { result.now ≡ take (offset_of text.now at.entry.line at.entry.character) text.now }
{
    let byte = byte_of(text, at);
    &text[..byte]
}

fn of_text(alloc: Global, text: &str, at: Place<'_>) -> Result<Value, AllocError>
    ensures { IfOk result (λ v. TextCompletes text.now (offset_of text.now at.entry.line at.entry.character) (view v)) }
{
    by_tokens(alloc, text, text_before(text, at))
}

fn by_tokens(alloc: Global, text: &str, before: &str) -> Result<Value, AllocError>
    ensures { IfOk result (λ v. (k : ℕ) → before.now ≡ take k text.now → TextCompletes text.now k (view v)) }
{
    match lex(alloc, before) {
        Ok(before) => behind(alloc, &before, text),
        Err(SourceFault::Memory) => Err(AllocError),
        Err(SourceFault::Refused(_fault)) => Ok(nothing(alloc)),
    }
}

fn nothing(alloc: Global) -> Value
    ensures { view result ≡ array no_items }
{
    Value::Array(Vec::new(alloc))
}

fn behind(alloc: Global, before: &Tokens, text: &str) -> Result<Value, AllocError>
    ensures { IfOk result (λ v. CompletesBehind before.now.items text.now (view v)) }
{
    match lex(alloc, text) {
        Ok(all) => completions(alloc, before, &all),
        Err(SourceFault::Memory) => Err(AllocError),
        Err(SourceFault::Refused(_fault)) => completions(alloc, before, before),
    }
}

#[tactic(auto, using(crate::proofs::Items::items_are))]
fn completions(alloc: Global, before: &Tokens, all: &Tokens) -> Result<Value, AllocError>
    ensures { IfOk result (λ v. view v ≡ array (items_of (completions before.now.items all.now.items))) }
{
    let names = names_before(alloc, before, all)?;
    let mut items = Vec::new(alloc);
    push_names(
        alloc,
        &mut items,
        VARIABLE,
        before.as_slice(),
        &names.variables,
    )?;
    push_names(
        alloc,
        &mut items,
        FUNCTION,
        all.as_slice(),
        &names.functions,
    )?;
    push_library(alloc, &mut items)?;
    Ok(Value::Array(items))
}

fn push_names(
    alloc: Global,
    items: &mut Vec<Value>,
    kind: u8,
    tokens: &[Token],
    found: &[usize],
) -> Result<(), AllocError>
    ensures { OnOk result (map view items.new.items ≡ map view items.old.items ++ name_items kind tokens.now found.now) }
{
    for i in found {
        items.push(name_item(alloc, kind, name_at(tokens, *i))?)?;
    }
    Ok(())
}

fn name_item(alloc: Global, kind: u8, name: &str) -> Result<Value, AllocError>
    ensures { IfOk result (λ v. view v ≡ name_item kind name.now) }
{
    json!(in alloc; {"kind": kind, "label": name})
}

fn push_item(alloc: Global, items: &mut Vec<Value>, found: Signature) -> Result<(), AllocError>
    ensures { OnOk result (map view items.new.items ≡ map view items.old.items ++ library_item (signature_view found) ∷ []) }
{
    items.push(library_item(alloc, found)?)?;
    Ok(())
}

fn push_library(alloc: Global, items: &mut Vec<Value>) -> Result<(), AllocError>
    ensures { OnOk result (map view items.new.items ≡ map view items.old.items ++ map library_item signatures) }
{
    let mut number = 0;
    while let Some(found) = library_entry(number) {
        push_item(alloc, items, found)?;
        number += 1;
    }
    Ok(())
}

fn library_item(alloc: Global, found: Signature) -> Result<Value, AllocError>
    ensures { IfOk result (λ v. view v ≡ library_item (signature_view found)) }
{
    json!(in alloc; {"kind": 3u8, "label": found.name, "detail": found.text})
}
