//! Renaming what stands at a byte of a source text.
ghost use Rattle.std.specs.Prelude.{◌≡◌, ◌≤◌, IfErr, IfOk, IsTrue, OnOk, length, map, true};
ghost use Rattle.isp_typed.specs.Views.{program_of};
ghost use Rattle.isp_front.specs.Front.{IsFaulty};
ghost use Rattle.isp_known.specs.Places.{places_of};
ghost use Rattle.isp_alike.specs.Bare.{bare_program};
ghost use Rattle.isp_alike.specs.Renamed.{kinds, program_renamed, renamed_kind};
ghost use Rattle.isp_names.specs.Known.{IsKnown};
ghost use Rattle.isp_names.specs.Renames.{IsAlike, IsRenaming, Refuses, replaced, spans_of};
ghost use Rattle.isp_names.specs.reader.Replacing.{OnlyClash, OnlyNoProgram};

use crate::edit::{replaced, words};
use crate::fault::RenameFault;
use crate::name::new_name;
use crate::source::{Known, known_text};
use isp_alike::{Renaming, are_renamed, is_renamed};
use isp_base::{Gang, Span};
use isp_known::{mentions, subject_at, word_around};
use isp_lex::SourceFault;
use std::alloc::Global;

// What is known of the text as it is.
fn before(alloc: Global, gang: Gang, text: &str) -> Result<Known, RenameFault>
    ensures ok { IfOk result (λ k. IsKnown gang text.now (program_of k.program) k.tokens k.notes.items) }
    ensures err { IfErr result (OnlyNoProgram (IsFaulty gang text.now)) }
{
    match known_text(alloc, gang, text) {
        Ok(known) => Ok(known),
        Err(SourceFault::Memory) => Err(RenameFault::Memory),
        Err(SourceFault::Refused(fault)) => Err(RenameFault::NoProgram(fault)),
    }
}

// What is known of it with the new name.
fn after(alloc: Global, gang: Gang, text: &str) -> Result<Known, RenameFault>
    ensures ok { IfOk result (λ k. IsKnown gang text.now (program_of k.program) k.tokens k.notes.items) }
    ensures err { IfErr result (OnlyClash (IsFaulty gang text.now)) }
{
    match known_text(alloc, gang, text) {
        Ok(known) => Ok(known),
        Err(SourceFault::Memory) => Err(RenameFault::Memory),
        Err(SourceFault::Refused(fault)) => Err(RenameFault::Clash(fault)),
    }
}

// Whether the two mean the same.
fn same(new: &Known, old: &Known, starts: &[usize], to: &Renaming<'_>) -> bool
    ensures tree { IsTrue result → bare_program (program_of new.now.program) ≡ bare_program (program_renamed to.now.subject to.now.name.now (program_of old.now.program)) }
    ensures tokens { IsTrue result → kinds new.now.tokens.items ≡ map (renamed_kind starts.now to.now.name.now) old.now.tokens.items }
{
    is_renamed(new.program.program(), old.program.program(), to)
        && are_renamed(
            new.tokens.as_slice(),
            old.tokens.as_slice(),
            starts,
            to.name,
        )
}

// The text with the new name is judged.
fn judged(
    alloc: Global,
    gang: Gang,
    old: &Known,
    text: &str,
    starts: &[usize],
    to: &Renaming<'_>,
) -> Result<(), RenameFault>
    ensures ok { OnOk result (IsAlike gang text.now (program_of old.now.program) old.now.tokens starts.now to.now.subject to.now.name.now) }
    ensures err { IfErr result (OnlyClash (IsFaulty gang text.now)) }
{
    let new = after(alloc, gang, text)?;
    if same(&new, old, starts, to) {
        Ok(())
    } else {
        Err(RenameFault::Captured)
    }
}

// All names of the subject are replaced.
fn replace(
    alloc: Global,
    gang: Gang,
    text: &str,
    old: &Known,
    to: &Renaming<'_>,
) -> Result<Vec<Span>, RenameFault>
    ensures spans { IfOk result (λ v. v.items ≡ spans_of text.now old.now.notes.items to.now.subject) }
    ensures alike { IfOk result (λ v. IsAlike gang (replaced text.now to.now.name.now 0 v.items) (program_of old.now.program) old.now.tokens
        (places_of true to.now.subject old.now.notes.items) to.now.subject to.now.name.now) }
    ensures err { IfErr result (OnlyClash (λ f. IsFaulty gang (replaced text.now to.now.name.now 0 (spans_of text.now old.now.notes.items to.now.subject)) f)) }
{
    let starts = mentions(alloc, &old.notes, to.subject, true)?;
    let spans = words(alloc, text, &starts)?;
    match replaced(alloc, text, to.name, &spans)? {
        Some(after) => {
            judged(alloc, gang, old, after.as_str(), &starts, to)?;
            Ok(spans)
        }
        None => Err(RenameFault::Captured),
    }
}

/// Where the new name has to stand when what is named at a byte of a source text is renamed: the spans of its names, in their order.
/// The text after that has the same tokens but for the name, and its typed tree is the same but for the name.
///
/// Errors: `NotAName` and `OfLibrary` of the new name by itself; `NoProgram` of the text; `NoName` where no variable or function of
/// the program is named at the byte; `Clash` where the text after it has a fault, and `Captured` where it would mean something else.
pub fn renamed(
    alloc: Global,
    gang: Gang,
    text: &str,
    at: usize,
    name: &str,
) -> Result<Vec<Span>, RenameFault>
    requires { at ≤ length text.now }
    ensures ok { IfOk result (λ v. IsRenaming gang text.now at name.now v.items) }
    ensures err { IfErr result (Refuses gang text.now at name.now) }
{
    new_name(alloc, name)?;
    let old = before(alloc, gang, text)?;
    let word = word_around(text.as_bytes(), at);
    match subject_at(&old.notes, word.start) {
        Some(subject) => replace(alloc, gang, text, &old, &Renaming { subject, name }),
        None => Err(RenameFault::NoName),
    }
}
