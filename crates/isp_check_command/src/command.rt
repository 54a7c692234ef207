//! `ispx check`: all that is wrong with a source; or its exported functions, and what is slow.
ghost use Rattle.std.specs.Prelude.{◌≡◌, [], false};
ghost use Rattle.isp_engine.specs.Commands.{exit_status};
ghost use Rattle.isp_engine.specs.Failures.{status_of};
ghost use Rattle.isp_check_command.specs.Checking.{CheckAnswered, ChecksText, Tells, TellsFaults, TellsNotes, TellsPage, TellsSome};
ghost use Rattle.isp_front.specs.Front.{IsSource};
ghost use Rattle.isp_typed.specs.Typed.{Program};

use crate::notes::notes;
use crate::page::fault_page;
use isp_engine::{Failure, Sink, SourceFiles, read_file, tell_line, write_text};
use isp_faults::faults;
use isp_lex::Fault;
use ispx_command_line::CheckRequest;
use std::alloc::Global;

/// Writes a message for each fault of a source, in the order of their places: `FILE:LINE:COLUMN: NUMBER NAME` with the line and what helps, or
/// a line of JSON. Where there is none it writes a line for each exported function, in the order of the text, which says whether the function
/// is an independent entry, or the first rule that it breaks and where (docs/INDEPENDENCE.md); and then a message for each place where the
/// source is slow. Answers the exit status: 0 where there is no fault, and 1 where there are. What keeps it from that is said on `err`: 6, a
/// file that cannot be read or an output that cannot be written; 7, memory.
pub fn check<F: SourceFiles, O: Sink, E: Sink>(
    alloc: Global,
    request: &CheckRequest<'_>,
    files: &F,
    out: &mut O,
    err: &mut E,
) -> u8
    requires { O.has_failed out.old ≡ false }
    ensures { CheckAnswered (F.holds files.now) request.now (O.written out.old) (O.written out.new) (O.has_failed out.new) result }
{
    match read_file(alloc, files, request.source) {
        Ok(text) => {
            let end = tell_all(alloc, request, text.as_str(), out);
            say(&end, err)
        }
        Err(failure) => unread(&failure, err),
    }
}

// Writes the messages of all faults of a text, and fails with the first; where there is none, its notes.
fn tell_all<O: Sink>(
    alloc: Global,
    request: &CheckRequest<'_>,
    text: &str,
    out: &mut O,
) -> Result<(), Failure<'static>>
    requires { O.has_failed out.old ≡ false }
    ensures { ChecksText request.now text.now (O.written out.old) (O.written out.new) (O.has_failed out.new) result }
{
    let found = faults(alloc, text, request.gang)?;
    tell_found(alloc, request, text, found.as_slice(), out)
}

// The same, of the faults that were found. A text without any is the source of a program.
fn tell_found<O: Sink>(
    alloc: Global,
    request: &CheckRequest<'_>,
    text: &str,
    found: &[Fault],
    out: &mut O,
) -> Result<(), Failure<'static>>
    requires sound { found.now ≡ [] → (program : Program) × IsSource request.now.gang text.now program }
    requires live { O.has_failed out.old ≡ false }
    ensures { Tells request.now text.now found.now (O.written out.old) (O.written out.new) (O.has_failed out.new) result }
{
    if found.is_empty() {
        return tell_notes(alloc, request, text, out);
    }
    tell_faults(alloc, request, text, found, out)
}

// Writes the messages of faults, and fails with the first.
fn tell_faults<O: Sink>(
    alloc: Global,
    request: &CheckRequest<'_>,
    text: &str,
    found: &[Fault],
    out: &mut O,
) -> Result<(), Failure<'static>>
    requires { O.has_failed out.old ≡ false }
    ensures { TellsFaults request.now text.now found.now (O.written out.old) (O.written out.new) (O.has_failed out.new) result }
{
    let Some(first) = found.first() else {
        return Ok(());
    };
    tell_page(alloc, request, text, found, out)?;
    Err(Failure::Source(*first))
}

// Writes the messages of faults.
fn tell_page<O: Sink>(
    alloc: Global,
    request: &CheckRequest<'_>,
    text: &str,
    found: &[Fault],
    out: &mut O,
) -> Result<(), Failure<'static>>
    requires { O.has_failed out.old ≡ false }
    ensures { TellsPage request.now text.now found.now (O.written out.old) (O.written out.new) (O.has_failed out.new) result }
{
    let page = fault_page(alloc, request, text, found)?;
    write_text(page.as_str(), out)
}

// Writes the notes of a text without a fault.
fn tell_notes<O: Sink>(
    alloc: Global,
    request: &CheckRequest<'_>,
    text: &str,
    out: &mut O,
) -> Result<(), Failure<'static>>
    requires source { (program : Program) × IsSource request.now.gang text.now program }
    requires live { O.has_failed out.old ≡ false }
    ensures { TellsNotes request.now text.now (O.written out.old) (O.written out.new) (O.has_failed out.new) result }
{
    let page = notes(alloc, request, text)?;
    tell_some(page.as_str(), out)
}

// Writes a page, and of an empty one nothing.
fn tell_some<O: Sink>(page: &str, out: &mut O) -> Result<(), Failure<'static>>
    requires { O.has_failed out.old ≡ false }
    ensures { TellsSome page.now (O.written out.old) (O.written out.new) (O.has_failed out.new) result }
{
    if page.is_empty() {
        return Ok(());
    }
    write_text(page, out)
}

// Says that a source is not read, and answers the exit status.
fn unread<E: Sink>(failure: &Failure<'_>, err: &mut E) -> u8
    ensures { result ≡ status_of failure.now }
{
    tell_line(failure, err);
    failure.status()
}

// Says what kept the messages from going out, and answers the exit status.
fn say<E: Sink>(end: &Result<(), Failure<'static>>, err: &mut E) -> u8
    ensures { result ≡ exit_status end.now }
{
    match end {
        Ok(()) => 0,
        Err(failure) => {
            if !matches!(failure, Failure::Source(_)) {
                tell_line(failure, err);
            }
            failure.status()
        }
    }
}
