//! What `ispx test` says on standard error.
ghost use Rattle.std.specs.Prelude.{◌≡◌};
ghost use Rattle.isp_case_command.specs.Stopping.{end_status};

use crate::command::cases_file;
use crate::stop::TestStop;
use isp_case_files::CaseFault;
use isp_engine::{Failure, Sink, tell_line, write_text};
use isp_messages::{Message, Source, fault_message, source_message};
use std::alloc::{AllocError, Global};

/// Says why the cases are not run, and answers the exit status.
pub(crate) fn say<E: Sink>(
    alloc: Global,
    source: &str,
    text: &str,
    end: &Result<(), TestStop>,
    err: &mut E,
) -> u8
    ensures { result ≡ end_status end.now }
{
    match end {
        Ok(()) => 0,
        Err(stop) => {
            tell(stop_text(alloc, Source { name: source, text }, *stop), err);
            stop.status()
        }
    }
}

// Writes a text as far as the sink takes it, or where memory was refused for it the line of that.
fn tell<E: Sink>(text: Result<String, AllocError>, err: &mut E) {
    match text {
        Ok(text) => {
            if !err.failed() {
                let _ = write_text(text.as_str(), err);
            }
        }
        Err(AllocError) => tell_line(&Failure::Memory, err),
    }
}

// Of a case that does not hold nothing is said here: its line has gone out.
fn stop_text(alloc: Global, source: Source<'_, '_>, stop: TestStop) -> Result<String, AllocError> {
    match stop {
        TestStop::Differs => Ok(String::new(alloc)),
        TestStop::Source(fault) => source_message(alloc, source, fault)?.text(alloc),
        TestStop::NoList(fault) => list_text(alloc, source.name, fault),
        TestStop::NoSource => fault_message(alloc, "cannot read", source.name)?.text(alloc),
        TestStop::NoCases => {
            let name = cases_file(alloc, source.name)?;
            fault_message(alloc, "cannot read", name.as_str())?.text(alloc)
        }
        TestStop::NoOutput => fault_message(alloc, "cannot write", "")?.text(alloc),
        TestStop::Memory => fault_message(alloc, "memory", "")?.text(alloc),
    }
}

// Where and why a text is no list of cases, and what stands in one.
fn list_text(alloc: Global, source: &str, fault: CaseFault) -> Result<String, AllocError> {
    let name = cases_file(alloc, source)?;
    let mut message = Message::new(alloc, format!(in alloc; "{fault}")?);
    message.source = Some(Source {
        name: name.as_str(),
        text: "",
    });
    message.sentence.push_str(
        "A file of cases is a list of objects, as in\n    [{\"entry\":\"f\",\"arguments\":{\"a\":[1,2]},\"answer\":{\"arrays\":{\"a\":[2,3]}}}]",
    )?;
    message.fix.push_str(
        "give each case an \"entry\", its \"arguments\", and an \"answer\" or a \"trap\".",
    )?;
    message.text(alloc)
}
