//! What `isp check` and `isp run` do, of texts that were read.
ghost use Rattle.std.specs.Prelude.{◌≡◌, false, string_bytes, Some, IfOk, IfErr};
ghost use Rattle.isp_code_commands.specs.Texts.{GivesNone};
ghost use Rattle.isp_engine.specs.Commands.{Ran, end_of_ending};
ghost use Rattle.isp_explain_command.specs.Texts.{ChecksText, JudgedText, RunsTexts};

use isp_base::Gang;
use isp_engine::{Ending, Failure, Image, Sink, compile, front, run_to, write_text};
use isp_messages::Source;
use isp_verdicts::verdicts;
use std::alloc::Global;

/// Writes `ok`, and a line for each exported function of a source, as `isp check` does.
pub(crate) fn check<O: Sink>(
    alloc: Global,
    source: &str,
    gang: Gang,
    out: &mut O,
) -> Result<(), Failure<'static>>
    requires { O.has_failed out.old ≡ false }
    ensures { ChecksText gang source.now (O.written out.old) (O.written out.new) (O.has_failed out.new) result }
{
    let text = judged(alloc, source, gang)?;
    write_text(text.as_str(), out)
}

// What is said of the exported functions of a source.
fn judged(alloc: Global, source: &str, gang: Gang) -> Result<String, Failure<'static>>
    ensures ok { IfOk result (λ s. JudgedText gang source.now (string_bytes s)) }
    ensures err { IfErr result (GivesNone (Some gang) source.now) }
{
    let checked = front(alloc, source, gang)?;
    let text = verdicts(alloc, &checked)?;
    Ok(text)
}

/// An entry of a source that is run with the text of its arguments, for so many instructions at most.
#[derive(Clone, Copy)]
pub(crate) struct Job<'n, 't> {
    pub(crate) gang: Gang,
    pub(crate) budget: u64,
    pub(crate) source: Source<'n, 't>,
    pub(crate) entry: &'n str,
    pub(crate) arguments: Source<'n, 't>,
}

/// Compiles the source and runs its entry, as `isp run` does.
pub(crate) fn run<O: Sink>(
    alloc: Global,
    job: &Job<'_, '_>,
    out: &mut O,
) -> Result<(), Failure<'static>>
    requires { O.has_failed out.old ≡ false }
    ensures { RunsTexts job.now (O.written out.old) (O.written out.new) (O.has_failed out.new) result }
{
    let image = compile(alloc, job.source.text, job.gang)?;
    run_image(alloc, &image, job, out)
}

// Runs the entry of code.
fn run_image<O: Sink>(
    alloc: Global,
    image: &Image,
    job: &Job<'_, '_>,
    out: &mut O,
) -> Result<(), Failure<'static>>
    requires { O.has_failed out.old ≡ false }
    ensures { Ran image.now job.now.entry.now job.now.arguments.text.now job.now.budget (O.written out.old) (O.written out.new) (O.has_failed out.new) result }
{
    let json = job.arguments.text;
    let report = run_to(alloc, image, job.entry, json, job.budget, out)?;
    end_of(report.ending)
}

// How the program ends after a run that stands so.
fn end_of(ending: Ending) -> Result<(), Failure<'static>>
    ensures { result ≡ end_of_ending ending }
{
    match ending {
        Ending::Ended => Ok(()),
        Ending::Trapped(trap) => Err(Failure::Trapped(trap)),
        Ending::Running => Err(Failure::BudgetUsed),
    }
}
