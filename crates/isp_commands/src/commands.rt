//! The whole program, over what it is handed.
ghost use Rattle.std.specs.Prelude.{◌≡◌, ◌≢◌, false, string_bytes, Some, IfOk, IfErr};
ghost use Rattle.isp_commands.specs.Commands.{Assembled, Commands, Ends, WroteCode};
ghost use Rattle.isp_engine.specs.Commands.{Given, IsImage, IsNoImage, NotGiven, Ran, RunEnds, end_of_ending, exit_status, job_of_exec as of_exec, job_of_run as of_run};
ghost use Rattle.isp_engine.specs.Told.{Told};
ghost use Rattle.isp_engine.specs.Stories.{SourceFails};
ghost use Rattle.isp_engine.specs.declared.failure.Failure.TheVariants.{Memory};

use crate::alone::solo;
use crate::checking::check;
use crate::refused::show;
use clap::error::ErrorKind;
use isp_command_line::{AsmRequest, ExecRequest, Request, RunRequest, read_words};
use isp_engine::{Failure, Job, Origin, SourceFiles, compile, read_file, tell_end, write_text};
use isp_output::Sink;
use isp_runs::{Ending, Image, load_code, run_to};
use std::alloc::Global;

/// Does what `words` ask for, the first of which is the program's name, and answers the exit status.
///
/// `run [--gang G] [--budget B] SOURCE ENTRY ARGUMENTS` reads the files SOURCE and ARGUMENTS, compiles the source and
/// runs ENTRY with the arguments; `exec [--budget B] CODE ENTRY ARGUMENTS` reads code in place of a source;
/// `asm [--gang G] SOURCE` compiles the source and writes its code; `check [--gang G] SOURCE` writes whether each exported
/// function is an independent entry; `solo [--gang G] [--turns N] SOURCE ENTRY ARGUMENTS` runs ENTRY by each instance alone.
/// The output goes to `out` while a program runs, and
/// where a run has ended the answer and a line feed after it. Where the status is not 0 a line on `err` says why; refused
/// words, of which help is one, have more than a line. Where `err` fails, or has failed before, the rest of it is lost.
pub fn command<F: SourceFiles, O: Sink, E: Sink>(
    alloc: Global,
    words: &[String],
    files: &F,
    out: &mut O,
    err: &mut E,
) -> u8
    requires { O.has_failed out.old ≡ false }
    ensures { Commands (F.holds files.now) (O.written out.old) (O.written out.new) (O.has_failed out.new)
        (λ line. Told line (E.written err.old) (E.written err.new) (E.has_failed err.new)) result }
{
    match read_words(alloc, words) {
        Ok(request) => tell_end(answer(alloc, &request, files, out), err),
        Err(error) => {
            if error.kind() == ErrorKind::OutOfMemory {
                return tell_end(Err(Failure::Memory), err);
            }
            show(&error, err);
            2
        }
    }
}

fn answer<'a, F: SourceFiles, O: Sink>(
    alloc: Global,
    request: &Request<'a>,
    files: &F,
    out: &mut O,
) -> Result<(), Failure<'a>>
    requires { O.has_failed out.old ≡ false }
    ensures { Ends (F.holds files.now) request.now (O.written out.old) (O.written out.new) (O.has_failed out.new) result }
{
    match request {
        Request::Run(wanted) => run(alloc, &job_of_run(wanted), files, out),
        Request::Check(wanted) => check(alloc, wanted, files, out),
        Request::Solo(wanted) => solo(alloc, wanted, files, out),
        Request::Asm(wanted) => asm(alloc, wanted, files, out),
        Request::Exec(wanted) => run(alloc, &job_of_exec(wanted), files, out),
    }
}

fn job_of_run<'a>(request: &RunRequest<'a>) -> Job<'a>
    ensures { result ≡ of_run request.now }
{
    Job {
        origin: Origin::Compiled(request.gang),
        text: request.source,
        entry: request.entry,
        arguments: request.arguments,
        budget: request.budget,
    }
}

fn job_of_exec<'a>(request: &ExecRequest<'a>) -> Job<'a>
    ensures { result ≡ of_exec request.now }
{
    Job {
        origin: Origin::Loaded,
        text: request.code,
        entry: request.entry,
        arguments: request.arguments,
        budget: request.budget,
    }
}

// Reads the files, and runs what the text gives with the arguments.
fn run<'a, F: SourceFiles, O: Sink>(
    alloc: Global,
    job: &Job<'a>,
    files: &F,
    out: &mut O,
) -> Result<(), Failure<'a>>
    requires { O.has_failed out.old ≡ false }
    ensures { RunEnds (F.holds files.now) job.now (O.written out.old) (O.written out.new) (O.has_failed out.new) result }
{
    let (image, json) = given(alloc, job, files)?;
    run_image(alloc, &image, job, json.as_str(), out)
}

// What is run, and the text of its arguments.
fn given<'a, F: SourceFiles>(
    alloc: Global,
    job: &Job<'a>,
    files: &F,
) -> Result<(Image, String), Failure<'a>>
    ensures ok { IfOk result (λ g. Given (F.holds files.now) job.now g.0 (string_bytes g.1)) }
    ensures err { IfErr result (NotGiven (F.holds files.now) job.now) }
{
    let text = read_file(alloc, files, job.text)?;
    let json = read_file(alloc, files, job.arguments)?;
    let image = image_of(alloc, job.origin, text.as_str())?;
    Ok((image, json))
}

// The code that a text gives.
fn image_of(alloc: Global, origin: Origin, text: &str) -> Result<Image, Failure<'static>>
    ensures ok { IfOk result (IsImage origin text.now) }
    ensures err { IfErr result (λ f. f ≢ Memory → IsNoImage origin text.now f) }
{
    match origin {
        Origin::Compiled(gang) => Ok(compile(alloc, text, gang)?),
        Origin::Loaded => Ok(load_code(alloc, text)?),
    }
}

// Runs the entry of code, and says how the program ends after it.
fn run_image<O: Sink>(
    alloc: Global,
    image: &Image,
    job: &Job<'_>,
    json: &str,
    out: &mut O,
) -> Result<(), Failure<'static>>
    requires { O.has_failed out.old ≡ false }
    ensures { Ran image.now job.now.entry.now json.now job.now.budget (O.written out.old) (O.written out.new) (O.has_failed out.new) result }
{
    let report = run_to(alloc, image, job.entry, json, job.budget, out)?;
    end_of(report.ending)
}

fn end_of(ending: Ending) -> Result<(), Failure<'static>>
    ensures { result ≡ end_of_ending ending }
{
    match ending {
        Ending::Ended => Ok(()),
        Ending::Trapped(trap) => Err(Failure::Trapped(trap)),
        Ending::Running => Err(Failure::BudgetUsed),
    }
}

fn asm<'a, F: SourceFiles, O: Sink>(
    alloc: Global,
    request: &AsmRequest<'a>,
    files: &F,
    out: &mut O,
) -> Result<(), Failure<'a>>
    requires { O.has_failed out.old ≡ false }
    ensures { WroteCode (F.holds files.now) request.now (O.written out.old) (O.written out.new) (O.has_failed out.new) result }
{
    let text = assembled(alloc, request, files)?;
    write_text(text.as_str(), out)
}

// The text of the code that a source is compiled to.
fn assembled<'a, F: SourceFiles>(
    alloc: Global,
    request: &AsmRequest<'a>,
    files: &F,
) -> Result<String, Failure<'a>>
    ensures ok { IfOk result (λ s. Assembled (F.holds files.now) request.now (string_bytes s)) }
    ensures err { IfErr result (SourceFails (F.holds files.now) request.now.gang request.now.source.now) }
{
    let source = read_file(alloc, files, request.source)?;
    let image = compile(alloc, source.as_str(), request.gang)?;
    let text = image.text(alloc)?;
    Ok(text)
}
