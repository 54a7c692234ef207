//! `ispx explain`: what `isp check` or `isp run` does, and what goes wrong in a way that helps.
ghost use Rattle.std.specs.Prelude.{◌≡◌, false, None};
ghost use Rattle.isp_code_commands.specs.Requests.{AnsweredBy};
ghost use Rattle.isp_engine.specs.Commands.{RunEnds, exit_status, job_of_run};
ghost use Rattle.isp_engine.specs.Failures.{status_of};
ghost use Rattle.isp_explain_command.specs.Explaining.{Explained, ExplainedCall, as_run as of_explain};
ghost use Rattle.isp_explain_command.specs.Texts.{ChecksText, RunsTexts};

use crate::done::{Job, check, run};
use isp_code_commands::read_both;
use isp_command_line::RunRequest;
use isp_engine::{Failure, Sink, SourceFiles, read_file, tell_line};
use isp_explained::{Asked, Given, entry_story, notes, plain_fault, source_story, trap_story};
use isp_messages::Source;
use isp_remedies::advice_on;
use isp_run_command::{show, tell};
use ispx_command_line::{Call, ExplainRequest};
use std::alloc::Global;

/// Checks a source, or runs an entry of it, as `isp` does, and answers the status of `isp`; says on `err` what went wrong.
pub fn explain<F: SourceFiles, O: Sink, E: Sink>(
    alloc: Global,
    request: &ExplainRequest<'_>,
    files: &F,
    out: &mut O,
    err: &mut E,
) -> u8
    requires { O.has_failed out.old ≡ false }
    ensures { Explained (F.holds files.now) request.now (O.written out.old) (O.written out.new) (O.has_failed out.new) result }
{
    match request.call {
        None => explain_check(alloc, request, files, out, err),
        Some(call) => explain_run(alloc, &as_run(request, call), files, out, err),
    }
}

fn explain_check<F: SourceFiles, O: Sink, E: Sink>(
    alloc: Global,
    request: &ExplainRequest<'_>,
    files: &F,
    out: &mut O,
    err: &mut E,
) -> u8
    requires { O.has_failed out.old ≡ false }
    ensures { AnsweredBy (ExplainedCall (F.holds files.now) request.now None (O.written out.old) (O.written out.new) (O.has_failed out.new)) result }
{
    match read_file(alloc, files, request.source) {
        Ok(text) => check_text(alloc, request, text.as_str(), out, err),
        Err(failure) => unread(&failure, err),
    }
}

fn check_text<O: Sink, E: Sink>(
    alloc: Global,
    request: &ExplainRequest<'_>,
    text: &str,
    out: &mut O,
    err: &mut E,
) -> u8
    requires { O.has_failed out.old ≡ false }
    ensures { AnsweredBy (ChecksText request.now.gang text.now (O.written out.old) (O.written out.new) (O.has_failed out.new)) result }
{
    let end = check(alloc, text, request.gang, out);
    let source = Source {
        name: request.source,
        text,
    };
    let asked = Asked::of(source, request.gang, None);
    note(alloc, &asked, &end, err);
    say(alloc, &asked, &end, err)
}

// The words of `isp run` that ask for the same.
fn as_run<'a>(request: &ExplainRequest<'a>, call: Call<'a>) -> RunRequest<'a>
    ensures { result ≡ of_explain request.now call.entry }
{
    RunRequest {
        gang: request.gang,
        budget: request.budget,
        source: request.source,
        entry: call.entry,
        arguments: call.arguments,
    }
}

fn explain_run<F: SourceFiles, O: Sink, E: Sink>(
    alloc: Global,
    wanted: &RunRequest<'_>,
    files: &F,
    out: &mut O,
    err: &mut E,
) -> u8
    requires { O.has_failed out.old ≡ false }
    ensures { AnsweredBy (RunEnds (F.holds files.now) (job_of_run wanted.now) (O.written out.old) (O.written out.new) (O.has_failed out.new)) result }
{
    match read_both(alloc, wanted.source, wanted.arguments, files) {
        Ok((source, json)) => {
            let job = Job {
                gang: wanted.gang,
                budget: wanted.budget,
                source: Source {
                    name: wanted.source,
                    text: source.as_str(),
                },
                entry: wanted.entry,
                arguments: Source {
                    name: wanted.arguments,
                    text: json.as_str(),
                },
            };
            run_texts(alloc, &job, out, err)
        }
        Err(failure) => unread(&failure, err),
    }
}

fn run_texts<O: Sink, E: Sink>(alloc: Global, job: &Job<'_, '_>, out: &mut O, err: &mut E) -> u8
    requires { O.has_failed out.old ≡ false }
    ensures { AnsweredBy (RunsTexts job.now (O.written out.old) (O.written out.new) (O.has_failed out.new)) result }
{
    let end = run(alloc, job, out);
    let given = Given {
        entry: job.entry,
        arguments: job.arguments,
    };
    let asked = Asked::of(job.source, job.gang, Some(given));
    say(alloc, &asked, &end, err)
}

// Says that a text is not read, and answers the exit status.
fn unread<E: Sink>(failure: &Failure<'_>, err: &mut E) -> u8
    ensures { result ≡ status_of failure.now }
{
    say_plainly(failure, err);
    failure.status()
}

// Says why entries are dependent, where the check ended well.
fn note<E: Sink>(alloc: Global, asked: &Asked<'_, '_>, end: &Result<(), Failure<'_>>, err: &mut E) {
    if end.is_ok() {
        tell(notes(alloc, asked), err);
    }
}

// Says how it ended, and answers the exit status.
fn say<E: Sink>(
    alloc: Global,
    asked: &Asked<'_, '_>,
    end: &Result<(), Failure<'_>>,
    err: &mut E,
) -> u8
    ensures { result ≡ exit_status end.now }
{
    match end {
        Ok(()) => 0,
        Err(failure) => {
            say_failure(alloc, asked, failure, err);
            failure.status()
        }
    }
}

// Says where a failure is, what it is, and what to write instead.
fn say_failure<E: Sink>(alloc: Global, asked: &Asked<'_, '_>, failure: &Failure<'_>, err: &mut E) {
    match failure {
        Failure::Source(fault) => tell(source_story(alloc, asked, *fault), err),
        Failure::Trapped(trap) => tell(trap_story(alloc, asked, *trap), err),
        Failure::Run(fault) => tell(entry_story(alloc, asked, *fault), err),
        _ => say_plainly(failure, err),
    }
}

// Says what has no place: the line of `isp`, and what the page has on it.
fn say_plainly<E: Sink>(failure: &Failure<'_>, err: &mut E) {
    tell_line(failure, err);
    if let Some(advice) = advice_on(plain_fault(failure)) {
        show(advice.sentence, err);
        show("\nFix: ", err);
        show(advice.fix, err);
        show("\n", err);
    }
}
