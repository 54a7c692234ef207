//! `ispx run`: an entry of a source is run with what words and files give.
ghost use Rattle.std.specs.Prelude.{◌≡◌, false, IfErr, IfOk};
ghost use Rattle.isp_machine.specs.declared.stop.Stop.TheVariants.{Ended};
ghost use Rattle.isp_run_command.specs.Running.{IsReady, NotShown, RunAnswered, RunsText, Showed};
ghost use Rattle.isp_run_data.specs.Writing.{IsUnwritten};
ghost use Rattle.isp_typed.specs.Views.{program_of};

use crate::steps::{Call, Page, called, checked, image, report, shown_page, source_text};
use crate::told::say;
use isp_engine::{BoundReport, Image, Sink, SourceFiles, Stop, write_bytes};
use isp_entry::find;
use isp_rates::Checked;
use isp_run_data::{loaded, write_outputs};
use isp_run_stops::{RunStop, bad_word};
use isp_run_words::{DataFiles, Output, RunWords};
use std::alloc::Global;

/// Runs an entry of a source with what words and files give, writes its output and its answer, without the arrays that go to files and
/// those that are declared `const`, and answers the exit status; says on `err` what went wrong.
pub fn run<F: SourceFiles + DataFiles, O: Sink, E: Sink>(
    alloc: Global,
    request: &RunWords<'_>,
    files: &F,
    out: &mut O,
    err: &mut E,
) -> u8
    requires { O.has_failed out.old ≡ false }
    ensures { RunAnswered (F.holds files.now) (F.has_bytes files.now) request.now (O.written out.old) (O.written out.new) (O.has_failed out.new) result }
{
    if let Some(stop) = bad_word(request) {
        return say(alloc, request, "", &Err(stop), err);
    }
    match source_text(alloc, request, files) {
        Ok(source) => {
            let text = source.as_str();
            let end = done(alloc, request, text, files, out);
            say(alloc, request, text, &end, err)
        }
        Err(stop) => say(alloc, request, "", &Err(stop), err),
    }
}

fn done<'a, F: DataFiles, O: Sink>(
    alloc: Global,
    request: &RunWords<'a>,
    text: &str,
    files: &F,
    out: &mut O,
) -> Result<(), RunStop<'a>>
    requires { O.has_failed out.old ≡ false }
    ensures { RunsText (F.has_bytes files.now) request.now text.now (O.written out.old) (O.written out.new) (O.has_failed out.new) result }
{
    let page = ran(alloc, request, text, files)?;
    match write_bytes(page.bytes.as_slice(), out) {
        Ok(()) => page.end,
        Err(_failure) => Err(RunStop::NoOutput),
    }
}

// What the run shows. The files are written before.
fn ran<'a, F: DataFiles>(
    alloc: Global,
    request: &RunWords<'a>,
    text: &str,
    files: &F,
) -> Result<Page<'a>, RunStop<'a>>
    ensures ok { IfOk result (λ p. Showed (F.has_bytes files.now) request.now text.now p.bytes.items p.end) }
    ensures err { IfErr result (NotShown (F.has_bytes files.now) request.now text.now) }
{
    let Ready {
        image,
        checked,
        call,
    } = prepared(alloc, request, text, files)?;
    let Call { bound, outputs } = call;
    let function = find(checked.program(), request.entry, &bound);
    let report = report(alloc, request, &image, bound)?;
    let Some(function) = function else {
        unreachable!()
    };
    write_ended(alloc, &outputs, &report, files)?;
    Ok(shown_page(alloc, &request.outputs, function, report)?)
}

/// A run that can begin.
#[derive(Drop)]
struct Ready<'a> {
    image: Image,
    checked: Checked,
    call: Call<'a>,
}

// What is needed for a run.
fn prepared<'a, F: DataFiles>(
    alloc: Global,
    request: &RunWords<'a>,
    text: &str,
    files: &F,
) -> Result<Ready<'a>, RunStop<'a>>
    ensures ok { IfOk result (λ r. IsReady (F.has_bytes files.now) request.now text.now r.image r.call.bound.arguments.items (program_of r.checked)) }
    ensures err { IfErr result (NotShown (F.has_bytes files.now) request.now text.now) }
{
    let words = loaded(alloc, request, files)?;
    let checked = checked(alloc, request, text)?;
    let image = image(alloc, request, text)?;
    let call = called(alloc, request, &image, words)?;
    Ok(Ready {
        image,
        checked,
        call,
    })
}

// Where the run ended, each array that goes to a file is written.
fn write_ended<'a, F: DataFiles>(
    alloc: Global,
    outputs: &[Output<'a>],
    report: &BoundReport,
    files: &F,
) -> Result<(), RunStop<'a>>
    ensures { IfErr result (λ s. (report.now.stop ≡ Ended) × IsUnwritten s) }
{
    match report.stop {
        Stop::Ended => write_outputs(alloc, outputs, &report.arrays, files),
        _ => Ok(()),
    }
}
