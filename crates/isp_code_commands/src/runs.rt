//! Runs that show what they do: `ispx count` and `ispx trace`.
ghost use Rattle.std.specs.Prelude.{◌≡◌, ℕ, false, true, string_bytes, IfOk, IfErr};
ghost use Rattle.isp_code.specs.Entries.{IsEntry};
ghost use Rattle.isp_code.specs.Listing.{Routine};
ghost use Rattle.isp_code_commands.specs.Requests.{GivenBy, ShownEnds};
ghost use Rattle.isp_code_commands.specs.Lines.{AreByLines};
ghost use Rattle.isp_code_commands.specs.Runs.{BindsFor, CountShows, NotRun, ShowEnds, answer_line, lines_wanted};
ghost use Rattle.isp_code_commands.specs.Runs.{EndsTrace, TraceShows, WritesPage, end_of_stop, window_of};
ghost use Rattle.isp_engine.specs.Commands.{NotGiven, job_of_run};
ghost use Rattle.isp_traces.specs.Counting.{CountedRun};
ghost use Rattle.isp_traces.specs.Tallies.{IsGrouped};
ghost use Rattle.isp_traces.specs.Tracing.{TracedRun};

use crate::lines::by_lines;
use crate::native::image_of;
use crate::texts::read_both;
use isp_base::{Bound, Signature};
use isp_bind::{answer, bind};
use isp_command_line::RunRequest;
use isp_engine::{Failure, Image, RunFault, Sink, SourceFiles, StartFault, Stop, write_bytes};
use isp_traces::{
    Counted, Grouping, Traced, Window, count_grouped, counts_line, lines_line, trace_run,
};
use isp_verify::Verified;
use ispx_command_line::{CountRequest, TraceRequest};
use std::alloc::{AllocError, Global};

/// What a run shows, and how the program ends after it.
#[derive(Drop)]
struct Shown {
    page: Vec<u8>,
    end: Result<(), Failure<'static>>,
}

/// Runs an entry of a source as `isp run` does, and writes after its output and its answer what its instructions come to, as a
/// line of JSON, and where they are wanted those of each line of the source. Where the run traps (3), its budget is used (4) or memory is
/// refused in it (7) these lines go out too.
///
/// 6: a file cannot be read. 1: the source is refused. 5: no such entry, or its arguments are refused. 7: memory was refused before the run,
/// or in what is written. Then nothing goes out. 6 also: the output cannot be written; then the first bytes of the page have gone out.
pub fn count<'a, F: SourceFiles, O: Sink>(
    alloc: Global,
    wanted: &CountRequest<'a>,
    files: &F,
    out: &mut O,
) -> Result<(), Failure<'a>>
    requires { O.has_failed out.old ≡ false }
    ensures { ShownEnds (CountShows wanted.now) (F.holds files.now) wanted.now.run (O.written out.old) (O.written out.new) (O.has_failed out.new) result }
{
    let (image, source, json) = given(alloc, &wanted.run, files)?;
    count_image(alloc, &image, source.as_str(), wanted, json.as_str(), out)
}

/// Runs an entry of a source up to the end of a window, or for as many instructions as its budget says where they are fewer, and
/// writes the line of each step in the window.
///
/// 3: the run traps. 4: its budget is used up before the window ends, or as it ends. All else as `count` answers it.
pub fn trace<'a, F: SourceFiles, O: Sink>(
    alloc: Global,
    wanted: &TraceRequest<'a>,
    files: &F,
    out: &mut O,
) -> Result<(), Failure<'a>>
    requires { O.has_failed out.old ≡ false }
    ensures { ShownEnds (λ _. TraceShows wanted.now) (F.holds files.now) wanted.now.run (O.written out.old) (O.written out.new) (O.has_failed out.new) result }
{
    let (image, _source, json) = given(alloc, &wanted.run, files)?;
    trace_image(alloc, &image, wanted, json.as_str(), out)
}

// The code of the source, its text, and that of the arguments.
fn given<'a, F: SourceFiles>(
    alloc: Global,
    wanted: &RunRequest<'a>,
    files: &F,
) -> Result<(Image, String, String), Failure<'a>>
    ensures ok { IfOk result (λ g. GivenBy (F.holds files.now) wanted.now (string_bytes g.1) g.0 (string_bytes g.2)) }
    ensures err { IfErr result (NotGiven (F.holds files.now) (job_of_run wanted.now)) }
{
    let (source, json) = read_both(alloc, wanted.source, wanted.arguments, files)?;
    let image = image_of(alloc, Some(wanted.gang), source.as_str())?;
    Ok((image, source, json))
}

fn count_image<O: Sink>(
    alloc: Global,
    image: &Image,
    source: &str,
    wanted: &CountRequest<'_>,
    json: &str,
    out: &mut O,
) -> Result<(), Failure<'static>>
    requires { O.has_failed out.old ≡ false }
    ensures { ShowEnds (CountShows wanted.now source.now) wanted.now.run.entry.now image.now json.now (O.written out.old) (O.written out.new) (O.has_failed out.new) result }
{
    let shown = counted(alloc, image.verified(), source, wanted, json)?;
    write_shown(shown, out)
}

fn trace_image<O: Sink>(
    alloc: Global,
    image: &Image,
    wanted: &TraceRequest<'_>,
    json: &str,
    out: &mut O,
) -> Result<(), Failure<'static>>
    requires { O.has_failed out.old ≡ false }
    ensures { ShowEnds (TraceShows wanted.now) wanted.now.run.entry.now image.now json.now (O.written out.old) (O.written out.new) (O.has_failed out.new) result }
{
    let shown = traced(alloc, image.verified(), wanted, json)?;
    write_shown(shown, out)
}

// Writes what a run shows, and says how the program ends after it.
fn write_shown<O: Sink>(shown: Shown, out: &mut O) -> Result<(), Failure<'static>>
    requires { O.has_failed out.old ≡ false }
    ensures { WritesPage shown.page.items shown.end (O.written out.old) (O.written out.new) (O.has_failed out.new) result }
{
    write_bytes(shown.page.as_slice(), out)?;
    shown.end
}

// What a counted run shows.
fn counted(
    alloc: Global,
    code: &Verified,
    source: &str,
    wanted: &CountRequest<'_>,
    json: &str,
) -> Result<Shown, Failure<'static>>
    ensures ok { IfOk result (λ s. CountShows wanted.now source.now code.now json.now s.page.items s.end) }
    ensures err { IfErr result (NotRun code.now wanted.now.run.entry.now json.now) }
{
    let (signature, bound) = entry(alloc, code, wanted.run.entry, json)?;
    let grouping = grouping_of(alloc, code, source, wanted.lines)?;
    let run = count_entry(alloc, code, &wanted.run, bound, grouping)?;
    let line = answer_of(alloc, signature, &run)?;
    let counts = counts_line(alloc, code, &run.counts)?;
    let lines = lines_of(alloc, code, wanted, &run)?;
    let mut page = run.output;
    page.extend_from_slice(line.as_bytes())?;
    page.extend_from_slice(counts.as_slice())?;
    page.extend_from_slice(lines.as_slice())?;
    Ok(Shown {
        page,
        end: end_of(run.stop),
    })
}

// The places by lines, where these are wanted.
fn grouping_of(
    alloc: Global,
    code: &Verified,
    source: &str,
    lines: bool,
) -> Result<Grouping, AllocError>
    ensures { IfOk result (λ q. lines ≡ true → AreByLines source.now code.now.places q) }
{
    if lines {
        by_lines(alloc, source, code.code().places())
    } else {
        Ok(Grouping::none(alloc))
    }
}

// The counts of each line, where they are wanted.
fn lines_of(
    alloc: Global,
    code: &Verified,
    wanted: &CountRequest<'_>,
    run: &Counted,
) -> Result<Vec<u8>, AllocError>
    ensures { IfOk result (λ v. v.items ≡ lines_wanted wanted.now.lines code.now run.now) }
{
    if wanted.lines {
        lines_line(alloc, code, &run.counts)
    } else {
        Ok(Vec::new(alloc))
    }
}

// What a traced run shows.
fn traced(
    alloc: Global,
    code: &Verified,
    wanted: &TraceRequest<'_>,
    json: &str,
) -> Result<Shown, Failure<'static>>
    ensures ok { IfOk result (λ s. TraceShows wanted.now code.now json.now s.page.items s.end) }
    ensures err { IfErr result (NotRun code.now wanted.now.run.entry.now json.now) }
{
    let (_signature, bound) = entry(alloc, code, wanted.run.entry, json)?;
    let window = window(wanted);
    let run = trace_entry(alloc, code, &wanted.run, window, bound)?;
    Ok(Shown {
        page: run.text,
        end: end_of_trace(run.stop, window, wanted.run.budget),
    })
}

// What the function takes that is exported under a name, and its arguments.
fn entry<'c>(
    alloc: Global,
    code: &'c Verified,
    name: &str,
    json: &str,
) -> Result<(&'c Signature, Bound), Failure<'static>>
    ensures ok { IfOk result (λ r. BindsFor code.now name.now json.now r.1.arguments.items r.0.now.params.items) }
    ensures err { IfErr result (NotRun code.now name.now json.now) }
{
    let Some(signature) = code.signature(name) else {
        return Err(Failure::Run(RunFault::NoEntry));
    };
    let bound = bind(alloc, signature, json)?;
    Ok((signature, bound))
}

fn count_entry(
    alloc: Global,
    code: &Verified,
    wanted: &RunRequest<'_>,
    bound: Bound,
    grouping: Grouping,
) -> Result<Counted, AllocError>
    requires { (f : ℕ) × (h : Routine) × IsEntry code.now wanted.now.entry.now bound.arguments.items f h }
    ensures counted { IfOk result (CountedRun code.now wanted.now.entry.now bound.arguments.items wanted.now.budget) }
    ensures grouped { IfOk result (λ r. IsGrouped grouping r.counts.groups) }
{
    match count_grouped(alloc, code, wanted.entry, bound, wanted.budget, grouping) {
        Ok(run) => Ok(run),
        Err(StartFault::Memory) => Err(AllocError),
        Err(StartFault::NoEntry) => unreachable!(),
    }
}

fn trace_entry(
    alloc: Global,
    code: &Verified,
    wanted: &RunRequest<'_>,
    window: Window,
    bound: Bound,
) -> Result<Traced, AllocError>
    requires { (f : ℕ) × (h : Routine) × IsEntry code.now wanted.now.entry.now bound.arguments.items f h }
    ensures { IfOk result (TracedRun code.now wanted.now.entry.now bound.arguments.items window wanted.now.budget) }
{
    match trace_run(alloc, code, wanted.entry, bound, window, wanted.budget) {
        Ok(run) => Ok(run),
        Err(StartFault::Memory) => Err(AllocError),
        Err(StartFault::NoEntry) => unreachable!(),
    }
}

// The answer and a line feed, where the run ended.
fn answer_of(alloc: Global, signature: &Signature, run: &Counted) -> Result<String, AllocError>
    ensures { IfOk result (λ s. string_bytes s ≡ answer_line run.now.stop signature.now.params.items run.now.arrays.items run.now.result) }
{
    match run.stop {
        Stop::Ended => {
            let mut text = answer(alloc, signature, &run.arrays, run.result)?;
            text.push_str("\n")?;
            Ok(text)
        }
        _ => Ok(String::new(alloc)),
    }
}

fn window(wanted: &TraceRequest<'_>) -> Window
    ensures { result ≡ window_of wanted.now }
{
    Window {
        from: wanted.from,
        count: wanted.count,
        lanes: wanted.lanes,
    }
}

// How the program ends after a run that stopped so.
fn end_of(stop: Stop) -> Result<(), Failure<'static>>
    ensures { result ≡ end_of_stop stop }
{
    match stop {
        Stop::Ended => Ok(()),
        Stop::Trapped(trap) => Err(Failure::Trapped(trap)),
        Stop::Running => Err(Failure::BudgetUsed),
        Stop::Memory => Err(Failure::Memory),
    }
}

// How it ends after a trace.
fn end_of_trace(stop: Stop, window: Window, budget: u64) -> Result<(), Failure<'static>>
    ensures { EndsTrace window budget stop result }
{
    match stop {
        Stop::Running if window.count < budget.saturating_sub(window.from) => Ok(()),
        _ => end_of(stop),
    }
}
