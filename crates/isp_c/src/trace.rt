//! The steps of a run, a line for each.
ghost use Rattle.std.specs.Prelude.{◌≡◌, ℕ, List, IfErr, IfOk};
ghost use Rattle.isp_code.specs.Entries.{IsEntry};
ghost use Rattle.isp_code.specs.Listing.{Routine};
ghost use Rattle.isp_engine.specs.declared.failure.Failure.TheVariants.{Memory};
ghost use Rattle.isp_traces.specs.Tracing.{TracedRun};
ghost use Rattle.isp_c_laws.specs.Running.{NoRun};
ghost use Rattle.isp_c.specs.Tracing.{TraceOf, Traces, window_of};
ghost use Rattle.isp_reports.specs.declared.refusal.Refusal.TheVariants.{Failed};

use crate::run::{Job, bound, loaded, no_entry};
use isp_base::Bound;
use isp_engine::{Failure, Image, StartFault};
use isp_reports::{Refusal, Report, give, refuse};
use isp_traces::{Traced, Window, trace_run};
use std::alloc::Global;

/// Which steps of which run have a line: `count` of them from number `from` on, where the first has number 0. Where `lanes` is
/// not 0 a line shows the vector that its step wrote.
#[derive(Clone, Copy)]
#[repr(C)]
pub struct Trace<'a> {
    pub job: Job<'a>,
    pub from: u64,
    pub count: u64,
    pub lanes: u32,
}

impl Trace<'_> {
    fn window(&self) -> Window
        ensures { result ≡ window_of self.now }
    {
        Window {
            from: self.from,
            count: self.count,
            lanes: self.lanes != 0,
        }
    }
}

/// Reads code text, runs the entry from the arguments that `packed` holds, as isp_run does, and writes the lines of the steps that
/// are asked for at the front of `lines`, their length to `report.used`. The bytes after them stay. A line has the number of the
/// step, the function, the instruction and its line of code text, the masks that it read and what it wrote
/// (crates/isp_traces/README.md). The result is the status:
///
/// - 0: these are the lines of the steps, as many as the run has within `job.budget`.
/// - 5, 6, 7, 8: as isp_run refuses the entry, the arguments, a text, memory or the code.
/// - 10: `lines` has fewer bytes than the lines, which are as many as `report.used` says.
///
/// With a status other than 0 `lines` stays as it was, and `report.used` is 0 but with 10.
#[unsafe(no_mangle)]
pub extern "C" fn isp_trace(
    alloc: Global,
    code: &[u8],
    trace: &Trace<'_>,
    packed: &[u8],
    lines: &mut [u8],
    report: &mut Report,
) -> u8
    ensures { Traces code.now trace.now packed.now lines.old lines.new report.new result }
{
    match traced(alloc, code, trace, packed) {
        Ok(traced) => give(traced.text.as_slice(), lines, report),
        Err(refusal) => refuse(&refusal, 0, report),
    }
}

// The lines of the run that the code text, the entry and the bytes give.
fn traced(
    alloc: Global,
    code: &[u8],
    trace: &Trace<'_>,
    packed: &[u8],
) -> Result<Traced, Refusal<'static>>
    ensures ok { IfOk result (λ t. TraceOf code.now trace.now.job.entry.bytes.now packed.now (window_of trace.now) trace.now.job.budget t.text.items) }
    ensures err { IfErr result (NoRun code.now trace.now.job.entry.bytes.now packed.now) }
{
    let Ok(text) = std::str::from_utf8(code) else {
        return Err(Refusal::Failed(Failure::CannotRead("code")));
    };
    let image = loaded(alloc, text)?;
    let Ok(entry) = std::str::from_utf8(trace.job.entry.bytes) else {
        return Err(no_entry());
    };
    let bound = bound(alloc, &image, entry, packed)?;
    stepped(alloc, &image, entry, bound, trace)
}

fn stepped(
    alloc: Global,
    image: &Image,
    entry: &str,
    bound: Bound,
    trace: &Trace<'_>,
) -> Result<Traced, Refusal<'static>>
    requires { (f : ℕ) × (g : Routine) × IsEntry image.now entry.now bound.arguments.items f g }
    ensures ok { IfOk result (TracedRun image.now entry.now bound.arguments.items (window_of trace.now) trace.now.job.budget) }
    ensures err { IfErr result (λ e. e ≡ Failed Memory) }
{
    match trace_run(
        alloc,
        image.verified(),
        entry,
        bound,
        trace.window(),
        trace.job.budget,
    ) {
        Ok(traced) => Ok(traced),
        Err(StartFault::Memory) => Err(Refusal::Failed(Failure::Memory)),
        Err(StartFault::NoEntry) => unreachable!(),
    }
}
