//! The steps of a run: the source, the arguments, the run, and what is shown of it.
ghost use Rattle.std.specs.Prelude.{◌≡◌, List, ℕ, Some, IfErr, IfOk, string_bytes};
ghost use Rattle.isp_base.specs.declared.types.Gang.{Gang};
ghost use Rattle.isp_code.specs.Entries.{IsEntry};
ghost use Rattle.isp_code.specs.Listing.{Routine};
ghost use Rattle.isp_runs.specs.BoundReports.{MeansBound, RunsBound};
ghost use Rattle.isp_runs.specs.Compilation.{IsCompilation};
ghost use Rattle.isp_front.specs.Front.{IsSource};
ghost use Rattle.isp_run_command.specs.Running.{Binds, IsRefused, NotBegun, NotCalled, budget_of, element_of, end_of_stop, page_of};
ghost use Rattle.isp_run_stops.specs.declared.stop.RunStop.TheVariants as run_stop;
ghost use Rattle.isp_typed.specs.Typed.{Program};
ghost use Rattle.isp_typed.specs.Views.{function_of, program_of};

use isp_base::{Bound, Trap};
use isp_bind::answer;
use isp_engine::{
    BoundReport, FileFault, Image, SourceFiles, StartFault, Stop, compile, execute_bound, front,
};
use isp_lex::SourceFault;
use isp_messages::Element;
use isp_outside::Outside;
use isp_rates::Checked;
use isp_run_data::{outputs, shown_of};
use isp_run_stops::RunStop;
use isp_run_words::{GivenFault, Output, RunWords, Words, bind_words};
use isp_typed::TypedFunction;
use std::alloc::{AllocError, Global};

/// What a run shows, and how the program ends after it.
#[derive(Drop)]
pub(crate) struct Page<'a> {
    pub(crate) bytes: Vec<u8>,
    pub(crate) end: Result<(), RunStop<'a>>,
}

/// The text of the source.
pub(crate) fn source_text<'a, F: SourceFiles>(
    alloc: Global,
    request: &RunWords<'a>,
    files: &F,
) -> Result<String, RunStop<'a>>
    ensures ok { IfOk result (λ s. F.holds files.now request.now.source.now (Some (string_bytes s))) }
    ensures err { IfErr result (NotBegun (F.holds files.now) request.now) }
{
    match files.read(alloc, request.source) {
        Ok(text) => Ok(text),
        Err(FileFault::CannotRead) => Err(RunStop::CannotRead(request.source)),
        Err(FileFault::Memory) => Err(RunStop::Memory),
    }
}

/// The program of the source, which says what its parameters are.
pub(crate) fn checked<'a>(
    alloc: Global,
    request: &RunWords<'_>,
    text: &str,
) -> Result<Checked, RunStop<'a>>
    ensures ok { IfOk result (λ c. (program : Program) → IsSource request.now.gang text.now program → program_of c ≡ program) }
    ensures err { IfErr result (IsRefused request.now.gang text.now) }
{
    match front(alloc, text, request.gang) {
        Ok(checked) => Ok(checked),
        Err(SourceFault::Memory) => Err(RunStop::Memory),
        Err(SourceFault::Refused(fault)) => Err(RunStop::Source(fault)),
    }
}

/// The code of the source.
pub(crate) fn image<'a>(
    alloc: Global,
    request: &RunWords<'_>,
    text: &str,
) -> Result<Image, RunStop<'a>>
    ensures ok { IfOk result (IsCompilation request.now.gang text.now) }
    ensures err { IfErr result (IsRefused request.now.gang text.now) }
{
    match compile(alloc, text, request.gang) {
        Ok(image) => Ok(image),
        Err(SourceFault::Memory) => Err(RunStop::Memory),
        Err(SourceFault::Refused(fault)) => Err(RunStop::Source(fault)),
    }
}

/// The arguments that words give to the entry, and how arrays go to files.
#[derive(Drop)]
pub(crate) struct Call<'a> {
    pub(crate) bound: Bound,
    pub(crate) outputs: Vec<Output<'a>>,
}

pub(crate) fn called<'a>(
    alloc: Global,
    request: &RunWords<'a>,
    image: &Image,
    words: Words,
) -> Result<Call<'a>, RunStop<'a>>
    ensures ok { IfOk result (λ c. Binds image.now request.now.entry.now words c.bound.arguments.items) }
    ensures err { IfErr result (NotCalled image.now request.now words) }
{
    let Some(signature) = image.verified().signature(request.entry) else {
        return Err(RunStop::NoEntry);
    };
    match bind_words(alloc, signature, &words) {
        Ok(bound) => {
            let outputs = outputs(alloc, request, signature, &words, &bound)?;
            Ok(Call { bound, outputs })
        }
        Err(GivenFault::Memory) => Err(RunStop::Memory),
        Err(fault) => Err(RunStop::NotGiven { words, fault }),
    }
}

/// Runs the entry.
pub(crate) fn report<'a>(
    alloc: Global,
    request: &RunWords<'_>,
    image: &Image,
    bound: Bound,
) -> Result<BoundReport, RunStop<'a>>
    requires { (f : ℕ) × (h : Routine) × IsEntry image.now request.now.entry.now bound.arguments.items f h }
    ensures machine { IfOk result (RunsBound image.now request.now.entry.now bound.arguments.items (budget_of request.now.budget)) }
    ensures means { IfOk result (λ r. (gang : Gang) (text : List ℕ) (compiled : IsCompilation gang text image.now)
        → MeansBound compiled.program request.now.entry.now bound.arguments.items (budget_of request.now.budget) r) }
    ensures err { IfErr result (λ s. s ≡ run_stop.Memory) }
{
    let budget = limit(request.budget);
    match execute_bound(alloc, image, request.entry, bound, budget) {
        Ok(report) => Ok(report),
        Err((_bound, StartFault::Memory)) => Err(RunStop::Memory),
        Err((_bound, StartFault::NoEntry)) => unreachable!(),
    }
}

fn limit(budget: Option<u64>) -> u64
    ensures { result ≡ budget_of budget }
{
    match budget {
        Some(budget) => budget,
        None => u64::MAX,
    }
}

/// The output, and where the run ended the answer.
pub(crate) fn shown_page<'a>(
    alloc: Global,
    outputs: &[&str],
    function: &TypedFunction,
    report: BoundReport,
) -> Result<Page<'a>, AllocError>
    ensures page { IfOk result (λ p. p.bytes.items ≡ page_of outputs.now (function_of function.now) report) }
    ensures end { IfOk result (λ p. p.end ≡ end_of_stop report.stop report.outside) }
{
    let BoundReport {
        stop,
        output,
        arrays,
        result,
        outside,
    } = report;
    let mut bytes = output;
    if let Stop::Ended = stop {
        let shown = shown_of(alloc, outputs, function, arrays)?;
        let text = answer(alloc, &shown.signature, &shown.arrays, result)?;
        bytes.extend_from_slice(text.as_bytes())?;
        bytes.push(b'\n')?;
    }
    Ok(Page {
        bytes,
        end: end_of(stop, outside),
    })
}

// How the program ends after a run that stopped so.
fn end_of<'a>(stop: Stop, outside: Option<Outside>) -> Result<(), RunStop<'a>>
    ensures { result ≡ end_of_stop stop outside }
{
    match stop {
        Stop::Ended => Ok(()),
        Stop::Trapped(trap) => Err(trapped(trap, outside)),
        Stop::Running => Err(RunStop::BudgetUsed),
        Stop::Memory => Err(RunStop::Memory),
    }
}

fn trapped<'a>(trap: Trap, outside: Option<Outside>) -> RunStop<'a>
    ensures { result ≡ run_stop.Trapped trap (element_of outside) }
{
    RunStop::Trapped {
        trap,
        element: element_of(outside),
    }
}

fn element_of(outside: Option<Outside>) -> Option<Element>
    ensures { result ≡ element_of outside }
{
    match outside {
        Some(outside) => Some(Element {
            index: outside.index,
            after: outside.after,
            size: outside.size,
        }),
        None => None,
    }
}
