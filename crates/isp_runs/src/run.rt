//! Runs of compiled programs.
ghost use Rattle.std.specs.Prelude.{◌≡◌, ◌≢◌, ℕ, List, false, Err, IfOk, OnOk, OnErr};
ghost use Rattle.isp_base.specs.Rows.{Row};
ghost use Rattle.isp_base.specs.Types.{gang_width};
ghost use Rattle.isp_base.specs.declared.types.Gang.{Gang};
ghost use Rattle.isp_code.specs.Entries.{IsEntry, IsExport};
ghost use Rattle.isp_code.specs.Listing.{Routine};
ghost use Rattle.isp_code.specs.Machine.{outcome};
ghost use Rattle.isp_machine.specs.Kept.{given, state};
ghost use Rattle.isp_machine.specs.declared.stop.Stop.TheVariants.{Memory};
ghost use Rattle.isp_store.specs.Held.{shapes_of};
ghost use Rattle.isp_runs.specs.Compilation.{IsCompilation};
ghost use Rattle.isp_runs.specs.Meaning.{Means};
ghost use Rattle.isp_runs.specs.Reports.{Executes, Reports, ReportsRun};
ghost use Rattle.isp_runs.specs.Sending.{Sends, SendsOf, answer_bytes};
ghost use Rattle.isp_output.specs.Sinks.{TookAll, TookSome};
ghost use Rattle.isp_output.specs.Stops.{StopsAs};

use crate::fault::RunFault;
use crate::image::Image;
use crate::report::{Ending, Report};
use isp_base::{Bound, Gang, Signature};
use isp_bind::{answer, bind};
use isp_machine::{Machine, StartFault, Stop};
use isp_output::{Nowhere, Sink, SinkFault, stream, write_all};
use isp_verify::Verified;
use std::alloc::{AllocError, Global};

/// What is run: an exported function of some code, and for how many instructions at most.
#[derive(Drop)]
struct Order<'a> {
    code: &'a Verified,
    entry: &'a str,
    signature: &'a Signature,
    budget: u64,
}

// The report of a machine that stopped. Memory is wanted where the machine wanted it, and for the answer.
fn report<const N: usize>(
    alloc: Global,
    signature: &Signature,
    machine: Machine<'_, N>,
    stop: Stop,
) -> Result<Report, AllocError>
    ensures reports { IfOk result (λ r. (rs : List Row) → shapes_of rs ≡ given machine.entry
        → StopsAs stop (state machine.entry) → Reports signature.now.params.items (outcome rs (state machine.entry)) r) }
    ensures ran { OnOk result (stop ≡ Memory → ⊥) }
{
    let (ending, answer) = match stop {
        Stop::Ended => {
            let text = answer(alloc, signature, machine.arrays(), machine.result())?;
            (Ending::Ended, Some(text))
        }
        Stop::Trapped(trap) => (Ending::Trapped(trap), None),
        Stop::Running => (Ending::Running, None),
        Stop::Memory => return Err(AllocError),
    };
    Ok(Report {
        ending,
        output: machine.into_rest().output,
        answer,
    })
}

// Where there is an answer, it and a line feed go out.
#[tactic(auto, using(isp_output::proofs::Written::took_both, isp_output::proofs::Written::took_later, isp_output::proofs::Written::took_early))]
fn write_answer<W: Sink>(answer: &Option<String>, out: &mut W) -> Result<(), SinkFault>
    requires { W.has_failed out.old ≡ false }
    ensures ok { OnOk result (TookAll (answer_bytes answer.now) (W.written out.old)
        (W.written out.new) (W.has_failed out.new)) }
    ensures err { OnErr result (TookSome (answer_bytes answer.now) (W.written out.old)
        (W.written out.new) (W.has_failed out.new)) }
{
    if let Some(text) = answer {
        write_all(out, text.as_bytes())?;
        write_all(out, b"\n")?;
    }
    Ok(())
}

// Runs the function that is exported under a name from arguments that it takes. The report is made before the answer
// goes out, so that after a whole answer memory is not wanted.
fn run<const N: usize, W: Sink>(
    alloc: Global,
    order: &Order<'_>,
    bound: Bound,
    out: &mut W,
) -> Result<Report, RunFault>
    requires gang { N ≡ gang_width order.now.code.now.gang }
    requires entry { (f : ℕ) × (g : Routine) × IsEntry order.now.code.now order.now.entry.now bound.arguments.items f g }
    requires fresh { W.has_failed out.old ≡ false }
    ensures reports { IfOk result (ReportsRun order.now.code.now order.now.entry.now
        order.now.signature.now.params.items bound.arguments.items order.now.budget) }
    ensures sends { (f : ℕ) (g : Routine) → IsExport order.now.code.now order.now.entry.now f g
        → SendsOf order.now.code.now order.now.signature.now.params.items f g bound.arguments.items order.now.budget
        (W.written out.old) (W.written out.new) (W.has_failed out.new) result }
{
    let code = order.code;
    let _code = code.code();
    let mut machine = match Machine::<N>::start(alloc, code, order.entry, bound) {
        Ok(machine) => machine,
        Err((_bound, StartFault::Memory)) => return Err(RunFault::Memory),
        Err((_bound, StartFault::NoEntry)) => unreachable!(),
    };
    let stop = stream(&mut machine, order.budget, out)?;
    let report = report(alloc, order.signature, machine, stop)?;
    write_answer(&report.answer, out)?;
    Ok(report)
}

// The same for the gang that the code is for.
fn run_for_gang<W: Sink>(
    alloc: Global,
    order: &Order<'_>,
    bound: Bound,
    out: &mut W,
) -> Result<Report, RunFault>
    requires entry { (f : ℕ) × (g : Routine) × IsEntry order.now.code.now order.now.entry.now bound.arguments.items f g }
    requires fresh { W.has_failed out.old ≡ false }
    ensures reports { IfOk result (ReportsRun order.now.code.now order.now.entry.now
        order.now.signature.now.params.items bound.arguments.items order.now.budget) }
    ensures sends { (f : ℕ) (g : Routine) → IsExport order.now.code.now order.now.entry.now f g
        → SendsOf order.now.code.now order.now.signature.now.params.items f g bound.arguments.items order.now.budget
        (W.written out.old) (W.written out.new) (W.has_failed out.new) result }
{
    match order.code.gang() {
        Gang::W4 => run::<4, W>(alloc, order, bound, out),
        Gang::W8 => run::<8, W>(alloc, order, bound, out),
        Gang::W16 => run::<16, W>(alloc, order, bound, out),
        Gang::W32 => run::<32, W>(alloc, order, bound, out),
    }
}

/// Runs an exported function of a compiled program from arguments in JSON, for at most `budget` instructions, and
/// reports how the run stands then.
///
/// 50 NoEntry where no exported function has the name, then 70 to 76 as `bind` answers them (docs/ARGUMENTS.md).
/// 0: memory was refused. It never answers 81.
pub fn execute(
    alloc: Global,
    image: &Image,
    entry: &str,
    json: &str,
    budget: u64,
) -> Result<Report, RunFault>
    ensures machine { Executes image.now entry.now json.now budget result }
    // For each text of which the image is a compilation, this is what the program of that text means.
    ensures means { (gang : Gang) (text : List ℕ) (compiled : IsCompilation gang text image.now)
        → Means compiled.program entry.now json.now budget result }
{
    run_to(alloc, image, entry, json, budget, &mut Nowhere)
}

/// Runs as `execute` does, and writes to `out` while the program runs: its output, and where the run ended the answer
/// and a line feed after it. What is new of the output goes out after each 4,096 instructions and at the stop.
///
/// 50 and 70 to 76 as `execute` answers them; then nothing goes out. 81 WriteFailed where a write of `out` failed or took
/// no byte, which ends the run; it comes exactly where `out.failed()` became true. 0: memory was refused. After 81 and
/// after 0 the beginning of what some budget up to this one sends has gone out.
pub fn run_to<W: Sink>(
    alloc: Global,
    image: &Image,
    entry: &str,
    json: &str,
    budget: u64,
    out: &mut W,
) -> Result<Report, RunFault>
    requires { W.has_failed out.old ≡ false }
    ensures machine { result ≢ Err RunFault.WriteFailed → Executes image.now entry.now json.now budget result }
    // For each text of which the image is a compilation, this is what the program of that text means.
    ensures means { result ≢ Err RunFault.WriteFailed → (gang : Gang) (text : List ℕ) (compiled : IsCompilation gang text image.now)
        → Means compiled.program entry.now json.now budget result }
    ensures sends { Sends image.now entry.now json.now budget (W.written out.old) (W.written out.new) (W.has_failed out.new) result }
{
    let code = image.verified();
    let _code = code.code();
    let Some(signature) = code.signature(entry) else {
        return Err(RunFault::NoEntry);
    };
    let bound = bind(alloc, signature, json)?;
    let order = Order {
        code,
        entry,
        signature,
        budget,
    };
    run_for_gang(alloc, &order, bound, out)
}
