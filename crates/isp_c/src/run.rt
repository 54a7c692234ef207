//! Code is run over bytes.
ghost use Rattle.std.specs.Prelude.{◌≡◌, ◌≢◌, ◌≤◌, ℕ, List, IfErr, IfOk, None, length};
ghost use Rattle.isp_base.specs.declared.types.Gang.{Gang};
ghost use Rattle.isp_code.specs.Entries.{IsEntry};
ghost use Rattle.isp_code.specs.Listing.{Routine};
ghost use Rattle.isp_runs.specs.BoundReports.{MeansBound, RunsBound};
ghost use Rattle.isp_runs.specs.Compilation.{IsCompilation};
ghost use Rattle.isp_runs.specs.Loading.{IsLoaded};
ghost use Rattle.isp_engine.specs.declared.failure.Failure.TheVariants.{Memory};
ghost use Rattle.isp_machine.specs.declared.stop.Stop.TheVariants.{Memory as StopMemory};
ghost use Rattle.isp_packed.specs.Packing.{packed_answer};
ghost use Rattle.isp_reports.specs.Refusals.{no_entry};
ghost use Rattle.isp_c_laws.specs.Running.{Binds, Delivers, NoBound, NoCode, NoLoad, NoRun, RunOf, Runs, Stops, answered, returned_bits};
ghost use Rattle.isp_reports.specs.declared.refusal.Refusal.TheVariants.{Failed};

use crate::texts::Text;
use isp_base::{Bound, Value, low_bits};
use isp_engine::{
    BoundReport, CodeFault, Failure, Image, RunFault, StartFault, Stop, execute_bound, load_code,
};
use isp_packed::{pack, packed_laws, unpack};
use isp_reports::{Refusal, Report, done, put, refuse};
use std::alloc::Global;

/// What is run of some code: an exported function, for so many instructions at most.
#[derive(Clone, Copy)]
#[repr(C)]
pub struct Job<'a> {
    pub entry: Text<'a>,
    pub budget: u64,
}

/// Reads code text, runs the entry from the arguments that `packed` holds, and writes the arrays over them.
///
/// `packed` holds the arguments as `isp_packed` defines them: for each parameter in turn, the little end first and nothing
/// between, a value in 8 bytes, zero above its width, or an array as 8 bytes with the number of its elements and then the
/// elements, each in as many bytes as its type has. After the run it begins with the arrays in the same form, one after
/// the other, and the bytes after them stay. What `print` wrote is at the front of `output`, its length in `report.used`,
/// and the bytes after it stay. The result is the status:
///
/// - 0: the run ended. `report.result` has what it returned.
/// - 3: it trapped: kind, place and instance. The arrays are as they were then.
/// - 4: the budget is used up. The arguments stay, so the call can be made again with a greater one.
/// - 5: 50 no function is exported under this name; 72 the bytes end before this parameter does; 73 there are bytes after
///   the last one; 75 this element of this parameter is no value of its type; 76 this array has more than 2^63 - 1
///   elements.
/// - 6: the code text is no UTF-8.
/// - 7: memory was refused.
/// - 8: the code is refused: 60 to 63 with the line, 40 to 45 with the function and the instruction.
/// - 10: `output` has fewer bytes than were written, which are as many as `report.used` says.
///
/// With 5 to 10 `packed` and `output` stay as they were, and `report.used` is 0 but with 10. With 3 and 4 `output` and
/// `report.used` tell what was written until then.
#[unsafe(no_mangle)]
pub extern "C" fn isp_run(
    alloc: Global,
    code: &[u8],
    job: &Job<'_>,
    packed: &mut [u8],
    output: &mut [u8],
    report: &mut Report,
) -> u8
    ensures { Runs code.now job.now.entry.bytes.now job.now.budget packed.old packed.new output.old output.new report.new result }
{
    match ran(alloc, code, job, packed) {
        Ok(ran) => deliver(&ran, packed, output, report),
        Err(refusal) => refuse(&refusal, 0, report),
    }
}

// The run that the code text, the entry and the bytes give.
fn ran(
    alloc: Global,
    code: &[u8],
    job: &Job<'_>,
    packed: &[u8],
) -> Result<BoundReport, Refusal<'static>>
    ensures ok { IfOk result (RunOf code.now job.now.entry.bytes.now packed.now job.now.budget) }
    ensures fits { IfOk result (λ r. length (packed_answer r.arrays.items None) ≤ length packed.now) }
    ensures err { IfErr result (NoRun code.now job.now.entry.bytes.now packed.now) }
{
    let Ok(text) = std::str::from_utf8(code) else {
        return Err(Refusal::Failed(Failure::CannotRead("code")));
    };
    let image = loaded(alloc, text)?;
    let Ok(entry) = std::str::from_utf8(job.entry.bytes) else {
        return Err(no_entry());
    };
    let bound = bound(alloc, &image, entry, packed)?;
    packed_laws();
    executed(alloc, &image, entry, bound, job.budget)
}

pub(crate) fn no_entry() -> Refusal<'static>
    ensures { result ≡ no_entry }
{
    Refusal::Failed(Failure::Run(RunFault::NoEntry))
}

// The code that bytes give.
pub(crate) fn coded(alloc: Global, code: &[u8]) -> Result<Image, Refusal<'static>>
    ensures ok { IfOk result (IsLoaded code.now) }
    ensures err { IfErr result (NoCode code.now) }
{
    match std::str::from_utf8(code) {
        Ok(text) => loaded(alloc, text),
        Err(_) => Err(Refusal::Failed(Failure::CannotRead("code"))),
    }
}

pub(crate) fn loaded(alloc: Global, text: &str) -> Result<Image, Refusal<'static>>
    ensures ok { IfOk result (IsLoaded text.now) }
    ensures err { IfErr result (NoLoad text.now) }
{
    match load_code(alloc, text) {
        Ok(image) => Ok(image),
        Err(CodeFault::Memory) => Err(Refusal::Failed(Failure::Memory)),
        Err(fault) => Err(Refusal::Failed(Failure::Code(fault))),
    }
}

// The arguments that the bytes hold for an entry.
pub(crate) fn bound(
    alloc: Global,
    image: &Image,
    entry: &str,
    packed: &[u8],
) -> Result<Bound, Refusal<'static>>
    ensures ok { IfOk result (λ b. Binds image.now entry.now packed.now b.arguments.items) }
    ensures err { IfErr result (NoBound image.now entry.now packed.now) }
{
    let Some(signature) = image.verified().signature(entry) else {
        return Err(no_entry());
    };
    match unpack(alloc, signature, packed) {
        Ok(bound) => Ok(bound),
        Err(fault) => Err(Refusal::from(fault)),
    }
}

fn executed(
    alloc: Global,
    image: &Image,
    entry: &str,
    bound: Bound,
    budget: u64,
) -> Result<BoundReport, Refusal<'static>>
    requires { (f : ℕ) × (g : Routine) × IsEntry image.now entry.now bound.arguments.items f g }
    ensures machine { IfOk result (RunsBound image.now entry.now bound.arguments.items budget) }
    ensures means { IfOk result (λ r. (gang : Gang) (text : List ℕ) (compiled : IsCompilation gang text image.now)
        → MeansBound compiled.program entry.now bound.arguments.items budget r) }
    ensures err { IfErr result (λ e. e ≡ Failed Memory) }
{
    match execute_bound(alloc, image, entry, bound, budget) {
        Ok(ran) => Ok(ran),
        Err((_bound, StartFault::Memory)) => Err(Refusal::Failed(Failure::Memory)),
        Err((_bound, StartFault::NoEntry)) => unreachable!(),
    }
}

// Writes what a run gives, and how it ended.
fn deliver(ran: &BoundReport, packed: &mut [u8], output: &mut [u8], report: &mut Report) -> u8
    requires { length (packed_answer ran.now.arrays.items None) ≤ length packed.old }
    ensures { Delivers ran.now packed.old packed.new output.old output.new report.new result }
{
    if let Stop::Memory = ran.stop {
        return refuse(&Refusal::Failed(Failure::Memory), 0, report);
    }
    if !put(ran.output.as_slice(), output) {
        return refuse(&Refusal::Short, ran.output.len(), report);
    }
    stopped(ran, packed, report)
}

// Writes the arrays of a run that stopped, and says how it did.
fn stopped(ran: &BoundReport, packed: &mut [u8], report: &mut Report) -> u8
    requires fits { length (packed_answer ran.now.arrays.items None) ≤ length packed.old }
    requires went { ran.now.stop ≢ StopMemory }
    ensures { Stops ran.now.stop ran.now packed.old packed.new report.new result }
{
    let used = ran.output.len();
    match ran.stop {
        Stop::Ended => {
            put_arrays(ran, packed);
            done(used, bits_of(ran.result), report)
        }
        Stop::Trapped(trap) => {
            put_arrays(ran, packed);
            refuse(&Refusal::Failed(Failure::Trapped(trap)), used, report)
        }
        Stop::Running => refuse(&Refusal::Failed(Failure::BudgetUsed), used, report),
        Stop::Memory => unreachable!(),
    }
}

// The arrays stand where the arguments stood, and take no more room.
fn put_arrays(ran: &BoundReport, packed: &mut [u8])
    requires { length (packed_answer ran.now.arrays.items None) ≤ length packed.old }
    ensures { packed.new ≡ answered ran.now packed.old }
{
    let _written = pack(ran.arrays.as_slice(), None, packed);
}

fn bits_of(returned: Option<Value>) -> u64
    ensures { result ≡ returned_bits returned }
{
    match returned {
        Some(value) => low_bits(value.elem, value.bits),
        None => 0,
    }
}
