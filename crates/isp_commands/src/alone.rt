//! An entry of a source is run by each instance of a gang alone.
ghost use Rattle.std.specs.Prelude.{◌≡◌, ◌≢◌, false, string_bytes, Ok, Err, IfOk, IfErr};
ghost use Rattle.isp_typed.specs.Views.{program_of};
ghost use Rattle.isp_commands.specs.Solos.{IsTold, IsUnanswered, SoloEnds, SoloFails, Soloed, Tells, name_at};
ghost use Rattle.isp_engine.specs.declared.failure.Failure.TheVariants.{Memory};

use isp_base::Signature;
use isp_bind::{answer, bind};
use isp_command_line::SoloRequest;
use isp_engine::{Failure, SourceFiles, read_file, write_text};
use isp_front::front;
use isp_output::Sink;
use isp_rates::Checked;
use isp_runs::RunFault;
use isp_solo::{SoloReport, one_by_one};
use std::alloc::{AllocError, Global};

/// Writes the answer of an entry whose instances all end, and touch nothing that another writes, each run alone.
pub(crate) fn solo<'a, F: SourceFiles, O: Sink>(
    alloc: Global,
    request: &SoloRequest<'a>,
    files: &F,
    out: &mut O,
) -> Result<(), Failure<'a>>
    requires { O.has_failed out.old ≡ false }
    ensures { SoloEnds (F.holds files.now) request.now (O.written out.old) (O.written out.new) (O.has_failed out.new) result }
{
    let text = answered(alloc, request, files)?;
    write_text(text.as_str(), out)
}

// The answer and a line feed.
fn answered<'a, F: SourceFiles>(
    alloc: Global,
    request: &SoloRequest<'a>,
    files: &F,
) -> Result<String, Failure<'a>>
    ensures ok { IfOk result (λ s. Soloed (F.holds files.now) request.now (string_bytes s)) }
    ensures err { IfErr result (SoloFails (F.holds files.now) request.now) }
{
    let source = read_file(alloc, files, request.source)?;
    let json = read_file(alloc, files, request.arguments)?;
    let checked = front(alloc, source.as_str(), request.gang)?;
    entered(alloc, &checked, request.entry, json.as_str(), request.turns)
}

// The same of an entry of a program, from the text of its arguments.
fn entered(
    alloc: Global,
    checked: &Checked,
    entry: &str,
    json: &str,
    turns: u64,
) -> Result<String, Failure<'static>>
    ensures ok { IfOk result (λ s. IsTold (program_of checked.now) entry.now json.now turns (Ok (string_bytes s))) }
    ensures err { IfErr result (IsUnanswered (program_of checked.now) entry.now json.now turns) }
{
    let Some(signature) = checked.signature(entry) else {
        return Err(Failure::Run(RunFault::NoEntry));
    };
    let bound = bind(alloc, signature, json)?;
    let report = one_by_one(alloc, checked, entry, &bound, turns)?;
    told(alloc, signature, report)
}

// What is told of a report.
fn told(
    alloc: Global,
    signature: &Signature,
    report: SoloReport,
) -> Result<String, Failure<'static>>
    ensures ok { IfOk result (λ s. Tells signature.now.params.items report (Ok (string_bytes s))) }
    ensures err { IfErr result (λ f. f ≢ Memory → Tells signature.now.params.items report (Err f)) }
{
    match report {
        SoloReport::Trapped(trap) => Err(Failure::Trapped(trap)),
        SoloReport::Cut(instance) => Err(Failure::TurnsUsed(instance)),
        SoloReport::Clash { parameter, element } => Err(Failure::NotApart {
            name: name_of(alloc, signature, parameter)?,
            element,
        }),
        SoloReport::Ended { arrays, result } => {
            let mut text = answer(alloc, signature, arrays.as_slice(), result)?;
            text.push_str("\n")?;
            Ok(text)
        }
    }
}

// The name of a parameter.
fn name_of(alloc: Global, signature: &Signature, parameter: usize) -> Result<String, AllocError>
    ensures { IfOk result (λ s. string_bytes s ≡ name_at signature.now.params.items parameter) }
{
    match signature.params.get(parameter) {
        Some(parameter) => String::from_str(alloc, parameter.name.as_str()),
        None => Ok(String::new(alloc)),
    }
}
