//! How one run does by its case.
ghost use Rattle.std.specs.Prelude.{◌≡◌, IfOk, option_map};
ghost use Rattle.serde_json.specs.View.{members_view, view};
ghost use Rattle.isp_case_files.specs.Answers.{is_held};
ghost use Rattle.isp_case_files.specs.Cases.{as_wish};
ghost use Rattle.isp_case_command.specs.Testing.{IsJudged, answered, holds, is_trap};

use isp_base::TrapKind;
use isp_case_files::{Answer, Case, Verdict, Wanted, compare};
use isp_engine::{Ending, Image, Report, RunFault, execute};
use std::alloc::{AllocError, Global};

/// Runs the entry of a case, and compares what `execute` answers with what the case wants.
pub(crate) fn judge(
    alloc: Global,
    image: &Image,
    case: &Case<'_>,
    budget: u64,
) -> Result<Verdict, AllocError>
    ensures { IfOk result (IsJudged image.now case.now budget) }
{
    let entry = case.entry.as_str();
    let arguments = case.arguments.as_str();
    let answer = execute(alloc, image, entry, arguments, budget);
    let verdict = judged(alloc, &case.wanted, &answer)?;
    Ok(verdict)
}

fn judged(
    alloc: Global,
    wanted: &Wanted<'_>,
    answer: &Result<Report, RunFault>,
) -> Result<Verdict, AllocError>
    ensures { IfOk result (λ v. is_held v ≡ holds (as_wish wanted.now) answer.now) }
{
    match answer {
        Ok(report) => match wanted {
            Wanted::Answer(answer) => answered(alloc, answer, report),
            Wanted::Trap(kind) => trapped(alloc, *kind, report.ending),
        },
        Err(RunFault::Memory) => Err(AllocError),
        Err(fault) => Ok(Verdict::Differs(String::from_str(alloc, fault.text())?)),
    }
}

// Only a run that ended has an answer.
fn answered(alloc: Global, wanted: &Answer<'_>, report: &Report) -> Result<Verdict, AllocError>
    ensures { IfOk result (λ v. is_held v
        ≡ answered (members_view wanted.now.arrays.now.entries) (option_map (λ d. view d.now) wanted.now.result) report.now.answer) }
{
    match &report.answer {
        Some(text) => compare(alloc, wanted, text.as_str()),
        None => Ok(Verdict::Differs(ending_text(alloc, report.ending)?)),
    }
}

fn trapped(alloc: Global, kind: TrapKind, ending: Ending) -> Result<Verdict, AllocError>
    ensures { IfOk result (λ v. is_held v ≡ is_trap kind ending) }
{
    if is_trap(kind, ending) {
        return Ok(Verdict::Holds);
    }
    let text = ending_text(alloc, ending)?;
    Ok(Verdict::Differs(format!(in alloc; "{text}, wanted trap {kind}")?))
}

fn is_trap(kind: TrapKind, ending: Ending) -> bool
    ensures { result ≡ is_trap kind ending }
{
    match ending {
        Ending::Trapped(trap) => trap.kind == kind,
        Ending::Ended | Ending::Running => false,
    }
}

// `ended`, `trap index` or `budget used`.
fn ending_text(alloc: Global, ending: Ending) -> Result<String, AllocError> {
    match ending {
        Ending::Ended => String::from_str(alloc, "ended"),
        Ending::Trapped(trap) => format!(in alloc; "trap {}", trap.kind),
        Ending::Running => String::from_str(alloc, "budget used"),
    }
}
