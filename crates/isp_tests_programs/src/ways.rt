//! The ways in which a program is run: by the evaluator, and by its code.
use crate::case::Case;
use crate::found::Found;
use isp_asm::write;
use isp_base::{Bound, Signature};
use isp_bind::{answer, bind};
use isp_engine::{
    Ending, Image, Kept, Report, compile, execute, execute_bound, front, load_code, run_to,
};
use isp_lex::SourceFault;
use isp_model::{Outcome, evaluate, work};
use isp_rates::Checked;
use std::alloc::{AllocError, Global};

/// More instructions than any program of the cases takes to its end.
const AMPLE: u64 = 10_000_000;

fn silent(alloc: Global, ending: String) -> Found {
    Found {
        ending,
        arrays: String::new(alloc),
        output: Vec::new(alloc),
    }
}

// What is told of a source: its fault, or that it has none.
fn told_fault<T: Drop>(
    alloc: Global,
    judged: Result<T, SourceFault>,
) -> Result<String, AllocError> {
    match judged {
        Ok(_) => String::from_str(alloc, "accepted"),
        Err(fault) => format!(in alloc; "{fault}"),
    }
}

/// Whether the source of a case is accepted, or its fault.
pub(crate) fn accepted(alloc: Global, case: &Case<'_>) -> Result<String, AllocError> {
    told_fault(alloc, front(alloc, case.marked.source.as_str(), case.gang))
}

/// Whether the source of a case is compiled, or its fault.
pub(crate) fn compiled(alloc: Global, case: &Case<'_>) -> Result<String, AllocError> {
    told_fault(
        alloc,
        compile(alloc, case.marked.source.as_str(), case.gang),
    )
}

/// What a case comes to by the front and the evaluator.
pub(crate) fn evaluated(alloc: Global, case: &Case<'_>) -> Result<Found, AllocError> {
    match front(alloc, case.marked.source.as_str(), case.gang) {
        Err(fault) => Ok(silent(alloc, format!(in alloc; "refused {fault}")?)),
        Ok(_) if case.entry.is_empty() => Ok(silent(alloc, String::from_str(alloc, "accepted ")?)),
        Ok(checked) => entered(alloc, case, &checked),
    }
}

fn entered(alloc: Global, case: &Case<'_>, checked: &Checked) -> Result<Found, AllocError> {
    let Some(signature) = checked.signature(case.entry) else {
        return Ok(silent(alloc, String::from_str(alloc, "no entry")?));
    };
    match bind(alloc, signature, case.arguments.as_str()) {
        Err(fault) => Ok(silent(alloc, format!(in alloc; "unbound {fault}")?)),
        Ok(bound) => run(alloc, case, checked, signature, &bound),
    }
}

fn run(
    alloc: Global,
    case: &Case<'_>,
    checked: &Checked,
    signature: &Signature,
    bound: &Bound,
) -> Result<Found, AllocError> {
    match evaluate(alloc, checked, case.entry, bound, case.turns) {
        Err(fault) => Ok(silent(alloc, format!(in alloc; "not evaluated: {fault}")?)),
        Ok(outcome) => told(alloc, signature, outcome),
    }
}

/// The work of the run of a case, where it runs.
pub(crate) fn worked(alloc: Global, case: &Case<'_>) -> Option<u64> {
    let checked = front(alloc, case.marked.source.as_str(), case.gang).ok()?;
    let signature = checked.signature(case.entry)?;
    let bound = bind(alloc, signature, case.arguments.as_str()).ok()?;
    work(alloc, &checked, case.entry, &bound, case.turns).ok()
}

fn told(alloc: Global, signature: &Signature, outcome: Outcome) -> Result<Found, AllocError> {
    match outcome {
        Outcome::Ends {
            arrays,
            result: returned,
            output,
        } => {
            let text = answer(alloc, signature, arrays.as_slice(), returned)?;
            Ok(Found {
                ending: format!(in alloc; "ends {text}")?,
                arrays: String::new(alloc),
                output,
            })
        }
        Outcome::Traps {
            trap,
            arrays,
            output,
        } => Ok(Found {
            ending: format!(in alloc; "{trap}")?,
            arrays: answer(alloc, signature, arrays.as_slice(), None)?,
            output,
        }),
        Outcome::Cut { output } => Ok(Found {
            ending: String::from_str(alloc, "cut ")?,
            arrays: String::new(alloc),
            output,
        }),
    }
}

// How many instructions the code of a case may run, if the case does not say: 32 for each unit of work, and 32, are enough for an end. A run that is
// cut goes on for as many instructions at least as a loop may make turns.
fn budget(case: &Case<'_>, wanted: &Found) -> u64 {
    if wanted.ending.as_str() == "cut " {
        return case.turns;
    }
    match (case.budget, case.work) {
        (Some(budget), _) => budget,
        (None, Some(work)) => work.saturating_mul(32).saturating_add(32),
        (None, None) => AMPLE,
    }
}

/// What the code of a case comes to by its report, or nothing where its entry or its arguments are refused.
pub(crate) fn executed(
    alloc: Global,
    case: &Case<'_>,
    image: &Image,
    wanted: &Found,
) -> Result<Option<Found>, AllocError> {
    let json = case.arguments.as_str();
    match execute(alloc, image, case.entry, json, budget(case, wanted)) {
        Err(_fault) => Ok(None),
        Ok(report) => Ok(Some(reported(alloc, report)?)),
    }
}

/// Whether what goes out while the code of a case runs is what is wanted; not where its entry or its arguments are refused.
pub(crate) fn is_sent(alloc: Global, case: &Case<'_>, image: &Image, wanted: &Found) -> bool {
    let mut out = Kept::new(alloc);
    let json = case.arguments.as_str();
    let budget = budget(case, wanted);
    let ran = run_to(alloc, image, case.entry, json, budget, &mut out);
    ran.is_ok() && wanted.sends(out.bytes.as_slice())
}

/// The arrays that the code of a case leaves, as an answer without a result; empty where its entry or its arguments are refused.
pub(crate) fn left(
    alloc: Global,
    case: &Case<'_>,
    image: &Image,
    wanted: &Found,
) -> Result<String, AllocError> {
    let Some(signature) = image.verified().signature(case.entry) else {
        return Ok(String::new(alloc));
    };
    let Ok(bound) = bind(alloc, signature, case.arguments.as_str()) else {
        return Ok(String::new(alloc));
    };
    match execute_bound(alloc, image, case.entry, bound, budget(case, wanted)) {
        Ok(report) => answer(alloc, signature, report.arrays.as_slice(), None),
        Err((_bound, _fault)) => Ok(String::new(alloc)),
    }
}

/// Whether the code of a case goes on after so many instructions, and has written nothing.
pub(crate) fn goes_on(alloc: Global, case: &Case<'_>, budget: Option<u64>) -> bool {
    let (Some(budget), Ok(image)) = (
        budget,
        compile(alloc, case.marked.source.as_str(), case.gang),
    ) else {
        return false;
    };
    execute(alloc, &image, case.entry, case.arguments.as_str(), budget).is_ok_and(|report| {
        report.ending == Ending::Running && report.answer.is_none() && report.output.is_empty()
    })
}

/// Whether the text of code is that of the code which is read from it.
pub(crate) fn is_read_back(alloc: Global, image: &Image) -> bool {
    let Ok(text) = write(alloc, image.code()) else {
        return false;
    };
    let Ok(again) = load_code(alloc, text.as_str()) else {
        return false;
    };
    write(alloc, again.code()).is_ok_and(|other| other == text)
}

/// How many lines of the text of a case's code begin with a word, and how many there are.
pub(crate) fn lines_with(alloc: Global, case: &Case<'_>, word: &str) -> Option<(u64, u64)> {
    let image = compile(alloc, case.marked.source.as_str(), case.gang).ok()?;
    let text = write(alloc, image.code()).ok()?;
    let mut found = 0u64;
    let mut lines = 0u64;
    for line in text.as_str().split('\n') {
        lines = lines.saturating_add(1);
        if line.starts_with(word) {
            found = found.saturating_add(1);
        }
    }
    Some((found, lines))
}

fn reported(alloc: Global, report: Report) -> Result<Found, AllocError> {
    let ending = match (report.ending, &report.answer) {
        (Ending::Ended, Some(text)) => format!(in alloc; "ends {text}")?,
        (Ending::Trapped(trap), None) => format!(in alloc; "{trap}")?,
        (Ending::Running, None) => String::from_str(alloc, "cut ")?,
        _ => String::from_str(alloc, "an answer without an end")?,
    };
    Ok(Found {
        ending,
        arrays: String::new(alloc),
        output: report.output,
    })
}
