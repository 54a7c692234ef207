//! The words of `ispx run`, before a file is read.
ghost use Rattle.std.specs.Prelude.{IfSome};
ghost use Rattle.isp_run_stops.specs.Stopping.{IsBadWord, IsSlip, IsUnfit};

use crate::stop::{RunStop, Slip};
use isp_run_words::{Format, RunWords, Value, read_output, read_value};

/// The first word that is none of a run, with what is wrong with it: of the values in their order, then of the outputs.
pub fn bad_word<'a>(request: &RunWords<'a>) -> Option<RunStop<'a>>
    ensures { IfSome result (IsBadWord request.now) }
{
    match bad_value(request) {
        Some(stop) => Some(stop),
        None => bad_output(request),
    }
}

fn bad_value<'a>(request: &RunWords<'a>) -> Option<RunStop<'a>>
    ensures { IfSome result (IsBadWord request.now) }
{
    for word in &request.values {
        if let Some(slip) = slip_of_value(request, *word) {
            return Some(RunStop::BadWord { word: *word, slip });
        }
    }
    None
}

fn bad_output<'a>(request: &RunWords<'a>) -> Option<RunStop<'a>>
    ensures { IfSome result (IsBadWord request.now) }
{
    let mut number = 0usize;
    for word in &request.outputs {
        if let Some(slip) = slip_of_output(request, *word, number) {
            return Some(RunStop::BadWord { word: *word, slip });
        }
        number = number.saturating_add(1);
    }
    None
}

fn slip_of_value(request: &RunWords<'_>, word: &str) -> Option<Slip>
    ensures { IfSome result (IsSlip request.now word.now) }
{
    match read_value(word) {
        None => Some(Slip::NoName),
        Some((None, value)) => slip_of_whole(request, value),
        Some((Some(_name), Value::File(_file, None))) => Some(Slip::NoFormat),
        Some((Some(_name), Value::Zeros(None))) => Some(Slip::NoLength),
        Some((Some(_name), _value)) => None,
    }
}

// Of a word without a name.
fn slip_of_whole(request: &RunWords<'_>, value: Value<'_>) -> Option<Slip>
    ensures { IfSome result (IsUnfit request.now value.entry) }
{
    match value {
        Value::File(_, Some(Format::Json)) | Value::Input => {
            if request.values.len() > 1 {
                Some(Slip::NotAlone)
            } else {
                None
            }
        }
        _ => Some(Slip::NoObject),
    }
}

// Of output `number`.
fn slip_of_output(request: &RunWords<'_>, word: &str, number: usize) -> Option<Slip>
    ensures { IfSome result (IsSlip request.now word.now) }
{
    match read_output(word) {
        None => Some(Slip::NoEquals),
        Some((_name, _file, None)) => Some(Slip::NoFormat),
        Some((_name, file, Some(_format))) => {
            if goes_before(request, file, number) {
                Some(Slip::SameFile)
            } else {
                None
            }
        }
    }
}

// Whether an output before goes to this file.
fn goes_before(request: &RunWords<'_>, file: &str, number: usize) -> bool {
    let before = request.outputs.iter().take(number);
    for other in before {
        if is_output_to(*other, file) {
            return true;
        }
    }
    false
}

fn is_output_to(word: &str, file: &str) -> bool {
    match read_output(word) {
        Some((_name, other, _format)) => other == file,
        None => false,
    }
}
