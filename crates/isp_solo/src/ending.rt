//! The report where all instances have ended.
ghost use Rattle.std.specs.Prelude.{◌≡◌, ◌<◌, ℕ, List};
ghost use Rattle.isp_base.specs.Rows.{Row};
ghost use Rattle.isp_meaning.specs.Payloads.{One};
ghost use Rattle.isp_meaning.specs.Runs.{answer_as};
ghost use Rattle.isp_solo_meaning.specs.Answers.{Answer};
ghost use Rattle.isp_solo.specs.Left.{rows_left};
ghost use Rattle.isp_solo.specs.Places.{array_place, passed};
ghost use Rattle.isp_solo.specs.Report.{Says};
ghost use Rattle.isp_solo.specs.Together.{AreTogether};

use crate::report::SoloReport;
use crate::together::Together;
use crate::touched::first_of;
use isp_base::{Argument, Elem, Value};

/// What all instances of a gang come to.
pub fn ended(together: Together, arguments: &[Argument], gives: Option<Elem>) -> SoloReport
    ensures { (gang : ℕ) (run : ℕ → Answer ℕ) (rs : List Row) → 0 < gang → AreTogether run rs gang together
        → Says gang run arguments.now (rows_left run rs gang) gives result }
{
    match first_of(together.touched.as_slice()) {
        Some((store, element)) => SoloReport::Clash {
            parameter: place_of(arguments, store),
            element,
        },
        None => SoloReport::Ended {
            arrays: together.arrays,
            result: answer(gives, together.given),
        },
    }
}

// The value that a function gives.
fn answer(elem: Option<Elem>, bits: u64) -> Option<Value>
    ensures { result ≡ answer_as elem (One bits) }
{
    match elem {
        Some(elem) => Some(Value { elem, bits }),
        None => None,
    }
}

// Which argument an array among them is.
fn place_of(arguments: &[Argument], store: usize) -> usize
    ensures { result ≡ array_place arguments.now store }
{
    let mut left = store;
    for place in 0..arguments.len() {
        match pass(&arguments[place], left) {
            Some(fewer) => left = fewer,
            None => return place,
        }
    }
    arguments.len()
}

// How many arrays are left to be passed after an argument; None where it is the array itself.
fn pass(argument: &Argument, left: usize) -> Option<usize>
    ensures { result ≡ passed argument.now left }
{
    match argument {
        Argument::Value(_) => Some(left),
        Argument::Array(_) => { if left == 0 { None } else { Some(left - 1) } }
    }
}
