//! At which rate a function of the library takes each of its values.
ghost use Rattle.std.specs.Prelude.{◌≡◌, drop};
ghost use Rattle.isp_lower_code.specs.Callees.{next_rate};
ghost use Rattle.isp_lower_code.specs.Library.{library_rates, rate_taken, works_at};

use isp_base::Rate;
use isp_typed::Library;

/// The rate at which a function works that gives a value of a rate.
fn works_at(function: Library, rate: Rate) -> Rate
    ensures { result ≡ works_at function rate }
{
    match function {
        Library::Min | Library::Max | Library::Clamp | Library::Abs | Library::Select => rate,
        Library::ReduceAdd
        | Library::ReduceMin
        | Library::ReduceMax
        | Library::ReduceEqual
        | Library::Any
        | Library::All
        | Library::None
        | Library::ScanAdd
        | Library::ScanAnd
        | Library::ScanOr
        | Library::Broadcast
        | Library::Rotate
        | Library::Shift
        | Library::Shuffle
        | Library::ShuffleTwo
        | Library::Extract
        | Library::Insert => Rate::Varying,
    }
}

/// The rate at which a value is taken: that of the work, but for one that is asked uniform.
fn rate_taken(rate: Rate, uniform: bool) -> Rate
    ensures { result ≡ rate_taken rate uniform }
{
    if uniform { Rate::Uniform } else { rate }
}

/// The rate at which a function that gives a value of a rate takes a value, by its place.
#[tactic(auto, using(crate::proofs::Walks::rate_there, crate::proofs::Walks::rate_none))]
pub fn value_rate(function: Library, rate: Rate, place: usize) -> Rate
    ensures { result ≡ next_rate (drop place (library_rates function rate)) }
{
    match function.parts().get(place) {
        Some(part) => rate_taken(works_at(function, rate), part.asks_uniform()),
        None => Rate::Varying,
    }
}
