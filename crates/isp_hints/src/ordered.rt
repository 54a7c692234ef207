//! Hints in the order of their places, each once.
ghost use Rattle.std.specs.Prelude.{◌≡◌, AllPairs, Contains};
ghost use Rattle.isp_hints.specs.Hints.{Before, number_of};
ghost use Rattle.isp_hints.specs.declared.hint.Hint.{Hint};

use crate::hint::{Hint, Slow};

fn number_of(slow: Slow) -> u8
    ensures { result ≡ number_of slow }
{
    match slow {
        Slow::Gathered => 0,
        Slow::Scattered => 1,
        Slow::Parted => 2,
        Slow::LeftOff => 3,
    }
}

// By what hints are in order: where their places start and end, and their kind.
fn key(hint: Hint) -> (usize, usize, u8)
    ensures { result ≡ (hint.place.start, hint.place.end, number_of hint.slow) }
{
    (hint.place.start, hint.place.end, number_of(hint.slow))
}

/// Puts hints in order, and takes out what is there twice.
pub(crate) fn put_in_order(hints: &mut Vec<Hint>)
    ensures keeps { (h : Hint) → Contains hints.old.items h → Contains hints.new.items h }
    ensures adds_none { (h : Hint) → Contains hints.new.items h → Contains hints.old.items h }
    ensures ordered { AllPairs Before hints.new.items }
{
    hints.sort_unstable_by_key(|h| key(*h));
    hints.dedup_by_key(|h| key(*h));
}
