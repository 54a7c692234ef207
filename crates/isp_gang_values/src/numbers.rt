//! The whole numbers that bits stand for.
ghost use Rattle.std.specs.Prelude.{◌≡◌, ◌^◌, pos, ◌-ℤ◌, ◌≤ℤ◌, ◌<ℤ◌};
ghost use Rattle.isp_base.specs.Values.{number};

use isp_base::{Elem, number};

/// The whole number of an int32.
pub fn int(bits: u64) -> i32
    ensures { result ≡ number Elem.I32 bits }
{
    number(Elem::I32, bits) as i32
}

/// The whole number of a value.
#[tactic(auto, using(crate::proofs::Wholes::number_low, crate::proofs::Wholes::number_high))]
pub fn whole(elem: Elem, bits: u64) -> i128
    ensures value { result ≡ number elem bits }
    ensures low { (pos 0 -ℤ pos (2 ^ 63)) ≤ℤ result }
    ensures high { result <ℤ pos (2 ^ 64) }
{
    number(elem, bits)
}
