//! Sets of instances.
ghost use Rattle.std.specs.Prelude.{◌≡◌, ◌<◌, ◌≤◌, Some};
ghost use Rattle.isp_base.specs.Cross.{rank};
ghost use Rattle.isp_base.specs.Sets.{any, everyone, flag_of, lone, lowest, nobody, union, without};
ghost use Rattle.isp_base.specs.Types.{gang_width, widest};

use isp_base::Gang;

/// The number of instances of the widest gang.
pub const WIDEST: usize = 32;

/// The instances of a set.
pub type Active = [bool; WIDEST];

/// No instance.
#[tactic(auto, using(crate::proofs::Masks::nobody_made))]
pub fn nobody() -> Active
    ensures { flag_of result ≡ nobody }
{
    [false; WIDEST]
}

/// All instances of a gang.
#[tactic(auto, using(crate::proofs::Masks::everyone_made))]
pub fn everyone(gang: Gang) -> Active
    ensures { flag_of result ≡ everyone (gang_width gang) }
{
    let mut set = [false; WIDEST];
    for instance in 0..gang.width() {
        set[instance] = true;
    }
    set
}

/// One instance.
#[tactic(auto, using(crate::proofs::Masks::alone_made))]
pub fn alone(instance: usize) -> Active
    requires { instance < widest }
    ensures { flag_of result ≡ lone (Some instance) }
{
    let mut set = [false; WIDEST];
    set[instance] = true;
    set
}

/// The members of either.
#[tactic(auto, using(crate::proofs::Masks::union_made))]
pub fn union(first: &Active, second: &Active) -> Active
    ensures { flag_of result ≡ union (flag_of first.now) (flag_of second.now) }
{
    let mut set = [false; WIDEST];
    for instance in 0..WIDEST {
        set[instance] = first[instance] || second[instance];
    }
    set
}

/// The members of the first that are not in the second.
#[tactic(auto, using(crate::proofs::Masks::without_made))]
pub fn without(first: &Active, second: &Active) -> Active
    ensures { flag_of result ≡ without (flag_of first.now) (flag_of second.now) }
{
    let mut set = [false; WIDEST];
    for instance in 0..WIDEST {
        set[instance] = first[instance] && !second[instance];
    }
    set
}

/// The lowest instance of a set.
#[tactic(auto, using(crate::proofs::Masks::lowest_is))]
pub fn lowest(gang: Gang, set: &Active) -> Option<usize>
    ensures { result ≡ lowest (gang_width gang) (flag_of set.now) }
{
    for instance in 0..gang.width() {
        if set[instance] {
            return Some(instance);
        }
    }
    None
}

/// Whether an instance is in a set.
pub fn any(gang: Gang, set: &Active) -> bool
    ensures { result ≡ any (gang_width gang) (flag_of set.now) }
{
    lowest(gang, set).is_some()
}

/// How many instances below one are in a set.
pub fn rank(set: &Active, instance: usize) -> usize
    requires { instance ≤ widest }
    ensures value { result ≡ rank (flag_of set.now) instance }
    ensures low { result ≤ instance }
{
    let mut count = 0;
    for lower in 0..instance {
        if set[lower] {
            count += 1;
        }
    }
    count
}
