//! The trap of one index that all lanes share.
ghost use Rattle.std.specs.Prelude.{◌≡◌};
ghost use Rattle.isp_base.specs.Sets.{flag_of};
ghost use Rattle.isp_store.specs.Held.{named};

use isp_cells::IndexTrap;
use isp_lanes::LaneMask;

// It names the lowest lane of the mask, or lane 0.
pub(crate) fn trap_under<const N: usize>(mask: &LaneMask<N>) -> IndexTrap
    ensures { result.instance ≡ named N (flag_of mask.now) }
{
    mask.told();
    IndexTrap {
        instance: mask.first(),
    }
}
