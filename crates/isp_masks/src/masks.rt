//! Where the code of a statement works.
ghost use Rattle.std.specs.Prelude.{◌≡◌, ◌<◌, ◌+◌};
ghost use Rattle.isp_masks.specs.AtWork.{own_spot};

use isp_lower::Site;
use isp_registers::{MaskNumber, Slot};

/// The masks that go with a statement: the lanes that run it, and afterwards went on; those that continued; and those that
/// returned.
#[derive(Clone, Copy)]
pub(crate) struct Masks {
    pub on: MaskNumber,
    pub continued: MaskNumber,
    pub returned: MaskNumber,
}

/// The masks of a statement, and the first slot that is free for it.
#[derive(Clone, Copy)]
pub(crate) struct Spot {
    pub masks: Masks,
    pub slot: Slot,
}

impl Spot {
    /// Of a body that runs under masks of its own, those of three slots from one on.
    pub(crate) fn own(slot: Slot) -> Spot
        requires { slot.number + 3 < 4294967296 }
        ensures { result ≡ own_spot slot.number }
    {
        Spot {
            masks: Masks {
                on: slot.mask(),
                continued: slot.next().mask(),
                returned: slot.plus(2).mask(),
            },
            slot: slot.plus(3),
        }
    }

    /// Where its expressions work: for the lanes that run it.
    pub(crate) fn site(self) -> Site
        ensures { result ≡ record { mask = self.masks.on; slot = self.slot } }
    {
        Site {
            mask: self.masks.on,
            slot: self.slot,
        }
    }
}
