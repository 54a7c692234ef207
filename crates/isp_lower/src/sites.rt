//! Where code works, and what it works on.
ghost use Rattle.std.specs.Prelude.{◌≡◌, ◌<◌, ◌+◌};

use isp_base::{BinOp, Elem, Span, Ty};
use isp_code::{JumpTest, Register};
use isp_registers::{MaskNumber, RegisterNumber, Slot};
use isp_typed::ArrayVariable;

/// Where the code of an expression or an assignment works: for the lanes of a mask, in the slots from one on.
#[derive(Clone, Copy)]
pub struct Site {
    pub mask: MaskNumber,
    pub slot: Slot,
}

impl Site {
    /// For the same lanes, one slot on.
    pub(crate) fn next(self) -> Site
        requires { self.slot.number + 1 < 4294967296 }
        ensures { result ≡ record { mask = self.mask; slot = record { number = self.slot.number + 1 } } }
    {
        Site {
            mask: self.mask,
            slot: self.slot.next(),
        }
    }

    /// For the lanes of this slot's mask, one slot on.
    pub(crate) fn under(self) -> Site
        requires { self.slot.number + 1 < 4294967296 }
        ensures { result ≡ record { mask = record { number = self.slot.number }; slot = record { number = self.slot.number + 1 } } }
    {
        Site {
            mask: self.slot.mask(),
            slot: self.slot.next(),
        }
    }
}

/// A register that gets the value of a part of a program: the value's type, where the part stands in the source, and where
/// its code works.
#[derive(Clone, Copy)]
pub(crate) struct Target {
    pub to: RegisterNumber,
    pub ty: Ty,
    pub span: Span,
    pub site: Site,
}

impl Target {
    pub(crate) fn new(to: RegisterNumber, ty: Ty, span: Span, site: Site) -> Target
        ensures { result ≡ record { to = to; ty = ty; span = span; site = site } }
    {
        Target { to, ty, span, site }
    }
}

/// A value of a type in a register.
#[derive(Clone, Copy)]
pub(crate) struct Held {
    pub from: RegisterNumber,
    pub ty: Ty,
}

/// An operator on two values, the element type in which it works, and where it stands in the source.
#[derive(Clone, Copy)]
pub(crate) struct Operation {
    pub operator: BinOp,
    pub elem: Elem,
    pub span: Span,
}

/// A variable that is read and written.
#[derive(Clone, Copy)]
pub(crate) struct Home {
    pub number: usize,
    pub ty: Ty,
    pub span: Span,
}

/// An element of an array, its index in a register; in a run of elements it is that of lane 0.
#[derive(Clone, Copy)]
pub(crate) struct Element {
    pub array: ArrayVariable,
    pub is_run: bool,
    pub index: RegisterNumber,
    pub ty: Ty,
    pub span: Span,
}

/// A jump that is taken where a register passes a test.
#[derive(Clone, Copy)]
pub(crate) struct Skip {
    pub test: JumpTest,
    pub register: Register,
}
