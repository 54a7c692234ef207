//! What the table of instructions asks of an operand.
use crate::register::Register;
use isp_base::Elem;

/// The element type that a register is to have.
#[derive(Clone, Copy)]
pub enum Want {
    /// Any type.
    Any,
    /// This type.
    Is(Elem),
    /// A type of whole numbers: any but `bool`.
    Integer,
    /// A type of whole numbers of 32 bits.
    Word32,
    /// A type that a sum has.
    Sum,
    /// The type of this register.
    Like(Register),
    /// A type of whole numbers whose sums have the type of this register.
    Widens(Register),
}

/// The arrays that may stand at a place: all; those that all lanes share; those that the function has opened.
#[derive(Clone, Copy)]
pub enum ArrayWant {
    Any,
    Shared,
    Local,
}

/// One operand of an instruction: what stands there, and what it is to be.
#[derive(Clone, Copy)]
pub enum Operand {
    /// A register of any class.
    Any(Register),
    /// A scalar register.
    Scalar(Register, Want),
    /// A vector register.
    Vector(Register, Want),
    /// A mask register.
    Mask(Register),
    /// An array.
    Array(Register, ArrayWant, Want),
    /// A value of the type of a register.
    Number(i128, Register),
    /// A place.
    Place(u32),
    /// A text.
    Text(u32),
    /// An instruction to jump to.
    Target(u32),
    /// What the function gives back.
    Back(Option<Register>),
}
