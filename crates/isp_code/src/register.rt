//! Registers, and the list of those that a call passes.
ghost use Rattle.std.specs.Prelude.{◌≡◌};

use smallvec::SmallVec;
use std::marker::Model;

/// What a register holds: one value, a value in each lane, a set of lanes, or an array.
#[derive(Clone, Copy, PartialEq, Eq)]
pub enum Class {
    Scalar,
    Vector,
    Mask,
    Array,
}

/// A register of a function: its class, and its number from 0 among those of its class.
#[derive(Clone, Copy)]
pub struct Register {
    pub class: Class,
    pub number: u32,
}

impl Register {
    /// A scalar register.
    pub fn scalar(number: u32) -> Register
        ensures { result ≡ record { class = Class.Scalar; number = number } }
    {
        Register {
            class: Class::Scalar,
            number,
        }
    }

    /// A vector register.
    pub fn vector(number: u32) -> Register
        ensures { result ≡ record { class = Class.Vector; number = number } }
    {
        Register {
            class: Class::Vector,
            number,
        }
    }

    /// A mask register.
    pub fn mask(number: u32) -> Register
        ensures { result ≡ record { class = Class.Mask; number = number } }
    {
        Register {
            class: Class::Mask,
            number,
        }
    }

    /// An array register.
    pub fn array(number: u32) -> Register
        ensures { result ≡ record { class = Class.Array; number = number } }
    {
        Register {
            class: Class::Array,
            number,
        }
    }
}

impl Default for Register {
    /// The first scalar register, which fills places of a list that are not used.
    fn default() -> Register {
        Register::scalar(0)
    }
}

/// The registers that a call passes, in the order of the parameters. Contracts see the list.
#[derive(Drop)]
pub struct Arguments {
    registers: SmallVec<Register, 4>,
}

impl Model for Arguments {
    ghost use Rattle.std.specs.Prelude.{List};
    ghost use Rattle.isp_code.specs.declared.register.Register.{Register};

    ghost Value = { List Register };

    ghost view = { λ a. a.registers.items };
}

impl Arguments {
    /// The arguments that the list has.
    pub fn new(registers: SmallVec<Register, 4>) -> Arguments
        ensures { result ≡ registers.items }
    {
        Arguments { registers }
    }

    /// The registers, in order.
    pub fn as_slice(&self) -> &[Register]
        ensures { result.now ≡ self.now }
    {
        self.registers.as_slice()
    }
}
