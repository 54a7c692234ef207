//! Variables, by their numbers.

use isp_base::{Elem, Ty};

/// What a variable of a function holds.
#[derive(Clone, Copy)]
pub enum Holds {
    /// A value: one for the gang, or one in each instance.
    Value(Ty),
    /// A uniform array that a caller hands over, of whatever length.
    Given(Elem),
    /// A local array of so many elements: one for the gang, or one in each instance.
    Local(Ty, usize),
}

/// A variable of a function. Its number is its place among the function's variables, which are
/// numbered in the order of the text, the parameters first.
#[derive(Clone, Copy)]
pub struct Variable {
    pub holds: Holds,
    /// Nothing is assigned to it: it was declared `const`, or is the index of a `foreach`.
    pub constant: bool,
}

/// An array where it is used: the number of the variable, the type of its elements, and whether it
/// is constant. A uniform one is one array for the gang; of a varying one each instance has its own.
#[derive(Clone, Copy)]
pub struct ArrayVariable {
    pub number: usize,
    pub ty: Ty,
    pub constant: bool,
}

/// `&&` or `||`.
#[derive(Clone, Copy)]
pub enum Logic {
    And,
    Or,
}
