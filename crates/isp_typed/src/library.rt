//! The library's functions that take values and give one.
ghost use Rattle.std.specs.Prelude.{◌≡◌};
ghost use Rattle.isp_typed.specs.Library.{asks_uniform, library_type, part_elem, parts};

use isp_base::{Elem, Rate, Ty, widened};

/// A function of the library on values. Each has one element type, which its first value has (of
/// `Select` the second), and what the others are converted to is said beside it.
#[derive(Clone, Copy)]
pub enum Library {
    /// The sum over the active instances, of a wider type.
    ReduceAdd,
    ReduceMin,
    ReduceMax,
    /// Whether all active instances have one value.
    ReduceEqual,
    /// Of `bool`, as the next two.
    Any,
    All,
    None,
    /// The combination over the lower active instances.
    ScanAdd,
    ScanAnd,
    ScanOr,
    /// A value and an int32, as the next two.
    Broadcast,
    Rotate,
    Shift,
    /// A value and an int32 in each instance.
    Shuffle,
    /// Two values of the type and an int32 in each instance.
    ShuffleTwo,
    /// A value and an int32.
    Extract,
    /// A value, an int32 and a value of the type.
    Insert,
    /// By instance, of values of one type, as the next two.
    Min,
    Max,
    Clamp,
    /// By instance.
    Abs,
    /// A `bool` and two values of one type, by instance.
    Select,
}

/// What a call of the library takes in one place.
#[derive(Clone, Copy)]
pub enum Part {
    /// A value whose type takes part in the call's element type, and is converted to it.
    Own,
    /// A uniform value that is converted to the call's element type.
    Same,
    /// A uniform int32.
    Number,
    /// An int32.
    Index,
    /// A bool.
    Truth,
}

impl Part {
    /// Whether a uniform value is asked.
    pub fn asks_uniform(self) -> bool
        ensures { result ≡ asks_uniform self }
    {
        matches!(self, Part::Same | Part::Number)
    }

    /// What a value is converted to in a call that works in an element type.
    pub fn elem(self, worked: Elem) -> Elem
        ensures { result ≡ part_elem worked self }
    {
        match self {
            Part::Own | Part::Same => worked,
            Part::Number | Part::Index => Elem::I32,
            Part::Truth => Elem::Bool,
        }
    }
}

impl Library {
    /// What the function takes, in order.
    pub fn parts(self) -> &'static [Part]
        ensures { result.now ≡ parts self }
    {
        match self {
            Library::ReduceAdd
            | Library::ReduceMin
            | Library::ReduceMax
            | Library::ReduceEqual
            | Library::ScanAdd
            | Library::ScanAnd
            | Library::ScanOr
            | Library::Abs => &[Part::Own],
            Library::Any | Library::All | Library::None => &[Part::Truth],
            Library::Broadcast | Library::Rotate | Library::Shift | Library::Extract => &[
                Part::Own,
                Part::Number,
            ],
            Library::Shuffle => &[Part::Own, Part::Index],
            Library::ShuffleTwo => &[Part::Own, Part::Own, Part::Index],
            Library::Insert => &[Part::Own, Part::Number, Part::Same],
            Library::Min | Library::Max => &[Part::Own, Part::Own],
            Library::Clamp => &[Part::Own, Part::Own, Part::Own],
            Library::Select => &[Part::Truth, Part::Own, Part::Own],
        }
    }

    /// What a call gives that works in an element type, where `rate` is varying if a value is.
    pub fn ty(self, worked: Elem, rate: Rate) -> Ty
        ensures { result ≡ library_type self worked rate }
    {
        let (rate, elem) = match self {
            Library::ReduceAdd => (Rate::Uniform, widened(worked)),
            Library::ReduceMin | Library::ReduceMax | Library::Extract => (Rate::Uniform, worked),
            Library::ReduceEqual | Library::Any | Library::All | Library::None => (
                Rate::Uniform,
                Elem::Bool,
            ),
            Library::ScanAdd
            | Library::ScanAnd
            | Library::ScanOr
            | Library::Broadcast
            | Library::Rotate
            | Library::Shift
            | Library::Shuffle
            | Library::ShuffleTwo
            | Library::Insert => (Rate::Varying, worked),
            Library::Min | Library::Max | Library::Clamp | Library::Abs | Library::Select => (
                rate, worked,
            ),
        };
        Ty { rate, elem }
    }
}
