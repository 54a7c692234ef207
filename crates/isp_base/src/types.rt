//! Element types, rates, places and gangs.
ghost use Rattle.std.specs.Prelude.{◌≡◌, ◌≢◌, ◌<◌, ◌≤◌, ◌⊎◌, None, Some, true};
ghost use Rattle.isp_base.specs.Sets.{any, everyone};
ghost use Rattle.isp_base.specs.Types.{gang_width, span_to, widest};
ghost use Rattle.isp_base.specs.Ranks.{chosen, common, operand, rank, widened};
ghost use Rattle.isp_base.specs.declared.types.Elem.{Elem};
ghost use Rattle.isp_base.specs.declared.types.Gang.{Gang};

use std::fmt;

/// An element type: `bool`, or whole numbers of 8 to 64 bits, signed (two's complement) or not.
#[derive(Clone, Copy, Debug, PartialEq, Eq)]
pub enum Elem {
    Bool,
    I8,
    U8,
    I16,
    U16,
    I32,
    U32,
    I64,
    U64,
}

/// The type to which both operands of an operator are converted, `bool` first made `int32`: the
/// later in the order of the element types.
pub fn common(x: Elem, y: Elem) -> Elem
    ensures { result ≡ common x y }
{
    let x = operand(x);
    let y = operand(y);
    if (x as u8) < (y as u8) { y } else { x }
}

/// The type with which an operand takes part in arithmetic: `bool` becomes `int32`.
pub fn operand(elem: Elem) -> Elem
    ensures { result ≡ operand elem }
{
    match elem {
        Elem::Bool => Elem::I32,
        _ => elem,
    }
}

/// The type of `?:` and of `select` over two values: `bool` if both are `bool`, else `common`.
pub fn chosen(x: Elem, y: Elem) -> Elem
    ensures { result ≡ chosen x y }
{
    match (x, y) {
        (Elem::Bool, Elem::Bool) => Elem::Bool,
        _ => common(x, y),
    }
}

/// The type of a sum of many: twice as wide, up to 64 bits, of the same sign.
pub fn widened(elem: Elem) -> Elem
    ensures { result ≡ widened elem }
{
    match elem {
        Elem::I8 => Elem::I16,
        Elem::U8 => Elem::U16,
        Elem::I16 => Elem::I32,
        Elem::U16 => Elem::U32,
        Elem::Bool | Elem::I32 | Elem::I64 => Elem::I64,
        Elem::U32 | Elem::U64 => Elem::U64,
    }
}

/// What holds of the type in which two operands meet: it is that of one of them, and comes before
/// neither in the order of the element types.
pub fn common_laws()
    ensures one { (a b : Elem) → (common a b ≡ operand a) ⊎ (common a b ≡ operand b) }
    ensures late { (a b : Elem) → (rank (operand a) ≤ rank (common a b)) × (rank (operand b) ≤ rank (common a b)) }
{}

/// Whether the gang holds one value, or each instance its own.
#[derive(Clone, Copy, Debug, PartialEq, Eq)]
pub enum Rate {
    Uniform,
    Varying,
}

/// The type of a value.
#[derive(Clone, Copy, Debug, PartialEq, Eq)]
pub struct Ty {
    pub rate: Rate,
    pub elem: Elem,
}

/// Where something stands in the source: its bytes from `start` up to `end`.
#[derive(Clone, Copy, Debug, PartialEq, Eq)]
pub struct Span {
    pub start: usize,
    pub end: usize,
}

impl fmt::Display for Span {
    ghost use Rattle.std.specs.Prelude.{Some};
    ghost use Rattle.isp_base.specs.Types.{span_text};

    ghost output = { λ s. Some (span_text s) };

    fn fmt<W: fmt::Write>(&self, f: &mut fmt::Formatter<W>) -> fmt::Result {
        write!(f, "{}..{}", self.start, self.end)
    }
}

impl Span {
    /// From the start of this one to the end of the other.
    pub fn to(self, last: Span) -> Span
        ensures { result ≡ span_to self last }
    {
        Span {
            start: self.start,
            end: last.end,
        }
    }
}

/// How many program instances run one source text.
#[derive(Clone, Copy, Debug, PartialEq, Eq)]
pub enum Gang {
    W4,
    W8,
    W16,
    W32,
}

impl Gang {
    /// The gang of so many instances, if there is one.
    pub fn of_width(width: usize) -> Option<Gang>
        ensures some { (g : Gang) → result ≡ Some g → gang_width g ≡ width }
        ensures none { result ≡ None → (g : Gang) → gang_width g ≢ width }
    {
        match width {
            4 => Some(Gang::W4),
            8 => Some(Gang::W8),
            16 => Some(Gang::W16),
            32 => Some(Gang::W32),
            _ => None,
        }
    }

    /// The number of instances.
    pub fn width(self) -> usize
        ensures { result ≡ gang_width self }
    {
        match self {
            Gang::W4 => 4,
            Gang::W8 => 8,
            Gang::W16 => 16,
            Gang::W32 => 32,
        }
    }
}

/// What holds of every gang: it has an instance, and at most as many as the widest, 32, so that a word of 64 bits has a bit for each.
pub fn gang_laws()
    ensures some { (g : Gang) → 0 < gang_width g }
    ensures few { (g : Gang) → gang_width g ≤ widest }
    ensures someone { (g : Gang) → any (gang_width g) (everyone (gang_width g)) ≡ true }
{}

/// One value: the low bits of `bits`, as many as the element type has, stand for a whole number.
///
/// There is no `==`, since two values may differ in bits that stand for nothing.
#[derive(Clone, Copy, Debug)]
pub struct Value {
    pub elem: Elem,
    pub bits: u64,
}
