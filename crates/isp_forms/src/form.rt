//! The form of an instruction: whether it keeps the lanes that are off, or is left out, and whether an operand is known.

/// How a translation writes an instruction.
#[derive(Clone, Copy)]
pub enum Form {
    /// It does what the instruction does: lanes that are off are kept.
    Kept,
    /// The lanes of its vector that are off become anything.
    Free,
    /// It does nothing but go on.
    Useless,
    /// Its right operand is this number in each lane; lanes that are off are kept.
    KeptBy(u64),
    /// Its right operand is this number in each lane; the lanes of its vector that are off become anything.
    FreeBy(u64),
}
