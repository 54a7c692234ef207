//! What ends the line of an instruction.

/// The operand after the registers.
#[derive(Clone, Copy)]
pub enum Tail {
    Nothing,
    Place(u32),
    Label(u32),
    Number(i128),
}
