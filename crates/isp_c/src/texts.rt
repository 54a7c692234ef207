//! Texts that C hands over.

/// A text for C: where its bytes begin, and how many there are.
#[derive(Clone, Copy)]
#[repr(C)]
pub struct Text<'a> {
    pub bytes: &'a [u8],
}
