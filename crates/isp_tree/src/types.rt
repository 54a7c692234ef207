//! Names where they stand, and types as they are written.
ghost use Rattle.std.specs.Prelude.{◌≡◌, IfOk};

use isp_base::{Name, Span};
use std::alloc::AllocError;

/// A name where it stands.
#[derive(Drop)]
pub struct Word {
    pub name: Name,
    pub span: Span,
}

impl Word {
    /// A second copy of the name, at the same place.
    pub fn copied(&self) -> Result<Word, AllocError>
        ensures copy { IfOk result (λ word. word ≡ self.now) }
    {
        let name = self.name.copied()?;
        Ok(Word {
            name,
            span: self.span,
        })
    }
}

/// A word before the base of a type.
#[derive(Clone, Copy)]
pub enum Qualifier {
    Const,
    Uniform,
    Varying,
    Signed,
    Unsigned,
}

/// The word of a type that names its values.
#[derive(Clone, Copy)]
pub enum Base {
    Void,
    Bool,
    Int,
    Int8,
    Int16,
    Int32,
    Int64,
    Uint,
    Uint8,
    Uint16,
    Uint32,
    Uint64,
}

/// A type as it is written: its qualifiers in order, and its base, which is left out only where
/// `signed` or `unsigned` is among them.
#[derive(Drop)]
pub struct TypeWords {
    pub qualifiers: Vec<Qualifier>,
    pub base: Option<Base>,
    /// From the first of its words to the last.
    pub span: Span,
}
