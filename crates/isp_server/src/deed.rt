//! What a message asks the server to do.
use crate::question::Question;
use crate::refusal::Refusal;
use serde_json::Value;

/// A document by its URI, with its whole text.
#[derive(Clone, Copy)]
pub(crate) struct Document<'v> {
    pub uri: &'v str,
    pub text: &'v str,
}

/// A place of a document, by line and character.
#[derive(Clone, Copy)]
pub(crate) struct Place<'v> {
    pub uri: &'v str,
    pub line: usize,
    pub character: usize,
}

/// What the server has to do.
#[derive(Clone, Copy)]
pub(crate) enum Deed<'v> {
    /// The request of this id is refused; where it has none that can be told, the id is null.
    Refuse(Option<&'v Value>, Refusal),
    /// `initialize` of this id is answered.
    Introduce(&'v Value),
    /// `shutdown` of this id is answered.
    ShutDown(&'v Value),
    /// The request of this id, which asks something of a place, is answered.
    Tell(&'v Value, Question, Place<'v>),
    /// The request of this id, for what may be written at a place, is answered.
    Complete(&'v Value, Place<'v>),
    /// The request of this id, to give what stands at a place another name, is answered.
    Rename(&'v Value, Place<'v>, &'v str),
    /// The document has this text from now on.
    Hold(Document<'v>),
    /// The document of this URI is closed.
    Release(&'v str),
    /// The server ends.
    Leave,
    /// A notification is ignored.
    Ignore,
}
