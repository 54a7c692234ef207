//! What a request asks of a place of a document.

/// What a request asks of a place of a document.
#[derive(Clone, Copy, Debug, PartialEq, Eq)]
pub enum Question {
    /// `textDocument/hover`: what is known there.
    Hover,
    /// `textDocument/definition`: where the name there is declared.
    Definition,
    /// `textDocument/references`: where else it is named, and whether its declaration is among them.
    References { declared: bool },
}
