//! What is written as a module.
use isp_forms::FormTable;
use isp_verify::Verified;

/// Accepted code, and the form in which each of its instructions is written.
#[derive(Clone, Copy)]
pub(crate) struct Source<'a> {
    pub code: &'a Verified,
    pub forms: &'a FormTable,
}
