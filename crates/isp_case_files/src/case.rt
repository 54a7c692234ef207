//! A case of a kernel.
use isp_base::TrapKind;
use serde_json::{Map, Value as Json};

/// A case: an entry that is run, and what is wanted of it.
#[derive(Drop)]
pub struct Case<'v> {
    /// Its place in the list, from 1.
    pub number: usize,
    /// What it is called.
    pub name: Option<String>,
    pub entry: String,
    /// The arguments, as a text of JSON.
    pub arguments: String,
    pub wanted: Wanted<'v>,
}

/// What is wanted of a run.
#[derive(Clone, Copy)]
pub enum Wanted<'v> {
    /// It ends, with this answer.
    Answer(Answer<'v>),
    /// It traps so.
    Trap(TrapKind),
}

/// Arrays by name, and a result. Arrays that it does not name may have any elements.
#[derive(Clone, Copy)]
pub struct Answer<'v> {
    pub arrays: &'v Map<String, Json>,
    pub result: Option<&'v Json>,
}

/// How a run does by its case.
#[derive(Debug, Drop)]
pub enum Verdict {
    /// It is as the case wants it.
    Holds,
    /// It is not: what differs, as `blurred[3]: 7, wanted 8`.
    Differs(String),
}
