//! What a run is reported as.
use isp_base::{Array, Trap, Value};
use isp_machine::Stop;
use isp_outside::Outside;

/// How a run stands.
#[derive(Clone, Copy, Debug, PartialEq, Eq)]
pub enum Ending {
    /// The entry returned.
    Ended,
    /// It trapped.
    Trapped(Trap),
    /// The budget is used up.
    Running,
}

/// The report of a run: how it stands, the output so far, and, where it ended, the answer in JSON.
#[derive(Debug, Drop)]
pub struct Report {
    pub ending: Ending,
    pub output: Vec<u8>,
    pub answer: Option<String>,
}

/// The report of a run of bound arguments: why it stopped, the output so far, the arrays among the arguments as they are
/// then, and what it ended with, where it ended and gives something.
///
/// `Stop::Memory`: memory was refused to an instruction. The arrays and the output are those of the instructions before it.
#[derive(Debug, Drop)]
pub struct BoundReport {
    pub stop: Stop,
    pub output: Vec<u8>,
    pub arrays: Vec<Array>,
    pub result: Option<Value>,
    /// Where it trapped at an access of an array: the element that was asked for.
    pub outside: Option<Outside>,
}
