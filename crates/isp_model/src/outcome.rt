//! What a run comes to.
use isp_base::{Array, Trap, Value};

/// How a run stands after so many turns of its loops.
#[derive(Debug, Drop)]
pub enum Outcome {
    /// It has ended: the parameter arrays as they are then, the result, and what was written.
    Ends {
        arrays: Vec<Array>,
        result: Option<Value>,
        output: Vec<u8>,
    },
    /// It has trapped: the trap, the parameter arrays as they are then, and what was written before.
    Traps {
        trap: Trap,
        arrays: Vec<Array>,
        output: Vec<u8>,
    },
    /// A loop would take one turn too many: what was written so far.
    Cut {
        output: Vec<u8>,
    },
}
