//! What instances come to one by one.
use isp_base::{Array, Trap, Value};

/// What the instances of an entry come to, each run alone.
#[derive(Debug, Drop)]
pub enum SoloReport {
    /// The first that does not end traps.
    Trapped(Trap),
    /// A loop of the first that does not end would take one turn too many: which instance that is.
    Cut(usize),
    /// All end, and two clash: one stores in an element of an array, and another reads it or stores in it. It is the first such
    /// element, by the place of the parameter, from 0, and the place of the element.
    Clash {
        parameter: usize,
        element: usize,
    },
    /// All end, and no two clash: the arrays that they leave one after the other, from instance 0 up, and the result of instance 0.
    Ended {
        arrays: Vec<Array>,
        result: Option<Value>,
    },
}
