//! How far a connection has come.

/// How far a connection has come.
#[derive(Clone, Copy, Debug, PartialEq, Eq)]
pub enum Phase {
    /// `initialize` has not come.
    Fresh,
    /// `initialize` was answered.
    Running,
    /// `shutdown` was answered.
    ShutDown,
}
