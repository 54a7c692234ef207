//! The runs of the table, one after the other.
use super::rows::compare_all;
use super::worked;
use std::test::Fail;

#[test]
fn worked_runs(rt: HostRuntime) -> Result<(), Fail> {
    compare_all(&rt, rt.alloc(), worked::ROWS, worked::COUNT)
}
