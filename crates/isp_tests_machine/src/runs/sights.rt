//! Where a run stands and what its registers hold.
//!
//! What is seen was worked out by hand from docs/MACHINE.md.

/// The record, and how many runs it has.
pub(super) const RUNS: (&str, usize) = (
    r##"=== a call in two lanes
. The function that is called has a mask and no other register. The bound is 3, and 1 and 2 are below it when 1 is added to
. 0 and 1: the lanes 0 and 1 call. The scalars 1 and 2; of vector 0 the lanes 3 and 4, and of vector 1 lane 0; of mask 0 the
. lanes 1, 2 and 4, and of mask 2 lane 0; how many lanes of the masks 0, 1 and 2 are on.
func f export void
par s i64 to
s i64
v i32
m 2
const s1 1
index v0 m0
mrange m1 s1 s0
call f1 - m1 p1
ret -
end
func g inner void
m 1
ret -
end
--
4|i64:3|registers|0 0 0 [Some(0), None] [Some(0), None, None] [Some(true), Some(true), None, None] [Some(4), Some(0), None] ; 3 0 3 [Some(1), None] [Some(3), None, None] [Some(true), Some(true), None, None] [Some(4), Some(2), None] ; 1 1 0 [None, None] [None, None, None] [Some(true), Some(false), None, None] [Some(2), None, None] ; 1 0 4 [Some(1), None] [Some(3), None, None] [Some(true), Some(true), None, None] [Some(4), Some(2), None] ; 9 0 4 [Some(1), None] [Some(3), None, None] [Some(true), Some(true), None, None] [Some(4), Some(2), None]
"##,
    1,
);
