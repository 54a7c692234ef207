//! Divisions by zero.
//!
//! What is seen was worked out by hand from docs/MACHINE.md.

/// The records, and how many runs they have.
pub(super) const RUNS: (&str, usize) = (
    r##"=== a division in lanes
. Prints 12 / a under the lanes where on is true. Lanes that are off never trap; else the lowest that is on with a zero is named.
func f export void
par a i32 a
par a b on
s i32
v i32 i64 i32 i32 b i32
m 2
index v0 m0
conv v1 v0 m0
gather v2 a0 v1 m0 p0
gather v4 a1 v1 m0 p0
mtest m1 v4 m0
const s0 12
splat v3 s0 m0
div v5 v3 v2 m1 p1
prv v5 m0
fail m1 p0
ret -
end
--
4|i32[]:0,3,0,4 b[]:0,1,0,1|steps|100 trap assert at 0..4, instance 1 - "[0,4,0,3]" [0, 3, 0, 4] [0, 1, 0, 1] ; 1 trap assert at 0..4, instance 1 - "[0,4,0,3]" [0, 3, 0, 4] [0, 1, 0, 1]
4|i32[]:0,3,0,4 b[]:0,0,0,0|steps|100 ended - "[0,0,0,0]" [0, 3, 0, 4] [0, 0, 0, 0] ; 1 ended - "[0,0,0,0]" [0, 3, 0, 4] [0, 0, 0, 0]
4|i32[]:0,3,0,4 b[]:1,1,0,1|steps|100 trap divide at 7..9, instance 0 - "" [0, 3, 0, 4] [1, 1, 0, 1] ; 1 trap divide at 7..9, instance 0 - "" [0, 3, 0, 4] [1, 1, 0, 1]
4|i32[]:0,3,0,4 b[]:0,1,1,1|steps|100 trap divide at 7..9, instance 2 - "" [0, 3, 0, 4] [0, 1, 1, 1] ; 1 trap divide at 7..9, instance 2 - "" [0, 3, 0, 4] [0, 1, 1, 1]
4|i32[]:0,3,0,4 b[]:1,1,1,1|steps|100 trap divide at 7..9, instance 0 - "" [0, 3, 0, 4] [1, 1, 1, 1] ; 1 trap divide at 7..9, instance 0 - "" [0, 3, 0, 4] [1, 1, 1, 1]
=== a division of scalars
. The remainder of x by y, under the lanes p with y + p no less than x. A scalar division traps whatever lanes are on; it names
. the lowest of the mask, or lane 0.
func f export s i64
par s i64 x
par s i64 y
m 2
mrange m1 s1 s0
mandn m1 m0 m1
rem s0 s0 s1 m1 p1
ret s0
end
--
8|i64:17 i64:5|steps|4 ended 2 ""
8|i64:3 i64:0|steps|4 trap divide at 7..9, instance 3 - ""
8|i64:8 i64:0|steps|4 trap divide at 7..9, instance 0 - ""
"##,
    8,
);
