//! Runs of elements, packed calls, and a jump where all lanes are on.
//!
//! What is seen was worked out by hand from docs/MACHINE.md.

/// The record, and how many runs they have.
pub(super) const RUNS: (&str, usize) = (
    r##"=== a line with a run of elements
. The lanes of m1 are those where `on` is true; v1 has 0, 1, 2, 3. Then a line is run, v2 printed, and s1 given back.
func f export s i32
par s i64 from
par a i32 a
par a b on
s i32 i64
v b i32 i32
m 2
const s2 0
vload v0 a1 s2 m0 p1
mtest m1 v0 m0
index v1 m0
…
prv v2 m1
ret s1
end
--
. Lane p stores to element from + p; all are looked at first.
4|i64:1 i32[]:9,9,9,9,9 b[]:1,1,1,1|steps|7 ended 0 "[0,0,0,0]" [9, 0, 1, 2, 3] [1, 1, 1, 1]|vstore a0 s0 v1 m1 p0
4|i64:1 i32[]:9,9,9,9,9 b[]:1,0,1,1|steps|7 ended 0 "[0,_,0,0]" [9, 0, 9, 2, 3] [1, 0, 1, 1]|vstore a0 s0 v1 m1 p0
4|i64:1 i32[]:9,9,9 b[]:1,1,1,1|steps|7 trap index at 0..4, instance 2 - "" [9, 9, 9] [1, 1, 1, 1]|vstore a0 s0 v1 m1 p0
4|i64:18446744073709551615 i32[]:9,9,9,9,9 b[]:1,1,1,1|steps|7 trap index at 0..4, instance 0 - "" [9, 9, 9, 9, 9] [1, 1, 1, 1]|vstore a0 s0 v1 m1 p0
4|i64:2 i32[]:9,9,9,9,9 b[]:1,1,1,1|steps|7 trap index at 0..4, instance 3 - "" [9, 9, 9, 9, 9] [1, 1, 1, 1]|vstore a0 s0 v1 m1 p0
4|i64:18446744073709551615 i32[]:9,9,9,9,9 b[]:0,0,0,0|steps|7 ended 0 "[_,_,_,_]" [9, 9, 9, 9, 9] [0, 0, 0, 0]|vstore a0 s0 v1 m1 p0
. The lanes that are on, in order, store from element `from` on, and are counted.
4|i64:2 i32[]:9,9,9,9,9 b[]:1,0,1,1|steps|7 ended 3 "[0,_,0,0]" [9, 9, 0, 2, 3] [1, 0, 1, 1]|pstore s1 a0 s0 v1 m1 p0
4|i64:3 i32[]:9,9,9,9,9 b[]:1,0,1,1|steps|7 trap index at 0..4, instance 3 - "" [9, 9, 9, 9, 9] [1, 0, 1, 1]|pstore s1 a0 s0 v1 m1 p0
4|i64:18446744073709551615 i32[]:9,9,9,9,9 b[]:1,0,1,1|steps|7 trap index at 0..4, instance 0 - "" [9, 9, 9, 9, 9] [1, 0, 1, 1]|pstore s1 a0 s0 v1 m1 p0
4|i64:7 i32[]:9,9,9,9,9 b[]:0,0,0,0|steps|7 ended 0 "[_,_,_,_]" [9, 9, 9, 9, 9] [0, 0, 0, 0]|pstore s1 a0 s0 v1 m1 p0
. Lane p has element from + p.
4|i64:1 i32[]:10,11,12,13,14 b[]:1,1,1,1|steps|7 ended 0 "[11,12,13,14]" [10, 11, 12, 13, 14] [1, 1, 1, 1]|vload v2 a0 s0 m1 p0
4|i64:18446744073709551615 i32[]:10,11,12,13,14 b[]:0,1,1,0|steps|7 ended 0 "[_,10,11,_]" [10, 11, 12, 13, 14] [0, 1, 1, 0]|vload v2 a0 s0 m1 p0
4|i64:2 i32[]:10,11,12,13,14 b[]:1,1,1,1|steps|7 trap index at 0..4, instance 3 - "" [10, 11, 12, 13, 14] [1, 1, 1, 1]|vload v2 a0 s0 m1 p0
. The lanes that are on, in order, have the elements from `from` on.
4|i64:2 i32[]:10,11,12,13,14 b[]:1,0,1,1|steps|7 ended 3 "[12,_,13,14]" [10, 11, 12, 13, 14] [1, 0, 1, 1]|pload s1 a0 s0 v2 m1 p0
4|i64:3 i32[]:10,11,12,13,14 b[]:1,0,1,1|steps|7 trap index at 0..4, instance 3 - "" [10, 11, 12, 13, 14] [1, 0, 1, 1]|pload s1 a0 s0 v2 m1 p0
. Where all lanes are on, the line that stores is passed over.
4|i64:0 i32[]:9,9,9,9,9 b[]:1,1,1,1|steps|7 ended 0 "" [9, 9, 9, 9, 9] [1, 1, 1, 1]|jall m1 L6
4|i64:0 i32[]:9,9,9,9,9 b[]:1,0,1,1|steps|7 ended 0 "[0,_,0,0]" [9, 9, 9, 9, 9] [1, 0, 1, 1]|jall m1 L6
4|i64:0 i32[]:9,9,9,9,9 b[]:0,0,0,0|steps|7 ended 0 "[_,_,_,_]" [9, 9, 9, 9, 9] [0, 0, 0, 0]|jall m1 L6
"##,
    18,
);
