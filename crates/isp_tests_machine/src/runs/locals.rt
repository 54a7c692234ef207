//! Elements of arrays: those that all lanes share, and the lanes' own.
//!
//! What is seen was worked out by hand from docs/MACHINE.md.

/// The records, and how many runs they have.
pub(super) const RUNS: (&str, usize) = (
    r##"=== one element
. Puts i at the place i of the array of three, and gives what the place had before: the first element, the last, one past it,
. and the least index. `from` is where the range begins outside which lanes are on.
func f export s i32
par s i64 i
par s i64 from
par a i32 a
s i32 i32
m 2
mrange m1 s1 s0
load s2 a0 s0 m1 p1
conv s3 s0
store a0 s0 s3 m1 p0
ret s2
end
--
8|i64:0 i64:0 i32[]:7,8,9|steps|5 ended 7 "" [0, 8, 9]
8|i64:2 i64:0 i32[]:7,8,9|steps|5 ended 9 "" [7, 8, 2]
8|i64:3 i64:0 i32[]:7,8,9|steps|5 trap index at 7..9, instance 0 - "" [7, 8, 9]
8|i64:3 i64:3 i32[]:7,8,9|steps|5 trap index at 7..9, instance 0 - "" [7, 8, 9]
8|i64:9223372036854775808 i64:0 i32[]:7,8,9|steps|5 trap index at 7..9, instance 0 - "" [7, 8, 9]
8|i64:18446744073709551615 i64:0 i32[]:7,8,9|steps|5 trap index at 7..9, instance 0 - "" [7, 8, 9]
=== elements in lanes
. Each lane puts its number at its index, under the lanes where on is true; then they are printed, cleared and printed again.
func f export void
par a i64 index
par a b on
loc u i32 3
v i32 i64 b i32 i64
m 2
index v0 m0
conv v1 v0 m0
gather v2 a1 v1 m0 p0
mtest m1 v2 m0
gather v1 a0 v1 m0 p0
scatter a2 v1 v0 m1 p1
gather v3 a2 v1 m1 p0
prv v3 m1
clear a2 m1
gather v3 a2 v1 m1 p0
prv v3 m0
ret -
end
--
. Of lanes that write at one place the highest wins; a lane that is off neither writes nor is outside.
4|i64[]:1,1,1,1 b[]:1,1,1,1|steps|12 ended - "[3,3,3,3][0,0,0,0]" [1, 1, 1, 1] [1, 1, 1, 1]
4|i64[]:1,1,2,1 b[]:1,1,1,0|steps|12 ended - "[1,1,2,_][0,0,0,0]" [1, 1, 2, 1] [1, 1, 1, 0]
4|i64[]:2,9,0,2 b[]:1,0,1,1|steps|12 ended - "[3,_,2,3][0,0,0,0]" [2, 9, 0, 2] [1, 0, 1, 1]
4|i64[]:9,9,9,9 b[]:0,0,0,0|steps|12 ended - "[_,_,_,_][0,0,0,0]" [9, 9, 9, 9] [0, 0, 0, 0]
. The lowest lane that is outside is named.
4|i64[]:0,3,0,3 b[]:1,1,1,1|steps|12 trap index at 7..9, instance 1 - "" [0, 3, 0, 3] [1, 1, 1, 1]
4|i64[]:0,3,0,3 b[]:1,0,1,1|steps|12 trap index at 7..9, instance 3 - "" [0, 3, 0, 3] [1, 0, 1, 1]
4|i64[]:0,9223372036854775808,1,2 b[]:1,1,1,1|steps|12 trap index at 7..9, instance 1 - "" [0, 9223372036854775808, 1, 2] [1, 1, 1, 1]
=== arrays of a call
. f calls g twice. g prints its local array, in which each lane has its own, and puts lane numbers there, at 1 below lane 2
. and else at 0; then it prints it, clears it under the lanes below 2, and prints it again. Its shared array is new, and the
. caller's is what all calls see. Local arrays are zero at each call.
func f export void
loc u i32 3
m 1
call f1 - m0 p1 a0
call f1 - m0 p1 a0
ret -
end
func g inner void
par a i32 all
loc p i32 2
loc u i32 4
s i64 i64 i32
v i32 i64 i32 i64
m 2
const s1 2
mrange m1 s0 s1
index v0 m0
const s1 1
splat v1 s1 m1
gather v2 a1 v1 m0 p0
prv v2 m0
scatter a1 v1 v0 m0 p0
gather v2 a1 v1 m0 p0
prv v2 m0
clear a1 m1
gather v2 a1 v1 m0 p0
prv v2 m0
load s2 a2 s1 m0 p0
prs s2
load s2 a0 s1 m0 p0
prs s2
const s2 4
store a0 s1 s2 m0 p0
store a2 s1 s2 m0 p0
ret -
end
--
4||steps|45 ended - "[0,0,0,0][0,1,2,3][0,0,2,3]00[0,0,0,0][0,1,2,3][0,0,2,3]04"
"##,
    14,
);
