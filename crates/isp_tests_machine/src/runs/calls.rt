//! Calls, one in the other.
//!
//! What is seen was worked out by hand from docs/MACHINE.md.

/// The records, and how many runs they have.
pub(super) const RUNS: (&str, usize) = (
    r##"=== calls one in the other
. f(n): where n is 0 it gives 0. Else it puts n into a local array, calls itself with n - 1, and gives the sum of what comes
. back, of what the array holds then, and of what it held at first. The numbers from 255 to 1 make 11 instructions each, 0
. makes 3; the call that would be the 257th traps.
func f export s i32
par s i32 n
loc u i32 2
s b i32 i64 i32
m 1
conv s1 s0
jz s1 L10
const s2 1
sub s2 s0 s2
load s4 a0 s3 m0 p0
store a0 s3 s0 m0 p0
call f0 s2 m0 p1 s2
load s0 a0 s3 m0 p0
add s0 s0 s2
add s0 s0 s4
ret s0
end
--
8|i32:255|steps|2807 running - "" ; 1 ended 32640 "" ; 100 ended 32640 ""
8|i32:256|steps|1791 running - "" ; 1 trap depth at 7..9, instance 0 - "" ; 1 trap depth at 7..9, instance 0 - ""
=== the lane of a call too deep
. f calls g under the lanes from 3 on, and g itself for ever. The trap of a call names the lowest lane of its mask. 255 calls
. of g run when the next one traps.
func f export void
s i64 i64
m 2
const s1 3
mrange m1 s0 s1
mandn m1 m0 m1
call f1 - m1 p1
ret -
end
func g inner void
m 1
call f1 - m0 p1
ret -
end
--
4||steps|258 running - "" ; 1 trap depth at 7..9, instance 3 - ""
=== calls under some lanes
. f calls g(v0, a0) under the lanes below 2, twice, and prints what came back. g prints what it is given and its own array,
. puts the lane numbers plus 5 there in all lanes, stores them in a under its mask, and gives them back. Lanes that are off
. are 0 in what is passed and stay in what comes back; local arrays are new; in the array that is passed the higher of two
. lanes wins.
func f export void
par a i32 a
s i64 i64
v i32
m 2
index v0 m0
const s1 2
mrange m1 s0 s1
call f1 v0 m1 p1 v0 a0
prv v0 m0
call f1 v0 m1 p1 v0 a0
ret -
end
func g inner v i32
par v i32 x
par a i32 a
loc p i32 4
s i32
v i32 i64 i32
m 2
mfull m1
prv v0 m1
gather v3 a1 v2 m1 p0
prv v3 m0
index v1 m1
const s0 5
splat v3 s0 m1
add v1 v1 v3 m1
scatter a1 v2 v1 m1 p0
gather v3 a1 v2 m1 p0
scatter a0 v2 v3 m0 p0
ret v1
end
--
4|i32[]:9,9|steps|31 ended - "[0,1,0,0][0,0,_,_][5,6,2,3][5,6,0,0][0,0,_,_]" [6, 9]
"##,
    4,
);
