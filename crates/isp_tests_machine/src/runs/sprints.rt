//! Runs that are cut at each of their instructions, where loops, calls, output, stores and a trap follow one another.
//!
//! What is seen was worked out by hand from docs/MACHINE.md.

/// The records, and how many runs they have.
pub(super) const RUNS: (&str, usize) = (
    r##"=== a loop
. f(a, n) writes the sum of the numbers below n, and stores it. Three instructions are made once, two turns have five, and two
. leave the loop; then come the text, the store and the return.
func f export void
par a i32 a
par s i32 n
s i32 i32 b i32 i64
m 1
const s1 0
const s2 0
const s4 1
lt s3 s1 s0
jz s3 L8
add s2 s2 s1
add s1 s1 s4
jmp L3
prs s2
store a0 s5 s2 m0 p0
ret -
end
--
4 8 16 32|i32[]:7,8 i32:2|parts|running - "" [7, 8] ; running - "" [7, 8] ; running - "" [7, 8] ; running - "" [7, 8] ; running - "" [7, 8] ; running - "" [7, 8] ; running - "" [7, 8] ; running - "" [7, 8] ; running - "" [7, 8] ; running - "" [7, 8] ; running - "" [7, 8] ; running - "" [7, 8] ; running - "" [7, 8] ; running - "" [7, 8] ; running - "" [7, 8] ; running - "" [7, 8] ; running - "1" [7, 8] ; running - "1" [1, 8] ; ended - "1" [1, 8]
=== a call
. f() calls g(3), which adds 4, writes twice what comes back, and fails.
func f export void
s i32 i32
m 1
const s1 3
call f1 s1 m0 p1 s1
add s1 s1 s1
prs s1
fail m0 p1
ret -
end
func g inner s i32
par s i32 x
s i32
m 1
const s1 4
add s1 s0 s1
ret s1
end
--
8||parts|running - "" ; running - "" ; running - "" ; running - "" ; running - "" ; running - "" ; running - "" ; running - "14" ; trap assert at 7..9, instance 0 - "14"
=== lanes
. f() writes 6 in each lane, which is twice what the lanes have.
func f export void
s i32
v i32
m 1
const s0 3
splat v0 s0 m0
add v0 v0 v0 m0
prv v0 m0
ret -
end
--
4||parts|running - "" ; running - "" ; running - "" ; running - "" ; running - "[6,6,6,6]" ; ended - "[6,6,6,6]"
=== a loop that is entered at its test
. f() jumps to a `jz` that a comparison stands before, and is led there again from the comparison: then 300 is converted, and
. written. Three instructions; the `jz` that is not taken, the sum and the jump; the comparison and the `jz` that is taken; two
. vectors; the text.
func f export void
s i32 i32 b
v i32 u8
m 1
const s0 300
const s2 1
jmp L4
lt s2 s0 s1
jz s2 L7
add s1 s1 s1
jmp L3
splat v0 s0 m0
conv v1 v0 m0
prv v1 m0
ret -
end
--
4||parts|running - "" ; running - "" ; running - "" ; running - "" ; running - "" ; running - "" ; running - "" ; running - "" ; running - "" ; running - "" ; running - "" ; running - "[44,44,44,44]" ; ended - "[44,44,44,44]"
"##,
    4,
);
