//! Jumps at each of their tests, taken and not.
//!
//! What is seen was worked out by hand from docs/MACHINE.md.

/// The record, and how many runs they have.
pub(super) const RUNS: (&str, usize) = (
    r##"=== jumps
. A test that jumps, and one that doesn't, for each of the tests: by a bool, and by the range from 0 to `to`.
func f export void
par s b t
par s i64 from
par s i64 to
s i64 i64
m 2
mrange m1 s1 s2
jz s0 L3
say t0
jnz s0 L5
say t1
joff m1 L7
say t0
jon m1 L9
say t1
const s4 -5
prs s4
jmp L13
say t1
ret -
end
--
4 8 16 32|b:1 i64:0 i64:1|steps|11 ended - "xx-5"
4 8 16 32|b:0 i64:0 i64:0|steps|11 ended - "one twoone two-5"
4 8 16 32|b:1 i64:0 i64:0|steps|11 ended - "xone two-5"
4 8 16 32|b:0 i64:0 i64:8|steps|11 ended - "one twox-5"
"##,
    4,
);
