//! Texts and stores in the middle of a run.
//!
//! What is seen was worked out by hand from docs/MACHINE.md.

/// The records, and how many runs they have.
pub(super) const RUNS: (&str, usize) = (
    r##"=== texts without an end
. A text for each two instructions, the first at once.
func f export void
m 1
say t0
jmp L0
end
--
4||parts|running - "" ; running - "x" ; running - "x" ; running - "xx" ; running - "xx" ; running - "xxx"
=== lane numbers
. They are stored all at once. Where a lane is outside no lane has written, and the trap stays.
func f export void
par a i32 a
v i32 i64
m 1
index v0 m0
conv v1 v0 m0
scatter a0 v1 v0 m0 p0
ret -
end
--
4|i32[]:9,9,9,9|parts|running - "" [9, 9, 9, 9] ; running - "" [9, 9, 9, 9] ; running - "" [9, 9, 9, 9] ; running - "" [0, 1, 2, 3] ; ended - "" [0, 1, 2, 3]
4|i32[]:9,9|steps|9 trap index at 0..4, instance 2 - "" [9, 9] ; 0 trap index at 0..4, instance 2 - "" [9, 9] ; 1 trap index at 0..4, instance 2 - "" [9, 9]
=== a value that is given back
. The low bits of the argument, 0x380, are the value, which is printed with its sign.
func f export s i8
par s i8 x
m 1
prs s0
ret s0
end
--
16|i8:896|parts|running - "" ; running - "-128" ; ended 128 "-128"
"##,
    4,
);
