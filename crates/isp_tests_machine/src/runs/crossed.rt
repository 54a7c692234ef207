//! Lines across the lanes of a mask.
//!
//! What is seen was worked out by hand from docs/MACHINE.md.

/// The record, and how many runs they have.
pub(super) const RUNS: (&str, usize) = (
    r##"=== a line across lanes
. v1 is x, v2 is y, v3 is written, v0 are the lanes that are on, m1; s0 is n, s1 is written, s2 is 0.
func f export void
par s i32 n
par a … x
par a i32 y
par a b on
s … i64
v b … i32 …
m 2
vload v0 a2 s2 m0 p0
vload v1 a0 s2 m0 p0
vload v2 a1 s2 m0 p0
mtest m1 v0 m0
…
…
ret -
end
--
4|i32:0 i8[]:127,127,127,128 i32[]:0,0,0,0 b[]:1,1,1,1|writes|100 ended 253|i8/i16/i8/i8/radd s1 v1 m1/prs s1
4|i32:0 u8[]:255,255,255,255 i32[]:0,0,0,0 b[]:1,0,1,1|writes|100 ended 765|u8/u16/u8/u8/radd s1 v1 m1/prs s1
4|i32:0 i32[]:1,2,3,4 i32[]:0,0,0,0 b[]:1,0,1,1|writes|100 ended 8|i32/i64/i32/i32/radd s1 v1 m1/prs s1
4|i32:0 i32[]:1,2,3,4 i32[]:0,0,0,0 b[]:0,0,0,0|writes|100 ended 0|i32/i64/i32/i32/radd s1 v1 m1/prs s1
4|i32:0 i8[]:0,0,128,0 i32[]:0,0,0,0 b[]:1,1,1,1|writes|100 ended -128|i8/i8/i8/i8/rmin s1 v1 m1/prs s1
4|i32:0 i8[]:0,128,1,2 i32[]:0,0,0,0 b[]:1,0,1,1|writes|100 ended 0|i8/i8/i8/i8/rmin s1 v1 m1/prs s1
4|i32:0 u8[]:1,2,3,4 i32[]:0,0,0,0 b[]:0,0,0,0|writes|100 ended 0|u8/u8/u8/u8/rmin s1 v1 m1/prs s1
4|i32:0 u8[]:0,255,128,7 i32[]:0,0,0,0 b[]:1,0,1,1|writes|100 ended 128|u8/u8/u8/u8/rmax s1 v1 m1/prs s1
4|i32:0 i8[]:128,1,129,130 i32[]:0,0,0,0 b[]:1,0,1,1|writes|100 ended -126|i8/i8/i8/i8/rmax s1 v1 m1/prs s1
4|i32:0 i32[]:7,8,7,7 i32[]:0,0,0,0 b[]:1,0,1,1|writes|100 ended true|i32/b/i32/i32/requ s1 v1 m1/prs s1
4|i32:0 i32[]:7,8,7,7 i32[]:0,0,0,0 b[]:1,1,1,1|writes|100 ended false|i32/b/i32/i32/requ s1 v1 m1/prs s1
4|i32:0 i32[]:1,2,3,4 i32[]:0,0,0,0 b[]:0,0,0,0|writes|100 ended true|i32/b/i32/i32/requ s1 v1 m1/prs s1
4|i32:0 b[]:0,1,0,0 i32[]:0,0,0,0 b[]:1,0,1,1|writes|100 ended false|b/b/b/b/rany s1 v1 m1/prs s1
4|i32:0 b[]:0,1,0,0 i32[]:0,0,0,0 b[]:1,1,1,1|writes|100 ended true|b/b/b/b/rany s1 v1 m1/prs s1
4|i32:0 b[]:1,0,1,1 i32[]:0,0,0,0 b[]:1,0,1,1|writes|100 ended true|b/b/b/b/rall s1 v1 m1/prs s1
4|i32:0 b[]:1,0,1,1 i32[]:0,0,0,0 b[]:1,1,1,1|writes|100 ended false|b/b/b/b/rall s1 v1 m1/prs s1
. By the number 1.
4|i32:1 i32[]:1,2,3,4 i32[]:0,0,0,0 b[]:1,1,1,1|writes|100 ended [2,2,2,2]|i32/i32/i32/i32/bcast v3 v1 s0 m1/prv v3 m1
4|i32:1 i32[]:1,2,3,4 i32[]:0,0,0,0 b[]:1,0,1,1|writes|100 ended [0,_,0,0]|i32/i32/i32/i32/bcast v3 v1 s0 m1/prv v3 m1
4|i32:1 i32[]:1,2,3,4 i32[]:0,0,0,0 b[]:1,1,1,1|writes|100 ended [2,3,4,1]|i32/i32/i32/i32/rot v3 v1 s0 m1/prv v3 m1
4|i32:1 i32[]:1,2,3,4 i32[]:0,0,0,0 b[]:1,0,1,1|writes|100 ended [0,_,4,1]|i32/i32/i32/i32/rot v3 v1 s0 m1/prv v3 m1
4|i32:1 i32[]:1,2,3,4 i32[]:0,0,0,0 b[]:1,1,1,1|writes|100 ended [2,3,4,0]|i32/i32/i32/i32/shf v3 v1 s0 m1/prv v3 m1
4|i32:1 i32[]:1,2,3,4 i32[]:0,0,0,0 b[]:1,0,1,1|writes|100 ended [0,_,1,4]|i32/i32/i32/i32/sadd v3 v1 m1/prv v3 m1
4|i32:1 u8[]:7,0,6,3 i32[]:0,0,0,0 b[]:1,0,1,1|writes|100 ended [255,_,7,6]|u8/u8/u8/u8/sand v3 v1 m1/prv v3 m1
4|i32:1 u8[]:1,2,3,4 i32[]:0,0,0,0 b[]:1,0,1,1|writes|100 ended [0,_,1,3]|u8/u8/u8/u8/sor v3 v1 m1/prv v3 m1
4|i32:1 u8[]:1,2,3,4 i32[]:3,2,1,4 b[]:1,1,1,1|writes|100 ended [4,3,2,1]|u8/u8/u8/u8/shuf v3 v1 v2 m1/prv v3 m1
4|i32:1 i32[]:1,2,3,4 i32[]:7,6,5,0 b[]:1,1,1,1|writes|100 ended [0,5,6,1]|i32/i32/i32/i32/shuf2 v3 v1 v2 v2 m1/prv v3 m1
4|i32:1 i32[]:5,6,7,8 i32[]:0,0,0,0 b[]:1,1,1,1|writes|100 ended [5,1,7,8]|i32/i32/i32/i32/ins v3 v1 s0 s0 m1/prv v3 m1
4|i32:1 i8[]:1,130,3,4 i32[]:0,0,0,0 b[]:1,1,1,1|writes|100 ended -126|i8/i8/i8/i8/extr s1 v1 s0 m1/prs s1
"##,
    28,
);
