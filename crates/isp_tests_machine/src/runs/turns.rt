//! Ends of a loop's turn: `add`, `lt` and `jnz` in a row, cut and entered at each of them, and three that only look like that.
//!
//! What is seen was worked out line by line from docs/MACHINE.md: `add` and `lt` on whole numbers of 32 bits, `jnz` on
//! where the bool is 1, and each of them is one instruction of the budget.

/// The records, and how many runs they have.
pub(super) const RUNS: (&str, usize) = (
    r##"=== turns
. f(i, n) adds up i, i + 1, .. below n, at least one of them. From 3 to 5: the first instruction, and two turns of four. From
. 2147483647, whose next is -2147483648, to -2147483647: the sum of the two is -1.
func f export s i32
par s i32 i
par s i32 n
s i32 b i32 b
m 1
const s2 1
add s4 s4 s0
add s0 s0 s2
lt s3 s0 s1
jnz s3 L1
ret s4
end
--
4 8 16 32|i32:3 i32:5|turns|ended 7 "" ; 0 3 0 0 ; 1 3 0 0 ; 2 3 0 3 ; 3 4 0 3 ; 4 4 1 3 ; 1 4 1 3 ; 2 4 1 7 ; 3 5 1 7 ; 4 5 0 7 ; 5 5 0 7
4 8 16 32|i32:2147483647 i32:2147483649|turns|ended 4294967295 "" ; 0 2147483647 0 0 ; 1 2147483647 0 0 ; 2 2147483647 0 2147483647 ; 3 2147483648 0 2147483647 ; 4 2147483648 1 2147483647 ; 1 2147483648 1 2147483647 ; 2 2147483648 1 4294967295 ; 3 2147483649 1 4294967295 ; 4 2147483649 0 4294967295 ; 5 2147483649 0 4294967295
=== turns entered
. The same loop, entered at its `jnz`, and once more at its `lt` from 4 on.
func f export s i32
par s i32 i
par s i32 n
s i32 b i32 b
m 1
const s2 1
const s3 1
jmp L6
add s4 s4 s0
add s0 s0 s2
lt s3 s0 s1
jnz s3 L3
jnz s5 L11
const s5 1
const s0 4
jmp L5
ret s4
end
--
4 8 16 32|i32:3 i32:5|turns|ended 11 "" ; 0 3 0 0 ; 1 3 0 0 ; 2 3 1 0 ; 6 3 1 0 ; 3 3 1 0 ; 4 3 1 3 ; 5 4 1 3 ; 6 4 1 3 ; 3 4 1 3 ; 4 4 1 7 ; 5 5 1 7 ; 6 5 0 7 ; 7 5 0 7 ; 8 5 0 7 ; 9 5 0 7 ; 10 4 0 7 ; 5 4 0 7 ; 6 4 1 7 ; 3 4 1 7 ; 4 4 1 11 ; 5 5 1 11 ; 6 5 0 11 ; 7 5 0 11 ; 11 5 0 11
=== no turns
. Three in a row where another register is compared, where the sum has its result on the right, with `jz`, where another
. register is tested, with `sub`, and with `le`; then three whose operands are one register; and at the end of the code two
. alone, since it cannot end with a `jnz`. From 3, and n is 6: 1 < 4; 5 < 6; 6 < 6, not; 7 < 6, not, but scalar 5 is 1;
. 6 < 6, not, so 1 is added to scalar 4; 7 <= 7; 14 < 14, not; 15 < 6, not.
func f export s i32
par s i32 i
par s i32 n
s i32 b i32 b
m 1
const s2 1
const s5 1
add s0 s0 s2
lt s3 s2 s0
jnz s3 L6
const s4 50
add s0 s2 s0
lt s3 s0 s1
jnz s3 L10
const s4 60
add s0 s0 s2
lt s3 s0 s1
jz s3 L14
const s4 70
add s0 s0 s2
lt s3 s0 s1
jnz s5 L18
const s4 80
sub s0 s0 s2
lt s3 s0 s1
jnz s3 L22
add s4 s4 s2
add s0 s0 s2
le s3 s0 s0
jnz s3 L26
const s4 90
add s0 s0 s0
lt s3 s0 s0
jnz s3 L0
add s4 s4 s0
lt s3 s4 s1
ret s4
end
--
4 8 16 32|i32:3 i32:6|turns|ended 15 "" ; 0 3 0 0 ; 1 3 0 0 ; 2 3 0 0 ; 3 4 0 0 ; 4 4 1 0 ; 6 4 1 0 ; 7 5 1 0 ; 8 5 1 0 ; 10 5 1 0 ; 11 6 1 0 ; 12 6 0 0 ; 14 6 0 0 ; 15 7 0 0 ; 16 7 0 0 ; 18 7 0 0 ; 19 6 0 0 ; 20 6 0 0 ; 21 6 0 0 ; 22 6 0 1 ; 23 7 0 1 ; 24 7 1 1 ; 26 7 1 1 ; 27 14 1 1 ; 28 14 0 1 ; 29 14 0 1 ; 30 14 0 15 ; 31 14 0 15
"##,
    4,
);
