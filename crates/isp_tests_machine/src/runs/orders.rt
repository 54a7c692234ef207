//! Comparisons of scalars: at the ends of each type, and where the bits of the lesser number are the greater.
//!
//! What is seen was worked out by hand from docs/MACHINE.md.

/// The record, and how many runs they have.
pub(super) const RUNS: (&str, usize) = (
    r##"=== comparisons
. Each comparison of x and y in the order of the operators, and its answer. The runs are in fours: of a number and a greater one,
. of the same in turn, and of each with itself.
func f export void
par s … x
par s … y
s b
m 1
eq s2 s0 s1
prs s2
ne s2 s0 s1
prs s2
lt s2 s0 s1
prs s2
le s2 s0 s1
prs s2
gt s2 s0 s1
prs s2
ge s2 s0 s1
prs s2
ret -
end
--
4|b:0 b:1|writes|100 ended falsetruetruetruefalsefalse|b/b
8|b:1 b:0|writes|100 ended falsetruefalsefalsetruetrue|b/b
16|b:0 b:0|writes|100 ended truefalsefalsetruefalsetrue|b/b
32|b:1 b:1|writes|100 ended truefalsefalsetruefalsetrue|b/b
4|i8:128 i8:127|writes|100 ended falsetruetruetruefalsefalse|i8/i8
8|i8:127 i8:128|writes|100 ended falsetruefalsefalsetruetrue|i8/i8
16|i8:128 i8:128|writes|100 ended truefalsefalsetruefalsetrue|i8/i8
32|i8:127 i8:127|writes|100 ended truefalsefalsetruefalsetrue|i8/i8
4|i8:255 i8:0|writes|100 ended falsetruetruetruefalsefalse|i8/i8
8|i8:0 i8:255|writes|100 ended falsetruefalsefalsetruetrue|i8/i8
16|i8:255 i8:255|writes|100 ended truefalsefalsetruefalsetrue|i8/i8
32|i8:0 i8:0|writes|100 ended truefalsefalsetruefalsetrue|i8/i8
4|u8:127 u8:128|writes|100 ended falsetruetruetruefalsefalse|u8/u8
8|u8:128 u8:127|writes|100 ended falsetruefalsefalsetruetrue|u8/u8
16|u8:127 u8:127|writes|100 ended truefalsefalsetruefalsetrue|u8/u8
32|u8:128 u8:128|writes|100 ended truefalsefalsetruefalsetrue|u8/u8
4|i16:32768 i16:32767|writes|100 ended falsetruetruetruefalsefalse|i16/i16
8|i16:32767 i16:32768|writes|100 ended falsetruefalsefalsetruetrue|i16/i16
16|i16:32768 i16:32768|writes|100 ended truefalsefalsetruefalsetrue|i16/i16
32|i16:32767 i16:32767|writes|100 ended truefalsefalsetruefalsetrue|i16/i16
4|u16:32767 u16:32768|writes|100 ended falsetruetruetruefalsefalse|u16/u16
8|u16:32768 u16:32767|writes|100 ended falsetruefalsefalsetruetrue|u16/u16
16|u16:32767 u16:32767|writes|100 ended truefalsefalsetruefalsetrue|u16/u16
32|u16:32768 u16:32768|writes|100 ended truefalsefalsetruefalsetrue|u16/u16
4|i32:2147483648 i32:2147483647|writes|100 ended falsetruetruetruefalsefalse|i32/i32
8|i32:2147483647 i32:2147483648|writes|100 ended falsetruefalsefalsetruetrue|i32/i32
16|i32:2147483648 i32:2147483648|writes|100 ended truefalsefalsetruefalsetrue|i32/i32
32|i32:2147483647 i32:2147483647|writes|100 ended truefalsefalsetruefalsetrue|i32/i32
4|i32:4294967294 i32:4294967295|writes|100 ended falsetruetruetruefalsefalse|i32/i32
8|i32:4294967295 i32:4294967294|writes|100 ended falsetruefalsefalsetruetrue|i32/i32
16|i32:4294967294 i32:4294967294|writes|100 ended truefalsefalsetruefalsetrue|i32/i32
32|i32:4294967295 i32:4294967295|writes|100 ended truefalsefalsetruefalsetrue|i32/i32
4|u32:2147483647 u32:2147483648|writes|100 ended falsetruetruetruefalsefalse|u32/u32
8|u32:2147483648 u32:2147483647|writes|100 ended falsetruefalsefalsetruetrue|u32/u32
16|u32:2147483647 u32:2147483647|writes|100 ended truefalsefalsetruefalsetrue|u32/u32
32|u32:2147483648 u32:2147483648|writes|100 ended truefalsefalsetruefalsetrue|u32/u32
4|i64:9223372036854775808 i64:9223372036854775807|writes|100 ended falsetruetruetruefalsefalse|i64/i64
8|i64:9223372036854775807 i64:9223372036854775808|writes|100 ended falsetruefalsefalsetruetrue|i64/i64
16|i64:9223372036854775808 i64:9223372036854775808|writes|100 ended truefalsefalsetruefalsetrue|i64/i64
32|i64:9223372036854775807 i64:9223372036854775807|writes|100 ended truefalsefalsetruefalsetrue|i64/i64
4|i64:18446744073709551615 i64:0|writes|100 ended falsetruetruetruefalsefalse|i64/i64
8|i64:0 i64:18446744073709551615|writes|100 ended falsetruefalsefalsetruetrue|i64/i64
16|i64:18446744073709551615 i64:18446744073709551615|writes|100 ended truefalsefalsetruefalsetrue|i64/i64
32|i64:0 i64:0|writes|100 ended truefalsefalsetruefalsetrue|i64/i64
4|u64:9223372036854775807 u64:9223372036854775808|writes|100 ended falsetruetruetruefalsefalse|u64/u64
8|u64:9223372036854775808 u64:9223372036854775807|writes|100 ended falsetruefalsefalsetruetrue|u64/u64
16|u64:9223372036854775807 u64:9223372036854775807|writes|100 ended truefalsefalsetruefalsetrue|u64/u64
32|u64:9223372036854775808 u64:9223372036854775808|writes|100 ended truefalsefalsetruefalsetrue|u64/u64
4|u64:0 u64:18446744073709551615|writes|100 ended falsetruetruetruefalsefalse|u64/u64
8|u64:18446744073709551615 u64:0|writes|100 ended falsetruefalsefalsetruetrue|u64/u64
16|u64:0 u64:0|writes|100 ended truefalsefalsetruefalsetrue|u64/u64
32|u64:18446744073709551615 u64:18446744073709551615|writes|100 ended truefalsefalsetruefalsetrue|u64/u64
"##,
    52,
);
