//! N words of one width, as a vector of the processor.
ghost use Rattle.std.specs.Prelude.{◌≡◌, refl, ℕ, ◌^◌, ◌<◌, ◌≤◌, ◌+◌, ◌-◌, ◌*◌, ◌/◌, ◌%◌, ◌==◌, List, map, replicate, nat_lt, cond, bit_and, bit_or, bit_xor};
ghost use Rattle.std.specs.Simd.Lanes.{zip2, sel_l, Each2};
ghost use Rattle.isp_lanes.specs.Lanes.{is_on};
ghost use Rattle.isp_lanes.specs.Held.{held, held_width};

use crate::row::Row;
use std::simd::prelude::*;

// The operations on N words of 8, 16, 32 or 64 bits that the kernels are made of. A truth is a word with all bits set,
// or 0.
pub(crate) trait Words<const N: usize>: Copy {
    ghost width: { ℕ };

    ghost words: { Self → List ℕ };

    ghost holds_one: { 1 % 2 ^ width ≡ 1 };

    // The low bits of one word, in each lane.
    fn all(word: u64) -> Self
        ensures { words result ≡ replicate N (word % 2 ^ width) };

    fn plus(self, y: Self) -> Self
        ensures { words result ≡ zip2 (λ a b. (a + b) % 2 ^ width) (words self) (words y) };

    fn minus(self, y: Self) -> Self
        ensures { words result ≡ zip2 (λ a b. (a + (2 ^ width - b)) % 2 ^ width) (words self) (words y) };

    fn times(self, y: Self) -> Self
        ensures { words result ≡ zip2 (λ a b. (a * b) % 2 ^ width) (words self) (words y) };

    fn quotient(self, y: Self) -> Self
        requires { Each2 (λ a b. 0 < b) (words self) (words y) }
        ensures { words result ≡ zip2 (λ a b. a / b) (words self) (words y) };

    fn rest(self, y: Self) -> Self
        requires { Each2 (λ a b. 0 < b) (words self) (words y) }
        ensures { words result ≡ zip2 (λ a b. a % b) (words self) (words y) };

    fn and(self, y: Self) -> Self
        ensures { words result ≡ zip2 bit_and (words self) (words y) };

    fn or(self, y: Self) -> Self
        ensures { words result ≡ zip2 bit_or (words self) (words y) };

    fn xor(self, y: Self) -> Self
        ensures { words result ≡ zip2 bit_xor (words self) (words y) };

    fn inverse(self) -> Self
        ensures { words result ≡ map (λ a. 2 ^ width - 1 - a) (words self) };

    // The words modulo their width, as amounts to shift by.
    fn amounts(self) -> Self
        ensures { words result ≡ map (λ a. bit_and a (width - 1)) (words self) };

    fn left(self, by: Self) -> Self
        requires { Each2 (λ a b. b < width) (words self) (words by) }
        ensures { words result ≡ zip2 (λ a b. (a * 2 ^ b) % 2 ^ width) (words self) (words by) };

    fn right(self, by: Self) -> Self
        requires { Each2 (λ a b. b < width) (words self) (words by) }
        ensures { words result ≡ zip2 (λ a b. a / 2 ^ b) (words self) (words by) };

    // The words moved by half of their range, so that their order is that of signed words.
    fn turned(self) -> Self
        ensures { words result ≡ map (λ a. (a + 2 ^ (width - 1)) % 2 ^ width) (words self) };

    // Whether the highest bit is set.
    fn signs(self) -> Self
        ensures { words result ≡ map (λ a. cond (nat_lt (2 ^ (width - 1) - 1) a) (2 ^ width - 1) 0) (words self) };

    fn less(self, y: Self) -> Self
        ensures { words result ≡ zip2 (λ a b. cond (nat_lt a b) (2 ^ width - 1) 0) (words self) (words y) };

    fn equal(self, y: Self) -> Self
        ensures { words result ≡ zip2 (λ a b. cond (a == b) (2 ^ width - 1) 0) (words self) (words y) };

    // The words of x where this one is not 0, and of y where it is.
    fn choose(self, x: Self, y: Self) -> Self
        ensures { words result ≡ sel_l (map is_on (words self)) (words x) (words y) };

    // These words where the mask's byte is not 0, and the old ones elsewhere.
    fn over(self, mask: &[u8; N], old: Self) -> Self
        ensures { words result ≡ sel_l (map is_on mask.now) (words self) (words old) };

    // The same. Where words fill many registers, each of which needs its part of the mask, it asks first whether that has all lanes.
    fn under(self, mask: &[u8; N], old: Self) -> Self
        requires { N ≤ 64 }
        ensures { words result ≡ sel_l (map is_on mask.now) (words self) (words old) }
    {
        self.over(mask, old)
    }

    // 1 where the word is not 0, else 0.
    fn flags(self) -> [u8; N]
        ensures { result ≡ map (λ a. cond (is_on a) 1 0) (words self) };

    // The same words, of 64 bits.
    fn wide(self) -> [u64; N]
        ensures { result ≡ words self };

    // The signed numbers that the words are, in words of 64 bits.
    fn spread(self) -> [u64; N]
        ensures { result ≡ map (λ a. (bit_xor a (2 ^ (width - 1)) + (2 ^ 64 - 2 ^ (width - 1))) % 2 ^ 64) (words self) };

    // The low bits of words of 64 bits, in the place of these.
    fn cut(self, wide: &[u64; N]) -> Self
        ensures { words result ≡ map (λ a. a % 2 ^ width) wide.now };

    // The words of a row, in the place of these.
    fn read(self, row: &Row<N>) -> Self
        requires { held_width row.now ≡ width }
        ensures { words result ≡ held row.now };

    // These words in the place of a row's.
    fn put(self, row: &mut Row<N>)
        requires { held_width row.old ≡ width }
        ensures now { held row.new ≡ words self }
        ensures wide { held_width row.new ≡ width };
}

impl<const N: usize> Words<N> for Simd<u8, N> {
    ghost width = { 8 };

    ghost words = { λ v. v };

    ghost holds_one = { refl };

    fn all(word: u64) -> Self {
        Simd::splat((word % 0x100) as u8)
    }

    fn plus(self, y: Self) -> Self {
        self + y
    }

    fn minus(self, y: Self) -> Self {
        self - y
    }

    fn times(self, y: Self) -> Self {
        self * y
    }

    fn quotient(self, y: Self) -> Self {
        self / y
    }

    fn rest(self, y: Self) -> Self {
        self % y
    }

    fn and(self, y: Self) -> Self {
        self & y
    }

    fn or(self, y: Self) -> Self {
        self | y
    }

    fn xor(self, y: Self) -> Self {
        self ^ y
    }

    fn inverse(self) -> Self {
        !self
    }

    fn amounts(self) -> Self {
        self & Simd::splat(7)
    }

    fn left(self, by: Self) -> Self {
        self << by
    }

    fn right(self, by: Self) -> Self {
        self >> by
    }

    fn turned(self) -> Self {
        self + Simd::splat(0x80)
    }

    fn signs(self) -> Self {
        self.simd_gt(Simd::splat(0x7f))
            .select(Simd::splat(u8::MAX), Simd::splat(0))
    }

    fn less(self, y: Self) -> Self {
        self.simd_lt(y).select(Simd::splat(u8::MAX), Simd::splat(0))
    }

    fn equal(self, y: Self) -> Self {
        self.simd_eq(y).select(Simd::splat(u8::MAX), Simd::splat(0))
    }

    fn choose(self, x: Self, y: Self) -> Self {
        self.simd_ne(Simd::splat(0)).select(x, y)
    }

    fn over(self, mask: &[u8; N], old: Self) -> Self {
        Simd::from_array(*mask)
            .simd_ne(Simd::splat(0))
            .select(self, old)
    }

    fn flags(self) -> [u8; N] {
        self.simd_ne(Simd::splat(0))
            .select(Simd::splat(1), Simd::splat(0))
            .to_array()
    }

    fn wide(self) -> [u64; N] {
        self.cast::<u64>().to_array()
    }

    fn spread(self) -> [u64; N] {
        let half = Simd::splat(0x80);
        ((self.cast::<u64>() ^ half) - half).to_array()
    }

    fn cut(self, wide: &[u64; N]) -> Self {
        (Simd::from_array(*wide) & Simd::splat(0xff)).cast::<u8>()
    }

    fn read(self, row: &Row<N>) -> Self {
        match row {
            Row::Bits8(words) => Simd::from_array(*words),
            _ => unreachable!(),
        }
    }

    fn put(self, row: &mut Row<N>) {
        match row {
            Row::Bits8(words) => *words = self.to_array(),
            _ => unreachable!(),
        }
    }
}

impl<const N: usize> Words<N> for Simd<u16, N> {
    ghost width = { 16 };

    ghost words = { λ v. v };

    ghost holds_one = { refl };

    fn all(word: u64) -> Self {
        Simd::splat((word % 0x10000) as u16)
    }

    fn plus(self, y: Self) -> Self {
        self + y
    }

    fn minus(self, y: Self) -> Self {
        self - y
    }

    fn times(self, y: Self) -> Self {
        self * y
    }

    fn quotient(self, y: Self) -> Self {
        self / y
    }

    fn rest(self, y: Self) -> Self {
        self % y
    }

    fn and(self, y: Self) -> Self {
        self & y
    }

    fn or(self, y: Self) -> Self {
        self | y
    }

    fn xor(self, y: Self) -> Self {
        self ^ y
    }

    fn inverse(self) -> Self {
        !self
    }

    fn amounts(self) -> Self {
        self & Simd::splat(15)
    }

    fn left(self, by: Self) -> Self {
        self << by
    }

    fn right(self, by: Self) -> Self {
        self >> by
    }

    fn turned(self) -> Self {
        self + Simd::splat(0x8000)
    }

    fn signs(self) -> Self {
        self.simd_gt(Simd::splat(0x7fff))
            .select(Simd::splat(u16::MAX), Simd::splat(0))
    }

    fn less(self, y: Self) -> Self {
        self.simd_lt(y)
            .select(Simd::splat(u16::MAX), Simd::splat(0))
    }

    fn equal(self, y: Self) -> Self {
        self.simd_eq(y)
            .select(Simd::splat(u16::MAX), Simd::splat(0))
    }

    fn choose(self, x: Self, y: Self) -> Self {
        self.simd_ne(Simd::splat(0)).select(x, y)
    }

    fn over(self, mask: &[u8; N], old: Self) -> Self {
        Simd::from_array(*mask)
            .cast::<u16>()
            .simd_ne(Simd::splat(0))
            .select(self, old)
    }

    fn under(self, mask: &[u8; N], old: Self) -> Self {
        let off = Simd::from_array(*mask).simd_eq(Simd::splat(0)).to_bitmask();
        if off == 0 { self } else { self.over(mask, old) }
    }

    fn flags(self) -> [u8; N] {
        self.simd_ne(Simd::splat(0))
            .select(Simd::splat(1u16), Simd::splat(0u16))
            .cast::<u8>()
            .to_array()
    }

    fn wide(self) -> [u64; N] {
        self.cast::<u64>().to_array()
    }

    fn spread(self) -> [u64; N] {
        let half = Simd::splat(0x8000);
        ((self.cast::<u64>() ^ half) - half).to_array()
    }

    fn cut(self, wide: &[u64; N]) -> Self {
        (Simd::from_array(*wide) & Simd::splat(0xffff)).cast::<u16>()
    }

    fn read(self, row: &Row<N>) -> Self {
        match row {
            Row::Bits16(words) => Simd::from_array(*words),
            _ => unreachable!(),
        }
    }

    fn put(self, row: &mut Row<N>) {
        match row {
            Row::Bits16(words) => *words = self.to_array(),
            _ => unreachable!(),
        }
    }
}

impl<const N: usize> Words<N> for Simd<u32, N> {
    ghost width = { 32 };

    ghost words = { λ v. v };

    ghost holds_one = { refl };

    fn all(word: u64) -> Self {
        Simd::splat((word % 0x100000000) as u32)
    }

    fn plus(self, y: Self) -> Self {
        self + y
    }

    fn minus(self, y: Self) -> Self {
        self - y
    }

    fn times(self, y: Self) -> Self {
        self * y
    }

    fn quotient(self, y: Self) -> Self {
        self / y
    }

    fn rest(self, y: Self) -> Self {
        self % y
    }

    fn and(self, y: Self) -> Self {
        self & y
    }

    fn or(self, y: Self) -> Self {
        self | y
    }

    fn xor(self, y: Self) -> Self {
        self ^ y
    }

    fn inverse(self) -> Self {
        !self
    }

    fn amounts(self) -> Self {
        self & Simd::splat(31)
    }

    fn left(self, by: Self) -> Self {
        self << by
    }

    // The upper half of the product with 2 to the 32 - by, since the processor has no shift of each word by an amount of its own. Where
    // that is 2 to the 32 it is cut to 0, and the word is taken as it is.
    fn right(self, by: Self) -> Self {
        let factors = Simd::splat(2) << (Simd::splat(31) - by);
        let products = self.cast::<u64>() * factors.cast::<u64>();
        let halves = (products >> Simd::splat(32)).cast::<u32>();
        by.simd_eq(Simd::splat(0)).select(self, halves)
    }

    fn turned(self) -> Self {
        self + Simd::splat(0x8000_0000)
    }

    fn signs(self) -> Self {
        self.simd_gt(Simd::splat(0x7fff_ffff))
            .select(Simd::splat(u32::MAX), Simd::splat(0))
    }

    fn less(self, y: Self) -> Self {
        self.simd_lt(y)
            .select(Simd::splat(u32::MAX), Simd::splat(0))
    }

    fn equal(self, y: Self) -> Self {
        self.simd_eq(y)
            .select(Simd::splat(u32::MAX), Simd::splat(0))
    }

    fn choose(self, x: Self, y: Self) -> Self {
        self.simd_ne(Simd::splat(0)).select(x, y)
    }

    fn over(self, mask: &[u8; N], old: Self) -> Self {
        Simd::from_array(*mask)
            .cast::<u32>()
            .simd_ne(Simd::splat(0))
            .select(self, old)
    }

    fn under(self, mask: &[u8; N], old: Self) -> Self {
        let off = Simd::from_array(*mask).simd_eq(Simd::splat(0)).to_bitmask();
        if off == 0 { self } else { self.over(mask, old) }
    }

    fn flags(self) -> [u8; N] {
        self.simd_ne(Simd::splat(0))
            .select(Simd::splat(1u32), Simd::splat(0u32))
            .cast::<u8>()
            .to_array()
    }

    fn wide(self) -> [u64; N] {
        self.cast::<u64>().to_array()
    }

    fn spread(self) -> [u64; N] {
        let half = Simd::splat(0x8000_0000);
        ((self.cast::<u64>() ^ half) - half).to_array()
    }

    fn cut(self, wide: &[u64; N]) -> Self {
        (Simd::from_array(*wide) & Simd::splat(0xffffffff)).cast::<u32>()
    }

    fn read(self, row: &Row<N>) -> Self {
        match row {
            Row::Bits32(words) => Simd::from_array(*words),
            _ => unreachable!(),
        }
    }

    fn put(self, row: &mut Row<N>) {
        match row {
            Row::Bits32(words) => *words = self.to_array(),
            _ => unreachable!(),
        }
    }
}

impl<const N: usize> Words<N> for Simd<u64, N> {
    ghost width = { 64 };

    ghost words = { λ v. v };

    ghost holds_one = { refl };

    fn all(word: u64) -> Self {
        Simd::splat(word)
    }

    fn plus(self, y: Self) -> Self {
        self + y
    }

    fn minus(self, y: Self) -> Self {
        self - y
    }

    fn times(self, y: Self) -> Self {
        self * y
    }

    fn quotient(self, y: Self) -> Self {
        self / y
    }

    fn rest(self, y: Self) -> Self {
        self % y
    }

    fn and(self, y: Self) -> Self {
        self & y
    }

    fn or(self, y: Self) -> Self {
        self | y
    }

    fn xor(self, y: Self) -> Self {
        self ^ y
    }

    fn inverse(self) -> Self {
        !self
    }

    fn amounts(self) -> Self {
        self & Simd::splat(63)
    }

    fn left(self, by: Self) -> Self {
        self << by
    }

    fn right(self, by: Self) -> Self {
        self >> by
    }

    fn turned(self) -> Self {
        self + Simd::splat(0x8000_0000_0000_0000)
    }

    fn signs(self) -> Self {
        self.simd_gt(Simd::splat(0x7fff_ffff_ffff_ffff))
            .select(Simd::splat(u64::MAX), Simd::splat(0))
    }

    fn less(self, y: Self) -> Self {
        self.simd_lt(y)
            .select(Simd::splat(u64::MAX), Simd::splat(0))
    }

    fn equal(self, y: Self) -> Self {
        self.simd_eq(y)
            .select(Simd::splat(u64::MAX), Simd::splat(0))
    }

    fn choose(self, x: Self, y: Self) -> Self {
        self.simd_ne(Simd::splat(0)).select(x, y)
    }

    fn over(self, mask: &[u8; N], old: Self) -> Self {
        Simd::from_array(*mask)
            .cast::<u64>()
            .simd_ne(Simd::splat(0))
            .select(self, old)
    }

    fn under(self, mask: &[u8; N], old: Self) -> Self {
        let off = Simd::from_array(*mask).simd_eq(Simd::splat(0)).to_bitmask();
        if off == 0 { self } else { self.over(mask, old) }
    }

    fn flags(self) -> [u8; N] {
        self.simd_ne(Simd::splat(0))
            .select(Simd::splat(1u64), Simd::splat(0u64))
            .cast::<u8>()
            .to_array()
    }

    fn wide(self) -> [u64; N] {
        self.to_array()
    }

    fn spread(self) -> [u64; N] {
        let half = Simd::splat(0x8000_0000_0000_0000);
        ((self ^ half) - half).to_array()
    }

    fn cut(self, wide: &[u64; N]) -> Self {
        Simd::from_array(*wide) & Simd::splat(u64::MAX)
    }

    fn read(self, row: &Row<N>) -> Self {
        match row {
            Row::Bits64(words) => Simd::from_array(*words),
            _ => unreachable!(),
        }
    }

    fn put(self, row: &mut Row<N>) {
        match row {
            Row::Bits64(words) => *words = self.to_array(),
            _ => unreachable!(),
        }
    }
}
