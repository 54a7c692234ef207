//! Bytes that are written one after the other.
ghost use Rattle.std.specs.Prelude.{◌≡◌, ◌++◌, ◌∷◌, [], ◌^◌, ◌+◌, ◌*◌, ◌<◌, ◌≤◌, true, OnOk};
ghost use Rattle.isp_wasm_binary.specs.Numbers as numbers;

use std::alloc::{AllocError, Global};
use std::marker::Model;

/// Bytes so far. Contracts see them as a list.
#[derive(Drop)]
pub struct Bytes {
    bytes: Vec<u8>,
}

impl Model for Bytes {
    ghost use Rattle.std.specs.Prelude.{ℕ, List};

    ghost Value = { List ℕ };

    ghost view = { λ p. p.bytes.items };
}

impl Bytes {
    /// No bytes yet.
    pub fn new(alloc: Global) -> Bytes
        ensures { result ≡ [] }
    {
        Bytes {
            bytes: Vec::new(alloc),
        }
    }

    /// The bytes.
    pub fn into_vec(self) -> Vec<u8>
        ensures { result.items ≡ self }
    {
        self.bytes
    }

    /// One byte.
    pub fn byte(&mut self, byte: u8) -> Result<(), AllocError>
        ensures { OnOk result (self.new ≡ self.old ++ numbers.byte byte) }
    {
        match self.bytes.push(byte) {
            Ok(()) => Ok(()),
            Err(_) => Err(AllocError),
        }
    }

    /// These bytes.
    pub fn all(&mut self, bytes: &[u8]) -> Result<(), AllocError>
        ensures { OnOk result (self.new ≡ self.old ++ bytes.now) }
    {
        self.bytes.extend_from_slice(bytes)
    }

    /// A number of 32 bits as unsigned LEB128 (5.2.2): 300 becomes `ac 02`.
    pub fn unsigned(&mut self, number: u32) -> Result<(), AllocError>
        ensures { OnOk result (self.new ≡ self.old ++ numbers.u32 number) }
    {
        let mut rest = number;
        while rest >= 128 {
            self.byte((128 + rest % 128) as u8)?;
            rest /= 128;
        }
        self.byte(rest as u8)
    }

    /// The bits of a number of 32 bits, as signed LEB128 (5.2.2): those of -2 become `7e`.
    pub fn signed32(&mut self, number: u32) -> Result<(), AllocError>
        ensures { OnOk result (self.new ≡ self.old ++ numbers.i32 number) }
    {
        self.signed(u64::from(number), 32)
    }

    /// The same of a number of 64 bits.
    pub fn signed64(&mut self, number: u64) -> Result<(), AllocError>
        ensures { OnOk result (self.new ≡ self.old ++ numbers.i64 number) }
    {
        self.signed(number, 64)
    }

    // A number that has so many bits, 7 of them in each byte.
    fn signed(&mut self, number: u64, width: u32) -> Result<(), AllocError>
        requires some { 1 ≤ width }
        requires few { width ≤ 64 }
        requires fits { number < 2 ^ width }
        ensures { OnOk result (self.new ≡ self.old ++ numbers.signed_groups 9 width number) }
    {
        let mut rest = number;
        let mut bits = width;
        while !is_small(rest, bits) {
            self.byte((128 + rest % 128) as u8)?;
            rest /= 128;
            bits -= 7;
        }
        self.byte(last_byte(rest, bits))
    }
}

// The greatest number of so many bits.
fn greatest(bits: u32) -> u64
    requires some { 1 ≤ bits }
    requires few { bits ≤ 64 }
    ensures { result + 1 ≡ 2 ^ bits }
{
    let half = 1u64 << (bits - 1);
    half - 1 + half
}

// Whether a number of so many bits, with a sign, is from -64 to 63.
fn is_small(number: u64, bits: u32) -> bool
    requires some { 1 ≤ bits }
    requires few { bits ≤ 64 }
    requires fits { number < 2 ^ bits }
    ensures { result ≡ numbers.is_small bits number }
{
    number < 64 || greatest(bits) - number < 64
}

// The byte of such a number, of 7 bits with a sign.
fn last_byte(number: u64, bits: u32) -> u8
    requires some { 1 ≤ bits }
    requires few { bits ≤ 64 }
    requires fits { number < 2 ^ bits }
    requires small { numbers.is_small bits number ≡ true }
    ensures { result ∷ [] ≡ numbers.last bits number }
{
    let below_zero = greatest(bits) - number;
    if number <= below_zero {
        number as u8
    } else {
        (127 - below_zero) as u8
    }
}
