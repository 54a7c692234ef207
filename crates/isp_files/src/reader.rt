//! What is left of a file's bytes, and the pieces that are read from it.
ghost use Rattle.std.specs.Prelude.{◌≡◌, ◌<◌, ◌≤◌, ◌+◌, ◌*◌, ◌==◌, ℕ, drop, length, slice_index, true, IfOk, IfErr, MatchOption, Ok, Err, OnOk};
ghost use Rattle.std.specs.List.{prefix_len};
ghost use Rattle.std.specs.Bool.{OnTrue};
ghost use Rattle.std.specs.Char.{digit_value};
ghost use Rattle.std.specs.Str.Parse.{digits_value};
ghost use Rattle.isp_files.specs.Reading.{byte_of, decimal_of, end_of, is_blank, is_digit, longest, number_of, past_blanks, sign_of, word_of};
ghost use Rattle.isp_files.specs.declared.fault.Slip.TheVariants as slip;

use crate::fault::{Flaw, Slip};
use std::marker::Model;

/// The elements that an array may have, and the greatest number in a header.
pub(crate) const LONGEST: usize = (1 << 63) - 1;

/// What is left of a file's bytes. After an error it is not said what is.
#[derive(Drop)]
pub(crate) struct Reader<'a> {
    rest: &'a [u8],
}

impl<'a> Model for Reader<'a> {
    ghost use Rattle.std.specs.Prelude.{List, ℕ};

    ghost Value = { List ℕ };

    ghost view = { λ r. r.rest.now };
}

impl<'a> Reader<'a> {
    pub(crate) fn new(rest: &'a [u8]) -> Reader<'a>
        ensures { result ≡ rest.now }
    {
        Reader { rest }
    }

    pub(crate) fn rest(&self) -> &'a [u8]
        ensures { result.now ≡ self.now }
    {
        self.rest
    }

    /// The flaw, at the byte where the reader stands.
    pub(crate) fn flawed(&self, flaw: Flaw) -> Slip
        ensures { result ≡ slip.At flaw (length self.now) }
    {
        Slip::At {
            flaw,
            left: self.rest.len(),
        }
    }

    /// The next byte.
    pub(crate) fn byte(&mut self) -> Result<u8, Slip>
        ensures ok { IfOk result (λ b. byte_of self.old ≡ Ok (b, self.new)) }
        ensures err { IfErr result (λ e. byte_of self.old ≡ Err e) }
    {
        let Some((first, rest)) = self.rest.split_first() else {
            return Err(self.flawed(Flaw::Ends));
        };
        self.rest = rest;
        Ok(*first)
    }

    /// This byte; another is a flaw of this kind.
    pub(crate) fn sign(&mut self, flaw: Flaw, wanted: u8) -> Result<(), Slip>
        ensures ok { OnOk result (sign_of flaw wanted self.old ≡ Ok (tt, self.new)) }
        ensures err { IfErr result (λ e. sign_of flaw wanted self.old ≡ Err e) }
    {
        let Some((first, rest)) = self.rest.split_first() else {
            return Err(self.flawed(Flaw::Ends));
        };
        if *first != wanted {
            return Err(self.flawed(flaw));
        }
        self.rest = rest;
        Ok(())
    }

    /// These bytes; another is a flaw of this kind.
    pub(crate) fn word(&mut self, flaw: Flaw, wanted: &[u8]) -> Result<(), Slip>
        ensures ok { OnOk result (word_of flaw wanted.now self.old ≡ Ok (tt, self.new)) }
        ensures err { IfErr result (λ e. word_of flaw wanted.now self.old ≡ Err e) }
    {
        for sign in wanted {
            self.sign(flaw, *sign)?;
        }
        Ok(())
    }

    /// Goes so many bytes on.
    pub(crate) fn skip(&mut self, count: usize)
        requires { count ≤ length self.old }
        ensures { self.new ≡ drop count self.old }
    {
        self.rest = &self.rest[count..];
    }

    /// Past blanks.
    pub(crate) fn blanks(&mut self)
        ensures { self.new ≡ past_blanks self.old }
    {
        let count = blanks(self.rest);
        self.skip(count);
    }

    /// Whether this byte stands next.
    pub(crate) fn sees(&self, wanted: u8) -> bool
        requires { 0 < wanted }
        ensures byte { result ≡ (slice_index self.now 0 == wanted) }
        ensures there { OnTrue result (1 ≤ length self.now) }
    {
        match self.rest.split_first() {
            Some((first, _)) => *first == wanted,
            None => false,
        }
    }

    /// No byte is left.
    pub(crate) fn end(&mut self) -> Result<(), Slip>
        ensures ok { OnOk result (end_of self.old ≡ Ok (tt, self.new)) }
        ensures err { IfErr result (λ e. end_of self.old ≡ Err e) }
    {
        if self.rest.is_empty() {
            Ok(())
        } else {
            Err(self.flawed(Flaw::Long))
        }
    }

    /// A number in digits.
    pub(crate) fn number(&mut self) -> Result<usize, Slip>
        ensures ok { IfOk result (λ n. number_of self.old ≡ Ok (n, self.new)) }
        ensures fits { IfOk result (λ n. n ≤ longest) }
        ensures err { IfErr result (λ e. number_of self.old ≡ Err e) }
    {
        let count = digits(self.rest);
        if count == 0 {
            return Err(self.no_digit());
        }
        let Some(number) = value(&self.rest[..count]) else {
            return Err(self.flawed(Flaw::TooMany));
        };
        self.skip(count);
        Ok(number)
    }

    // Another byte than a digit, or none.
    fn no_digit(&self) -> Slip
        ensures { decimal_of 0 self.now ≡ Err result }
    {
        self.flawed(if self.rest.is_empty() {
            Flaw::Ends
        } else {
            Flaw::Header
        })
    }
}

// A blank, a tab, a line feed and its kin.
pub(crate) fn is_blank(byte: u8) -> bool
    ensures { result ≡ is_blank byte }
{
    byte == b' ' || (8 < byte && byte < 14)
}

fn is_digit(byte: u8) -> bool
    ensures { result ≡ is_digit byte }
{
    char::from(byte).is_digit(10)
}

// How many blanks stand first.
fn blanks(bytes: &[u8]) -> usize
    ensures count { result ≡ prefix_len is_blank bytes.now }
    ensures bound { result ≤ length bytes.now }
{
    bytes.iter().take_while(|byte| is_blank(**byte)).count()
}

// How many digits stand first.
fn digits(bytes: &[u8]) -> usize
    ensures count { result ≡ prefix_len is_digit bytes.now }
    ensures bound { result ≤ length bytes.now }
{
    bytes.iter().take_while(|byte| is_digit(**byte)).count()
}

// The number of the digits, where it is not too great.
fn value(digits: &[u8]) -> Option<usize>
    requires { (k : ℕ) → k < length digits.now → is_digit (slice_index digits.now k) ≡ true }
    ensures { MatchOption result (longest < digits_value 10 digits.now) (λ n. (n ≡ digits_value 10 digits.now) × (n ≤ longest)) }
{
    let mut number = 0;
    for digit in digits {
        let digit = digit_of(*digit);
        number = with_digit(number, digit)?;
    }
    Some(number)
}

fn digit_of(byte: u8) -> usize
    requires { is_digit byte ≡ true }
    ensures value { result ≡ digit_value byte }
    ensures bound { result < 10 }
{
    match char::from(byte).to_digit(10) {
        Some(digit) => digit as usize,
        None => unreachable!(),
    }
}

// The number with one more digit, where it is not too great.
fn with_digit(number: usize, digit: usize) -> Option<usize>
    requires number { number ≤ longest }
    requires digit { digit < 10 }
    ensures { MatchOption result (longest < number * 10 + digit) (λ n. (n ≡ number * 10 + digit) × (n ≤ longest)) }
{
    if number > (LONGEST - digit) / 10 {
        return None;
    }
    Some(number * 10 + digit)
}
