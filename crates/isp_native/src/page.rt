//! A text that is written piece by piece.
ghost use Rattle.std.specs.Prelude.{◌≡◌, ◌++◌, ◌∷◌, [], ◌<◌, codes, string_bytes, OnOk};
ghost use Rattle.std.specs.Char.{digit_char};
ghost use Rattle.std.specs.Fmt.{decimal, signed_decimal};
ghost use Rattle.std.specs.List.{flat_map};
ghost use Rattle.isp_native.specs.Lines as lines;
ghost use Rattle.isp_native.specs.Words.{byte_text, register_word};

use crate::line::Tail;
use crate::words;
use isp_code::Register;
use itoa::Buffer;
use std::alloc::{AllocError, Global};
use std::marker::Model;

/// A text so far. Contracts see its bytes.
#[derive(Drop)]
pub(crate) struct Page {
    text: String,
}

impl Model for Page {
    ghost use Rattle.std.specs.Prelude.{ℕ, List, string_bytes};

    ghost Value = { List ℕ };

    ghost view = { λ p. string_bytes p.text };
}

impl Page {
    /// A page with nothing on it.
    pub(crate) fn new(alloc: Global) -> Page
        ensures { result ≡ [] }
    {
        Page {
            text: String::new(alloc),
        }
    }

    /// The text.
    pub(crate) fn into_text(self) -> String
        ensures { string_bytes result ≡ self }
    {
        self.text
    }

    /// A piece of text.
    pub(crate) fn text(&mut self, text: &str) -> Result<(), AllocError>
        ensures { OnOk result (self.new ≡ self.old ++ text.now) }
    {
        self.text.push_str(text)
    }

    /// A piece of text, and a number.
    pub(crate) fn number(&mut self, text: &str, number: u64) -> Result<(), AllocError>
        ensures { OnOk result (self.new ≡ self.old ++ (text.now ++ decimal number)) }
    {
        self.text(text)?;
        let mut buffer = Buffer::new();
        self.text(buffer.format(number))
    }

    /// A constant.
    pub(crate) fn constant(&mut self, number: i128) -> Result<(), AllocError>
        ensures { OnOk result (self.new ≡ self.old ++ signed_decimal number) }
    {
        let mut buffer = Buffer::new();
        self.text(buffer.format(number))
    }

    /// A register.
    pub(crate) fn register(&mut self, register: Register) -> Result<(), AllocError>
        ensures { OnOk result (self.new ≡ self.old ++ register_word register) }
    {
        self.number(words::small(register.class), u64::from(register.number))
    }

    /// A register after others.
    pub(crate) fn behind(&mut self, register: Register) -> Result<(), AllocError>
        ensures { OnOk result (self.new ≡ self.old ++ lines.behind register) }
    {
        self.text(", ")?;
        self.register(register)
    }

    /// Registers after others.
    pub(crate) fn all_behind(&mut self, registers: &[Register]) -> Result<(), AllocError>
        ensures { OnOk result (self.new ≡ self.old ++ flat_map lines.behind registers.now) }
    {
        for register in registers {
            self.behind(*register)?;
        }
        Ok(())
    }

    /// What ends the operands.
    pub(crate) fn tail(&mut self, tail: Tail) -> Result<(), AllocError>
        ensures { OnOk result (self.new ≡ self.old ++ lines.tail_text tail) }
    {
        match tail {
            Tail::Nothing => Ok(()),
            Tail::Place(place) => self.number(", p", u64::from(place)),
            Tail::Label(to) => self.number(", L", u64::from(to)),
            Tail::Number(number) => {
                self.text(", ")?;
                self.constant(number)?;
                self.text("ull")
            }
        }
    }

    /// The bytes of a string.
    pub(crate) fn bytes(&mut self, bytes: &[u8]) -> Result<(), AllocError>
        ensures { OnOk result (self.new ≡ self.old ++ flat_map byte_text bytes.now) }
    {
        for byte in bytes {
            self.byte(*byte)?;
        }
        Ok(())
    }

    fn byte(&mut self, byte: u8) -> Result<(), AllocError>
        ensures { OnOk result (self.new ≡ self.old ++ byte_text byte) }
    {
        self.text("\\x")?;
        self.digit(byte / 16)?;
        self.digit(byte % 16)
    }

    fn digit(&mut self, digit: u8) -> Result<(), AllocError>
        requires { digit < 16 }
        ensures { OnOk result (self.new ≡ self.old ++ digit_char digit ∷ []) }
    {
        self.text.push(hex_char(digit))
    }
}

// A digit of a number to the base 16, in lower case.
fn hex_char(digit: u8) -> char
    requires { digit < 16 }
    ensures digit { result ≡ digit_char digit }
    ensures ascii { result < 128 }
{
    if digit < 10 {
        char::from(b'0' + digit)
    } else {
        char::from(b'a' + (digit - 10))
    }
}
