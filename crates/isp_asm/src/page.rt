//! A text that is written word by word.
ghost use Rattle.std.specs.Prelude.{◌≡◌, ◌++◌, ◌∷◌, [], ◌<◌, map, codes, string_bytes, OnOk};
ghost use Rattle.std.specs.Char.{digit_char};
ghost use Rattle.std.specs.Fmt.{decimal, signed_decimal};
ghost use Rattle.std.specs.List.{flat_map};
ghost use Rattle.isp_asm.specs.Heads.{head_word};
ghost use Rattle.isp_asm.specs.Rows.{tail_words};
ghost use Rattle.isp_asm.specs.Spelling.{spaced, version_of};
ghost use Rattle.isp_asm.specs.Words.{letter, register_word, back_word, type_word, hex_word, hex_byte};

use crate::head::Head;
use crate::row::Tail;
use isp_base::{Elem, Gang};
use isp_code::{Class, Register};
use itoa::Buffer;
use std::alloc::{AllocError, Global};
use std::marker::Model;

/// A text so far. Contracts see its bytes.
#[derive(Drop)]
pub(crate) struct Page {
    text: String,
}

impl Model for Page {
    ghost use Rattle.std.specs.Prelude.{ℕ, List, string_bytes};

    ghost Value = { List ℕ };

    ghost view = { λ p. string_bytes p.text };
}

impl Page {
    /// A page with nothing on it.
    pub(crate) fn new(alloc: Global) -> Page
        ensures { result ≡ [] }
    {
        Page {
            text: String::new(alloc),
        }
    }

    /// The text.
    pub(crate) fn into_text(self) -> String
        ensures { string_bytes result ≡ self }
    {
        self.text
    }

    /// Begins a line.
    pub(crate) fn head(&mut self, head: Head) -> Result<(), AllocError>
        ensures { OnOk result (self.new ≡ self.old ++ head_word head) }
    {
        self.text.push_str(head.word())
    }

    /// Ends a line.
    pub(crate) fn feed(&mut self) -> Result<(), AllocError>
        ensures { OnOk result (self.new ≡ self.old ++ 10 ∷ []) }
    {
        self.text.push_str("\n")
    }

    /// A further word.
    pub(crate) fn word(&mut self, word: &str) -> Result<(), AllocError>
        ensures { OnOk result (self.new ≡ self.old ++ spaced word.now) }
    {
        self.text.push_str(" ")?;
        self.text.push_str(word)
    }

    /// A number.
    pub(crate) fn number(&mut self, number: u64) -> Result<(), AllocError>
        ensures { OnOk result (self.new ≡ self.old ++ spaced (decimal number)) }
    {
        let mut buffer = Buffer::new();
        self.word(buffer.format(number))
    }

    /// A letter and a number.
    pub(crate) fn lettered(&mut self, letter: &str, number: u32) -> Result<(), AllocError>
        ensures { OnOk result (self.new ≡ self.old ++ spaced (letter.now ++ decimal number)) }
    {
        self.word(letter)?;
        let mut buffer = Buffer::new();
        self.text.push_str(buffer.format(number))
    }

    /// A constant.
    pub(crate) fn constant(&mut self, number: i128) -> Result<(), AllocError>
        ensures { OnOk result (self.new ≡ self.old ++ spaced (signed_decimal number)) }
    {
        let mut buffer = Buffer::new();
        self.word(buffer.format(number))
    }

    /// A register.
    pub(crate) fn register(&mut self, register: Register) -> Result<(), AllocError>
        ensures { OnOk result (self.new ≡ self.old ++ spaced (register_word register)) }
    {
        self.lettered(letter_of(register.class), register.number)
    }

    /// Registers.
    pub(crate) fn registers(&mut self, registers: &[Register]) -> Result<(), AllocError>
        ensures { OnOk result (self.new ≡ self.old ++ flat_map spaced (map register_word registers.now)) }
    {
        for register in registers {
            self.register(*register)?;
        }
        Ok(())
    }

    /// A register that may be left out.
    pub(crate) fn back(&mut self, register: Option<Register>) -> Result<(), AllocError>
        ensures { OnOk result (self.new ≡ self.old ++ spaced (back_word register)) }
    {
        match register {
            None => self.word("-"),
            Some(register) => self.register(register),
        }
    }

    /// What ends the line of an instruction.
    pub(crate) fn tail(&mut self, tail: Tail) -> Result<(), AllocError>
        ensures { OnOk result (self.new ≡ self.old ++ flat_map spaced (tail_words tail)) }
    {
        match tail {
            Tail::Nothing => Ok(()),
            Tail::Place(place) => self.lettered("p", place),
            Tail::Label(to) => self.lettered("L", to),
            Tail::Text(text) => self.lettered("t", text),
            Tail::Number(number) => self.constant(number),
            Tail::Back(register) => self.back(register),
        }
    }

    /// An element type.
    pub(crate) fn elem(&mut self, elem: Elem) -> Result<(), AllocError>
        ensures { OnOk result (self.new ≡ self.old ++ spaced (type_word elem)) }
    {
        self.word(type_name(elem))
    }

    /// Element types.
    pub(crate) fn elems(&mut self, elems: &[Elem]) -> Result<(), AllocError>
        ensures { OnOk result (self.new ≡ self.old ++ flat_map spaced (map type_word elems.now)) }
    {
        for elem in elems {
            self.elem(*elem)?;
        }
        Ok(())
    }

    /// Bytes in hexadecimal.
    pub(crate) fn hex(&mut self, bytes: &[u8]) -> Result<(), AllocError>
        ensures { OnOk result (self.new ≡ self.old ++ spaced (hex_word bytes.now)) }
    {
        self.word("")?;
        for byte in bytes {
            self.hex_byte(*byte)?;
        }
        Ok(())
    }

    fn hex_byte(&mut self, byte: u8) -> Result<(), AllocError>
        ensures { OnOk result (self.new ≡ self.old ++ hex_byte byte) }
    {
        self.hex_digit(byte / 16)?;
        self.hex_digit(byte % 16)
    }

    fn hex_digit(&mut self, digit: u8) -> Result<(), AllocError>
        requires { digit < 16 }
        ensures { OnOk result (self.new ≡ self.old ++ digit_char digit ∷ []) }
    {
        self.text.push(hex_char(digit))
    }
}

// A digit of a number to the base 16, in lower case.
fn hex_char(digit: u8) -> char
    requires { digit < 16 }
    ensures digit { result ≡ digit_char digit }
    ensures ascii { result < 128 }
{
    if digit < 10 {
        char::from(b'0' + digit)
    } else {
        char::from(b'a' + (digit - 10))
    }
}

// The letter of a class of registers.
fn letter_of(class: Class) -> &'static str
    ensures { result.now ≡ letter class ∷ [] }
{
    match class {
        Class::Scalar => "s",
        Class::Vector => "v",
        Class::Mask => "m",
        Class::Array => "a",
    }
}

/// The version of code for a gang.
pub(crate) fn version_of(gang: Gang) -> u64
    ensures { result ≡ version_of gang }
{
    match gang {
        Gang::W4 | Gang::W8 | Gang::W16 => 1,
        Gang::W32 => 2,
    }
}

/// The word of an element type.
pub(crate) fn type_name(elem: Elem) -> &'static str
    ensures { result.now ≡ type_word elem }
{
    match elem {
        Elem::Bool => "b",
        Elem::I8 => "i8",
        Elem::U8 => "u8",
        Elem::I16 => "i16",
        Elem::U16 => "u16",
        Elem::I32 => "i32",
        Elem::U32 => "u32",
        Elem::I64 => "i64",
        Elem::U64 => "u64",
    }
}
