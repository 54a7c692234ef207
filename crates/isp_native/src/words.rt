//! The words of the lines.
ghost use Rattle.std.specs.Prelude.{◌≡◌};
ghost use Rattle.isp_native.specs.Words as words;

use isp_base::{Compare, Elem, UnaryOp};
use isp_code::{Class, Division, Exchange, JumpTest, MaskOp, Plain, Reduction, Register, Scan};

/// A type of C.
pub(crate) fn c_type(elem: Elem) -> &'static str
    ensures { result.now ≡ words.c_type elem }
{
    match elem {
        Elem::Bool => "bool",
        Elem::I8 => "int8_t",
        Elem::U8 => "uint8_t",
        Elem::I16 => "int16_t",
        Elem::U16 => "uint16_t",
        Elem::I32 => "int32_t",
        Elem::U32 => "uint32_t",
        Elem::I64 => "int64_t",
        Elem::U64 => "uint64_t",
    }
}

/// How a register begins.
pub(crate) fn small(class: Class) -> &'static str
    ensures { result.now ≡ words.small class }
{
    match class {
        Class::Scalar => "s",
        Class::Vector => "v",
        Class::Mask => "m",
        Class::Array => "a",
    }
}

/// A class in capitals.
pub(crate) fn capital(class: Class) -> &'static str
    ensures { result.now ≡ words.capital class }
{
    match class {
        Class::Scalar => "S",
        Class::Vector => "V",
        Class::Mask => "M",
        Class::Array => "A",
    }
}

pub(crate) fn unary_word(op: UnaryOp) -> &'static str
    ensures { result.now ≡ words.unary_word op }
{
    match op {
        UnaryOp::Negate => "NEG",
        UnaryOp::Invert => "INV",
        UnaryOp::Absolute => "ABS",
        UnaryOp::Not => "LNOT",
    }
}

pub(crate) fn plain_word(op: Plain) -> &'static str
    ensures { result.now ≡ words.plain_word op }
{
    match op {
        Plain::Add => "ADD",
        Plain::Sub => "SUB",
        Plain::Mul => "MUL",
        Plain::And => "AND",
        Plain::Or => "OR",
        Plain::Xor => "XOR",
        Plain::Shl => "SHL",
        Plain::Shr => "SHR",
        Plain::Min => "MIN",
        Plain::Max => "MAX",
    }
}

pub(crate) fn compare_word(op: Compare) -> &'static str
    ensures { result.now ≡ words.compare_word op }
{
    match op {
        Compare::Equal => "EQ",
        Compare::NotEqual => "NE",
        Compare::Less => "LT",
        Compare::LessOrEqual => "LE",
        Compare::Greater => "GT",
        Compare::GreaterOrEqual => "GE",
    }
}

/// A division's word, by the class of what it writes.
pub(crate) fn division_word(class: Class, op: Division) -> &'static str
    ensures { result.now ≡ words.division_word class op }
{
    match (class, op) {
        (Class::Vector, Division::Div) => "VDIV",
        (Class::Vector, Division::Rem) => "VREM",
        (_, Division::Div) => "DIV",
        (_, Division::Rem) => "REM",
    }
}

pub(crate) fn mask_word(op: MaskOp) -> &'static str
    ensures { result.now ≡ words.mask_word op }
{
    match op {
        MaskOp::And => "MAND",
        MaskOp::Or => "MOR",
        MaskOp::AndNot => "MANDN",
    }
}

pub(crate) fn jump_word(test: JumpTest) -> &'static str
    ensures { result.now ≡ words.jump_word test }
{
    match test {
        JumpTest::False => "JZ",
        JumpTest::True => "JNZ",
        JumpTest::Off => "JOFF",
        JumpTest::On => "JON",
        JumpTest::All => "JALL",
    }
}

pub(crate) fn reduction_word(op: Reduction) -> &'static str
    ensures { result.now ≡ words.reduction_word op }
{
    match op {
        Reduction::Add => "RADD",
        Reduction::Min => "RMIN",
        Reduction::Max => "RMAX",
        Reduction::Equal => "REQU",
        Reduction::Any => "RANY",
        Reduction::All => "RALL",
    }
}

pub(crate) fn scan_word(op: Scan) -> &'static str
    ensures { result.now ≡ words.scan_word op }
{
    match op {
        Scan::Add => "SADD",
        Scan::And => "SAND",
        Scan::Or => "SOR",
    }
}

pub(crate) fn exchange_word(op: Exchange) -> &'static str
    ensures { result.now ≡ words.exchange_word op }
{
    match op {
        Exchange::Broadcast => "BCAST",
        Exchange::Rotate => "ROT",
        Exchange::Shift => "SHF",
    }
}

/// A call's word, by what its result goes to.
pub(crate) fn call_word(result_to: Option<Register>) -> &'static str
    ensures { result.now ≡ words.call_word result_to }
{
    match result_to {
        None => "CALL",
        Some(register) => call_to(register.class),
    }
}

fn call_to(class: Class) -> &'static str
    ensures { result.now ≡ words.call_to class }
{
    match class {
        Class::Vector => "VCALL",
        _ => "SCALL",
    }
}
