//! What the text of code can have.
ghost use Rattle.std.specs.Prelude.{◌≡◌, true};
ghost use Rattle.std.specs.List.{list_all};
ghost use Rattle.isp_code.specs.Listing.{routine_of};
ghost use Rattle.isp_code.specs.Writable as writable;

use crate::function::{Function, Local, Param};
use crate::instr::{Call, Instr, MaskInstr, ScalarInstr, VectorInstr};
use crate::register::Register;
use isp_base::Span;

/// The bytes that a source may have.
const SOURCE_LIMIT: usize = 1_048_576;

/// The elements that a local array may have.
const LOCAL_LIMIT: u32 = 65_536;

/// Every number in the text of code is below this, but for constants.
const NUMBER_LIMIT: u64 = 1 << 32;

/// Whether the text can have a place: it does not end before it starts, nor after the longest source.
pub(crate) fn place_fits(place: Span) -> bool
    ensures { result ≡ writable.place_fits place }
{
    place.start <= place.end && place.end <= SOURCE_LIMIT
}

/// Whether the text can have a text that is written: it has a byte.
pub(crate) fn text_fits(text: &[u8]) -> bool
    ensures written { result ≡ writable.text_fits text.now }
    ensures typed { result ≡ writable.has_byte text.now }
{
    !text.is_empty()
}

fn is_word_byte(byte: u8) -> bool
    ensures { result ≡ writable.is_word_byte byte }
{
    byte.is_ascii_alphanumeric() || byte == b'_'
}

fn are_word_bytes(bytes: &[u8]) -> bool
    ensures { result ≡ list_all writable.is_word_byte bytes.now }
{
    for byte in bytes {
        if !is_word_byte(*byte) {
            return false;
        }
    }
    true
}

// A word: a letter or `_`, then letters, digits and `_`.
fn name_fits(name: &[u8]) -> bool
    ensures { result ≡ writable.name_fits name.now }
{
    match name {
        [] => false,
        [first, rest @ ..] => (first.is_ascii_alphabetic() || *first == b'_')
            && are_word_bytes(rest),
    }
}

fn params_fit(params: &[Param]) -> bool
    ensures { result ≡ list_all writable.param_fits params.now }
{
    for param in params {
        if !name_fits(param.name.as_str().as_bytes()) {
            return false;
        }
    }
    true
}

fn local_fits(local: &Local) -> bool
    ensures { result ≡ writable.local_fits local.now }
{
    1 <= local.size && local.size <= LOCAL_LIMIT
}

fn locals_fit(locals: &[Local]) -> bool
    ensures { result ≡ list_all writable.local_fits locals.now }
{
    for local in locals {
        if !local_fits(local) {
            return false;
        }
    }
    true
}

fn number_fits(number: u32) -> bool
    ensures written { result ≡ writable.number_fits number }
    ensures typed { result ≡ true }
{
    u64::from(number) < NUMBER_LIMIT
}

// A constant is a value of 64 bits, signed or not.
fn constant_fits(number: i128) -> bool
    ensures { result ≡ writable.constant_fits number }
{
    i128::from(i64::MIN) <= number && number <= i128::from(u64::MAX)
}

fn fits(register: &Register) -> bool
    ensures written { result ≡ writable.register_fits register.now }
    ensures typed { result ≡ true }
{
    number_fits(register.number)
}

fn all_fit(registers: &[Register]) -> bool
    ensures written { result ≡ list_all writable.register_fits registers.now }
    ensures typed { result ≡ true }
{
    for register in registers {
        if !fits(register) {
            return false;
        }
    }
    true
}

fn access_fits(d: &Register, x: &Register, y: &Register, k: &Register, place: u32) -> bool
    ensures written { result ≡ writable.access_fits d.now x.now y.now k.now place }
    ensures typed { result ≡ true }
{
    fits(d) && fits(x) && fits(y) && fits(k) && number_fits(place)
}

fn scalar_fits(instr: &ScalarInstr) -> bool
    ensures written { result ≡ writable.scalar_fits instr.now }
    ensures typed { result ≡ writable.scalar_constant instr.now }
{
    match instr {
        ScalarInstr::Constant(n) => constant_fits(*n),
        ScalarInstr::Copy(x) => fits(x),
        ScalarInstr::Convert(x) => fits(x),
        ScalarInstr::Unary { value, .. } => fits(value),
        ScalarInstr::Binary { left, right, .. } => fits(left) && fits(right),
        ScalarInstr::Compare { left, right, .. } => fits(left) && fits(right),
        ScalarInstr::Select {
            test,
            if_true,
            if_false,
        } => fits(test) && fits(if_true) && fits(if_false),
        ScalarInstr::First(x) => fits(x),
        ScalarInstr::Load {
            array,
            index,
            mask,
            place,
        } => fits(array) && fits(index) && fits(mask) && number_fits(*place),
        ScalarInstr::Reduce { vector, mask, .. } => fits(vector) && fits(mask),
        ScalarInstr::Extract { vector, lane, mask } => fits(vector) && fits(lane) && fits(mask),
    }
}

fn vector_fits(instr: &VectorInstr) -> bool
    ensures written { result ≡ writable.vector_fits instr.now }
    ensures typed { result ≡ true }
{
    match instr {
        VectorInstr::Copy { value, mask } => fits(value) && fits(mask),
        VectorInstr::Convert { value, mask } => fits(value) && fits(mask),
        VectorInstr::Unary { value, mask, .. } => fits(value) && fits(mask),
        VectorInstr::Binary {
            left,
            right,
            mask,
            ..
        } => fits(left) && fits(right) && fits(mask),
        VectorInstr::Compare {
            left,
            right,
            mask,
            ..
        } => fits(left) && fits(right) && fits(mask),
        VectorInstr::Select {
            test,
            if_true,
            if_false,
            mask,
        } => fits(test) && fits(if_true) && fits(if_false) && fits(mask),
        VectorInstr::Splat { value, mask } => fits(value) && fits(mask),
        VectorInstr::Index(k) => fits(k),
        VectorInstr::Gather {
            array,
            indices,
            mask,
            place,
        } => fits(array) && fits(indices) && fits(mask) && number_fits(*place),
        VectorInstr::LoadRun {
            array,
            index,
            mask,
            place,
        } => fits(array) && fits(index) && fits(mask) && number_fits(*place),
        VectorInstr::Scan { value, mask, .. } => fits(value) && fits(mask),
        VectorInstr::Exchange {
            vector,
            by,
            mask,
            ..
        } => fits(vector) && fits(by) && fits(mask),
        VectorInstr::Shuffle {
            vector,
            lanes,
            mask,
        } => fits(vector) && fits(lanes) && fits(mask),
        VectorInstr::ShuffleTwo {
            first,
            second,
            lanes,
            mask,
        } => fits(first) && fits(second) && fits(lanes) && fits(mask),
        VectorInstr::Insert {
            vector,
            lane,
            value,
            mask,
        } => fits(vector) && fits(lane) && fits(value) && fits(mask),
    }
}

fn mask_fits(instr: &MaskInstr) -> bool
    ensures written { result ≡ writable.mask_fits instr.now }
    ensures typed { result ≡ true }
{
    match instr {
        MaskInstr::Copy(x) => fits(x),
        MaskInstr::Binary { left, right, .. } => fits(left) && fits(right),
        MaskInstr::Full => true,
        MaskInstr::Off => true,
        MaskInstr::Test { vector, mask } => fits(vector) && fits(mask),
        MaskInstr::Lowest(x) => fits(x),
        MaskInstr::Range { first, end } => fits(first) && fits(end),
    }
}

fn result_fits(register: &Option<Register>) -> bool
    ensures written { result ≡ writable.result_fits register.now }
    ensures typed { result ≡ true }
{
    match register {
        None => true,
        Some(register) => fits(register),
    }
}

fn call_fits(call: &Call) -> bool
    ensures written { result ≡ writable.call_fits call.now }
    ensures typed { result ≡ true }
{
    number_fits(call.function)
        && result_fits(&call.result)
        && fits(&call.mask)
        && number_fits(call.place)
        && all_fit(call.arguments.as_slice())
}

fn instr_fits(instr: &Instr) -> bool
    ensures written { result ≡ writable.instr_fits instr.now }
    ensures typed { result ≡ writable.constant_in instr.now }
{
    match instr {
        Instr::Scalar { result, instr } => fits(result) && scalar_fits(instr),
        Instr::Vector { result, instr } => fits(result) && vector_fits(instr),
        Instr::Mask { result, instr } => fits(result) && mask_fits(instr),
        Instr::Divide {
            result,
            dividend,
            divisor,
            mask,
            place,
            ..
        } => access_fits(result, dividend, divisor, mask, *place),
        Instr::Store {
            array,
            index,
            value,
            mask,
            place,
        } => access_fits(array, index, value, mask, *place),
        Instr::Scatter {
            array,
            indices,
            value,
            mask,
            place,
        } => access_fits(array, indices, value, mask, *place),
        Instr::StoreRun {
            array,
            index,
            value,
            mask,
            place,
        } => access_fits(array, index, value, mask, *place),
        Instr::PackedStore {
            count,
            array,
            index,
            value,
            mask,
            place,
        } => fits(count) && access_fits(array, index, value, mask, *place),
        Instr::PackedLoad {
            count,
            array,
            index,
            result,
            mask,
            place,
        } => fits(count) && access_fits(array, index, result, mask, *place),
        Instr::Clear { array, mask } => fits(array) && fits(mask),
        Instr::Jump { target } => number_fits(*target),
        Instr::JumpIf {
            register,
            target,
            ..
        } => fits(register) && number_fits(*target),
        Instr::Say { text } => number_fits(*text),
        Instr::PrintScalar(x) => fits(x),
        Instr::PrintVector { vector, mask } => fits(vector) && fits(mask),
        Instr::Fail { mask, place } => fits(mask) && number_fits(*place),
        Instr::Call(call) => call_fits(call.get()),
        Instr::Return(x) => result_fits(x),
    }
}

fn instrs_fit(code: &[Instr]) -> bool
    ensures written { result ≡ list_all writable.instr_fits code.now }
    ensures typed { result ≡ list_all writable.constant_in code.now }
{
    for instr in code {
        if !instr_fits(instr) {
            return false;
        }
    }
    true
}

/// Whether the text can have a function: its names are words, its local arrays have 1 to 65,536 elements, and its
/// numbers are in their ranges. Numbers of 32 bits are, so constants alone are asked.
pub(crate) fn function_fits(function: &Function) -> bool
    ensures written { result ≡ writable.routine_fits (routine_of function.now) }
    ensures typed { result ≡ writable.parts_fit (routine_of function.now) }
{
    name_fits(function.name.as_str().as_bytes())
        && params_fit(&function.params)
        && locals_fit(&function.locals)
        && number_fits(function.masks)
        && instrs_fit(&function.code)
}
