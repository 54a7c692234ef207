//! Words as they are read: each reader gives the value that the word spells, or what is wrong with it.
ghost use Rattle.std.specs.Prelude.{◌≡◌, ℕ, ◌<◌, ◌≤◌, ◌^◌, Bool, true, false, if◌then◌else◌, nat_eq, [], ◌∷◌, codes, bytes_eq, Some, None, IfSome, IfNone, IfOk, IfErr, OnOk, MatchOption};
ghost use Rattle.std.specs.Char.{digit_char};
ghost use Rattle.std.specs.Fmt.{decimal, signed_decimal};
ghost use Rattle.std.specs.List.{list_all, list_any, slice_split};
ghost use Rattle.std.specs.Str.{all_ascii_digits};
ghost use Rattle.std.specs.Str.Parse.{digits_value};
ghost use Rattle.isp_base.specs.Types.{gang_width};
ghost use Rattle.isp_code.specs.Writable.{constant_fits, number_fits, name_fits, is_word_byte, register_fits, result_fits, text_fits};
ghost use Rattle.isp_asm.specs.declared.fault.LineFault.TheVariants.{Refused};
ghost use Rattle.isp_asm.specs.declared.fault.Rule.{Rule};
ghost use Rattle.isp_asm.specs.declared.fault.Rule.TheVariants.{BadOperand};
ghost use Rattle.isp_asm.specs.Faults as faults;
ghost use Rattle.isp_asm.specs.Faults.{is_shown, is_space, words_fault};
ghost use Rattle.isp_asm.specs.Forms as forms;
ghost use Rattle.isp_asm.specs.Forms.{Constant, Label, Back, Hex, NumberIn, OneOf, a_kind, a_sharing, a_type, a_value, an_export, digits_fault, negative_fault, positive_fault, is_hex_digit, is_numeral, begins_with_zero, lettered_fault, word_fault};
ghost use Rattle.isp_asm.specs.Spelling.{export_word, kind_word, returns_words, sharing_word};
ghost use Rattle.isp_asm.specs.reader.Reading.{words_of};
ghost use Rattle.isp_asm.specs.Words.{letter as class_letter, register_word, back_word, type_word, hex_word, label_word};

use crate::fault::{LineFault, Rule};
use crate::page;
use isp_base::{Elem, Gang, Name};
use isp_code::{Class, ParamKind, Register, Returns, Sharing};
use std::alloc::{AllocError, Global};

/// Numbers are below this, but for constants.
const NUMBER_LIMIT: u64 = 1 << 32;

/// The least constant is this far below 0.
const LEAST: u64 = 1 << 63;

/// The elements that a local array may have.
const LOCAL_LIMIT: u64 = 65_536;

/// The element types.
const ELEMS: [Elem; 9] = [
    Elem::Bool,
    Elem::I8,
    Elem::U8,
    Elem::I16,
    Elem::U16,
    Elem::I32,
    Elem::U32,
    Elem::I64,
    Elem::U64,
];

/// The words of a line, which single spaces part.
pub(crate) fn split<'a>(alloc: Global, line: &'a str) -> Result<Vec<&'a str>, AllocError>
    ensures { IfOk result (λ ws. words_of ws.items ≡ slice_split is_space line.now) }
{
    line.split(' ').collect(alloc)
}

/// Whether a word has a character, and each of its characters is shown.
pub(crate) fn is_plain(word: &[u8]) -> bool
    ensures { result ≡ faults.is_plain word.now }
{
    !word.is_empty() && are_shown(word)
}

fn are_shown(bytes: &[u8]) -> bool
    ensures { result ≡ list_all is_shown bytes.now }
{
    for byte in bytes {
        if !byte.is_ascii_graphic() {
            return false;
        }
    }
    true
}

/// Whether each word is plain.
pub(crate) fn are_plain(words: &[&str]) -> bool
    ensures { result ≡ list_all faults.is_plain (words_of words.now) }
{
    for word in words {
        if !is_plain(word.as_bytes()) {
            return false;
        }
    }
    true
}

fn are_digits(bytes: &[u8]) -> bool
    ensures { result ≡ all_ascii_digits bytes.now }
{
    for byte in bytes {
        if !byte.is_ascii_digit() {
            return false;
        }
    }
    true
}

fn is_numeral(word: &[u8]) -> bool
    ensures { result ≡ is_numeral word.now }
{
    !word.is_empty() && are_digits(word)
}

fn begins_with_zero(word: &[u8]) -> bool
    ensures { result ≡ begins_with_zero word.now }
{
    match word {
        [first, _, ..] => *first == b'0',
        _ => false,
    }
}

// The number of some digits, if it has 64 bits.
fn digits_number(digits: &[u8]) -> Option<u64>
    requires { all_ascii_digits digits.now ≡ true }
    ensures some { IfSome result (λ v. v ≡ digits_value 10 digits.now) }
    ensures none { IfNone result (2 ^ 64 ≤ digits_value 10 digits.now) }
{
    let mut number: u64 = 0;
    for digit in digits {
        let tens = number.checked_mul(10)?;
        number = tens.checked_add(u64::from(*digit - b'0'))?;
    }
    Some(number)
}

// A number in its only spelling. Whether it is in a range, the caller tests.
fn numeral(bad: Rule, word: &[u8]) -> Result<u64, Rule>
    ensures spelled { IfOk result (λ n. decimal n ≡ word.now) }
    ensures value { IfOk result (λ n. n ≡ digits_value 10 word.now) }
    ensures tested { IfOk result (λ n. (fits : ℕ → Bool) → digits_fault bad fits word.now ≡ (if fits n then None else Some bad)) }
    ensures err { IfErr result (λ e. (fits : ℕ → Bool) → ((n : ℕ) → fits n ≡ true → n < 2 ^ 64) → digits_fault bad fits word.now ≡ Some e) }
{
    if !is_numeral(word) {
        return Err(bad);
    }
    if begins_with_zero(word) {
        return Err(Rule::NotCanonical);
    }
    match digits_number(word) {
        Some(number) => Ok(number),
        None => Err(bad),
    }
}

/// A number below 4,294,967,296.
pub(crate) fn number(bad: Rule, word: &[u8]) -> Result<u32, Rule>
    ensures spelled { IfOk result (λ n. decimal n ≡ word.now) }
    ensures fits { IfOk result (λ n. number_fits n ≡ true) }
    ensures ok { OnOk result (digits_fault bad number_fits word.now ≡ None) }
    ensures err { IfErr result (λ e. digits_fault bad number_fits word.now ≡ Some e) }
{
    match numeral(bad, word) {
        Ok(number) if number < NUMBER_LIMIT => Ok(number as u32),
        Ok(_) => Err(bad),
        Err(rule) => Err(rule),
    }
}

/// A letter and a number.
pub(crate) fn lettered(letter: u8, bad: Rule, word: &str) -> Result<u32, Rule>
    ensures spelled { IfOk result (λ n. letter ∷ decimal n ≡ word.now) }
    ensures fits { IfOk result (λ n. number_fits n ≡ true) }
    ensures ok { OnOk result (lettered_fault bad (letter ∷ []) word.now ≡ None) }
    ensures err { IfErr result (λ e. lettered_fault bad (letter ∷ []) word.now ≡ Some e) }
{
    match word.as_bytes() {
        [first, digits @ ..] if *first == letter => number(bad, digits),
        _ => Err(bad),
    }
}

// The class of registers with a letter.
fn class_of(letter: u8) -> Option<Class>
    ensures some { IfSome result (λ class. (class_letter class ≡ letter) × (list_any (nat_eq letter) (codes "svma") ≡ true)) }
    ensures none { IfNone result (list_any (nat_eq letter) (codes "svma") ≡ false) }
{
    match letter {
        b's' => Some(Class::Scalar),
        b'v' => Some(Class::Vector),
        b'm' => Some(Class::Mask),
        b'a' => Some(Class::Array),
        _ => None,
    }
}

/// A register.
pub(crate) fn register(word: &str) -> Result<Register, Rule>
    ensures spelled { IfOk result (λ r. register_word r ≡ word.now) }
    ensures fits { IfOk result (λ r. register_fits r ≡ true) }
    ensures ok { OnOk result (word_fault forms.register word.now ≡ None) }
    ensures err { IfErr result (λ e. word_fault forms.register word.now ≡ Some e) }
{
    let [first, digits @ ..] = word.as_bytes() else {
        return Err(Rule::BadOperand);
    };
    let class = class_of(*first).ok_or(Rule::BadOperand)?;
    let number = number(Rule::BadOperand, digits)?;
    Ok(Register { class, number })
}

/// A register that may be left out.
pub(crate) fn back(word: &str) -> Result<Option<Register>, Rule>
    ensures spelled { IfOk result (λ r. back_word r ≡ word.now) }
    ensures fits { IfOk result (λ r. result_fits r ≡ true) }
    ensures ok { OnOk result (word_fault Back word.now ≡ None) }
    ensures err { IfErr result (λ e. word_fault Back word.now ≡ Some e) }
{
    if word == "-" {
        return Ok(None);
    }
    Ok(Some(register(word)?))
}

/// An instruction to jump to.
pub(crate) fn label(word: &str) -> Result<u32, Rule>
    ensures spelled { IfOk result (λ n. label_word n ≡ word.now) }
    ensures fits { IfOk result (λ n. number_fits n ≡ true) }
    ensures ok { OnOk result (word_fault Label word.now ≡ None) }
    ensures err { IfErr result (λ e. word_fault Label word.now ≡ Some e) }
{
    lettered(b'L', Rule::BadLabel, word)
}

/// A constant: a value of 64 bits, signed or not.
pub(crate) fn constant(word: &str) -> Result<i128, Rule>
    ensures spelled { IfOk result (λ z. signed_decimal z ≡ word.now) }
    ensures fits { IfOk result (λ z. constant_fits z ≡ true) }
    ensures ok { OnOk result (word_fault Constant word.now ≡ None) }
    ensures err { IfErr result (λ e. word_fault Constant word.now ≡ Some e) }
{
    match word.as_bytes() {
        [b'-', digits @ ..] => negative(digits),
        digits => positive(digits),
    }
}

fn positive(digits: &[u8]) -> Result<i128, Rule>
    ensures spelled { IfOk result (λ z. signed_decimal z ≡ digits.now) }
    ensures fits { IfOk result (λ z. constant_fits z ≡ true) }
    ensures ok { OnOk result (positive_fault digits.now ≡ None) }
    ensures err { IfErr result (λ e. positive_fault digits.now ≡ Some e) }
{
    match numeral(Rule::BadOperand, digits) {
        Ok(number) => Ok(i128::from(number)),
        Err(rule) => Err(rule),
    }
}

// What stands after a minus.
fn negative(digits: &[u8]) -> Result<i128, Rule>
    ensures spelled { IfOk result (λ z. signed_decimal z ≡ 45 ∷ digits.now) }
    ensures fits { IfOk result (λ z. constant_fits z ≡ true) }
    ensures ok { OnOk result (negative_fault digits.now ≡ None) }
    ensures err { IfErr result (λ e. negative_fault digits.now ≡ Some e) }
{
    if digits == b"0".as_slice() {
        return Err(Rule::NotCanonical);
    }
    match numeral(Rule::BadOperand, digits) {
        Ok(number) if number <= LEAST => Ok(-i128::from(number)),
        Ok(_) => Err(Rule::BadOperand),
        Err(rule) => Err(rule),
    }
}

/// An element type.
pub(crate) fn elem(word: &str) -> Result<Elem, Rule>
    ensures spelled { IfOk result (λ t. type_word t ≡ word.now) }
    ensures ok { OnOk result (word_fault a_type word.now ≡ None) }
    ensures err { IfErr result (λ e. word_fault a_type word.now ≡ Some e) }
{
    for elem in &ELEMS {
        if word == page::type_name(*elem) {
            return Ok(*elem);
        }
    }
    Err(Rule::BadOperand)
}

/// How a parameter is passed.
pub(crate) fn kind(word: &str) -> Result<ParamKind, Rule>
    ensures spelled { IfOk result (λ k. kind_word k ≡ word.now) }
    ensures ok { OnOk result (word_fault a_kind word.now ≡ None) }
    ensures err { IfErr result (λ e. word_fault a_kind word.now ≡ Some e) }
{
    match word {
        "s" => Ok(ParamKind::Scalar),
        "v" => Ok(ParamKind::Vector),
        "a" => Ok(ParamKind::Array),
        _ => Err(Rule::BadOperand),
    }
}

/// Whether lanes share a local array.
pub(crate) fn sharing(word: &str) -> Result<Sharing, Rule>
    ensures spelled { IfOk result (λ s. sharing_word s ≡ word.now) }
    ensures ok { OnOk result (word_fault a_sharing word.now ≡ None) }
    ensures err { IfErr result (λ e. word_fault a_sharing word.now ≡ Some e) }
{
    match word {
        "u" => Ok(Sharing::Shared),
        "p" => Ok(Sharing::PerInstance),
        _ => Err(Rule::BadOperand),
    }
}

/// Whether a function is exported.
pub(crate) fn exported(word: &str) -> Result<bool, Rule>
    ensures spelled { IfOk result (λ e. export_word e ≡ word.now) }
    ensures ok { OnOk result (word_fault an_export word.now ≡ None) }
    ensures err { IfErr result (λ e. word_fault an_export word.now ≡ Some e) }
{
    match word {
        "export" => Ok(true),
        "inner" => Ok(false),
        _ => Err(Rule::BadOperand),
    }
}

/// A word that has to be this one.
pub(crate) fn expect(wanted: &str, word: &str) -> Result<(), Rule>
    ensures spelled { OnOk result (word.now ≡ wanted.now) }
    ensures ok { OnOk result (word_fault (OneOf (wanted.now ∷ [])) word.now ≡ None) }
    ensures err { IfErr result (λ e. word_fault (OneOf (wanted.now ∷ [])) word.now ≡ Some e) }
{
    if word == wanted {
        Ok(())
    } else {
        Err(Rule::BadOperand)
    }
}

/// The bytes of a text, in hexadecimal.
pub(crate) fn hex(alloc: Global, word: &str) -> Result<Vec<u8>, LineFault>
    ensures spelled { IfOk result (λ bytes. hex_word bytes.items ≡ word.now) }
    ensures fits { IfOk result (λ bytes. text_fits bytes.items ≡ true) }
    ensures ok { OnOk result (word_fault Hex word.now ≡ None) }
    ensures err { IfErr result (λ e. (r : Rule) → e ≡ Refused r → word_fault Hex word.now ≡ Some r) }
{
    let mut bytes = Vec::new(alloc);
    let mut rest = word.as_bytes();
    while let [high, low, behind @ ..] = rest {
        bytes.push(hex_value(*high)? * 16 + hex_value(*low)?)?;
        rest = behind;
    }
    if bytes.is_empty() || !rest.is_empty() {
        return Err(LineFault::Refused(Rule::BadOperand));
    }
    Ok(bytes)
}

// The value of a digit.
fn hex_value(digit: u8) -> Result<u8, Rule>
    ensures spelled { IfOk result (λ n. (n < 16) × (digit_char n ≡ digit)) }
    ensures ok { OnOk result (is_hex_digit digit ≡ true) }
    ensures err { IfErr result (λ e. (e ≡ BadOperand) × (is_hex_digit digit ≡ false)) }
{
    match digit {
        b'0'..=b'9' => Ok(digit - b'0'),
        b'a'..=b'f' => Ok(digit - b'a' + 10),
        _ => Err(Rule::BadOperand),
    }
}

fn are_word_bytes(bytes: &[u8]) -> bool
    ensures { result ≡ list_all is_word_byte bytes.now }
{
    for byte in bytes {
        if !(byte.is_ascii_alphanumeric() || *byte == b'_') {
            return false;
        }
    }
    true
}

fn is_name(word: &[u8]) -> bool
    ensures { result ≡ name_fits word.now }
{
    match word {
        [] => false,
        [first, rest @ ..] => (first.is_ascii_alphabetic() || *first == b'_')
            && are_word_bytes(rest),
    }
}

/// A name has to stand here.
pub(crate) fn check_name(word: &str) -> Result<(), Rule>
    ensures fits { OnOk result (name_fits word.now ≡ true) }
    ensures ok { OnOk result (word_fault forms.Name word.now ≡ None) }
    ensures err { IfErr result (λ e. word_fault forms.Name word.now ≡ Some e) }
{
    if is_name(word.as_bytes()) {
        Ok(())
    } else {
        Err(Rule::BadOperand)
    }
}

/// The name with these bytes.
pub(crate) fn name(alloc: Global, word: &str) -> Result<Name, AllocError>
    ensures { IfOk result (λ n. n ≡ word.now) }
{
    Ok(Name::new(String::from_str(alloc, word)?))
}

/// A value of a type that a function gives back: one, or one for each lane.
pub(crate) fn value(kind: &str, elem: &str) -> Result<Returns, Rule>
    ensures spelled { IfOk result (λ r. returns_words r ≡ kind.now ∷ elem.now ∷ []) }
    ensures err { IfErr result (λ e. words_fault (a_value ∷ a_type ∷ []) (kind.now ∷ elem.now ∷ []) ≡ Some e) }
{
    match kind {
        "s" => Ok(Returns::Scalar(crate::words::elem(elem)?)),
        "v" => Ok(Returns::Vector(crate::words::elem(elem)?)),
        _ => Err(Rule::BadOperand),
    }
}

/// A version.
pub(crate) fn version(word: &[u8]) -> Result<u64, Rule>
    ensures spelled { IfOk result (λ v. decimal v ≡ word.now) }
    ensures fits { IfOk result (λ v. forms.is_version v ≡ true) }
    ensures ok { OnOk result (word_fault (NumberIn forms.is_version) word.now ≡ None) }
    ensures err { IfErr result (λ e. word_fault (NumberIn forms.is_version) word.now ≡ Some e) }
{
    match numeral(Rule::BadOperand, word) {
        Ok(1) => Ok(1),
        Ok(2) => Ok(2),
        Ok(_) => Err(Rule::BadOperand),
        Err(rule) => Err(rule),
    }
}

/// The number of lanes.
pub(crate) fn gang(word: &[u8]) -> Result<Gang, Rule>
    ensures spelled { IfOk result (λ g. decimal (gang_width g) ≡ word.now) }
    ensures ok { OnOk result (word_fault (NumberIn forms.is_gang) word.now ≡ None) }
    ensures err { IfErr result (λ e. word_fault (NumberIn forms.is_gang) word.now ≡ Some e) }
{
    match numeral(Rule::BadOperand, word) {
        Ok(4) => Ok(Gang::W4),
        Ok(8) => Ok(Gang::W8),
        Ok(16) => Ok(Gang::W16),
        Ok(32) => Ok(Gang::W32),
        Ok(_) => Err(Rule::BadOperand),
        Err(rule) => Err(rule),
    }
}

/// The elements of a local array.
pub(crate) fn size(word: &[u8]) -> Result<u32, Rule>
    ensures spelled { IfOk result (λ n. decimal n ≡ word.now) }
    ensures fits { IfOk result (λ n. forms.is_size n ≡ true) }
    ensures ok { OnOk result (word_fault (NumberIn forms.is_size) word.now ≡ None) }
    ensures err { IfErr result (λ e. word_fault (NumberIn forms.is_size) word.now ≡ Some e) }
{
    match numeral(Rule::BadOperand, word) {
        Ok(size) if 1 <= size && size <= LOCAL_LIMIT => Ok(size as u32),
        Ok(_) => Err(Rule::BadOperand),
        Err(rule) => Err(rule),
    }
}
