//! The first message of a stream.
ghost use Rattle.std.specs.Prelude.{◌≡◌, ◌≤◌, ◌^◌, ◌↔◌, All, IfNone, IfSome, IsTrue, Ok, Some, length, map, true};
ghost use Rattle.std.specs.Str.{all_ascii_digits};
ghost use Rattle.std.specs.Str.Parse.{digits_value};
ghost use Rattle.httparse.specs.Spans.{IsHeaderWithin, header_bytes};
ghost use Rattle.isp_rpc_frames.specs.Messages.{Frames, GivesLength, HasHeader, IsLengthName, number};

use httparse::Status;
use httparse::spans::{EMPTY_HEADER_SPAN, HeaderSpan, parse_headers};

/// The longest header that is waited for, in bytes.
const HEADER_LIMIT: usize = 8192;

/// No content has so many bytes.
const LENGTH_LIMIT: u64 = 100_000_000;

/// What the first bytes of a stream are.
#[derive(Clone, Copy, Debug, PartialEq, Eq)]
pub enum Framed {
    /// A message: its content is the bytes from `start` up to `end`, where the next one begins.
    Message { start: usize, end: usize },
    /// The beginning of one.
    Part,
}

/// Why no bytes that follow make a message of the first ones.
#[derive(Clone, Copy, Debug, PartialEq, Eq)]
pub enum FrameFault {
    /// They begin no header, or one of over eight fields.
    Header,
    /// The header does not end in 8,192 bytes.
    LongHeader,
    /// No field is named `Content-Length`, or its value is not a number in digits below 100,000,000.
    Length,
}

/// Where the first message of a stream stands, by the base protocol of the language server protocol 3.17. Of several fields
/// that give a length the first counts; other fields are not looked at.
pub fn first_message(bytes: &[u8]) -> Result<Framed, FrameFault>
    ensures { Frames bytes.now result }
{
    let mut fields = [EMPTY_HEADER_SPAN; 8];
    match parse_headers(bytes, &mut fields) {
        Err(_) => Err(FrameFault::Header),
        Ok(Status::Partial) if bytes.len() > HEADER_LIMIT => Err(FrameFault::LongHeader),
        Ok(Status::Partial) => Ok(Framed::Part),
        Ok(Status::Complete((start, count))) => match length_in(bytes, &fields[..count]) {
            None => Err(FrameFault::Length),
            Some(size) => Ok(content(bytes, start, size)),
        },
    }
}

// So many bytes after a header, if they are all there.
fn content(bytes: &[u8], start: usize, size: usize) -> Framed
    requires { HasHeader bytes.now start (Some size) }
    ensures { Frames bytes.now (Ok result) }
{
    if bytes.len() - start < size {
        return Framed::Part;
    }
    Framed::Message {
        start,
        end: start + size,
    }
}

// The length that the first field of that name gives.
fn length_in(bytes: &[u8], fields: &[HeaderSpan]) -> Option<usize>
    requires { All (IsHeaderWithin (length bytes.now)) fields.now }
    ensures { GivesLength (map (header_bytes bytes.now) fields.now) result }
{
    for field in fields {
        if is_length_name(field.name.of(bytes)) {
            return number(field.value.of(bytes));
        }
    }
    None
}

fn is_length_name(name: &[u8]) -> bool
    ensures { IsTrue result ↔ IsLengthName name.now }
{
    name.eq_ignore_ascii_case(b"content-length")
}

fn number(value: &[u8]) -> Option<usize>
    ensures { result ≡ number value.now }
{
    if value.is_empty() || !are_digits(value) {
        return None;
    }
    match digits_number(value) {
        Some(number) if number < LENGTH_LIMIT => Some(number as usize),
        _ => None,
    }
}

fn are_digits(value: &[u8]) -> bool
    ensures { result ≡ all_ascii_digits value.now }
{
    for byte in value {
        if !byte.is_ascii_digit() {
            return false;
        }
    }
    true
}

// The number of some digits, if it has 64 bits.
fn digits_number(digits: &[u8]) -> Option<u64>
    requires { all_ascii_digits digits.now ≡ true }
    ensures some { IfSome result (λ v. v ≡ digits_value 10 digits.now) }
    ensures none { IfNone result (2 ^ 64 ≤ digits_value 10 digits.now) }
{
    let mut number: u64 = 0;
    for digit in digits {
        let tens = number.checked_mul(10)?;
        number = tens.checked_add(u64::from(*digit - b'0'))?;
    }
    Some(number)
}
