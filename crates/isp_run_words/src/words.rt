//! What a word says, as far as the word itself tells.
ghost use Rattle.std.specs.Prelude.{◌≡◌, ◌≢◌, ◌++◌, ◌∷◌, [], ℕ, List, MatchOption, codes};
ghost use Rattle.isp_run_words.specs.Saying.{IsLengths, IsOutput, IsWord, Lacks, Parts, Says, begun, format_of, grown_of, is_input, is_whole, lengths_of, step_of, times_of};

/// The format of a file, by the ending of its name.
#[derive(Clone, Copy, Debug, PartialEq, Eq)]
pub enum Format {
    Json,
    Npy,
    Pgm,
    Ppm,
}

/// What a word gives to a parameter.
#[derive(Clone, Copy, Debug)]
pub enum Value<'a> {
    /// A text of JSON: a number, `true`, `false`, or a list.
    Literal(&'a str),
    /// A file of this name, by its ending; of another ending its format is not known.
    File(&'a str, Option<Format>),
    /// The standard input, a text of JSON.
    Input,
    /// So many elements that are 0, as a product of lengths; `None` where what stands in the brackets is none.
    Zeros(Option<usize>),
}

/// A word's name and its value, `NAME=VALUE`; no name where the word is a file that holds all arguments, `@FILE`, or `-`.
///
/// A value is `@FILE`, `@-` or `-` for the standard input, `zeros(N*M*..)`, or else a text of JSON. `None` where the word has no `=` and
/// is no file. The name ends before the first `=`.
pub fn read_value(word: &str) -> Option<(Option<&str>, Value<'_>)>
    ensures { IsWord word.now result }
{
    if is_whole(word) {
        return Some((None, value_of(word)));
    }
    let (name, value) = parts(word)?;
    Some((Some(name), value_of(value)))
}

/// The name of an array and the file that it is written to, `NAME=FILE`, with its format by its ending. `None` where the word has no `=`.
pub fn read_output(word: &str) -> Option<(&str, &str, Option<Format>)>
    ensures { IsOutput word.now result }
{
    let (name, file) = parts(word)?;
    Some((name, file, format_of(file)))
}

#[tactic(auto, using(crate::proofs::Patterns::starts))]
fn is_whole(word: &str) -> bool
    ensures { result ≡ is_whole word.now }
{
    word == "-" || word.starts_with("@")
}

fn is_input(text: &str) -> bool
    ensures { result ≡ is_input text.now }
{
    text == "-" || text == "@-"
}

fn value_of(text: &str) -> Value<'_>
    ensures { Says text.now result }
{
    if is_input(text) {
        return Value::Input;
    }
    if let Some(file) = behind_at(text) {
        return Value::File(file, format_of(file));
    }
    match behind_zeros(text) {
        Some(rest) => Value::Zeros(lengths(rest)),
        None => Value::Literal(text),
    }
}

// By the ending of the name.
#[tactic(auto, using(crate::proofs::Patterns::ends))]
fn format_of(file: &str) -> Option<Format>
    ensures { result ≡ format_of file.now }
{
    if file.ends_with(".json") {
        return Some(Format::Json);
    }
    if file.ends_with(".npy") {
        return Some(Format::Npy);
    }
    if file.ends_with(".pgm") {
        return Some(Format::Pgm);
    }
    if file.ends_with(".ppm") {
        return Some(Format::Ppm);
    }
    None
}

// The parts before and after the first `=`.
fn parts(word: &str) -> Option<(&str, &str)>
    ensures { MatchOption result (Lacks 61 word.now) (λ x. Parts word.now x.0.now x.1.now) }
{
    word.split_once('=')
}

#[tactic(auto, using(crate::proofs::Patterns::behind_char))]
fn behind_at(text: &str) -> Option<&str>
    ensures { MatchOption result ((rest : List ℕ) → text.now ≢ 64 ∷ rest) (λ x. text.now ≡ 64 ∷ x.now) }
{
    text.strip_prefix('@')
}

#[tactic(auto, using(crate::proofs::Patterns::behind_text))]
fn behind_zeros(text: &str) -> Option<&str>
    ensures { MatchOption result ((rest : List ℕ) → text.now ≢ codes "zeros(" ++ rest) (λ x. text.now ≡ codes "zeros(" ++ x.now) }
{
    text.strip_prefix("zeros(")
}

#[tactic(auto, using(crate::proofs::Patterns::before_char))]
fn before_bracket(text: &str) -> Option<&str>
    ensures { MatchOption result ((front : List ℕ) → text.now ≢ front ++ 41 ∷ []) (λ x. text.now ≡ x.now ++ 41 ∷ []) }
{
    text.strip_suffix(')')
}

// What stands after `zeros(`.
fn lengths(rest: &str) -> Option<usize>
    ensures { IsLengths rest.now result }
{
    match before_bracket(rest) {
        Some(inner) => product(inner.as_bytes()),
        None => None,
    }
}

/// What was read of lengths with `*` between them: the product of those before, and the one that is being read.
#[derive(Clone, Copy)]
struct LengthsRead {
    product: usize,
    number: Option<usize>,
}

// The product of decimal numbers with `*` between them.
fn product(text: &[u8]) -> Option<usize>
    ensures { result ≡ lengths_of text.now }
{
    let mut read = LengthsRead {
        product: 1,
        number: None,
    };
    for byte in text {
        read = step(read, *byte)?;
    }
    times(read.product, read.number)
}

// What was read, with a byte after it.
fn step(read: LengthsRead, byte: u8) -> Option<LengthsRead>
    ensures { result ≡ step_of read byte }
{
    if byte == b'*' {
        let product = times(read.product, read.number)?;
        Some(LengthsRead {
            product,
            number: None,
        })
    } else {
        let number = grown(read.number, byte)?;
        Some(LengthsRead {
            product: read.product,
            number: Some(number),
        })
    }
}

fn times(product: usize, number: Option<usize>) -> Option<usize>
    ensures { result ≡ times_of product number }
{
    product.checked_mul(number?)
}

// A number with a digit after it.
fn grown(number: Option<usize>, digit: u8) -> Option<usize>
    ensures { result ≡ grown_of number digit }
{
    if digit < b'0' || digit > b'9' {
        return None;
    }
    let before = begun(number).checked_mul(10)?;
    before.checked_add(usize::from(digit - b'0'))
}

// The number that is being read; 0 before its first digit.
fn begun(number: Option<usize>) -> usize
    ensures { result ≡ begun number }
{
    match number {
        Some(number) => number,
        None => 0,
    }
}
