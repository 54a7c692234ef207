//! The words that the language reserves: those in use, and those that it leaves out.
ghost use Rattle.std.specs.Prelude.{◌≡◌, None};
ghost use Rattle.isp_lex.specs.reader.Words.{found_in, left_in, reserved};

use crate::token::{Mark, TokenKind};

const TWO: [(&str, Mark); 2] = [("if", Mark::If), ("do", Mark::Do)];

const THREE: [(&str, Mark); 4] = [
    ("int", Mark::Int),
    ("cif", Mark::Cif),
    ("cdo", Mark::Cdo),
    ("for", Mark::For),
];

const FOUR: [(&str, Mark); 7] = [
    ("void", Mark::Void),
    ("bool", Mark::Bool),
    ("int8", Mark::Int8),
    ("uint", Mark::Uint),
    ("else", Mark::Else),
    ("cfor", Mark::Cfor),
    ("true", Mark::True),
];

const FIVE: [(&str, Mark); 9] = [
    ("int16", Mark::Int16),
    ("int32", Mark::Int32),
    ("int64", Mark::Int64),
    ("uint8", Mark::Uint8),
    ("const", Mark::Const),
    ("while", Mark::While),
    ("break", Mark::Break),
    ("print", Mark::Print),
    ("false", Mark::False),
];

const SIX: [(&str, Mark); 10] = [
    ("uint16", Mark::Uint16),
    ("uint32", Mark::Uint32),
    ("uint64", Mark::Uint64),
    ("signed", Mark::Signed),
    ("export", Mark::Export),
    ("static", Mark::Static),
    ("inline", Mark::Inline),
    ("cwhile", Mark::Cwhile),
    ("return", Mark::Return),
    ("assert", Mark::Assert),
];

const SEVEN: [(&str, Mark); 3] = [
    ("uniform", Mark::Uniform),
    ("varying", Mark::Varying),
    ("foreach", Mark::Foreach),
];

const EIGHT: [(&str, Mark); 3] = [
    ("unsigned", Mark::Unsigned),
    ("unmasked", Mark::Unmasked),
    ("continue", Mark::Continue),
];

const TWELVE: [(&str, Mark); 2] = [
    ("programIndex", Mark::ProgramIndex),
    ("programCount", Mark::ProgramCount),
];

const THIRTEEN: [(&str, Mark); 1] = [("foreach_tiled", Mark::ForeachTiled)];

const FOURTEEN: [(&str, Mark); 2] = [
    ("foreach_active", Mark::ForeachActive),
    ("foreach_unique", Mark::ForeachUnique),
];

const THREE_LEFT_OUT: [&str; 2] = ["new", "soa"];

const FOUR_LEFT_OUT: [&str; 6] = ["enum", "case", "goto", "task", "sync", "NULL"];

const FIVE_LEFT_OUT: [&str; 1] = ["float"];

const SIX_LEFT_OUT: [&str; 9] = [
    "double", "struct", "switch", "delete", "launch", "extern", "sizeof", "size_t", "cbreak",
];

const SEVEN_LEFT_OUT: [&str; 4] = ["float16", "typedef", "default", "creturn"];

const EIGHT_LEFT_OUT: [&str; 4] = ["template", "typename", "operator", "intptr_t"];

const NINE_LEFT_OUT: [&str; 3] = ["ptrdiff_t", "uintptr_t", "ccontinue"];

/// The kind of a word among these words in use.
fn in_use(words: &[(&str, Mark)], word: &str) -> Option<TokenKind>
    ensures { result ≡ found_in words.now None word.now }
{
    for (spelling, mark) in words {
        if word == *spelling {
            return Some(TokenKind::Mark(*mark));
        }
    }
    None
}

/// The kind of a word among these that are left out.
fn left_out(words: &[&str], word: &str) -> Option<TokenKind>
    ensures { result ≡ left_in words.now word.now }
{
    for spelling in words {
        if word == *spelling {
            return Some(TokenKind::LeftOut);
        }
    }
    None
}

/// The kind of a word among these words in use and these that are left out.
fn find(words: &[(&str, Mark)], others: &[&str], word: &str) -> Option<TokenKind>
    ensures { result ≡ found_in words.now (left_in others.now word.now) word.now }
{
    match in_use(words, word) {
        Some(kind) => Some(kind),
        None => left_out(others, word),
    }
}

/// The kind of a reserved word, and `None` for any other.
pub(crate) fn reserved(word: &str) -> Option<TokenKind>
    ensures { result ≡ reserved word.now }
{
    match word.len() {
        2 => find(&TWO, &[], word),
        3 => find(&THREE, &THREE_LEFT_OUT, word),
        4 => find(&FOUR, &FOUR_LEFT_OUT, word),
        5 => find(&FIVE, &FIVE_LEFT_OUT, word),
        6 => find(&SIX, &SIX_LEFT_OUT, word),
        7 => find(&SEVEN, &SEVEN_LEFT_OUT, word),
        8 => find(&EIGHT, &EIGHT_LEFT_OUT, word),
        9 => find(&[], &NINE_LEFT_OUT, word),
        12 => find(&TWELVE, &[], word),
        13 => find(&THIRTEEN, &[], word),
        14 => find(&FOURTEEN, &[], word),
        _ => None,
    }
}
