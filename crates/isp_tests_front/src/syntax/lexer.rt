//! The lexer: tokens, their values, bytes and places, and the first fault.
use crate::syntax::outcomes::{comes_to, compare_each};
use isp_base::{Elem, Span};
use isp_lex::{Mark, SourceFault, Token, TokenKind, lex};
use std::alloc::Global;
use std::process::Abort;
use std::test::Fail;

const LIMIT: usize = 1_048_576;

const LONGER: usize = 1_048_577;

/// What a token is to be.
enum Kind {
    Mark(Mark),
    LeftOut,
    Name(&'static str),
    Number(Elem, u64),
    Text(&'static str),
}

/// Each sign, by its spelling.
const SIGNS: &[(&str, Kind)] = &[
    ("(", Kind::Mark(Mark::ParenOpen)),
    (")", Kind::Mark(Mark::ParenClose)),
    ("{", Kind::Mark(Mark::BraceOpen)),
    ("}", Kind::Mark(Mark::BraceClose)),
    ("[", Kind::Mark(Mark::BracketOpen)),
    ("]", Kind::Mark(Mark::BracketClose)),
    (";", Kind::Mark(Mark::Semicolon)),
    (",", Kind::Mark(Mark::Comma)),
    ("?", Kind::Mark(Mark::Question)),
    (":", Kind::Mark(Mark::Colon)),
    ("=", Kind::Mark(Mark::Assign)),
    ("==", Kind::Mark(Mark::Equal)),
    ("!=", Kind::Mark(Mark::NotEqual)),
    ("<", Kind::Mark(Mark::Less)),
    ("<=", Kind::Mark(Mark::LessEqual)),
    (">", Kind::Mark(Mark::Greater)),
    (">=", Kind::Mark(Mark::GreaterEqual)),
    ("<<", Kind::Mark(Mark::ShiftLeft)),
    (">>", Kind::Mark(Mark::ShiftRight)),
    ("<<=", Kind::Mark(Mark::ShiftLeftAssign)),
    (">>=", Kind::Mark(Mark::ShiftRightAssign)),
    ("+", Kind::Mark(Mark::Plus)),
    ("++", Kind::Mark(Mark::Increment)),
    ("+=", Kind::Mark(Mark::PlusAssign)),
    ("-", Kind::Mark(Mark::Minus)),
    ("--", Kind::Mark(Mark::Decrement)),
    ("-=", Kind::Mark(Mark::MinusAssign)),
    ("*", Kind::Mark(Mark::Star)),
    ("*=", Kind::Mark(Mark::StarAssign)),
    ("/", Kind::Mark(Mark::Slash)),
    ("/=", Kind::Mark(Mark::SlashAssign)),
    ("%", Kind::Mark(Mark::Percent)),
    ("%=", Kind::Mark(Mark::PercentAssign)),
    ("&", Kind::Mark(Mark::And)),
    ("&&", Kind::Mark(Mark::AndAnd)),
    ("&=", Kind::Mark(Mark::AndAssign)),
    ("|", Kind::Mark(Mark::Or)),
    ("||", Kind::Mark(Mark::OrOr)),
    ("|=", Kind::Mark(Mark::OrAssign)),
    ("^", Kind::Mark(Mark::Xor)),
    ("^=", Kind::Mark(Mark::XorAssign)),
    ("~", Kind::Mark(Mark::Inverse)),
    ("!", Kind::Mark(Mark::Not)),
    ("...", Kind::Mark(Mark::Ellipsis)),
];

/// Each reserved word in use.
const WORDS: &[(&str, Kind)] = &[
    ("void", Kind::Mark(Mark::Void)),
    ("bool", Kind::Mark(Mark::Bool)),
    ("int", Kind::Mark(Mark::Int)),
    ("int8", Kind::Mark(Mark::Int8)),
    ("int16", Kind::Mark(Mark::Int16)),
    ("int32", Kind::Mark(Mark::Int32)),
    ("int64", Kind::Mark(Mark::Int64)),
    ("uint", Kind::Mark(Mark::Uint)),
    ("uint8", Kind::Mark(Mark::Uint8)),
    ("uint16", Kind::Mark(Mark::Uint16)),
    ("uint32", Kind::Mark(Mark::Uint32)),
    ("uint64", Kind::Mark(Mark::Uint64)),
    ("signed", Kind::Mark(Mark::Signed)),
    ("unsigned", Kind::Mark(Mark::Unsigned)),
    ("const", Kind::Mark(Mark::Const)),
    ("uniform", Kind::Mark(Mark::Uniform)),
    ("varying", Kind::Mark(Mark::Varying)),
    ("export", Kind::Mark(Mark::Export)),
    ("static", Kind::Mark(Mark::Static)),
    ("inline", Kind::Mark(Mark::Inline)),
    ("if", Kind::Mark(Mark::If)),
    ("cif", Kind::Mark(Mark::Cif)),
    ("else", Kind::Mark(Mark::Else)),
    ("while", Kind::Mark(Mark::While)),
    ("cwhile", Kind::Mark(Mark::Cwhile)),
    ("do", Kind::Mark(Mark::Do)),
    ("cdo", Kind::Mark(Mark::Cdo)),
    ("for", Kind::Mark(Mark::For)),
    ("cfor", Kind::Mark(Mark::Cfor)),
    ("foreach", Kind::Mark(Mark::Foreach)),
    ("foreach_tiled", Kind::Mark(Mark::ForeachTiled)),
    ("foreach_active", Kind::Mark(Mark::ForeachActive)),
    ("foreach_unique", Kind::Mark(Mark::ForeachUnique)),
    ("unmasked", Kind::Mark(Mark::Unmasked)),
    ("break", Kind::Mark(Mark::Break)),
    ("continue", Kind::Mark(Mark::Continue)),
    ("return", Kind::Mark(Mark::Return)),
    ("print", Kind::Mark(Mark::Print)),
    ("assert", Kind::Mark(Mark::Assert)),
    ("true", Kind::Mark(Mark::True)),
    ("false", Kind::Mark(Mark::False)),
    ("programIndex", Kind::Mark(Mark::ProgramIndex)),
    ("programCount", Kind::Mark(Mark::ProgramCount)),
];

/// Each word that the language leaves out.
const LEFT_OUT: &[(&str, Kind)] = &[
    ("float", Kind::LeftOut),
    ("double", Kind::LeftOut),
    ("float16", Kind::LeftOut),
    ("struct", Kind::LeftOut),
    ("enum", Kind::LeftOut),
    ("typedef", Kind::LeftOut),
    ("switch", Kind::LeftOut),
    ("case", Kind::LeftOut),
    ("default", Kind::LeftOut),
    ("goto", Kind::LeftOut),
    ("new", Kind::LeftOut),
    ("delete", Kind::LeftOut),
    ("task", Kind::LeftOut),
    ("launch", Kind::LeftOut),
    ("sync", Kind::LeftOut),
    ("soa", Kind::LeftOut),
    ("extern", Kind::LeftOut),
    ("sizeof", Kind::LeftOut),
    ("template", Kind::LeftOut),
    ("typename", Kind::LeftOut),
    ("operator", Kind::LeftOut),
    ("NULL", Kind::LeftOut),
    ("size_t", Kind::LeftOut),
    ("ptrdiff_t", Kind::LeftOut),
    ("intptr_t", Kind::LeftOut),
    ("uintptr_t", Kind::LeftOut),
    ("cbreak", Kind::LeftOut),
    ("ccontinue", Kind::LeftOut),
    ("creturn", Kind::LeftOut),
];

const NAMES: &[(&str, Kind)] = &[
    ("x", Kind::Name("x")),
    ("_", Kind::Name("_")),
    ("__", Kind::Name("__")),
    ("Z9", Kind::Name("Z9")),
    ("_1", Kind::Name("_1")),
    ("a_b", Kind::Name("a_b")),
    ("iff", Kind::Name("iff")),
    ("in", Kind::Name("in")),
    ("Int", Kind::Name("Int")),
    ("VOID", Kind::Name("VOID")),
    ("int128", Kind::Name("int128")),
    ("uint1", Kind::Name("uint1")),
    ("float32", Kind::Name("float32")),
    ("programindex", Kind::Name("programindex")),
    ("foreach_", Kind::Name("foreach_")),
    ("null", Kind::Name("null")),
    ("nu", Kind::Name("nu")),
];

const NUMBERS: &[(&str, Kind)] = &[
    ("0", Kind::Number(Elem::I32, 0)),
    ("2147483647", Kind::Number(Elem::I32, 2_147_483_647)),
    ("2147483648", Kind::Number(Elem::I64, 2_147_483_648)),
    ("4294967296", Kind::Number(Elem::I64, 4_294_967_296)),
    (
        "9223372036854775807",
        Kind::Number(Elem::I64, 9_223_372_036_854_775_807),
    ),
    (
        "9223372036854775808",
        Kind::Number(Elem::U64, 9_223_372_036_854_775_808),
    ),
    ("18446744073709551615", Kind::Number(Elem::U64, u64::MAX)),
    ("0x7fffffff", Kind::Number(Elem::I32, 2_147_483_647)),
    ("0xffffffff", Kind::Number(Elem::U32, 4_294_967_295)),
    ("0x100000000", Kind::Number(Elem::I64, 4_294_967_296)),
    ("0xFFFFffffFFFFffff", Kind::Number(Elem::U64, u64::MAX)),
    ("0x00", Kind::Number(Elem::I32, 0)),
    ("0b101", Kind::Number(Elem::I32, 5)),
    ("0xAbCdEf", Kind::Number(Elem::I32, 11_259_375)),
    (
        "0b10000000000000000000000000000000",
        Kind::Number(Elem::U32, 2_147_483_648),
    ),
    ("1u", Kind::Number(Elem::U32, 1)),
    ("4294967296U", Kind::Number(Elem::U64, 4_294_967_296)),
    ("1l", Kind::Number(Elem::I64, 1)),
    ("1lL", Kind::Number(Elem::I64, 1)),
    ("1uL", Kind::Number(Elem::U64, 1)),
    ("7LL", Kind::Number(Elem::I64, 7)),
    ("7ul", Kind::Number(Elem::U64, 7)),
    ("7lu", Kind::Number(Elem::U64, 7)),
    ("7llu", Kind::Number(Elem::U64, 7)),
    ("0b11u", Kind::Number(Elem::U32, 3)),
    ("1Lu", Kind::Number(Elem::U64, 1)),
    ("1ull", Kind::Number(Elem::U64, 1)),
    ("0x10LLU", Kind::Number(Elem::U64, 16)),
];

const TEXTS: &[(&str, Kind)] = &[
    ("\"\"", Kind::Text("")),
    ("\"% é // /*\"", Kind::Text("% é // /*")),
    ("\"\\n\"", Kind::Text("\n")),
    ("\"\\t\"", Kind::Text("\t")),
    ("\"\\r\"", Kind::Text("\r")),
    ("\"\\\\\"", Kind::Text("\\")),
    ("\"\\\"\"", Kind::Text("\"")),
    ("\"\\n\\t\\r\\\\\\\"\"", Kind::Text("\n\t\r\\\"")),
    ("\" ~}\"", Kind::Text(" ~}")),
];

/// Several tokens, each with where it begins and ends: a sign is the longest one that stands there.
const SEVERAL: &[(&str, &[(Kind, usize, usize)])] = &[
    (
        "<<==",
        &[
            (Kind::Mark(Mark::ShiftLeftAssign), 0, 3),
            (Kind::Mark(Mark::Assign), 3, 4),
        ],
    ),
    (
        ">>>",
        &[
            (Kind::Mark(Mark::ShiftRight), 0, 2),
            (Kind::Mark(Mark::Greater), 2, 3),
        ],
    ),
    (
        "+++",
        &[
            (Kind::Mark(Mark::Increment), 0, 2),
            (Kind::Mark(Mark::Plus), 2, 3),
        ],
    ),
    (
        "!==",
        &[
            (Kind::Mark(Mark::NotEqual), 0, 2),
            (Kind::Mark(Mark::Assign), 2, 3),
        ],
    ),
    (
        "&&=",
        &[
            (Kind::Mark(Mark::AndAnd), 0, 2),
            (Kind::Mark(Mark::Assign), 2, 3),
        ],
    ),
    (
        "*/",
        &[
            (Kind::Mark(Mark::Star), 0, 1),
            (Kind::Mark(Mark::Slash), 1, 2),
        ],
    ),
    (
        "if{",
        &[
            (Kind::Mark(Mark::If), 0, 2),
            (Kind::Mark(Mark::BraceOpen), 2, 3),
        ],
    ),
    (
        "_a9 uniform foreach_unique goto",
        &[
            (Kind::Name("_a9"), 0, 3),
            (Kind::Mark(Mark::Uniform), 4, 11),
            (Kind::Mark(Mark::ForeachUnique), 12, 26),
            (Kind::LeftOut, 27, 31),
        ],
    ),
];

/// How many tokens there are between blanks and comments.
const COUNTS: &[(&str, usize)] = &[
    ("", 0),
    ("//", 0),
    ("// at the end é", 0),
    ("//x\ry", 0),
    ("//x\ny", 1),
    ("x// é\n// z\ny", 2),
    ("/**/", 0),
    ("/***/x", 1),
    ("/* é \n ** /* */ x", 1),
    ("x/**/y", 2),
    ("x/y", 3),
    ("_a9 uniform float foreach_unique", 4),
    ("x \"\\t%\", 1) }", 6),
];

/// What each source comes to.
const FAULTS: &[(&str, &str)] = &[
    ("export void f() { @ }", "1 BadByte at 18..19"),
    ("export void f() { 08 }", "2 BadNumber at 18..20"),
    ("/*", "4 OpenComment at 0..2"),
    (
        "export void f() { print(\"a\\q\"); }",
        "3 BadText at 24..27",
    ),
    (".", "1 BadByte at 0..1"),
    ("..", "1 BadByte at 0..1"),
    ("....", "1 BadByte at 3..4"),
    ("1.5", "1 BadByte at 1..2"),
    ("é", "1 BadByte at 0..2"),
    ("x € y", "1 BadByte at 2..5"),
    ("x/**/😀", "1 BadByte at 5..9"),
    ("\\", "1 BadByte at 0..1"),
    ("a'", "1 BadByte at 1..2"),
    ("$5", "1 BadByte at 0..1"),
    ("x = x\u{7f};", "1 BadByte at 5..6"),
    ("n++99999999999999999999;", "2 BadNumber at 3..23"),
    ("9foreach x", "2 BadNumber at 0..8"),
    ("(\"abc) }\n", "3 BadText at 1..8"),
    ("return /*x; }", "4 OpenComment at 7..13"),
    ("@ 08", "1 BadByte at 0..1"),
    ("08 @", "2 BadNumber at 0..2"),
    ("x /* y", "4 OpenComment at 2..6"),
    ("/*/", "4 OpenComment at 0..3"),
    ("/* * / é", "4 OpenComment at 0..9"),
];

const BAD_TEXTS: &[(&str, &str)] = &[
    ("\"", "3 BadText at 0..1"),
    ("\"abc", "3 BadText at 0..4"),
    ("x \"a\\", "3 BadText at 2..5"),
    ("\"a\nb\"", "3 BadText at 0..2"),
    ("\"a\tb\"", "3 BadText at 0..2"),
    ("\"é\\é\"", "3 BadText at 0..4"),
    ("\"\\0\"", "3 BadText at 0..2"),
    ("\"x\n\"x", "3 BadText at 0..2"),
    ("print(\"a\u{7f}\")", "3 BadText at 6..8"),
];

const BAD_NUMBERS: &[(&str, &str)] = &[
    ("0X1", "2 BadNumber at 0..3"),
    ("0B1", "2 BadNumber at 0..3"),
    ("0x", "2 BadNumber at 0..2"),
    ("0b", "2 BadNumber at 0..2"),
    ("0xu", "2 BadNumber at 0..3"),
    ("0b2", "2 BadNumber at 0..3"),
    ("0xg", "2 BadNumber at 0..3"),
    ("00", "2 BadNumber at 0..2"),
    ("00u", "2 BadNumber at 0..3"),
    ("12ab", "2 BadNumber at 0..4"),
    ("1_0", "2 BadNumber at 0..3"),
    ("1e5", "2 BadNumber at 0..3"),
    ("1lul", "2 BadNumber at 0..4"),
    ("1uu", "2 BadNumber at 0..3"),
    ("1lll", "2 BadNumber at 0..4"),
    ("18446744073709551616", "2 BadNumber at 0..20"),
    ("18446744073709551616ull", "2 BadNumber at 0..23"),
    ("9223372036854775808l", "2 BadNumber at 0..20"),
    ("0x10000000000000000", "2 BadNumber at 0..19"),
];

fn is_kind(found: &TokenKind, kind: &Kind) -> bool {
    match kind {
        Kind::Mark(mark) => found.is(*mark),
        Kind::LeftOut => matches!(found, TokenKind::LeftOut),
        Kind::Name(name) => matches!(found, TokenKind::Word(word) if word.is(name)),
        Kind::Text(says) =>
            matches!(found, TokenKind::Text(text) if text.as_slice() == says.as_bytes()),
        Kind::Number(elem, bits) => match found {
            TokenKind::Number(value) => value.elem == *elem && value.bits == *bits,
            _ => false,
        },
    }
}

fn is_token(found: &Token, kind: &Kind, start: usize, end: usize) -> bool {
    found.span == Span { start, end } && is_kind(&found.kind, kind)
}

/// A source that is one token of this kind.
fn compare_one(rt: &impl Abort, alloc: Global, source: &str, kind: &Kind) -> Result<(), Fail> {
    let tokens = lex(alloc, source)?;
    let same = match tokens.as_slice() {
        [token] => is_token(token, kind, 0, source.len()),
        _ => false,
    };
    assert!(rt; same, "{source}");
    Ok(())
}

/// Whether tokens are of these kinds, where they are to stand.
fn are_tokens(found: &[Token], kinds: &[(Kind, usize, usize)]) -> bool {
    let mut same = found.len() == kinds.len();
    for (token, (kind, start, end)) in found.iter().zip(kinds) {
        same = same && is_token(token, kind, *start, *end);
    }
    same
}

fn compare_several(rt: &impl Abort, alloc: Global) -> Result<(), Fail> {
    for (source, kinds) in SEVERAL {
        let tokens = lex(alloc, source)?;
        assert!(rt; are_tokens(tokens.as_slice(), kinds), "{source}");
    }
    Ok(())
}

/// Whether a source has so many tokens.
fn has_tokens(alloc: Global, source: &str, count: usize) -> Result<bool, SourceFault> {
    let tokens = lex(alloc, source)?;
    Ok(tokens.as_slice().len() == count && tokens.end() == source.len())
}

#[test]
fn single_tokens(rt: HostRuntime) -> Result<(), Fail> {
    for table in [SIGNS, WORDS, LEFT_OUT, NAMES, NUMBERS, TEXTS] {
        for (source, kind) in table {
            compare_one(&rt, rt.alloc(), source, kind)?;
        }
    }
    Ok(())
}

#[test]
fn several_tokens(rt: HostRuntime) -> Result<(), Fail> {
    compare_several(&rt, rt.alloc())?;
    for (source, count) in COUNTS {
        assert!(rt; has_tokens(rt.alloc(), source, *count)?, "{source}");
    }
    Ok(())
}

#[test]
fn faults(rt: HostRuntime) -> Result<(), Fail> {
    for table in [FAULTS, BAD_TEXTS, BAD_NUMBERS] {
        compare_each(&rt, rt.alloc(), table)?;
    }
    Ok(())
}

/// The longest source, and one that is longer by one byte.
#[test]
fn the_longest_source(rt: HostRuntime) -> Result<(), Fail> {
    let alloc = rt.alloc();
    assert!(rt; has_tokens(alloc, &" ".repeat(alloc, LIMIT)?, 0)?);
    assert!(rt; comes_to(alloc, &"@".repeat(alloc, LONGER)?, "5 TooLong at 0..0")?);
    Ok(())
}
