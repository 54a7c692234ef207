//! The grammar: which texts are programs, and where others are refused.
use crate::syntax::outcomes::{comes_to, compare_each};
use std::alloc::{AllocError, Global};
use std::process::Abort;
use std::test::Fail;

/// What each source comes to.
const SOURCES: &[(&str, &str)] = &[
    ("", "taken"),
    ("void f() { int x = (int)(a) + (uniform int) -b; }", "taken"),
    ("void f() { foreach (i = 0 ... 4) ; }", "taken"),
    ("void f() { foreach (i = 0 ... 4, j = 0 ... n) ; }", "taken"),
    (
        "void f() { foreach_tiled (i = 0 ... 4, j = 0 ... n, k = 1 ... 2) { } }",
        "taken",
    ),
    ("void f() { for (;;) ; }", "taken"),
    ("void f() { for (int i = 0; i < 4; i++) x += i; }", "taken"),
    ("void f() { do ; while (a); }", "taken"),
    ("void f() { unmasked { } }", "taken"),
    ("void f() { ++x; x--; }", "taken"),
    ("void f() { g(&a[1], &b, c); }", "taken"),
    ("void f() { const const int x; }", "taken"),
    ("static inline int g(void) { return a ? b : c; }", "taken"),
    (
        "void f(void x) { print(\"% %\", a, b); assert(a); }",
        "taken",
    ),
    (
        "void f() { foreach (i = 0 ... 4, j = 0 ... 4, k = 0 ... 4, l = 0 ... 4) ; }",
        "10 Unexpected at 57..58",
    ),
    (
        "void f() { foreach_unique (i of a) ; }",
        "10 Unexpected at 29..31",
    ),
    (
        "void f() { foreach_unique (in) ; }",
        "10 Unexpected at 29..30",
    ),
    (
        "void f() { foreach_unique (i in ) ; }",
        "10 Unexpected at 32..33",
    ),
    ("export void f() { x = 1 +; }", "10 Unexpected at 25..26"),
    (
        "export void f(uniform float a[]) { }",
        "12 LeftOut at 22..27",
    ),
    ("export void f() {", "10 Unexpected at 17..17"),
];

/// A source in which a text stands so many times between two others, and how what it comes to begins.
struct Nested {
    before: &'static str,
    open: &'static str,
    count: usize,
    middle: &'static str,
    close: &'static str,
    after: &'static str,
    wanted: &'static str,
}

/// The deepest source that is taken, and deeper ones.
const DEEP: &[Nested] = &[
    Nested {
        before: "export void f() { int x = ",
        open: "(",
        count: 125,
        middle: "1",
        close: ")",
        after: "; }",
        wanted: "taken",
    },
    Nested {
        before: "export void f() { int x = ",
        open: "(",
        count: 126,
        middle: "1",
        close: ")",
        after: "; }",
        wanted: "11 TooDeep at ",
    },
    Nested {
        before: "void f() { x = a",
        open: " + a",
        count: 130,
        middle: "",
        close: "",
        after: "; }",
        wanted: "11 TooDeep at ",
    },
    Nested {
        before: "void f() ",
        open: "{",
        count: 200,
        middle: "",
        close: "}",
        after: "",
        wanted: "11 TooDeep at ",
    },
];

/// Sources of as many bytes as there may be.
const LONGEST: &[Nested] = &[
    Nested {
        before: "",
        open: "{",
        count: 1_048_576,
        middle: "",
        close: "",
        after: "",
        wanted: "10 Unexpected at 0..1",
    },
    Nested {
        before: "void f() ",
        open: "{",
        count: 1_048_567,
        middle: "",
        close: "",
        after: "",
        wanted: "11 TooDeep at ",
    },
];

fn text_of(alloc: Global, nested: &Nested) -> Result<String, AllocError> {
    let opened = nested.open.repeat(alloc, nested.count)?;
    let closed = nested.close.repeat(alloc, nested.count)?;
    format!(in alloc;
        "{}{opened}{}{closed}{}",
        nested.before, nested.middle, nested.after
    )
}

fn compare_nested(rt: &impl Abort, alloc: Global, rows: &[Nested]) -> Result<(), Fail> {
    for nested in rows {
        let source = text_of(alloc, nested)?;
        assert!(rt;
            comes_to(alloc, &source, nested.wanted)?,
            "{}",
            nested.wanted
        );
    }
    Ok(())
}

#[test]
fn sources(rt: HostRuntime) -> Result<(), Fail> {
    compare_each(&rt, rt.alloc(), SOURCES)
}

#[test]
fn depth(rt: HostRuntime) -> Result<(), Fail> {
    compare_nested(&rt, rt.alloc(), DEEP)
}

#[test]
fn the_longest_sources(rt: HostRuntime) -> Result<(), Fail> {
    compare_nested(&rt, rt.alloc(), LONGEST)
}
