//! The tree of one text for each production, operator, qualifier and form of statement.
use crate::syntax::outcomes::{assert_same, tree};
use crate::syntax::shapes::{shape, shape_of_statements};
use isp_lex::SourceFault;
use std::alloc::Global;
use std::process::Abort;
use std::test::Fail;

/// Functions, each with the line of its tree.
const FUNCTIONS: &[(&str, &str)] = &[
    (
        "void f() { print ( \"%\", a ) ; }",
        " (function 0..31 (type void) f 9..31 (block (print 11..16 19..22 11..29 a)))",
    ),
    (
        "export static inline void f(void) { }",
        " (function 0..37 export static inline (type void) f 34..37 (block))",
    ),
    (
        "int f(uniform int a[], bool b) { } void g() { }",
        " (function 0..34 (type int) f (array (type uniform int) a) (value (type bool) b) 31..34 (block)) (function 35..47 (type void) g 44..47 (block))",
    ),
];

/// Statements of a function, each with its part of the line, as those of all tables below.
const DECLARATIONS: &[(&str, &str)] = &[
    (
        "const uniform int8 a; varying uint16 b; signed c; unsigned d;",
        " (declare (type const uniform int8) a) (declare (type varying uint16) b) (declare (type signed) c) (declare (type unsigned) d)",
    ),
    (
        "int16 a; int32 b; int64 c; uint d; uint8 e; uint32 f; uint64 g;",
        " (declare (type int16) a) (declare (type int32) b) (declare (type int64) c) (declare (type uint) d) (declare (type uint8) e) (declare (type uint32) f) (declare (type uint64) g)",
    ),
    (
        "int a, b = 1, c[8], d[programCount];",
        " (declare (type int) a (is b 1) (array c 8) (array d programCount))",
    ),
];

/// Operators by level, each beside one of the next tighter level.
const OPERATORS: &[(&str, &str)] = &[
    ("a * b / c % d;", " (modulo (over (times a b) c) d)"),
    ("a + b - c * d;", " (minus (plus a b) (times c d))"),
    ("a << b >> c + d;", " (right (left a b) (plus c d))"),
    ("a < b <= c << d;", " (at_most (less a b) (left c d))"),
    ("a > b >= c;", " (at_least (greater a b) c)"),
    ("a == b != c < d;", " (unequal (equal a b) (less c d))"),
    ("a & b == c;", " (and a (equal b c))"),
    ("a ^ b & c;", " (xor a (and b c))"),
    ("a | b ^ c;", " (or a (xor b c))"),
    ("a && b | c;", " (and_also a (or b c))"),
    ("a || b && c;", " (or_else a (and_also b c))"),
    (
        "a || b ? c : d ? 1 : 2;",
        " (choose (or_else a b) c (choose d 1 2))",
    ),
];

const OPERANDS: &[(&str, &str)] = &[
    ("7;", " 7"),
    ("true;", " true"),
    ("false;", " false"),
    ("programIndex;", " programIndex"),
    ("programCount;", " programCount"),
    ("a[b + 1];", " (element a (plus b 1))"),
    ("f();", " (call f)"),
    (
        "f(a, &b, &c[1]);",
        " (call f a (reference b) (reference (element c 1)))",
    ),
    ("(a);", " (brackets a)"),
    (
        "(uniform int)a * b;",
        " (times (cast (type uniform int) a) b)",
    ),
    ("-~!a;", " (negative (inverse (not a)))"),
];

const ASSIGNMENTS: &[(&str, &str)] = &[
    ("a = 1;", " (set a 1)"),
    ("a += 1;", " (set_plus a 1)"),
    ("a -= 1;", " (set_minus a 1)"),
    ("a *= 1;", " (set_times a 1)"),
    ("a /= 1;", " (set_over a 1)"),
    ("a %= 1;", " (set_modulo a 1)"),
    ("a &= 1;", " (set_and a 1)"),
    ("a |= 1;", " (set_or a 1)"),
    ("a ^= 1;", " (set_xor a 1)"),
    ("a <<= 1;", " (set_left a 1)"),
    ("a >>= 1;", " (set_right a 1)"),
    ("a[1]++;", " (increment (element a 1))"),
    ("a--;", " (decrement a)"),
    ("++a;", " (increment a)"),
    ("--a;", " (decrement a)"),
];

/// Statements. A `print` has the places of its word, its text and the whole; an `assert` that from its word to its closing
/// bracket, which a trap names, and that of the whole.
const STATEMENTS: &[(&str, &str)] = &[
    (";", " empty"),
    ("{ ; { } }", " (block empty (block))"),
    ("if (a) ;", " (if a empty)"),
    ("cif (a) ;", " (cif a empty)"),
    ("if (a) ; else break;", " (if_else a empty break)"),
    ("cif (a) ; else continue;", " (cif_else a empty continue)"),
    (
        "if (a) if (b) x = 1; else x = 2;",
        " (if a (if_else b (set x 1) (set x 2)))",
    ),
    ("while (a) ;", " (while a empty)"),
    ("cwhile (a) ;", " (cwhile a empty)"),
    ("do ; while (a);", " (do empty a)"),
    ("cdo ; while (a);", " (cdo empty a)"),
    ("for (;;) ;", " (for nothing nothing nothing empty)"),
    (
        "cfor (int i = 0; i < 4; ++i) ;",
        " (cfor (declare (type int) (is i 0)) (less i 4) (increment i) empty)",
    ),
    (
        "for (i = 0; ; i += 2) ;",
        " (for (set i 0) nothing (set_plus i 2) empty)",
    ),
    ("foreach (i = 0 ... 4) ;", " (foreach (range i 0 4) empty)"),
    (
        "foreach_tiled (i = 0 ... 4, j = a ... b, k = 1 ... 2) ;",
        " (foreach_tiled (range i 0 4) (range j a b) (range k 1 2) empty)",
    ),
    ("foreach_active (i) ;", " (foreach_active i empty)"),
    (
        "foreach_unique (i in a < b) ;",
        " (foreach_unique i (less a b) empty)",
    ),
    (
        "foreach_unique (in in in) ;",
        " (foreach_unique in in empty)",
    ),
    ("unmasked { ; }", " (unmasked (block empty))"),
    ("return;", " (return nothing)"),
    ("return a;", " (return a)"),
    ("print(\"\");", " (print 10..15 16..18 10..20)"),
    ("print(\"% %\", a, 1);", " (print 10..15 16..21 10..29 a 1)"),
    ("assert(a) ;", " (assert a 10..19 10..21)"),
    ("assert(a );", " (assert a 10..20 10..21)"),
];

#[test]
fn functions(rt: HostRuntime) -> Result<(), Fail> {
    for (source, wanted) in FUNCTIONS {
        let tree = tree(rt.alloc(), source)?;
        assert_same(&rt, source, &shape(rt.alloc(), &tree)?, wanted);
    }
    Ok(())
}

/// The line of the statements of a function.
fn inside(alloc: Global, stmts: &str) -> Result<String, SourceFault> {
    let source = format!(in alloc; "void f() {{{stmts}}}")?;
    let tree = tree(alloc, &source)?;
    Ok(shape_of_statements(alloc, &tree)?)
}

fn compare_inside(rt: &impl Abort, alloc: Global, rows: &[(&str, &str)]) -> Result<(), Fail> {
    for (stmts, wanted) in rows {
        assert_same(rt, stmts, &inside(alloc, stmts)?, wanted);
    }
    Ok(())
}

#[test]
fn statements(rt: HostRuntime) -> Result<(), Fail> {
    for table in [DECLARATIONS, OPERATORS, OPERANDS, ASSIGNMENTS, STATEMENTS] {
        compare_inside(&rt, rt.alloc(), table)?;
    }
    Ok(())
}
