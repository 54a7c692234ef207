//! Memory refused to the lexer and the parser, at each growth.
use crate::syntax::shapes::shape;
use isp_lex::{SourceFault, Tokens, lex};
use isp_syntax::parse;
use isp_tests_support::{INC, Tried, UNIQUE, sweep_call};
use std::alloc::Global;
use std::test::Fail;

// What comes of tokens, by the line of their tree.
fn parsed(alloc: Global, tokens: &Tokens, line: &str) -> Tried {
    match parse(alloc, tokens) {
        Ok(tree) => match shape(alloc, &tree) {
            Ok(found) => Tried::answered(found.as_str() == line),
            Err(_) => Tried::Refused,
        },
        Err(fault) => Tried::failed(fault == SourceFault::Memory),
    }
}

// Programs, each with the line of its tree.
#[test]
fn memory_refused(rt: HostRuntime) -> Result<(), Fail> {
    let alloc = rt.alloc();
    for (source, line) in [
        (
            INC.source,
            " (function 0..90 export (type void) inc (array (type uniform int) a) (value (type uniform int) n) 48..90 (block (foreach (range i 0 n) (set (element a i) (plus (element a i) 1)))))",
        ),
        (
            UNIQUE.source,
            " (function 0..105 export (type void) f (array (type uniform int) a) 31..105 (block (declare (type int) (is v (element a programIndex))) (foreach_unique u v (print 82..87 88..95 82..103 u v))))",
        ),
    ] {
        sweep_call(alloc, "lex", || match lex(alloc, source) {
            Ok(tokens) => parsed(alloc, &tokens, line),
            Err(fault) => Tried::failed(fault == SourceFault::Memory),
        })?;
        let tokens = lex(alloc, source)?;
        sweep_call(alloc, "parse", || parsed(alloc, &tokens, line))?;
    }
    Ok(())
}
