//! What code cannot hold.
use isp_base::{Elem, Gang, Name, Span};
use isp_code::{
    Class, Code, CodeLimit, Function, Instr, Local, Param, ParamKind, Register, Returns,
    ScalarInstr, Sharing,
};
use std::alloc::Global;
use std::mem::size_of;
use std::process::Abort;

fn named(rt: &impl Abort, alloc: Global, text: &str) -> Name {
    Name::new(String::from_str(alloc, text).expect(rt, "memory"))
}

// A function that has one mask, and nothing else.
fn bare(rt: &impl Abort, alloc: Global, name: &str) -> Function {
    Function {
        name: named(rt, alloc, name),
        exported: false,
        returns: Returns::Nothing,
        params: Vec::new(alloc),
        locals: Vec::new(alloc),
        scalars: Vec::new(alloc),
        vectors: Vec::new(alloc),
        masks: 1,
        code: Vec::new(alloc),
    }
}

// Whether code takes a function, or refuses it for what its text cannot have; nothing where memory is refused.
fn takes(code: &mut Code, function: Function) -> Option<bool> {
    match code.add_function(function) {
        Ok(()) => Some(true),
        Err((_function, CodeLimit::OverLimit)) => Some(false),
        Err((_function, CodeLimit::Memory)) => None,
    }
}

// Names, and whether a function may have each.
const NAMES: [(&str, bool); 7] = [
    ("", false),
    ("1a", false),
    ("a b", false),
    ("ä", false),
    ("_", true),
    ("if", true),
    ("Z_9", true),
];

#[test]
fn names(rt: HostRuntime) {
    let alloc = rt.alloc();
    let mut code = Code::new(alloc, Gang::W16);
    for (name, fits) in NAMES {
        let function = bare(&rt, alloc, name);
        assert!(rt; takes(&mut code, function) == Some(fits), "{name}");
    }
    assert_eq!(rt; code.functions().len(), 3);
}

#[test]
fn name_of_a_parameter(rt: HostRuntime) {
    let alloc = rt.alloc();
    let mut code = Code::new(alloc, Gang::W16);
    let mut function = bare(&rt, alloc, "f");
    let param = Param {
        name: named(&rt, alloc, "a-"),
        kind: ParamKind::Scalar,
        elem: Elem::I32,
    };
    function.params.push(param).expect(&rt, "memory");
    assert!(rt; takes(&mut code, function) == Some(false));
}

// Where a place begins and ends, and its number, if it may be one.
const PLACES: [(usize, usize, Result<u32, CodeLimit>); 4] = [
    (5, 4, Err(CodeLimit::OverLimit)),
    (0, 1_048_577, Err(CodeLimit::OverLimit)),
    (1_048_576, 1_048_576, Ok(0)),
    (4, 4, Ok(1)),
];

// Places, and no text that is empty.
#[test]
fn places_and_texts(rt: HostRuntime) {
    let mut code = Code::new(rt.alloc(), Gang::W16);
    for (start, end, number) in PLACES {
        assert!(rt;
            code.add_place(Span { start, end }) == number,
            "{start}..{end}"
        );
    }
    assert!(rt; code.add_text(b"") == Err(CodeLimit::OverLimit));
}

// Sizes of local arrays, and whether a function may have each.
const SIZES: [(u32, bool); 4] = [(0, false), (65_537, false), (1, true), (65_536, true)];

#[test]
fn sizes(rt: HostRuntime) {
    let alloc = rt.alloc();
    let mut code = Code::new(alloc, Gang::W8);
    for (size, fits) in SIZES {
        let mut function = bare(&rt, alloc, "f");
        let local = Local {
            sharing: Sharing::Shared,
            elem: Elem::Bool,
            size,
        };
        function.locals.push(local).expect(&rt, "memory");
        assert!(rt; takes(&mut code, function) == Some(fits), "{size}");
    }
    assert_eq!(rt; code.functions().len(), 2);
}

// Numbers, and whether a constant may be each.
const NUMBERS: [(i128, bool); 4] = [
    (-9_223_372_036_854_775_809, false),
    (18_446_744_073_709_551_616, false),
    (-9_223_372_036_854_775_808, true),
    (18_446_744_073_709_551_615, true),
];

const S0: Register = Register {
    class: Class::Scalar,
    number: 0,
};

#[test]
fn constants(rt: HostRuntime) {
    let alloc = rt.alloc();
    let mut code = Code::new(alloc, Gang::W8);
    for (number, fits) in NUMBERS {
        let mut function = bare(&rt, alloc, "f");
        let constant = Instr::Scalar {
            result: S0,
            instr: ScalarInstr::Constant(number),
        };
        function.code.push(constant).ok().expect(&rt, "memory");
        assert!(rt; takes(&mut code, function) == Some(fits), "{number}");
    }
    assert_eq!(rt; code.functions().len(), 2);
}

#[test]
fn size_of_an_instruction(rt: HostRuntime) {
    assert!(rt; size_of::<Instr>() <= 48);
}
