//! Code and its text, written by hand from docs/MACHINE.md.
use isp_asm::{read, write};
use isp_base::{Elem, Gang, Name, Span};
use isp_code::{
    Arguments, Call, CallBox, Class, Code, Function, Instr, Local, Param, ParamKind, Register,
    Returns, ScalarInstr, Sharing, VectorInstr,
};
use smallvec::SmallVec;
use std::alloc::Global;
use std::process::Abort;

const S0: Register = Register {
    class: Class::Scalar,
    number: 0,
};

const V0: Register = Register {
    class: Class::Vector,
    number: 0,
};

const V1: Register = Register {
    class: Class::Vector,
    number: 1,
};

const M0: Register = Register {
    class: Class::Mask,
    number: 0,
};

const A0: Register = Register {
    class: Class::Array,
    number: 0,
};

/// A call.
#[derive(Clone, Copy)]
struct Called {
    function: u32,
    given_to: Register,
    mask: Register,
    place: u32,
    arguments: &'static [Register],
}

/// An instruction.
#[derive(Clone, Copy)]
enum Line {
    Jump(u32),
    Constant(Register, i128),
    Index(Register, Register),
    Convert(Register, Register, Register),
    Scatter(Register, Register, Register, Register, u32),
    Say(u32),
    Call(Called),
    Return,
}

/// A function.
#[derive(Clone, Copy)]
struct Routine {
    name: &'static str,
    exported: bool,
    returns: Returns,
    params: &'static [(&'static str, ParamKind, Elem)],
    locals: &'static [Local],
    scalars: &'static [Elem],
    vectors: &'static [Elem],
    masks: u32,
    code: &'static [Line],
}

/// Code, and its text.
struct Row {
    gang: Gang,
    places: &'static [Span],
    texts: &'static [&'static [u8]],
    routines: &'static [Routine],
    text: &'static str,
}

// An exported function that gives nothing back, with a mask and without a register.
const F: Routine = Routine {
    name: "f",
    exported: true,
    returns: Returns::Nothing,
    params: &[],
    locals: &[],
    scalars: &[],
    vectors: &[],
    masks: 1,
    code: &[Line::Return],
};

static ROWS: [Row; 5] = [
    // a jump to no instruction
    Row {
        gang: Gang::W4,
        places: &[],
        texts: &[],
        routines: &[Routine {
            code: &[Line::Jump(1)],
            ..F
        }],
        text: "isp 1 gang 4\nfunc f export void\nm 1\njmp L1\nend\n",
    },
    // a scatter
    Row {
        gang: Gang::W4,
        places: &[Span { start: 0, end: 4 }],
        texts: &[],
        routines: &[Routine {
            params: &[("a", ParamKind::Array, Elem::I32)],
            vectors: &[Elem::I32, Elem::I64],
            code: &[
                Line::Index(V0, M0),
                Line::Convert(V1, V0, M0),
                Line::Scatter(A0, V1, V0, M0, 0),
                Line::Return,
            ],
            ..F
        }],
        text: "isp 1 gang 4\nplace 0 4\nfunc f export void\npar a i32 a\nv i32 i64\nm 1\nindex v0 m0\nconv v1 v0 m0\nscatter a0 v1 v0 m0 p0\nret -\nend\n",
    },
    // no function
    Row {
        gang: Gang::W16,
        places: &[],
        texts: &[],
        routines: &[],
        text: "isp 1 gang 16\n",
    },
    // a gang of 32
    Row {
        gang: Gang::W32,
        places: &[],
        texts: &[],
        routines: &[F],
        text: "isp 2 gang 32\nfunc f export void\nm 1\nret -\nend\n",
    },
    // other lines
    Row {
        gang: Gang::W8,
        places: &[],
        texts: &[b"\x0a~\xff"],
        routines: &[Routine {
            name: "if",
            exported: false,
            returns: Returns::Vector(Elem::U8),
            locals: &[Local {
                sharing: Sharing::PerInstance,
                elem: Elem::Bool,
                size: 65_536,
            }],
            scalars: &[Elem::U64],
            masks: u32::MAX,
            code: &[
                Line::Constant(S0, -9_223_372_036_854_775_808),
                Line::Constant(S0, 18_446_744_073_709_551_615),
                Line::Say(0),
                Line::Call(Called {
                    function: 3,
                    given_to: V1,
                    mask: M0,
                    place: 7,
                    arguments: &[S0, A0],
                }),
            ],
            ..F
        }],
        text: "isp 1 gang 8\ntext 0a7eff\nfunc if inner v u8\nloc p b 65536\ns u64\nm 4294967295\nconst s0 -9223372036854775808\nconst s0 18446744073709551615\nsay t0\ncall f3 v1 m0 p7 s0 a0\nend\n",
    },
];

fn boxed(rt: &impl Abort, alloc: Global, call: &Called) -> Instr {
    let call = Call {
        function: call.function,
        result: Some(call.given_to),
        mask: call.mask,
        place: call.place,
        arguments: Arguments::new(SmallVec::from_slice(alloc, call.arguments).expect(rt, "memory")),
    };
    Instr::Call(CallBox::new(alloc, call).ok().expect(rt, "memory"))
}

fn instruction(rt: &impl Abort, alloc: Global, line: &Line) -> Instr {
    match line {
        Line::Jump(target) => Instr::Jump { target: *target },
        Line::Constant(d, number) => Instr::Scalar {
            result: *d,
            instr: ScalarInstr::Constant(*number),
        },
        Line::Index(d, mask) => Instr::Vector {
            result: *d,
            instr: VectorInstr::Index(*mask),
        },
        Line::Convert(d, value, mask) => Instr::Vector {
            result: *d,
            instr: VectorInstr::Convert {
                value: *value,
                mask: *mask,
            },
        },
        Line::Scatter(array, indices, value, mask, place) => Instr::Scatter {
            array: *array,
            indices: *indices,
            value: *value,
            mask: *mask,
            place: *place,
        },
        Line::Say(text) => Instr::Say { text: *text },
        Line::Call(call) => boxed(rt, alloc, call),
        Line::Return => Instr::Return(None),
    }
}

fn instructions(rt: &impl Abort, alloc: Global, lines: &[Line]) -> Vec<Instr> {
    let mut all = Vec::new(alloc);
    for line in lines {
        all.push(instruction(rt, alloc, line)).expect(rt, "memory");
    }
    all
}

fn named(rt: &impl Abort, alloc: Global, text: &str) -> Name {
    Name::new(String::from_str(alloc, text).expect(rt, "memory"))
}

fn params(rt: &impl Abort, alloc: Global, list: &[(&str, ParamKind, Elem)]) -> Vec<Param> {
    let mut all = Vec::new(alloc);
    for (name, kind, elem) in list {
        all.push(Param {
            name: named(rt, alloc, name),
            kind: *kind,
            elem: *elem,
        })
        .expect(rt, "memory");
    }
    all
}

fn function(rt: &impl Abort, alloc: Global, routine: &Routine) -> Function {
    Function {
        name: named(rt, alloc, routine.name),
        exported: routine.exported,
        returns: routine.returns,
        params: params(rt, alloc, routine.params),
        locals: Vec::from_slice(alloc, routine.locals).expect(rt, "memory"),
        scalars: Vec::from_slice(alloc, routine.scalars).expect(rt, "memory"),
        vectors: Vec::from_slice(alloc, routine.vectors).expect(rt, "memory"),
        masks: routine.masks,
        code: instructions(rt, alloc, routine.code),
    }
}

// The code of a row.
fn code(rt: &impl Abort, alloc: Global, row: &Row) -> Code {
    let mut code = Code::new(alloc, row.gang);
    for place in row.places {
        code.add_place(*place).expect(rt, "a place");
    }
    for text in row.texts {
        code.add_text(text).expect(rt, "a text");
    }
    for routine in row.routines {
        let added = code.add_function(function(rt, alloc, routine));
        assert!(rt; added.is_ok());
    }
    code
}

#[test]
fn written(rt: HostRuntime) {
    let alloc = rt.alloc();
    for row in &ROWS {
        let text = write(alloc, &code(&rt, alloc, row)).expect(&rt, "memory");
        assert!(rt; text.as_str() == row.text, "{text}");
    }
}

// The text of a gang of 32 is read as code of that gang.
#[test]
fn read_by_32(rt: HostRuntime) {
    let code = read(rt.alloc(), ROWS[3].text).ok().expect(&rt, "code");
    assert!(rt; code.gang() == Gang::W32);
}
