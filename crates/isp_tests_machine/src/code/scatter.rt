//! Code written by hand: a scatter, which the verifier takes.
use isp_base::{Elem, Gang, Name, Span};
use isp_code::{Class, Code, Function, Instr, Param, ParamKind, Register, Returns, VectorInstr};
use isp_verify::{Verified, verify};
use std::alloc::Global;
use std::test::Fail;

const A0: Register = Register {
    class: Class::Array,
    number: 0,
};

const M0: Register = Register {
    class: Class::Mask,
    number: 0,
};

const V0: Register = Register {
    class: Class::Vector,
    number: 0,
};

const V1: Register = Register {
    class: Class::Vector,
    number: 1,
};

/// Adds a function, which is not refused.
pub(crate) fn add(code: &mut Code, function: Function) -> Result<(), Fail> {
    match code.add_function(function) {
        Ok(()) => Ok(()),
        Err((_function, _limit)) => Err(Fail::from("the function was refused")),
    }
}

fn named(alloc: Global, text: &str) -> Result<Name, Fail> {
    Ok(Name::new(String::from_str(alloc, text)?))
}

// What is done: the lane numbers go into `a`.
fn lines(alloc: Global) -> Result<Vec<Instr>, Fail> {
    let index = Instr::Vector {
        result: V0,
        instr: VectorInstr::Index(M0),
    };
    let convert = Instr::Vector {
        result: V1,
        instr: VectorInstr::Convert {
            value: V0,
            mask: M0,
        },
    };
    let scatter = Instr::Scatter {
        array: A0,
        indices: V1,
        value: V0,
        mask: M0,
        place: 0,
    };
    Ok(vec![in alloc; index, convert, scatter, Instr::Return(None)]?)
}

/// Puts the lane numbers into `a`.
pub(crate) fn scatter(alloc: Global) -> Result<Function, Fail> {
    let a = Param {
        name: named(alloc, "a")?,
        kind: ParamKind::Array,
        elem: Elem::I32,
    };
    Ok(Function {
        name: named(alloc, "f")?,
        exported: true,
        returns: Returns::Nothing,
        params: vec![in alloc; a]?,
        locals: Vec::new(alloc),
        scalars: Vec::new(alloc),
        vectors: Vec::from_slice(alloc, &[Elem::I32, Elem::I64])?,
        masks: 1,
        code: lines(alloc)?,
    })
}

/// The same with its place, whose number it gives.
pub(crate) fn add_scatter(alloc: Global, code: &mut Code) -> Result<u32, Fail> {
    let place = code.add_place(Span { start: 0, end: 4 })?;
    add(code, scatter(alloc)?)?;
    Ok(place)
}

fn takes_an_array(verified: &Verified) -> bool {
    match verified.signature("f") {
        Some(signature) => {
            signature.params.len() == 1
                && signature.params[0].is_array
                && signature.result.is_none()
        }
        None => false,
    }
}

/// Whether the verified code is of the scatter alone.
pub(crate) fn is_scatter(verified: &Verified) -> bool {
    verified.code().functions().len() == 1
        && matches!(verified.gang(), Gang::W4)
        && takes_an_array(verified)
        && verified.signature("g").is_none()
        && verified.entry("f") == Some(0)
}

// A scatter written by hand, and what its function takes.
#[test]
fn scatter_by_hand(rt: HostRuntime) -> Result<(), Fail> {
    let alloc = rt.alloc();
    let mut code = Code::new(alloc, Gang::W4);
    let place = add_scatter(alloc, &mut code)?;
    assert!(rt; place == 0);
    match verify(alloc, code) {
        Ok(verified) => assert!(rt; is_scatter(&verified)),
        Err((_code, _fault)) => return Err(Fail::from("the code was refused")),
    }
    Ok(())
}
