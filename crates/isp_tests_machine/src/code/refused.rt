//! Memory refused to what builds code and to the verifier, at each growth.
use crate::code::scatter::{add, add_scatter, is_scatter, scatter};
use isp_base::{Gang, Span};
use isp_code::{Code, CodeLimit};
use isp_tests_support::{Hoard, Tried, sweep};
use isp_verify::{VerifyFault, verify};
use std::alloc::Global;
use std::test::Fail;

const PLACE: Span = Span { start: 30, end: 54 };

// Code with four places, texts and functions, so that a fifth of each asks for memory.
fn full(alloc: Global) -> Result<Code, Fail> {
    let mut code = Code::new(alloc, Gang::W4);
    for _ in 0..4u32 {
        add_scatter(alloc, &mut code)?;
        code.add_text(b"b")?;
    }
    Ok(code)
}

// Whether there are so many places, texts and functions.
fn has(code: &Code, places: usize, texts: usize, functions: usize) -> bool {
    code.places().len() == places
        && code.text_count() == texts
        && code.functions().len() == functions
}

fn placed(alloc: Global, hoard: &mut Hoard, bytes: usize) -> Result<Tried, Fail> {
    let mut code = full(alloc)?;
    hoard.beside(bytes)?;
    let first = code.add_place(PLACE);
    hoard.ample();
    match first {
        Ok(number) => Ok(Tried::answered(number == 4 && code.places().last() == Some(&PLACE))),
        Err(limit) => {
            let stays = limit == CodeLimit::Memory && has(&code, 4, 4, 4);
            let number = code.add_place(PLACE)?;
            Ok(Tried::failed(stays && number == 4 && code.places().last() == Some(&PLACE)))
        }
    }
}

// Whether the fifth text, by its number, is this.
fn is_fifth(code: &Code, number: u32) -> bool {
    number == 4 && code.text_count() == 5 && code.text(4) == b"a".as_slice()
}

fn texted(alloc: Global, hoard: &mut Hoard, bytes: usize) -> Result<Tried, Fail> {
    let mut code = full(alloc)?;
    hoard.beside(bytes)?;
    let first = code.add_text(b"a");
    hoard.ample();
    match first {
        Ok(number) => Ok(Tried::answered(is_fifth(&code, number))),
        Err(limit) => {
            let stays = limit == CodeLimit::Memory && has(&code, 4, 4, 4);
            let number = code.add_text(b"a")?;
            Ok(Tried::failed(stays && is_fifth(&code, number)))
        }
    }
}

// The function that came back is added again.
fn added(alloc: Global, hoard: &mut Hoard, bytes: usize) -> Result<Tried, Fail> {
    let mut code = full(alloc)?;
    let function = scatter(alloc)?;
    hoard.beside(bytes)?;
    match code.add_function(function) {
        Ok(()) => Ok(Tried::answered(has(&code, 4, 4, 5))),
        Err((function, limit)) => {
            hoard.ample();
            let stays = limit == CodeLimit::Memory && has(&code, 4, 4, 4);
            add(&mut code, function)?;
            Ok(Tried::failed(stays && has(&code, 4, 4, 5)))
        }
    }
}

// Whether code is verified, and is of the scatter.
fn is_taken(alloc: Global, code: Code) -> bool {
    match verify(alloc, code) {
        Ok(verified) => is_scatter(&verified),
        Err((_code, _fault)) => false,
    }
}

// The code that came back is verified again.
fn judged(alloc: Global, code: Code, hoard: &mut Hoard) -> Tried {
    match verify(alloc, code) {
        Ok(verified) => Tried::answered(is_scatter(&verified)),
        Err((code, fault)) => {
            hoard.ample();
            Tried::failed(fault == VerifyFault::Memory && is_taken(alloc, code))
        }
    }
}

fn verifies(alloc: Global, hoard: &mut Hoard, bytes: usize) -> Result<Tried, Fail> {
    let mut code = Code::new(alloc, Gang::W4);
    add_scatter(alloc, &mut code)?;
    hoard.beside(bytes)?;
    Ok(judged(alloc, code, hoard))
}

#[test]
fn memory_refused_to_code(rt: HostRuntime) -> Result<(), Fail> {
    let alloc = rt.alloc();
    sweep(
        alloc,
        "add_place",
        |hoard, bytes| placed(alloc, hoard, bytes),
    )?;
    sweep(
        alloc,
        "add_text",
        |hoard, bytes| texted(alloc, hoard, bytes),
    )?;
    sweep(
        alloc,
        "add_function",
        |hoard, bytes| added(alloc, hoard, bytes),
    )?;
    sweep(
        alloc,
        "verify",
        |hoard, bytes| verifies(alloc, hoard, bytes),
    )
}
