//! Code gets its places, texts and functions, all of which its text can have.
ghost use Rattle.std.specs.Prelude.{◌≡◌, ◌≤◌, ◌+◌, ◌++◌, length, map, true, IfOk, OnOk};
ghost use Rattle.std.specs.List.{list_all};
ghost use Rattle.isp_code.specs.Listing.{routine_of};
ghost use Rattle.isp_code.specs.Writable.{has_byte, parts_fit, place_fits};
ghost use Rattle.isp_lower_code.specs.Lines.{has_small_numbers};
ghost use Rattle.isp_lower.specs.Drafts.{routine_in};
ghost use Rattle.isp_lower_code.specs.Lines.{has_small_number};

use crate::closing::Closed;
use crate::line::Line;
use isp_base::Span;
use isp_code::{Code, CodeLimit, Function, Instr};
use std::alloc::{AllocError, Global};

/// Adds places, in their order.
pub fn add_places(code: &mut Code, places: &[Span]) -> Result<(), AllocError>
    requires fit { list_all place_fits places.now ≡ true }
    requires few { length code.old.places + length places.now ≤ 4294967296 }
    ensures { OnOk result (code.new ≡ record code.old { places = code.old.places ++ places.now }) }
{
    for place in places.iter() {
        match code.add_place(*place) {
            Ok(_) => {}
            Err(CodeLimit::Memory) => return Err(AllocError),
            Err(CodeLimit::OverLimit) => unreachable!(),
        }
    }
    Ok(())
}

/// Adds texts, in their order.
pub fn add_texts(code: &mut Code, texts: &[Vec<u8>]) -> Result<(), AllocError>
    requires fit { list_all has_byte (map (λ t. t.items) texts.now) ≡ true }
    requires few { length code.old.texts + length texts.now ≤ 4294967296 }
    ensures { OnOk result (code.new ≡ record code.old { texts = code.old.texts ++ map (λ t. t.items) texts.now }) }
{
    for text in texts.iter() {
        match code.add_text(text.as_slice()) {
            Ok(_) => {}
            Err(CodeLimit::Memory) => return Err(AllocError),
            Err(CodeLimit::OverLimit) => unreachable!(),
        }
    }
    Ok(())
}

/// The instructions of lines, whose numbers have 32 bits.
fn instrs(alloc: Global, lines: Vec<Line>) -> Result<Vec<Instr>, AllocError>
    requires { list_all has_small_number lines.items ≡ true }
    ensures { IfOk result (λ code. code.items ≡ lines.items) }
{
    let mut code = Vec::new(alloc);
    for line in lines {
        code.push(line.into_instr())?;
    }
    Ok(code)
}

/// The function of a routine and its lines.
fn function_of(alloc: Global, closed: Closed) -> Result<Function, AllocError>
    requires { has_small_numbers (routine_in closed) ≡ true }
    ensures { IfOk result (λ f. routine_of f ≡ routine_in closed) }
{
    let mut routine = closed.routine;
    routine.code = instrs(alloc, closed.lines)?;
    Ok(routine)
}

/// Adds functions, in their order.
pub fn add_functions(
    alloc: Global,
    code: &mut Code,
    functions: Vec<Closed>,
) -> Result<(), AllocError>
    requires fit { list_all parts_fit (map routine_in functions.items) ≡ true }
    requires numbers { list_all has_small_numbers (map routine_in functions.items) ≡ true }
    ensures { OnOk result (code.new ≡ record code.old { routines = code.old.routines ++ map routine_in functions.items }) }
{
    for f in functions {
        match code.add_function(function_of(alloc, f)?) {
            Ok(()) => {}
            Err((_f, CodeLimit::Memory)) => return Err(AllocError),
            Err((_f, CodeLimit::OverLimit)) => unreachable!(),
        }
    }
    Ok(())
}
