//! Where rungs begin: at the first instruction, and where jumps go.
ghost use Rattle.std.specs.Prelude.{◌≡◌, ◌++◌, ◌∷◌, [], ℕ, ◌+◌, ◌<◌, ◌≤◌, length, false, slice_index_or, nat_eq, if◌then◌else◌, OnOk, IfOk, IfSome, IfNone};
ghost use Rattle.isp_wasm.specs.Module.{goes_to, is_head, heads_of};

use isp_code::Instr;
use std::alloc::{AllocError, Global};

// Where an instruction jumps to.
fn target_of(instr: &Instr) -> Option<u32>
    ensures there { IfSome result (λ t. (pc : ℕ) → goes_to pc instr.now ≡ nat_eq t pc) }
    ensures none { IfNone result ((pc : ℕ) → goes_to pc instr.now ≡ false) }
{
    match *instr {
        Instr::Jump { target } => Some(target),
        Instr::JumpIf { target, .. } => Some(target),
        _ => None,
    }
}

// For each instruction, whether a rung begins there.
fn marks(alloc: Global, code: &[Instr]) -> Result<Vec<bool>, AllocError>
    ensures all { IfOk result (λ v. length v.items ≡ length code.now) }
    ensures each { IfOk result (λ v. (k : ℕ) → k < length code.now → slice_index_or v.items k false ≡ is_head code.now k) }
{
    let mut marks = vec![in alloc; false; code.len()]?;
    if let Some(first) = marks.first_mut() {
        *first = true;
    }
    for instr in code {
        if let Some(target) = target_of(instr) {
            if let Some(mark) = marks.get_mut(target as usize) {
                *mark = true;
            }
        }
    }
    Ok(marks)
}

// Whether there is a mark at a place.
fn is_marked(marks: &[bool], number: usize) -> bool
    ensures { result ≡ slice_index_or marks.now number false }
{
    match marks.get(number) {
        Some(mark) => *mark,
        None => false,
    }
}

// An instruction's number after the others, if a rung begins there.
fn push_head(heads: &mut Vec<u64>, number: usize, is_head: bool) -> Result<(), AllocError>
    ensures items { OnOk result (heads.new.items ≡ heads.old.items ++ (if is_head then number ∷ [] else [])) }
    ensures few { OnOk result (length heads.new.items ≤ length heads.old.items + 1) }
{
    if is_head {
        heads.push(number as u64)?;
    }
    Ok(())
}

/// The numbers of the instructions where rungs begin, in order.
pub(crate) fn heads_of(alloc: Global, code: &[Instr]) -> Result<Vec<u64>, AllocError>
    ensures is { IfOk result (λ v. v.items ≡ heads_of code.now) }
    ensures few { IfOk result (λ v. length v.items ≤ length code.now) }
{
    let marks = marks(alloc, code)?;
    let mut heads = Vec::new(alloc);
    for number in 0..code.len() {
        let is_head = is_marked(marks.as_slice(), number);
        push_head(&mut heads, number, is_head)?;
    }
    Ok(heads)
}
