//! The pass that finds facts. Nothing is promised of them, since `check` looks at them.
use crate::elems::scalar_elem;
use crate::fact::{Constants, Fact, Known, tells};
use crate::written::{lines_keep, writes};
use isp_base::wrap;
use isp_code::{Code, Function, Instr, MaskInstr, Plain, Register, ScalarInstr, VectorInstr};
use std::alloc::{AllocError, Global};

// How many instructions are looked at: isp's functions begin with fewer that make constants, and each is followed through its function.
const MOST_FIRST: usize = 256;

// What a constant makes known of a scalar.
fn scalar_made(function: &Function, d: Register, value: i128) -> Known {
    Known::Scalar {
        register: d.number,
        number: wrap(scalar_elem(function, d.number), value),
    }
}

fn full_made(d: Register) -> Known {
    Known::Full { mask: d.number }
}

// The number that facts tell of a scalar before an instruction.
fn scalar_told(facts: &[Fact], pc: usize, scalar: Register) -> Option<u64> {
    for x in facts {
        match x.known {
            Known::Scalar { register, number } if register == scalar.number && x.is_in(pc) => {
                return Some(number);
            }
            _ => {}
        }
    }
    None
}

// What a splat makes known of a vector: the scalar's number, where the mask is full.
fn vector_made(
    facts: &[Fact],
    pc: usize,
    d: Register,
    value: Register,
    mask: Register,
) -> Option<Known> {
    if !tells(facts, pc, full_made(mask)) {
        return None;
    }
    let number = scalar_told(facts, pc, value)?;
    Some(Known::Vector {
        register: d.number,
        number,
    })
}

// What an instruction makes known by facts before it.
fn made(function: &Function, facts: &[Fact], pc: usize, instr: &Instr) -> Option<Known> {
    match instr {
        Instr::Mask {
            result,
            instr: MaskInstr::Full,
        } => Some(full_made(*result)),
        Instr::Scalar {
            result,
            instr: ScalarInstr::Constant(value),
        } => Some(scalar_made(function, *result, *value)),
        Instr::Vector {
            result,
            instr: VectorInstr::Splat { value, mask },
        } => vector_made(facts, pc, *result, *value, *mask),
        _ => None,
    }
}

// Whether an instruction may stand at the head of a function.
fn is_first(instr: &Instr) -> bool {
    matches!(
        instr,
        Instr::Mask {
            instr: MaskInstr::Full,
            ..
        } | Instr::Scalar {
            instr: ScalarInstr::Constant(_),
            ..
        } | Instr::Vector {
            instr: VectorInstr::Splat { .. },
            ..
        }
    )
}

// How many instructions a function begins with that make constants, of those that are looked at.
fn head_of(instrs: &[Instr]) -> usize {
    for (pc, instr) in instrs.iter().enumerate() {
        if pc == MOST_FIRST || !is_first(instr) {
            return pc;
        }
    }
    instrs.len()
}

// The last instruction, below an end, to which something stays known after a line.
fn last_of(instrs: &[Instr], line: usize, end: usize, known: Known) -> usize {
    for (pc, instr) in instrs.iter().enumerate() {
        if pc > line && pc < end && writes(instr, known) {
            return pc - 1;
        }
    }
    end
}

// A vector is asked for in the whole function, a scalar and a mask at its head alone.
fn end_of(instrs: &[Instr], head: usize, known: Known) -> usize {
    match known {
        Known::Vector { .. } => instrs.len(),
        _ => head,
    }
}

// Whether an instruction is a shift by a vector.
fn shifts_by(instr: &Instr, vector: u32) -> bool {
    match instr {
        Instr::Vector {
            instr: VectorInstr::Binary {
                op: Plain::Shl | Plain::Shr,
                right,
                ..
            },
            ..
        } => right.number == vector,
        _ => false,
    }
}

// Whether some shift asks for what is known: a vector that none asks for need not stay as it is.
fn is_asked(fact: Fact, instrs: &[Instr]) -> bool {
    let Known::Vector { register, .. } = fact.known else {
        return true;
    };
    for (pc, instr) in instrs.iter().enumerate() {
        if fact.is_in(pc) && shifts_by(instr, register) {
            return true;
        }
    }
    false
}

// The facts of a function.
fn facts_of(alloc: Global, function: &Function) -> Result<Vec<Fact>, AllocError> {
    let instrs = function.code.as_slice();
    let head = head_of(instrs);
    let mut facts = Vec::new(alloc);
    for (line, instr) in instrs.iter().enumerate().take(head) {
        if let Some(known) = made(function, &facts, line, instr) {
            let last = last_of(instrs, line, end_of(instrs, head, known), known);
            let fact = Fact { known, line, last };
            if is_asked(fact, instrs) && lines_keep(fact, instrs) {
                facts.push(fact)?;
            }
        }
    }
    Ok(facts)
}

/// What is known of the vectors of some code, by the constants with which each function begins. Fails only where memory is refused.
/// Nothing else is promised; `check` says whether it is so.
pub fn find(alloc: Global, code: &Code) -> Result<Constants, AllocError> {
    let mut functions = Vec::new(alloc);
    for function in code.functions() {
        functions.push(facts_of(alloc, function)?)?;
    }
    Ok(Constants { functions })
}
