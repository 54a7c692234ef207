//! Instructions as they are read.
ghost use Rattle.std.specs.Prelude.{◌≡◌, ◌∷◌, codes, length, true, IfOk, IfErr, OnOk, IfSome, IfNone, Some, None};
ghost use Rattle.isp_code.specs.Writable.{instr_fits};
ghost use Rattle.isp_asm.specs.Forms.{shaped};
ghost use Rattle.isp_asm.specs.Heads.{op_word};
ghost use Rattle.isp_asm.specs.Rows.{instr_words};
ghost use Rattle.isp_asm.specs.declared.fault.LineFault.TheVariants.{Refused};
ghost use Rattle.isp_asm.specs.declared.fault.Rule.{Rule};
ghost use Rattle.isp_asm.specs.declared.head.Head.TheVariants as head;
ghost use Rattle.isp_asm.specs.reader.Reading.{Splits, behind_fault, words_of};

use crate::assemble::assemble;
use crate::fault::{LineFault, Rule};
use crate::head::Op;
use crate::shape::Shape;
use crate::{operands, words};
use isp_code::{Arguments, Call, CallBox, Instr};
use std::alloc::Global;

/// An instruction of registers and an ending.
pub(crate) fn instr(alloc: Global, op: Op, words: &[&str]) -> Result<Instr, LineFault>
    ensures spelled { IfOk result (λ i. instr_words i ≡ op_word op ∷ words_of words.now) }
    ensures fits { IfOk result (λ i. instr_fits i ≡ true) }
    ensures ok { OnOk result (behind_fault (head.Op op) (words_of words.now) ≡ None) }
    ensures err { IfErr result (λ e. (r : Rule) → e ≡ Refused r → behind_fault (head.Op op) (words_of words.now) ≡ Some r) }
{
    let shape = op.shape();
    let Some((front, back)) = split(shape, words) else {
        return Err(LineFault::Refused(Rule::BadLine));
    };
    let registers = operands::registers(alloc, front)?;
    let tail = operands::tail(shape.ending, back)?;
    Ok(assemble(op, registers.as_slice(), tail))
}

// The registers and the ending, if the words are as many as the shape has.
fn split<'a, 'b>(shape: Shape, words: &'b [&'a str]) -> Option<(&'b [&'a str], &'b [&'a str])>
    ensures some { IfSome result (λ p. Splits shape words.now p.0.now p.1.now) }
    ensures none { IfNone result (shaped shape (length words.now) ≡ None) }
{
    let ending = shape.ending.count();
    if words.len() < ending {
        return None;
    }
    let (front, back) = words.split_at(words.len() - ending);
    if shape.has_registers(front.len()) {
        Some((front, back))
    } else {
        None
    }
}

/// A call.
pub(crate) fn call(alloc: Global, words: &[&str]) -> Result<Instr, LineFault>
    ensures spelled { IfOk result (λ i. instr_words i ≡ codes "call" ∷ words_of words.now) }
    ensures fits { IfOk result (λ i. instr_fits i ≡ true) }
    ensures ok { OnOk result (behind_fault head.Call (words_of words.now) ≡ None) }
    ensures err { IfErr result (λ e. (r : Rule) → e ≡ Refused r → behind_fault head.Call (words_of words.now) ≡ Some r) }
{
    let [function, result, mask, place, arguments @ ..] = words else {
        return Err(LineFault::Refused(Rule::BadLine));
    };
    let function = words::lettered(b'f', Rule::BadOperand, function)?;
    let result = words::back(result)?;
    let mask = words::register(mask)?;
    let place = words::lettered(b'p', Rule::BadOperand, place)?;
    let arguments = Arguments::new(operands::registers(alloc, arguments)?);
    let call = Call {
        function,
        result,
        mask,
        place,
        arguments,
    };
    Ok(Instr::Call(CallBox::new(alloc, call)?))
}
