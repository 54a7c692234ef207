//! Lines of code while it is written: an instruction, and beside it the number that it names, which may be any. It gets its 32 bits when
//! the code is done, so no number is too great before.
ghost use Rattle.std.specs.Prelude.{◌≡◌, ◌<◌, ◌≤◌};
ghost use Rattle.isp_code.specs.Operands.{operands};
ghost use Rattle.isp_lower_code.specs.Named.{behind_registers, registers_named};
ghost use Rattle.isp_lower_code.specs.Patched.{IsJump, retargeted};
ghost use Rattle.isp_lower_code.specs.Lines.{naming, number_named, scalar_naming, vector_naming};

use crate::named::behind_instr;
use isp_code::{Class, Instr, ScalarInstr, VectorInstr};
use std::marker::Model;

/// An instruction. Contracts see it with the number that it names.
#[derive(Drop)]
pub struct Line {
    instr: Instr,
    /// The number of an instruction, a place or a text, if that is not the instruction's own.
    number: Option<usize>,
}

impl Model for Line {
    ghost use Rattle.isp_code.specs.declared.instr.Instr.{Instr};
    ghost use Rattle.isp_lower_code.specs.Lines.{CanName, naming_if};

    ghost Value = { Instr };

    ghost view = { λ l. naming_if l.number l.instr };

    ghost invariant = { λ l. CanName l.number l.instr };
}

impl Line {
    /// An instruction as it is.
    pub fn new(instr: Instr) -> Line
        ensures { result ≡ instr }
    {
        Line {
            instr,
            number: None,
        }
    }

    /// One that names a number: this one, in place of its own.
    pub fn naming(instr: Instr, number: usize) -> Line
        requires { number_named (naming number instr) ≡ number }
        ensures { result ≡ naming number instr }
    {
        Line {
            instr,
            number: Some(number),
        }
    }

    /// A jump leads to another instruction.
    #[tactic(auto, using(crate::proofs::JumpLines::jump_names))]
    pub(crate) fn retarget(&mut self, target: usize)
        requires { IsJump self.old }
        ensures { self.new ≡ retargeted self.old target }
    {
        self.number = Some(target);
    }

    /// The number after the registers of a class that it names.
    #[tactic(auto, using(crate::proofs::Behind::named_same))]
    pub(crate) fn behind(&self, class: Class) -> usize
        ensures is { result ≡ behind_registers class (registers_named (operands self.now)) }
        ensures few { result ≤ 4294967296 }
    {
        behind_instr(class, &self.instr)
    }

    /// The instruction, whose number has 32 bits.
    pub(crate) fn into_instr(self) -> Instr
        requires { number_named self < 4294967296 }
        ensures { result ≡ self }
    {
        match self.number {
            None => self.instr,
            Some(number) => renamed(self.instr, number as u32),
        }
    }
}

/// A scalar's instruction with another number.
fn scalar_renamed(instr: ScalarInstr, number: u32) -> ScalarInstr
    ensures { result ≡ scalar_naming number instr }
{
    match instr {
        ScalarInstr::Load {
            array,
            index,
            mask,
            ..
        } => ScalarInstr::Load {
            array,
            index,
            mask,
            place: number,
        },
        other => other,
    }
}

/// A vector's instruction with another number.
fn vector_renamed(instr: VectorInstr, number: u32) -> VectorInstr
    ensures { result ≡ vector_naming number instr }
{
    match instr {
        VectorInstr::Gather {
            array,
            indices,
            mask,
            ..
        } => VectorInstr::Gather {
            array,
            indices,
            mask,
            place: number,
        },
        VectorInstr::LoadRun {
            array,
            index,
            mask,
            ..
        } => VectorInstr::LoadRun {
            array,
            index,
            mask,
            place: number,
        },
        other => other,
    }
}

/// An instruction with another number, if it names one.
fn renamed(mut instr: Instr, number: u32) -> Instr
    ensures { result ≡ naming number instr }
{
    match &mut instr {
        Instr::Scalar { instr, .. } => *instr = scalar_renamed(*instr, number),
        Instr::Vector { instr, .. } => *instr = vector_renamed(*instr, number),
        Instr::Divide { place, .. } => *place = number,
        Instr::Store { place, .. } => *place = number,
        Instr::Scatter { place, .. } => *place = number,
        Instr::StoreRun { place, .. } => *place = number,
        Instr::PackedStore { place, .. } => *place = number,
        Instr::PackedLoad { place, .. } => *place = number,
        Instr::Fail { place, .. } => *place = number,
        Instr::Call(call) => call.set_place(number),
        Instr::Jump { target } => *target = number,
        Instr::JumpIf { target, .. } => *target = number,
        Instr::Say { text } => *text = number,
        _ => {}
    }
    instr
}
