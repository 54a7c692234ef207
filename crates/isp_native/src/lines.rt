//! How each instruction is written: one line for each.
ghost use Rattle.std.specs.Prelude.{◌≡◌, ◌++◌, IsTrue, OnOk};
ghost use Rattle.std.specs.List.{flat_map};
ghost use Rattle.isp_native.specs.Lines as lines;
ghost use Rattle.isp_native.specs.reader.Kinds.{is_access, is_across};
ghost use Rattle.isp_native.specs.declared.line.Tail.TheVariants.{Nothing, Place};

use crate::line::Tail;
use crate::page::Page;
use crate::words;
use isp_code::{Call, Instr, MaskInstr, Register, ScalarInstr, VectorInstr};
use std::alloc::AllocError;

impl Page {
    /// The line of an instruction.
    pub(crate) fn instr(&mut self, instr: &Instr) -> Result<(), AllocError>
        ensures { OnOk result (self.new ≡ self.old ++ lines.instr_line instr.now) }
    {
        match instr {
            Instr::Scalar { result, instr } => self.scalar(*result, instr),
            Instr::Vector { result, instr } => self.vector(*result, instr),
            Instr::Mask { result, instr } => self.mask(*result, instr),
            Instr::Divide {
                op,
                result,
                dividend,
                divisor,
                mask,
                place,
            } => self.at_place(
                words::division_word(result.class, *op),
                *result,
                &[*dividend, *divisor, *mask],
                *place,
            ),
            Instr::Store { .. }
            | Instr::Scatter { .. }
            | Instr::StoreRun { .. }
            | Instr::PackedStore { .. }
            | Instr::PackedLoad { .. } => self.access(instr),
            Instr::Clear { array, mask } => self.bare("CLEAR", *array, &[*mask]),
            Instr::Jump { target } => self.jump(*target),
            Instr::JumpIf {
                test,
                register,
                target,
            } => self.line(
                words::jump_word(*test),
                *register,
                &[],
                Tail::Label(*target),
            ),
            Instr::Say { text } => self.say(*text),
            Instr::PrintScalar(x) => self.bare("PRS", *x, &[]),
            Instr::PrintVector { vector, mask } => self.bare("PRV", *vector, &[*mask]),
            Instr::Fail { mask, place } => self.at_place("FAIL", *mask, &[], *place),
            Instr::Call(call) => self.call(call.get()),
            Instr::Return(x) => self.back(*x),
        }
    }

    // What stores, and what stores or loads lanes one after the other.
    fn access(&mut self, instr: &Instr) -> Result<(), AllocError>
        requires { IsTrue (is_access instr.now) }
        ensures { OnOk result (self.new ≡ self.old ++ lines.instr_line instr.now) }
    {
        match instr {
            Instr::Store {
                array,
                index,
                value,
                mask,
                place,
            } => self.at_place("STORE", *array, &[*index, *value, *mask], *place),
            Instr::Scatter {
                array,
                indices,
                value,
                mask,
                place,
            } => self.at_place("SCATTER", *array, &[*indices, *value, *mask], *place),
            Instr::StoreRun {
                array,
                index,
                value,
                mask,
                place,
            } => self.at_place("VSTORE", *array, &[*index, *value, *mask], *place),
            Instr::PackedStore {
                count,
                array,
                index,
                value,
                mask,
                place,
            } => self.at_place("PSTORE", *count, &[*array, *index, *value, *mask], *place),
            Instr::PackedLoad {
                count,
                array,
                index,
                result,
                mask,
                place,
            } => self.at_place("PLOAD", *count, &[*array, *index, *result, *mask], *place),
            _ => unreachable!(),
        }
    }

    fn scalar(&mut self, d: Register, instr: &ScalarInstr) -> Result<(), AllocError>
        ensures { OnOk result (self.new ≡ self.old ++ lines.scalar_line d instr.now) }
    {
        match *instr {
            ScalarInstr::Constant(n) => self.line("CONST", d, &[], Tail::Number(n)),
            ScalarInstr::Copy(x) => self.bare("COPY", d, &[x]),
            ScalarInstr::Convert(x) => self.bare("CONV", d, &[x]),
            ScalarInstr::Unary { op, value } => self.bare(words::unary_word(op), d, &[value]),
            ScalarInstr::Binary { op, left, right } => {
                self.bare(words::plain_word(op), d, &[left, right])
            }
            ScalarInstr::Compare { op, left, right } => {
                self.bare(words::compare_word(op), d, &[left, right])
            }
            ScalarInstr::Select {
                test,
                if_true,
                if_false,
            } => self.bare("SEL", d, &[test, if_true, if_false]),
            ScalarInstr::First(x) => self.bare("MFIRST", d, &[x]),
            ScalarInstr::Load {
                array,
                index,
                mask,
                place,
            } => self.at_place("LOAD", d, &[array, index, mask], place),
            ScalarInstr::Reduce { op, vector, mask } => {
                self.bare(words::reduction_word(op), d, &[vector, mask])
            }
            ScalarInstr::Extract { vector, lane, mask } => {
                self.bare("EXTR", d, &[vector, lane, mask])
            }
        }
    }

    fn vector(&mut self, d: Register, instr: &VectorInstr) -> Result<(), AllocError>
        ensures { OnOk result (self.new ≡ self.old ++ lines.vector_line d instr.now) }
    {
        match *instr {
            VectorInstr::Copy { value, mask } => self.bare("VCOPY", d, &[value, mask]),
            VectorInstr::Convert { value, mask } => self.bare("VCONV", d, &[value, mask]),
            VectorInstr::Unary { op, value, mask } => {
                self.lanes(words::unary_word(op), d, &[value, mask])
            }
            VectorInstr::Binary {
                op,
                left,
                right,
                mask,
            } => self.lanes(words::plain_word(op), d, &[left, right, mask]),
            VectorInstr::Compare {
                op,
                left,
                right,
                mask,
            } => self.lanes(words::compare_word(op), d, &[left, right, mask]),
            VectorInstr::Select {
                test,
                if_true,
                if_false,
                mask,
            } => self.bare("VSEL", d, &[test, if_true, if_false, mask]),
            VectorInstr::Splat { value, mask } => self.bare("SPLAT", d, &[value, mask]),
            VectorInstr::Index(k) => self.bare("INDEX", d, &[k]),
            _ => self.across(d, *instr),
        }
    }

    // What comes from an array, or from other lanes.
    fn across(&mut self, d: Register, instr: VectorInstr) -> Result<(), AllocError>
        requires { IsTrue (is_across instr) }
        ensures { OnOk result (self.new ≡ self.old ++ lines.vector_line d instr) }
    {
        match instr {
            VectorInstr::Gather {
                array,
                indices,
                mask,
                place,
            } => self.at_place("GATHER", d, &[array, indices, mask], place),
            VectorInstr::LoadRun {
                array,
                index,
                mask,
                place,
            } => self.at_place("VLOAD", d, &[array, index, mask], place),
            VectorInstr::Scan { op, value, mask } => {
                self.bare(words::scan_word(op), d, &[value, mask])
            }
            VectorInstr::Exchange {
                op,
                vector,
                by,
                mask,
            } => self.bare(words::exchange_word(op), d, &[vector, by, mask]),
            VectorInstr::Shuffle {
                vector,
                lanes,
                mask,
            } => self.bare("SHUF", d, &[vector, lanes, mask]),
            VectorInstr::ShuffleTwo {
                first,
                second,
                lanes,
                mask,
            } => self.bare("SHUF2", d, &[first, second, lanes, mask]),
            VectorInstr::Insert {
                vector,
                lane,
                value,
                mask,
            } => self.bare("INS", d, &[vector, lane, value, mask]),
            _ => unreachable!(),
        }
    }

    fn mask(&mut self, d: Register, instr: &MaskInstr) -> Result<(), AllocError>
        ensures { OnOk result (self.new ≡ self.old ++ lines.mask_line d instr.now) }
    {
        match *instr {
            MaskInstr::Copy(x) => self.bare("MCOPY", d, &[x]),
            MaskInstr::Binary { op, left, right } => {
                self.bare(words::mask_word(op), d, &[left, right])
            }
            MaskInstr::Full => self.bare("MFULL", d, &[]),
            MaskInstr::Off => self.bare("MNONE", d, &[]),
            MaskInstr::Test { vector, mask } => self.bare("MTEST", d, &[vector, mask]),
            MaskInstr::Lowest(x) => self.bare("MLOW", d, &[x]),
            MaskInstr::Range { first, end } => self.bare("MRANGE", d, &[first, end]),
        }
    }

    fn jump(&mut self, target: u32) -> Result<(), AllocError>
        ensures { OnOk result (self.new ≡ self.old ++ lines.jump_line target) }
    {
        self.number("JMP(L", u64::from(target))?;
        self.text(");")
    }

    fn say(&mut self, text: u32) -> Result<(), AllocError>
        ensures { OnOk result (self.new ≡ self.old ++ lines.say_line text) }
    {
        self.number("SAY(t", u64::from(text))?;
        self.text(");")
    }

    fn back(&mut self, register: Option<Register>) -> Result<(), AllocError>
        ensures { OnOk result (self.new ≡ self.old ++ lines.return_line register) }
    {
        match register {
            None => self.text("LEAVE();"),
            Some(register) => self.bare("RET", register, &[]),
        }
    }

    // A word of lanes and its registers.
    fn lanes(&mut self, word: &str, first: Register, more: &[Register]) -> Result<(), AllocError>
        ensures { OnOk result (self.new ≡ self.old ++ lines.line (lines.lanes word.now) first more.now Nothing) }
    {
        self.text("V")?;
        self.bare(word, first, more)
    }

    // A word and its registers.
    fn bare(&mut self, word: &str, first: Register, more: &[Register]) -> Result<(), AllocError>
        ensures { OnOk result (self.new ≡ self.old ++ lines.line word.now first more.now Nothing) }
    {
        self.line(word, first, more, Tail::Nothing)
    }

    // A word, its registers, and the place of a trap.
    fn at_place(
        &mut self,
        word: &str,
        first: Register,
        more: &[Register],
        place: u32,
    ) -> Result<(), AllocError>
        ensures { OnOk result (self.new ≡ self.old ++ lines.line word.now first more.now (Place place)) }
    {
        self.line(word, first, more, Tail::Place(place))
    }

    // A word, its registers, and what ends the operands.
    fn line(
        &mut self,
        word: &str,
        first: Register,
        more: &[Register],
        tail: Tail,
    ) -> Result<(), AllocError>
        ensures { OnOk result (self.new ≡ self.old ++ lines.line word.now first more.now tail) }
    {
        self.open(word, first)?;
        self.all_behind(more)?;
        self.tail(tail)?;
        self.text(");")
    }

    fn open(&mut self, word: &str, first: Register) -> Result<(), AllocError>
        ensures { OnOk result (self.new ≡ self.old ++ lines.opened word.now first) }
    {
        self.text(word)?;
        self.text("(")?;
        self.register(first)
    }

    fn call(&mut self, call: &Call) -> Result<(), AllocError>
        ensures { OnOk result (self.new ≡ self.old ++ lines.call_line call.now) }
    {
        self.called(call.result, call.function)?;
        self.behind(call.mask)?;
        self.tail(Tail::Place(call.place))?;
        self.all_passed(call.arguments.as_slice())?;
        self.text(");")
    }

    fn called(&mut self, result_to: Option<Register>, function: u32) -> Result<(), AllocError>
        ensures { OnOk result (self.new ≡ self.old ++ lines.called result_to function) }
    {
        self.text(words::call_word(result_to))?;
        self.number("(f", u64::from(function))?;
        match result_to {
            None => Ok(()),
            Some(register) => self.behind(register),
        }
    }

    fn all_passed(&mut self, registers: &[Register]) -> Result<(), AllocError>
        ensures { OnOk result (self.new ≡ self.old ++ flat_map lines.passed registers.now) }
    {
        for register in registers {
            self.passed(*register)?;
        }
        Ok(())
    }

    fn passed(&mut self, register: Register) -> Result<(), AllocError>
        ensures { OnOk result (self.new ≡ self.old ++ lines.passed register) }
    {
        self.text(", ")?;
        self.text(words::capital(register.class))?;
        self.text("(")?;
        self.register(register)?;
        self.text(")")
    }
}
