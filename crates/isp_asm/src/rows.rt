//! How each instruction is written: one row for each.
ghost use Rattle.std.specs.Prelude.{◌≡◌, ◌++◌, IsTrue, OnOk};
ghost use Rattle.isp_asm.specs.Rows as rows;
ghost use Rattle.isp_asm.specs.Rows.{line, instr_words, mask_row, row_words, scalar_row, vector_row};
ghost use Rattle.isp_asm.specs.Spelling.{line_text};
ghost use Rattle.isp_asm.specs.reader.Kinds.{is_access, is_across};

use crate::head::{Head, Op};
use crate::page::Page;
use crate::row::Tail;
use isp_code::{Call, Instr, MaskInstr, Register, ScalarInstr, VectorInstr};
use std::alloc::AllocError;

impl Page {
    /// The line of an instruction.
    pub(crate) fn instr(&mut self, instr: &Instr) -> Result<(), AllocError>
        ensures { OnOk result (self.new ≡ self.old ++ line_text (instr_words instr.now)) }
    {
        match instr {
            Instr::Scalar { result, instr } => self.scalar(*result, instr),
            Instr::Vector { result, instr } => self.vector(*result, instr),
            Instr::Mask { result, instr } => self.mask(*result, instr),
            Instr::Divide {
                op,
                result,
                dividend,
                divisor,
                mask,
                place,
            } => self.at_place(
                Op::Divide(*op),
                &[*result, *dividend, *divisor, *mask],
                *place,
            ),
            Instr::Store { .. }
            | Instr::Scatter { .. }
            | Instr::StoreRun { .. }
            | Instr::PackedStore { .. }
            | Instr::PackedLoad { .. } => self.access(instr),
            Instr::Clear { array, mask } => self.bare(Op::Clear, &[*array, *mask]),
            Instr::Jump { target } => self.row(Op::Jump, &[], Tail::Label(*target)),
            Instr::JumpIf {
                test,
                register,
                target,
            } => self.row(Op::JumpIf(*test), &[*register], Tail::Label(*target)),
            Instr::Say { text } => self.row(Op::Say, &[], Tail::Text(*text)),
            Instr::PrintScalar(x) => self.bare(Op::PrintScalar, &[*x]),
            Instr::PrintVector { vector, mask } => self.bare(Op::PrintVector, &[*vector, *mask]),
            Instr::Fail { mask, place } => self.at_place(Op::Fail, &[*mask], *place),
            Instr::Call(call) => self.call(call.get()),
            Instr::Return(x) => self.row(Op::Return, &[], Tail::Back(*x)),
        }
    }

    // What stores, and what stores or loads lanes one after the other.
    fn access(&mut self, instr: &Instr) -> Result<(), AllocError>
        requires { IsTrue (is_access instr.now) }
        ensures { OnOk result (self.new ≡ self.old ++ line_text (instr_words instr.now)) }
    {
        match instr {
            Instr::Store {
                array,
                index,
                value,
                mask,
                place,
            } => self.at_place(Op::Store, &[*array, *index, *value, *mask], *place),
            Instr::Scatter {
                array,
                indices,
                value,
                mask,
                place,
            } => self.at_place(Op::Scatter, &[*array, *indices, *value, *mask], *place),
            Instr::StoreRun {
                array,
                index,
                value,
                mask,
                place,
            } => self.at_place(Op::StoreRun, &[*array, *index, *value, *mask], *place),
            Instr::PackedStore {
                count,
                array,
                index,
                value,
                mask,
                place,
            } => self.at_place(
                Op::PackedStore,
                &[*count, *array, *index, *value, *mask],
                *place,
            ),
            Instr::PackedLoad {
                count,
                array,
                index,
                result,
                mask,
                place,
            } => self.at_place(
                Op::PackedLoad,
                &[*count, *array, *index, *result, *mask],
                *place,
            ),
            _ => unreachable!(),
        }
    }

    fn scalar(&mut self, d: Register, instr: &ScalarInstr) -> Result<(), AllocError>
        ensures { OnOk result (self.new ≡ self.old ++ line_text (row_words (scalar_row d instr.now))) }
    {
        match *instr {
            ScalarInstr::Constant(n) => self.row(Op::Const, &[d], Tail::Number(n)),
            ScalarInstr::Copy(x) => self.bare(Op::Copy, &[d, x]),
            ScalarInstr::Convert(x) => self.bare(Op::Convert, &[d, x]),
            ScalarInstr::Unary { op, value } => self.bare(Op::Unary(op), &[d, value]),
            ScalarInstr::Binary { op, left, right } => self.bare(Op::Plain(op), &[d, left, right]),
            ScalarInstr::Compare { op, left, right } => self.bare(
                Op::Compare(op),
                &[d, left, right],
            ),
            ScalarInstr::Select {
                test,
                if_true,
                if_false,
            } => self.bare(Op::Select, &[d, test, if_true, if_false]),
            ScalarInstr::First(x) => self.bare(Op::First, &[d, x]),
            ScalarInstr::Load {
                array,
                index,
                mask,
                place,
            } => self.at_place(Op::Load, &[d, array, index, mask], place),
            ScalarInstr::Reduce { op, vector, mask } => self.bare(
                Op::Reduce(op),
                &[d, vector, mask],
            ),
            ScalarInstr::Extract { vector, lane, mask } => self.bare(
                Op::Extract,
                &[d, vector, lane, mask],
            ),
        }
    }

    fn vector(&mut self, d: Register, instr: &VectorInstr) -> Result<(), AllocError>
        ensures { OnOk result (self.new ≡ self.old ++ line_text (row_words (vector_row d instr.now))) }
    {
        match *instr {
            VectorInstr::Copy { value, mask } => self.bare(Op::Copy, &[d, value, mask]),
            VectorInstr::Convert { value, mask } => self.bare(Op::Convert, &[d, value, mask]),
            VectorInstr::Unary { op, value, mask } => self.bare(Op::Unary(op), &[d, value, mask]),
            VectorInstr::Binary {
                op,
                left,
                right,
                mask,
            } => self.bare(Op::Plain(op), &[d, left, right, mask]),
            VectorInstr::Compare {
                op,
                left,
                right,
                mask,
            } => self.bare(Op::Compare(op), &[d, left, right, mask]),
            VectorInstr::Select {
                test,
                if_true,
                if_false,
                mask,
            } => self.bare(Op::Select, &[d, test, if_true, if_false, mask]),
            VectorInstr::Splat { value, mask } => self.bare(Op::Splat, &[d, value, mask]),
            VectorInstr::Index(k) => self.bare(Op::Index, &[d, k]),
            VectorInstr::Gather {
                array,
                indices,
                mask,
                place,
            } => self.at_place(Op::Gather, &[d, array, indices, mask], place),
            VectorInstr::LoadRun {
                array,
                index,
                mask,
                place,
            } => self.at_place(Op::LoadRun, &[d, array, index, mask], place),
            VectorInstr::Scan { .. }
            | VectorInstr::Exchange { .. }
            | VectorInstr::Shuffle { .. }
            | VectorInstr::ShuffleTwo { .. }
            | VectorInstr::Insert { .. } => self.across(d, *instr),
        }
    }

    // What is written across lanes.
    fn across(&mut self, d: Register, instr: VectorInstr) -> Result<(), AllocError>
        requires { IsTrue (is_across instr) }
        ensures { OnOk result (self.new ≡ self.old ++ line_text (row_words (vector_row d instr))) }
    {
        match instr {
            VectorInstr::Scan { op, value, mask } => self.bare(Op::Scan(op), &[d, value, mask]),
            VectorInstr::Exchange {
                op,
                vector,
                by,
                mask,
            } => self.bare(Op::Exchange(op), &[d, vector, by, mask]),
            VectorInstr::Shuffle {
                vector,
                lanes,
                mask,
            } => self.bare(Op::Shuffle, &[d, vector, lanes, mask]),
            VectorInstr::ShuffleTwo {
                first,
                second,
                lanes,
                mask,
            } => self.bare(Op::ShuffleTwo, &[d, first, second, lanes, mask]),
            VectorInstr::Insert {
                vector,
                lane,
                value,
                mask,
            } => self.bare(Op::Insert, &[d, vector, lane, value, mask]),
            _ => unreachable!(),
        }
    }

    fn mask(&mut self, d: Register, instr: &MaskInstr) -> Result<(), AllocError>
        ensures { OnOk result (self.new ≡ self.old ++ line_text (row_words (mask_row d instr.now))) }
    {
        match *instr {
            MaskInstr::Copy(x) => self.bare(Op::MaskCopy, &[d, x]),
            MaskInstr::Binary { op, left, right } => self.bare(
                Op::MaskBinary(op),
                &[d, left, right],
            ),
            MaskInstr::Full => self.bare(Op::Full, &[d]),
            MaskInstr::Off => self.bare(Op::Off, &[d]),
            MaskInstr::Test { vector, mask } => self.bare(Op::Test, &[d, vector, mask]),
            MaskInstr::Lowest(x) => self.bare(Op::Lowest, &[d, x]),
            MaskInstr::Range { first, end } => self.bare(Op::Range, &[d, first, end]),
        }
    }

    // A word and its registers.
    fn bare(&mut self, op: Op, registers: &[Register]) -> Result<(), AllocError>
        ensures { OnOk result (self.new ≡ self.old ++ line_text (row_words (line op registers.now Tail.Nothing))) }
    {
        self.row(op, registers, Tail::Nothing)
    }

    // A word, its registers, and the place of a trap.
    fn at_place(&mut self, op: Op, registers: &[Register], place: u32) -> Result<(), AllocError>
        ensures { OnOk result (self.new ≡ self.old ++ line_text (row_words (line op registers.now (Tail.Place place)))) }
    {
        self.row(op, registers, Tail::Place(place))
    }

    // A word, its registers, and what ends the line.
    fn row(&mut self, op: Op, registers: &[Register], tail: Tail) -> Result<(), AllocError>
        ensures { OnOk result (self.new ≡ self.old ++ line_text (row_words (line op registers.now tail))) }
    {
        self.head(Head::Op(op))?;
        self.registers(registers)?;
        self.tail(tail)?;
        self.feed()
    }

    fn call(&mut self, call: &Call) -> Result<(), AllocError>
        ensures { OnOk result (self.new ≡ self.old ++ line_text (row_words (rows.call call.now))) }
    {
        self.head(Head::Call)?;
        self.lettered("f", call.function)?;
        self.back(call.result)?;
        self.register(call.mask)?;
        self.lettered("p", call.place)?;
        self.registers(call.arguments.as_slice())?;
        self.feed()
    }
}
