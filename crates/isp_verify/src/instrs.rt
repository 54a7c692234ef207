//! Whether an instruction is one that a line of the table of instructions takes.
ghost use Rattle.std.specs.Prelude.{◌≡◌, IsTrue};
ghost use Rattle.isp_code.specs.Listing.{routine_of};
ghost use Rattle.isp_code.specs.Operands.{operands, scalar_operands, vector_operands, mask_operands, divided, packed, unary_want, reduced_want, reducing_want, tested};
ghost use Rattle.isp_verify.specs.Faults.{operands_fault, instr_fault};
ghost use Rattle.isp_verify.specs.reader.Kinds.{is_of_many, is_operator, is_load, is_across, is_store, is_packed};

use crate::fault::Rule;
use crate::operands::Checker;
use isp_base::{Elem, UnaryOp};
use isp_code::Operand::{Array, Back, Mask, Number, Place, Scalar, Target, Text, Vector};
use isp_code::{
    ArrayWant, Class, Instr, JumpTest, MaskInstr, Operand, Reduction, Register, ScalarInstr,
    VectorInstr, Want,
};

/// What a truth value is to be.
const TRUTH: Want = Want::Is(Elem::Bool);

/// What an index is to be.
const INDEX: Want = Want::Is(Elem::I64);

/// What the number of a lane is to be, and a count of lanes.
const LANE: Want = Want::Is(Elem::I32);

// `!` is an operator on bool, the others are on whole numbers.
fn unary_want(op: UnaryOp) -> Want
    ensures { result ≡ unary_want op }
{
    match op {
        UnaryOp::Not => TRUTH,
        _ => Want::Integer,
    }
}

// What a reduction gives.
fn reduced_want(reduction: Reduction) -> Want
    ensures { result ≡ reduced_want reduction }
{
    match reduction {
        Reduction::Add => Want::Sum,
        Reduction::Min | Reduction::Max => Want::Integer,
        Reduction::Equal | Reduction::Any | Reduction::All => TRUTH,
    }
}

// What a reduction takes that gives this register.
fn reducing_want(reduction: Reduction, d: Register) -> Want
    ensures { result ≡ reducing_want reduction d }
{
    match reduction {
        Reduction::Add => Want::Widens(d),
        Reduction::Min | Reduction::Max => Want::Like(d),
        Reduction::Equal => Want::Integer,
        Reduction::Any | Reduction::All => TRUTH,
    }
}

// A division is of lanes where it writes a vector register, else of scalars.
fn divided(class: Class, register: Register, want: Want) -> Operand
    ensures { result ≡ divided class register want }
{
    match class {
        Class::Vector => Vector(register, want),
        _ => Scalar(register, want),
    }
}

fn tested(test: JumpTest, register: Register) -> Operand
    ensures { result ≡ tested test register }
{
    match test {
        JumpTest::False => Scalar(register, TRUTH),
        JumpTest::True => Scalar(register, TRUTH),
        JumpTest::Off => Mask(register),
        JumpTest::On => Mask(register),
        JumpTest::All => Mask(register),
    }
}

// A packed call: the count, the array, the index, the vector, the mask and the place.
fn packed(
    d: Register,
    a: Register,
    i: Register,
    y: Register,
    k: Register,
    place: u32,
) -> [Operand; 6]
    ensures { result ≡ packed d a i y k place }
{
    [
        Scalar(d, LANE),
        Array(a, ArrayWant::Shared, Want::Word32),
        Scalar(i, INDEX),
        Vector(y, Want::Like(a)),
        Mask(k),
        Place(place),
    ]
}

impl<'a> Checker<'a> {
    // What writes a scalar register.
    fn scalar(&self, d: Register, instr: &ScalarInstr) -> Option<Rule>
        ensures { result ≡ operands_fault self.now.code.now (routine_of self.now.function.now) (scalar_operands d instr.now) }
    {
        let any = Scalar(d, Want::Any);
        let whole = Scalar(d, Want::Integer);
        let like = Want::Like(d);
        match *instr {
            ScalarInstr::Constant(n) => self.all(&[any, Number(n, d)]),
            ScalarInstr::Copy(x) => self.all(&[any, Scalar(x, like)]),
            ScalarInstr::Convert(x) => self.all(&[any, Scalar(x, Want::Any)]),
            ScalarInstr::Unary { op, value } => self.all(&[
                Scalar(d, unary_want(op)),
                Scalar(value, like),
            ]),
            ScalarInstr::Binary { left, right, .. } => self.all(&[
                whole,
                Scalar(left, like),
                Scalar(right, like),
            ]),
            ScalarInstr::Compare { left, right, .. } => self.all(&[
                Scalar(d, TRUTH),
                Scalar(left, Want::Any),
                Scalar(right, Want::Like(left)),
            ]),
            ScalarInstr::Select {
                test,
                if_true,
                if_false,
            } => self.all(&[
                any,
                Scalar(test, TRUTH),
                Scalar(if_true, like),
                Scalar(if_false, like),
            ]),
            ScalarInstr::First(_)
            | ScalarInstr::Load { .. }
            | ScalarInstr::Reduce { .. }
            | ScalarInstr::Extract { .. } => self.scalar_of_many(d, *instr),
        }
    }

    // What writes a scalar register from many values.
    fn scalar_of_many(&self, d: Register, instr: ScalarInstr) -> Option<Rule>
        requires { IsTrue (is_of_many instr) }
        ensures { result ≡ operands_fault self.now.code.now (routine_of self.now.function.now) (scalar_operands d instr) }
    {
        let like = Want::Like(d);
        match instr {
            ScalarInstr::First(x) => self.all(&[Scalar(d, INDEX), Mask(x)]),
            ScalarInstr::Load {
                array,
                index,
                mask,
                place,
            } => self.all(&[
                Scalar(d, Want::Any),
                Array(array, ArrayWant::Shared, like),
                Scalar(index, INDEX),
                Mask(mask),
                Place(place),
            ]),
            ScalarInstr::Reduce { op, vector, mask } => self.all(&[
                Scalar(d, reduced_want(op)),
                Vector(vector, reducing_want(op, d)),
                Mask(mask),
            ]),
            ScalarInstr::Extract { vector, lane, mask } => self.all(&[
                Scalar(d, Want::Integer),
                Vector(vector, like),
                Scalar(lane, LANE),
                Mask(mask),
            ]),
            _ => unreachable!(),
        }
    }

    // What writes a vector register.
    fn vector(&self, d: Register, instr: &VectorInstr) -> Option<Rule>
        ensures { result ≡ operands_fault self.now.code.now (routine_of self.now.function.now) (vector_operands d instr.now) }
    {
        let any = Vector(d, Want::Any);
        match *instr {
            VectorInstr::Copy { value, mask } => self.all(&[
                any,
                Vector(value, Want::Like(d)),
                Mask(mask),
            ]),
            VectorInstr::Convert { value, mask } => self.all(&[
                any,
                Vector(value, Want::Any),
                Mask(mask),
            ]),
            VectorInstr::Splat { value, mask } => self.all(&[
                any,
                Scalar(value, Want::Like(d)),
                Mask(mask),
            ]),
            VectorInstr::Index(k) => self.all(&[Vector(d, LANE), Mask(k)]),
            VectorInstr::Unary { .. }
            | VectorInstr::Binary { .. }
            | VectorInstr::Compare { .. }
            | VectorInstr::Select { .. } => self.vector_operator(d, *instr),
            VectorInstr::Gather { .. } | VectorInstr::LoadRun { .. } => self.vector_load(d, *instr),
            VectorInstr::Scan { .. }
            | VectorInstr::Exchange { .. }
            | VectorInstr::Shuffle { .. }
            | VectorInstr::ShuffleTwo { .. }
            | VectorInstr::Insert { .. } => self.vector_across(d, *instr),
        }
    }

    // What writes the result of an operator to a vector register.
    fn vector_operator(&self, d: Register, instr: VectorInstr) -> Option<Rule>
        requires { IsTrue (is_operator instr) }
        ensures { result ≡ operands_fault self.now.code.now (routine_of self.now.function.now) (vector_operands d instr) }
    {
        let like = Want::Like(d);
        match instr {
            VectorInstr::Unary { op, value, mask } => self.all(&[
                Vector(d, unary_want(op)),
                Vector(value, like),
                Mask(mask),
            ]),
            VectorInstr::Binary {
                left,
                right,
                mask,
                ..
            } => self.all(&[
                Vector(d, Want::Integer),
                Vector(left, like),
                Vector(right, like),
                Mask(mask),
            ]),
            VectorInstr::Compare {
                left,
                right,
                mask,
                ..
            } => self.all(&[
                Vector(d, TRUTH),
                Vector(left, Want::Any),
                Vector(right, Want::Like(left)),
                Mask(mask),
            ]),
            VectorInstr::Select {
                test,
                if_true,
                if_false,
                mask,
            } => self.all(&[
                Vector(d, Want::Any),
                Vector(test, TRUTH),
                Vector(if_true, like),
                Vector(if_false, like),
                Mask(mask),
            ]),
            _ => unreachable!(),
        }
    }

    // What writes a vector register from memory.
    fn vector_load(&self, d: Register, instr: VectorInstr) -> Option<Rule>
        requires { IsTrue (is_load instr) }
        ensures { result ≡ operands_fault self.now.code.now (routine_of self.now.function.now) (vector_operands d instr) }
    {
        let any = Vector(d, Want::Any);
        let like = Want::Like(d);
        match instr {
            VectorInstr::Gather {
                array,
                indices,
                mask,
                place,
            } => self.all(&[
                any,
                Array(array, ArrayWant::Any, like),
                Vector(indices, INDEX),
                Mask(mask),
                Place(place),
            ]),
            VectorInstr::LoadRun {
                array,
                index,
                mask,
                place,
            } => self.all(&[
                any,
                Array(array, ArrayWant::Shared, like),
                Scalar(index, INDEX),
                Mask(mask),
                Place(place),
            ]),
            _ => unreachable!(),
        }
    }

    // What writes a vector register across lanes.
    fn vector_across(&self, d: Register, instr: VectorInstr) -> Option<Rule>
        requires { IsTrue (is_across instr) }
        ensures { result ≡ operands_fault self.now.code.now (routine_of self.now.function.now) (vector_operands d instr) }
    {
        let whole = Vector(d, Want::Integer);
        let like = Want::Like(d);
        match instr {
            VectorInstr::Scan { value, mask, .. } => self.all(&[
                whole,
                Vector(value, like),
                Mask(mask),
            ]),
            VectorInstr::Exchange {
                vector,
                by,
                mask,
                ..
            } => self.all(&[whole, Vector(vector, like), Scalar(by, LANE), Mask(mask)]),
            VectorInstr::Shuffle {
                vector,
                lanes,
                mask,
            } => self.all(&[whole, Vector(vector, like), Vector(lanes, LANE), Mask(mask)]),
            VectorInstr::ShuffleTwo {
                first,
                second,
                lanes,
                mask,
            } => self.all(&[
                whole,
                Vector(first, like),
                Vector(second, like),
                Vector(lanes, LANE),
                Mask(mask),
            ]),
            VectorInstr::Insert {
                vector,
                lane,
                value,
                mask,
            } => self.all(&[
                whole,
                Vector(vector, like),
                Scalar(lane, LANE),
                Scalar(value, like),
                Mask(mask),
            ]),
            _ => unreachable!(),
        }
    }

    // What writes a mask register.
    fn mask(&self, d: Register, instr: &MaskInstr) -> Option<Rule>
        ensures { result ≡ operands_fault self.now.code.now (routine_of self.now.function.now) (mask_operands d instr.now) }
    {
        let to = Mask(d);
        match *instr {
            MaskInstr::Copy(x) => self.all(&[to, Mask(x)]),
            MaskInstr::Binary { left, right, .. } => self.all(&[to, Mask(left), Mask(right)]),
            MaskInstr::Full => self.all(&[to]),
            MaskInstr::Off => self.all(&[to]),
            MaskInstr::Test { vector, mask } => self.all(&[to, Vector(vector, TRUTH), Mask(mask)]),
            MaskInstr::Lowest(x) => self.all(&[to, Mask(x)]),
            MaskInstr::Range { first, end } => self.all(&[
                to,
                Scalar(first, INDEX),
                Scalar(end, INDEX),
            ]),
        }
    }

    // What stores.
    fn store(&self, instr: &Instr) -> Option<Rule>
        requires { IsTrue (is_store instr.now) }
        ensures { result ≡ operands_fault self.now.code.now (routine_of self.now.function.now) (operands instr.now) }
    {
        match instr {
            Instr::Store {
                array,
                index,
                value,
                mask,
                place,
            } => self.all(&[
                Array(*array, ArrayWant::Shared, Want::Any),
                Scalar(*index, INDEX),
                Scalar(*value, Want::Like(*array)),
                Mask(*mask),
                Place(*place),
            ]),
            Instr::Scatter {
                array,
                indices,
                value,
                mask,
                place,
            } => self.all(&[
                Array(*array, ArrayWant::Any, Want::Any),
                Vector(*indices, INDEX),
                Vector(*value, Want::Like(*array)),
                Mask(*mask),
                Place(*place),
            ]),
            Instr::StoreRun {
                array,
                index,
                value,
                mask,
                place,
            } => self.all(&[
                Array(*array, ArrayWant::Shared, Want::Any),
                Scalar(*index, INDEX),
                Vector(*value, Want::Like(*array)),
                Mask(*mask),
                Place(*place),
            ]),
            _ => unreachable!(),
        }
    }

    // What stores or loads the lanes of a mask one after the other.
    fn packed(&self, instr: &Instr) -> Option<Rule>
        requires { IsTrue (is_packed instr.now) }
        ensures { result ≡ operands_fault self.now.code.now (routine_of self.now.function.now) (operands instr.now) }
    {
        match instr {
            Instr::PackedStore {
                count,
                array,
                index,
                value,
                mask,
                place,
            } => self.all(&packed(*count, *array, *index, *value, *mask, *place)),
            Instr::PackedLoad {
                count,
                array,
                index,
                result,
                mask,
                place,
            } => self.all(&packed(*count, *array, *index, *result, *mask, *place)),
            _ => unreachable!(),
        }
    }

    /// The first fault of an instruction.
    pub(crate) fn instr(&self, instr: &Instr) -> Option<Rule>
        ensures { result ≡ instr_fault self.now.code.now (routine_of self.now.function.now) instr.now }
    {
        match instr {
            Instr::Scalar { result, instr } => self.scalar(*result, instr),
            Instr::Vector { result, instr } => self.vector(*result, instr),
            Instr::Mask { result, instr } => self.mask(*result, instr),
            Instr::Divide {
                result,
                dividend,
                divisor,
                mask,
                place,
                ..
            } => self.all(&[
                divided(result.class, *result, Want::Integer),
                divided(result.class, *dividend, Want::Like(*result)),
                divided(result.class, *divisor, Want::Like(*result)),
                Mask(*mask),
                Place(*place),
            ]),
            Instr::Store { .. } | Instr::Scatter { .. } | Instr::StoreRun { .. } => self.store(
                instr,
            ),
            Instr::PackedStore { .. } | Instr::PackedLoad { .. } => self.packed(instr),
            Instr::Clear { array, mask } => self.all(&[
                Array(*array, ArrayWant::Local, Want::Any),
                Mask(*mask),
            ]),
            Instr::Jump { target } => self.all(&[Target(*target)]),
            Instr::JumpIf {
                test,
                register,
                target,
            } => self.all(&[tested(*test, *register), Target(*target)]),
            Instr::Say { text } => self.all(&[Text(*text)]),
            Instr::PrintScalar(x) => self.all(&[Scalar(*x, Want::Any)]),
            Instr::PrintVector { vector, mask } => self.all(&[
                Vector(*vector, Want::Any),
                Mask(*mask),
            ]),
            Instr::Fail { mask, place } => self.all(&[Mask(*mask), Place(*place)]),
            Instr::Call(call) => self.call(call.get()),
            Instr::Return(back) => self.all(&[Back(*back)]),
        }
    }
}
