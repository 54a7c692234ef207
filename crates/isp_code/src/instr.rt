//! Instructions.
//!
//! An instruction that writes a register is grouped by the class of the register, which comes first; then by its
//! shape. Operands stand in the order of the table of `docs/MACHINE.md`. Whether a register is of the class and the
//! type that the table asks is no matter of these types: code is a text that may have any register at any place,
//! and the verifier tells.
ghost use Rattle.std.specs.Prelude.{◌≡◌, IfOk, IfErr};

use crate::register::{Arguments, Register};
use isp_base::{Compare, UnaryOp};
use std::alloc::{AllocFailed, Global};
use std::marker::Model;

/// An operator on two values that has a result for all values.
#[derive(Clone, Copy)]
pub enum Plain {
    Add,
    Sub,
    Mul,
    And,
    Or,
    Xor,
    Shl,
    Shr,
    Min,
    Max,
}

/// An operator on two values that has no result for the divisor 0.
#[derive(Clone, Copy)]
pub enum Division {
    Div,
    Rem,
}

/// An operator on two sets of lanes.
#[derive(Clone, Copy)]
pub enum MaskOp {
    And,
    Or,
    AndNot,
}

/// What one value is made of those of a set of lanes: their sum, the least or the greatest of them, whether all are
/// equal, and of bools whether one or all are true.
#[derive(Clone, Copy)]
pub enum Reduction {
    Add,
    Min,
    Max,
    Equal,
    Any,
    All,
}

/// An operator on the values of all lower lanes of a set.
#[derive(Clone, Copy)]
pub enum Scan {
    Add,
    And,
    Or,
}

/// What a lane gets from another by one number: the value of the lane with this number, or of the one that many lanes
/// above, where after the last lane the first follows, or none does and there is 0.
#[derive(Clone, Copy)]
pub enum Exchange {
    Broadcast,
    Rotate,
    Shift,
}

/// When control jumps: where a scalar is false or true, where a set of lanes has none, some or all.
#[derive(Clone, Copy)]
pub enum JumpTest {
    False,
    True,
    Off,
    On,
    All,
}

/// What a scalar register is set to.
#[derive(Clone, Copy)]
pub enum ScalarInstr {
    /// This number.
    Constant(i128),
    /// What another register has.
    Copy(Register),
    /// What another register has, as a value of the type of the register that is written.
    Convert(Register),
    /// The result of an operator on one value.
    Unary {
        op: UnaryOp,
        value: Register,
    },
    /// The result of an operator on two values.
    Binary {
        op: Plain,
        left: Register,
        right: Register,
    },
    /// Whether two values compare so.
    Compare {
        op: Compare,
        left: Register,
        right: Register,
    },
    /// One of two values.
    Select {
        test: Register,
        if_true: Register,
        if_false: Register,
    },
    /// The number of the lowest lane of a mask.
    First(Register),
    /// An element of an array.
    Load {
        array: Register,
        index: Register,
        mask: Register,
        place: u32,
    },
    /// What is made of the lanes of a vector that a mask has.
    Reduce {
        op: Reduction,
        vector: Register,
        mask: Register,
    },
    /// The value of one lane of a vector.
    Extract {
        vector: Register,
        lane: Register,
        mask: Register,
    },
}

/// What the lanes of a vector register are set to under a mask.
#[derive(Clone, Copy)]
pub enum VectorInstr {
    /// What the lanes of another register have.
    Copy {
        value: Register,
        mask: Register,
    },
    /// The same as values of the type of the register that is written.
    Convert {
        value: Register,
        mask: Register,
    },
    /// The result of an operator on one value.
    Unary {
        op: UnaryOp,
        value: Register,
        mask: Register,
    },
    /// The result of an operator on two values.
    Binary {
        op: Plain,
        left: Register,
        right: Register,
        mask: Register,
    },
    /// Whether two values compare so.
    Compare {
        op: Compare,
        left: Register,
        right: Register,
        mask: Register,
    },
    /// One of two values.
    Select {
        test: Register,
        if_true: Register,
        if_false: Register,
        mask: Register,
    },
    /// The value of a scalar register in each lane.
    Splat {
        value: Register,
        mask: Register,
    },
    /// The number of each lane.
    Index(Register),
    /// The element of an array at each lane's index.
    Gather {
        array: Register,
        indices: Register,
        mask: Register,
        place: u32,
    },
    /// The element as many after an index as the lane's number says.
    LoadRun {
        array: Register,
        index: Register,
        mask: Register,
        place: u32,
    },
    /// The result of an operator on the values of the lower lanes.
    Scan {
        op: Scan,
        value: Register,
        mask: Register,
    },
    /// What another lane has, by one number.
    Exchange {
        op: Exchange,
        vector: Register,
        by: Register,
        mask: Register,
    },
    /// What the lane has that each lane's number names.
    Shuffle {
        vector: Register,
        lanes: Register,
        mask: Register,
    },
    /// The same of two vectors side by side.
    ShuffleTwo {
        first: Register,
        second: Register,
        lanes: Register,
        mask: Register,
    },
    /// The vector with another value in one lane.
    Insert {
        vector: Register,
        lane: Register,
        value: Register,
        mask: Register,
    },
}

/// What a mask register is set to.
#[derive(Clone, Copy)]
pub enum MaskInstr {
    /// What another mask has.
    Copy(Register),
    /// What an operator gives.
    Binary {
        op: MaskOp,
        left: Register,
        right: Register,
    },
    /// All lanes.
    Full,
    /// No lane.
    Off,
    /// The lanes of the mask where the vector is true.
    Test {
        vector: Register,
        mask: Register,
    },
    /// The lowest lane of another mask, alone.
    Lowest(Register),
    /// The lanes whose number, added to the first, is below the end.
    Range {
        first: Register,
        end: Register,
    },
}

/// A call: the function's number, where the result goes, the mask, the place of a trap, and what is passed.
#[derive(Drop)]
pub struct Call {
    pub function: u32,
    pub result: Option<Register>,
    pub mask: Register,
    pub place: u32,
    pub arguments: Arguments,
}

/// A call in a place of its own, which keeps an instruction small. Contracts see the call.
#[derive(Drop)]
pub struct CallBox {
    call: Box<Call>,
}

impl Model for CallBox {
    ghost use Rattle.isp_code.specs.declared.instr.Call.{Call};

    ghost Value = { Call };

    ghost view = { λ b. b.call.value };
}

impl CallBox {
    /// The call, moved to a place of its own.
    pub fn new(alloc: Global, call: Call) -> Result<CallBox, AllocFailed<Call>>
        ensures ok { IfOk result (λ b. b ≡ call) }
        ensures err { IfErr result (λ e. e.value ≡ call) }
    {
        Ok(CallBox {
            call: Box::new(alloc, call)?,
        })
    }

    /// The call.
    pub fn get(&self) -> &Call
        ensures { result.now ≡ self.now }
    {
        &self.call
    }

    /// The call's trap names another place.
    pub fn set_place(&mut self, place: u32)
        ensures { self.new ≡ record self.old { place = place } }
    {
        self.call.place = place;
    }
}

/// One instruction. A `place` is the one that its trap names, a `target` the number of the instruction to jump to.
#[derive(Drop)]
pub enum Instr {
    /// Writes a scalar register.
    Scalar {
        result: Register,
        instr: ScalarInstr,
    },
    /// Writes lanes of a vector register.
    Vector {
        result: Register,
        instr: VectorInstr,
    },
    /// Writes a mask register.
    Mask {
        result: Register,
        instr: MaskInstr,
    },
    /// Divides scalars or lanes, as the class of the result says.
    Divide {
        op: Division,
        result: Register,
        dividend: Register,
        divisor: Register,
        mask: Register,
        place: u32,
    },
    /// Stores a scalar.
    Store {
        array: Register,
        index: Register,
        value: Register,
        mask: Register,
        place: u32,
    },
    /// Stores lanes at each lane's index, the highest last.
    Scatter {
        array: Register,
        indices: Register,
        value: Register,
        mask: Register,
        place: u32,
    },
    /// Stores lanes at consecutive elements, each as many after an index as its number says.
    StoreRun {
        array: Register,
        index: Register,
        value: Register,
        mask: Register,
        place: u32,
    },
    /// Stores the lanes of a mask at consecutive elements, the lowest at an index, and writes their count.
    PackedStore {
        count: Register,
        array: Register,
        index: Register,
        value: Register,
        mask: Register,
        place: u32,
    },
    /// Loads them from there.
    PackedLoad {
        count: Register,
        array: Register,
        index: Register,
        result: Register,
        mask: Register,
        place: u32,
    },
    /// Zeroes a local array.
    Clear {
        array: Register,
        mask: Register,
    },
    /// Jumps.
    Jump {
        target: u32,
    },
    /// Jumps where the register passes the test.
    JumpIf {
        test: JumpTest,
        register: Register,
        target: u32,
    },
    /// Writes a text.
    Say {
        text: u32,
    },
    /// Writes a value.
    PrintScalar(Register),
    /// Writes the lanes of a mask.
    PrintVector {
        vector: Register,
        mask: Register,
    },
    /// Traps where a mask has a lane.
    Fail {
        mask: Register,
        place: u32,
    },
    /// Calls a function.
    Call(CallBox),
    /// Goes back to the caller, or ends the run.
    Return(Option<Register>),
}
