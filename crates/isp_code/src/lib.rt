//! The instructions of the machine, code as a value, and what the machine does with it.
#![tactic(auto)]

mod code;
mod function;
mod instr;
mod limit;
mod operand;
mod register;
mod writable;

pub use code::Code;
pub use function::{Function, Local, Param, ParamKind, Returns, Sharing};
pub use instr::{
    Call, CallBox, Division, Exchange, Instr, JumpTest, MaskInstr, MaskOp, Plain, Reduction,
    ScalarInstr, Scan, VectorInstr,
};
pub use limit::CodeLimit;
pub use operand::{ArrayWant, Operand, Want};
pub use register::{Arguments, Class, Register};
