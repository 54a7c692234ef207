//! The library's functions on values: at which rate each takes its values, and its instructions.
ghost use Rattle.std.specs.Prelude.{◌≡◌, drop, OnOk};
ghost use Rattle.isp_lower_code.specs.Callees.{next_rate};
ghost use Rattle.isp_lower_code.specs.Library as table;
ghost use Rattle.isp_lower_code.specs.Library.{library_rates, rate_taken, register_at, works_at};
ghost use Rattle.isp_lower.specs.Written.{Writes, made_at, numbers};

use crate::leaves::{compute, mask, scalar, select, unary, vector};
use crate::sites::Target;
use crate::types::Body;
use isp_base::{Rate, UnaryOp};
use isp_code::{Exchange, Instr, Plain, Reduction, ScalarInstr, Scan, VectorInstr};
use isp_registers::{MaskNumber, RegisterNumber};
use isp_typed::Library;
use std::alloc::AllocError;

/// The registers of the first three values of a call; one that the function does not take is any.
#[derive(Clone, Copy)]
pub(crate) struct Operands {
    pub first: RegisterNumber,
    pub second: RegisterNumber,
    pub third: RegisterNumber,
}

/// The register of a value, by its place.
#[tactic(auto, using(crate::proofs::LibraryValues::number_there, crate::proofs::LibraryValues::number_none))]
fn register(registers: &[RegisterNumber], place: usize) -> RegisterNumber
    ensures { result.number ≡ register_at (numbers registers.now) place }
{
    match registers.get(place) {
        Some(register) => *register,
        None => RegisterNumber { number: 0 },
    }
}

impl Operands {
    /// Those of values in a row.
    pub fn new(registers: &[RegisterNumber]) -> Operands
        ensures first { result.first.number ≡ register_at (numbers registers.now) 0 }
        ensures second { result.second.number ≡ register_at (numbers registers.now) 1 }
        ensures third { result.third.number ≡ register_at (numbers registers.now) 2 }
    {
        Operands {
            first: register(registers, 0),
            second: register(registers, 1),
            third: register(registers, 2),
        }
    }
}

// ---- instructions

/// A scalar register gets what is made of the lanes of a vector.
fn reduce(operator: Reduction, to: RegisterNumber, from: RegisterNumber, k: MaskNumber) -> Instr
    ensures { result ≡ table.reduce operator to.number from.number k.number }
{
    Instr::Scalar {
        result: scalar(to),
        instr: ScalarInstr::Reduce {
            op: operator,
            vector: vector(from),
            mask: mask(k),
        },
    }
}

/// Each lane gets the result of an operator on the lower ones.
fn scan(operator: Scan, to: RegisterNumber, from: RegisterNumber, k: MaskNumber) -> Instr
    ensures { result ≡ table.scan_of operator to.number from.number k.number }
{
    Instr::Vector {
        result: vector(to),
        instr: VectorInstr::Scan {
            op: operator,
            value: vector(from),
            mask: mask(k),
        },
    }
}

/// Each lane gets what another one has, by a number: of the first two values.
fn exchange(operator: Exchange, to: RegisterNumber, given: Operands, k: MaskNumber) -> Instr
    ensures { result ≡ table.exchange_of operator to.number given.first.number given.second.number k.number }
{
    let by = scalar(given.second);
    Instr::Vector {
        result: vector(to),
        instr: VectorInstr::Exchange {
            op: operator,
            vector: vector(given.first),
            by,
            mask: mask(k),
        },
    }
}

/// Each lane gets what the lane has that its number names.
fn shuffle(to: RegisterNumber, given: Operands, k: MaskNumber) -> Instr
    ensures { result ≡ table.shuffle to.number given.first.number given.second.number k.number }
{
    Instr::Vector {
        result: vector(to),
        instr: VectorInstr::Shuffle {
            vector: vector(given.first),
            lanes: vector(given.second),
            mask: mask(k),
        },
    }
}

/// The same of two vectors side by side.
fn shuffle_two(to: RegisterNumber, given: Operands, k: MaskNumber) -> Instr
    ensures { result ≡ table.shuffle_two to.number given.first.number given.second.number given.third.number k.number }
{
    let by = vector(given.third);
    Instr::Vector {
        result: vector(to),
        instr: VectorInstr::ShuffleTwo {
            first: vector(given.first),
            second: vector(given.second),
            lanes: by,
            mask: mask(k),
        },
    }
}

/// A scalar register gets what one lane has.
fn extract(to: RegisterNumber, given: Operands, k: MaskNumber) -> Instr
    ensures { result ≡ table.extract to.number given.first.number given.second.number k.number }
{
    let lane = scalar(given.second);
    Instr::Scalar {
        result: scalar(to),
        instr: ScalarInstr::Extract {
            vector: vector(given.first),
            lane,
            mask: mask(k),
        },
    }
}

/// A vector with another value in one lane.
fn insert(to: RegisterNumber, given: Operands, k: MaskNumber) -> Instr
    ensures { result ≡ table.insert to.number given.first.number given.second.number given.third.number k.number }
{
    let lane = scalar(given.second);
    let value = scalar(given.third);
    Instr::Vector {
        result: vector(to),
        instr: VectorInstr::Insert {
            vector: vector(given.first),
            lane,
            value,
            mask: mask(k),
        },
    }
}

/// The instructions of a function on the registers of its values, by way of a spare register where there are two.
pub(crate) fn put_library(
    b: &mut Body,
    function: Library,
    given: Operands,
    spare: RegisterNumber,
    target: Target,
) -> Result<(), AllocError>
    ensures { OnOk result (Writes b.old b.new (made_at function given spare target)) }
{
    let Operands {
        first: x,
        second: y,
        third: z,
    } = given;
    let Target { to, ty, site, .. } = target;
    let (rate, k) = (ty.rate, site.mask);
    match function {
        Library::ReduceAdd => b.push(reduce(Reduction::Add, to, x, k)),
        Library::ReduceMin => b.push(reduce(Reduction::Min, to, x, k)),
        Library::ReduceMax => b.push(reduce(Reduction::Max, to, x, k)),
        Library::ReduceEqual => b.push(reduce(Reduction::Equal, to, x, k)),
        Library::Any => b.push(reduce(Reduction::Any, to, x, k)),
        Library::All => b.push(reduce(Reduction::All, to, x, k)),
        Library::None => {
            b.push(reduce(Reduction::Any, spare, x, k))?;
            b.push(unary(Rate::Uniform, UnaryOp::Not, to, spare, k))
        }
        Library::ScanAdd => b.push(scan(Scan::Add, to, x, k)),
        Library::ScanAnd => b.push(scan(Scan::And, to, x, k)),
        Library::ScanOr => b.push(scan(Scan::Or, to, x, k)),
        Library::Broadcast => b.push(exchange(Exchange::Broadcast, to, given, k)),
        Library::Rotate => b.push(exchange(Exchange::Rotate, to, given, k)),
        Library::Shift => b.push(exchange(Exchange::Shift, to, given, k)),
        Library::Shuffle => b.push(shuffle(to, given, k)),
        Library::ShuffleTwo => b.push(shuffle_two(to, given, k)),
        Library::Extract => b.push(extract(to, given, k)),
        Library::Insert => b.push(insert(to, given, k)),
        Library::Min => b.push(compute(rate, Plain::Min, to, x, y, k)),
        Library::Max => b.push(compute(rate, Plain::Max, to, x, y, k)),
        Library::Clamp => {
            b.push(compute(rate, Plain::Max, spare, x, y, k))?;
            b.push(compute(rate, Plain::Min, to, spare, z, k))
        }
        Library::Abs => b.push(unary(rate, UnaryOp::Absolute, to, x, k)),
        Library::Select => b.push(select(rate, to, x, y, z, k)),
    }
}
