//! Whether the operands of an instruction are what the table of instructions asks.
ghost use Rattle.std.specs.Prelude.{◌≡◌, length};
ghost use Rattle.isp_code.specs.Fine.{has_value};
ghost use Rattle.isp_code.specs.Listing.{routine_of};
ghost use Rattle.isp_code.specs.Registers.{table_of, is_per_lane};
ghost use Rattle.isp_verify.specs.Faults.{there, register_fault, is_wanted, is_a, is_wanted_array, back_fault, operand_fault, operands_fault};

use crate::fault::Rule;
use crate::registers::{Registers, same_class};
use isp_base::{Elem, greatest_of, low_mask, widened};
use isp_code::{ArrayWant, Class, Code, Function, Operand, Register, Returns, Sharing, Want};

/// What instructions are checked by: the code, the function that has them, and its registers.
#[derive(Clone, Copy)]
pub(crate) struct Checker<'a> {
    pub code: &'a Code,
    pub function: &'a Function,
    pub registers: &'a Registers,
    pub ghost table: { registers.now ≡ table_of (routine_of function.now) },
}

// What is named is to be there, and then to be of its kind.
fn found(number: u32, count: usize, fits: bool) -> Option<Rule>
    ensures { result ≡ there number count fits }
{
    if number as usize >= count {
        Some(Rule::BadRegister)
    } else if fits {
        None
    } else {
        Some(Rule::BadKind)
    }
}

fn check_register(registers: &Registers, register: Register, fits: bool) -> Option<Rule>
    ensures { result ≡ register_fault registers.now register fits }
{
    found(register.number, registers.count(register.class), fits)
}

fn is_wanted(registers: &Registers, want: Want, elem: Elem) -> bool
    ensures { result ≡ is_wanted registers.now want elem }
{
    match want {
        Want::Any => true,
        Want::Is(other) => elem == other,
        Want::Integer => elem != Elem::Bool,
        Want::Word32 => matches!(elem, Elem::I32 | Elem::U32),
        Want::Sum => !matches!(elem, Elem::Bool | Elem::I8 | Elem::U8),
        Want::Like(register) => elem == registers.elem(register),
        Want::Widens(register) => {
            elem != Elem::Bool && widened(elem) == registers.elem(register)
        }
    }
}

/// Whether a register has this class, and a type that is wanted.
pub(crate) fn is_a(registers: &Registers, class: Class, want: Want, register: Register) -> bool
    ensures { result ≡ is_a registers.now class want register }
{
    same_class(register.class, class) && is_wanted(registers, want, registers.elem(register))
}

fn has_value(elem: Elem, number: i128) -> bool
    ensures { result ≡ has_value elem number }
{
    let greatest = greatest_of(elem) as i128;
    number <= greatest && greatest - low_mask(elem) as i128 <= number
}

fn check_back(registers: &Registers, returns: Returns, back: Option<Register>) -> Option<Rule>
    ensures { result ≡ back_fault registers.now returns back }
{
    match (returns, back) {
        (Returns::Nothing, None) => None,
        (_, None) => Some(Rule::BadKind),
        (Returns::Nothing, Some(x)) => check_register(registers, x, false),
        (Returns::Scalar(elem), Some(x)) => {
            check_register(
                registers,
                x,
                is_a(registers, Class::Scalar, Want::Is(elem), x),
            )
        }
        (Returns::Vector(elem), Some(x)) => {
            check_register(
                registers,
                x,
                is_a(registers, Class::Vector, Want::Is(elem), x),
            )
        }
    }
}

impl<'a> Checker<'a> {
    /// Whether each lane has its own copy of an array.
    pub(crate) fn is_per_lane(&self, array: Register) -> bool
        ensures { result ≡ is_per_lane (routine_of self.now.function.now) array }
    {
        let place = array.number as usize;
        if place < self.registers.passed() {
            return false;
        }
        match self.function.locals.get(place - self.registers.passed()) {
            Some(local) => matches!(local.sharing, Sharing::PerInstance),
            None => false,
        }
    }

    fn is_wanted_array(&self, want: ArrayWant, array: Register) -> bool
        ensures { result ≡ is_wanted_array (routine_of self.now.function.now) want array }
    {
        match want {
            ArrayWant::Any => true,
            ArrayWant::Shared => !self.is_per_lane(array),
            ArrayWant::Local => self.registers.passed() <= array.number as usize,
        }
    }

    fn operand(&self, operand: Operand) -> Option<Rule>
        ensures { result ≡ operand_fault self.now.code.now (routine_of self.now.function.now) operand }
    {
        let registers = self.registers;
        match operand {
            Operand::Any(r) => check_register(registers, r, true),
            Operand::Scalar(r, want) => check_register(
                registers,
                r,
                is_a(registers, Class::Scalar, want, r),
            ),
            Operand::Vector(r, want) => check_register(
                registers,
                r,
                is_a(registers, Class::Vector, want, r),
            ),
            Operand::Mask(r) => check_register(registers, r, same_class(r.class, Class::Mask)),
            Operand::Array(r, array, want) => {
                let fits = is_a(registers, Class::Array, want, r) && self.is_wanted_array(array, r);
                check_register(registers, r, fits)
            }
            Operand::Number(number, r) => {
                if has_value(registers.elem(r), number) {
                    None
                } else {
                    Some(Rule::BadKind)
                }
            }
            Operand::Place(place) => found(place, self.code.places().len(), true),
            Operand::Text(text) => found(text, self.code.text_count(), true),
            Operand::Target(to) => {
                if (to as usize) < self.function.code.len() {
                    None
                } else {
                    Some(Rule::BadJump)
                }
            }
            Operand::Back(back) => check_back(registers, self.function.returns, back),
        }
    }

    /// The first fault of some operands, from left to right.
    pub(crate) fn all(&self, operands: &[Operand]) -> Option<Rule>
        ensures { result ≡ operands_fault self.now.code.now (routine_of self.now.function.now) operands.now }
    {
        for operand in operands {
            if let Some(rule) = self.operand(*operand) {
                return Some(rule);
            }
        }
        None
    }
}
