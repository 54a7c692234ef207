//! Whether a call fits the function that it calls.
ghost use Rattle.std.specs.Prelude.{◌≡◌, map, Some};
ghost use Rattle.isp_code.specs.Listing.{routine_of};
ghost use Rattle.isp_code.specs.Operands.{any_register, result_operands, call_operands};
ghost use Rattle.isp_verify.specs.Faults.{operands_fault, call_fault, call_fits, result_fits, argument_fits, arguments_fit};

use crate::fault::Rule;
use crate::operands::{Checker, is_a};
use crate::registers::{Registers, class_of};
use isp_code::{Call, Class, Function, Operand, Param, ParamKind, Register, Returns, Want};

// Whether the result goes where one of its type fits, or nowhere if there is none.
fn result_fits(registers: &Registers, returns: Returns, to: Option<Register>) -> bool
    ensures { result ≡ result_fits registers.now returns to }
{
    match (returns, to) {
        (Returns::Nothing, None) => true,
        (Returns::Scalar(elem), Some(d)) => is_a(registers, Class::Scalar, Want::Is(elem), d),
        (Returns::Vector(elem), Some(d)) => is_a(registers, Class::Vector, Want::Is(elem), d),
        (_, _) => false,
    }
}

impl<'a> Checker<'a> {
    fn argument_fits(&self, param: &Param, x: Register) -> bool
        ensures { result ≡ argument_fits (routine_of self.now.function.now) param.now x }
    {
        let fits = is_a(
            self.registers,
            class_of(param.kind),
            Want::Is(param.elem),
            x,
        );
        match param.kind {
            ParamKind::Array => fits && !self.is_per_lane(x),
            _ => fits,
        }
    }

    fn arguments_fit(&self, params: &[Param], arguments: &[Register]) -> bool
        ensures { result ≡ arguments_fit (routine_of self.now.function.now) params.now arguments.now }
    {
        if params.len() != arguments.len() {
            return false;
        }
        for (place, param) in params.iter().enumerate() {
            if !self.argument_fits(param, arguments[place]) {
                return false;
            }
        }
        true
    }

    fn call_fits(&self, call: &Call, callee: &Function) -> bool
        ensures { result ≡ call_fits (routine_of self.now.function.now) call.now (Some (routine_of callee.now)) }
    {
        result_fits(self.registers, callee.returns, call.result)
            && self.arguments_fit(&callee.params, call.arguments.as_slice())
    }

    // Whether all registers are there.
    fn passed(&self, passed: &[Register]) -> Option<Rule>
        ensures { result ≡ operands_fault self.now.code.now (routine_of self.now.function.now) (map any_register passed.now) }
    {
        for register in passed {
            if let Some(rule) = self.all(&[Operand::Any(*register)]) {
                return Some(rule);
            }
        }
        None
    }

    // Whether where the result goes is there.
    fn result(&self, to: Option<Register>) -> Option<Rule>
        ensures { result ≡ operands_fault self.now.code.now (routine_of self.now.function.now) (result_operands to) }
    {
        match to {
            None => None,
            Some(d) => self.all(&[Operand::Any(d)]),
        }
    }

    // Whether all operands of a call are there, and its mask is one.
    fn call_operands(&self, call: &Call) -> Option<Rule>
        ensures { result ≡ operands_fault self.now.code.now (routine_of self.now.function.now) (call_operands call.now) }
    {
        if let Some(rule) = self.result(call.result) {
            return Some(rule);
        }
        if let Some(rule) = self.all(&[Operand::Any(call.mask), Operand::Place(call.place)]) {
            return Some(rule);
        }
        if let Some(rule) = self.passed(call.arguments.as_slice()) {
            return Some(rule);
        }
        self.all(&[Operand::Mask(call.mask)])
    }

    /// The first fault of a call.
    pub(crate) fn call(&self, call: &Call) -> Option<Rule>
        ensures { result ≡ call_fault self.now.code.now (routine_of self.now.function.now) call.now }
    {
        if let Some(rule) = self.call_operands(call) {
            return Some(rule);
        }
        match self.code.functions().get(call.function as usize) {
            None => Some(Rule::BadCall),
            Some(callee) => {
                if self.call_fits(call, callee) {
                    None
                } else {
                    Some(Rule::BadCall)
                }
            }
        }
    }
}
