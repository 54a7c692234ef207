//! The check of facts.
ghost use Rattle.std.specs.Prelude.{◌≡◌, ◌<◌, [], length, slice_get, slice_index_or, true};
ghost use Rattle.std.specs.List.{list_all};
ghost use Rattle.isp_code.specs.Listing.{routine_of};
ghost use Rattle.isp_forms.specs.Tables.{form_or_kept, forms_in, lists_of};
ghost use Rattle.isp_constants.specs.Amounts.{AmountsHold};
ghost use Rattle.isp_constants.specs.reader.Passing.{amounts_pass, fact_passes, form_passes, function_passes, functions_pass, has_amount, is_kept, lists_in, settles_at, settles_by, settles_mask, settles_scalar, settles_vector};

use crate::elems::scalar_elem;
use crate::fact::{Constants, Fact, Known, tells};
use crate::written::lines_keep;
use isp_base::wrap;
use isp_code::{Class, Code, Function, Instr, MaskInstr, Register, ScalarInstr, VectorInstr};
use isp_forms::{Form, FormTable};

// A function of some code, with the forms of its instructions, and with what is known of it.
#[derive(Clone, Copy)]
struct Checker<'a> {
    function: &'a Function,
    forms: &'a [Form],
    facts: &'a [Fact],
}

// Whether a mask is made full.
fn settles_mask(d: Register, instr: MaskInstr, known: Known) -> bool
    ensures { result ≡ settles_mask d instr known }
{
    match (instr, known) {
        (MaskInstr::Full, Known::Full { mask }) => mask == d.number,
        _ => false,
    }
}

impl<'a> Checker<'a> {
    // The form of an instruction.
    fn form(&self, pc: usize) -> Form
        ensures { result ≡ form_or_kept self.now.forms.now pc }
    {
        match self.forms.get(pc) {
            Some(form) => *form,
            None => Form::Kept,
        }
    }

    // Whether a scalar is made a number.
    fn settles_scalar(&self, d: Register, instr: ScalarInstr, known: Known) -> bool
        ensures { result ≡ settles_scalar (routine_of self.now.function.now) d instr known }
    {
        match (instr, known) {
            (ScalarInstr::Constant(z), Known::Scalar { register, number }) => {
                matches!(d.class, Class::Scalar)
                    && register == d.number
                    && number == wrap(scalar_elem(self.function, d.number), z)
            }
            _ => false,
        }
    }

    // Whether a vector is made a number in each lane.
    fn settles_vector(&self, pc: usize, d: Register, instr: VectorInstr, known: Known) -> bool
        ensures { result ≡ settles_vector self.now.facts.now pc d instr known }
    {
        match (instr, known) {
            (VectorInstr::Splat { value, mask }, Known::Vector { register, number }) => {
                let scalar = Known::Scalar {
                    register: value.number,
                    number,
                };
                let full = Known::Full { mask: mask.number };
                register == d.number && tells(self.facts, pc, scalar) && tells(self.facts, pc, full)
            }
            _ => false,
        }
    }

    // Whether the instruction of a fact makes it so.
    fn settles(&self, x: Fact) -> bool
        ensures { result ≡ settles_at self.now.facts.now self.now.forms.now (routine_of self.now.function.now) (slice_get self.now.function.now.code.items x.line) x }
    {
        match self.function.code.get(x.line) {
            Some(Instr::Scalar { result, instr }) => self.settles_scalar(*result, *instr, x.known),
            Some(Instr::Vector { result, instr }) => {
                self.settles_vector(x.line, *result, *instr, x.known)
            }
            Some(Instr::Mask { result, instr }) => settles_mask(*result, *instr, x.known),
            _ => false,
        }
    }

    fn fact_passes(&self, x: Fact) -> bool
        ensures { result ≡ fact_passes self.now.facts.now self.now.forms.now (routine_of self.now.function.now) x }
    {
        matches!(self.form(x.line), Form::Kept)
            && self.settles(x)
            && lines_keep(x, &self.function.code)
    }

    fn facts_pass(&self) -> bool
        ensures { result ≡ list_all (fact_passes self.now.facts.now self.now.forms.now (routine_of self.now.function.now)) self.now.facts.now }
    {
        for x in self.facts {
            if !self.fact_passes(*x) {
                return false;
            }
        }
        true
    }

    // Whether the right operand of an operator is known as a number.
    fn has_amount(&self, pc: usize, instr: &Instr, amount: u64) -> bool
        ensures { result ≡ has_amount self.now.facts.now self.now.forms.now (routine_of self.now.function.now) pc instr.now amount }
    {
        match instr {
            Instr::Vector {
                instr: VectorInstr::Binary { right, .. },
                ..
            } => {
                let known = Known::Vector {
                    register: right.number,
                    number: amount,
                };
                tells(self.facts, pc, known)
            }
            _ => true,
        }
    }

    fn form_passes(&self, pc: usize, instr: &Instr) -> bool
        ensures { result ≡ form_passes self.now.facts.now self.now.forms.now (routine_of self.now.function.now) pc instr.now (form_or_kept self.now.forms.now pc) }
    {
        match self.form(pc) {
            Form::KeptBy(amount) => self.has_amount(pc, instr, amount),
            Form::FreeBy(amount) => self.has_amount(pc, instr, amount),
            _ => true,
        }
    }

    fn amounts_pass(&self) -> bool
        ensures { result ≡ amounts_pass self.now.facts.now self.now.forms.now (routine_of self.now.function.now) 0 self.now.function.now.code.items }
    {
        for (pc, instr) in self.function.code.iter().enumerate() {
            if !self.form_passes(pc, instr) {
                return false;
            }
        }
        true
    }

    fn passes(&self) -> bool
        ensures { result ≡ function_passes self.now.facts.now self.now.forms.now (routine_of self.now.function.now) }
    {
        self.facts_pass() && self.amounts_pass()
    }
}

// Whether what is known of each function is so, and is what the forms tell.
fn all_pass(code: &Code, forms: &FormTable, constants: &Constants) -> bool
    ensures { result ≡ functions_pass (lists_in constants.now) (lists_of forms.now) 0 code.now.routines }
{
    let functions = code.functions();
    for (f, function) in functions.iter().enumerate() {
        let checker = Checker {
            function,
            forms: forms.of(f),
            facts: constants.facts(f),
        };
        if !checker.passes() {
            return false;
        }
    }
    true
}

/// Whether the operands that forms tell as numbers are these numbers, by what is known of some code. Where the answer is true, they
/// are so wherever a run by these forms stands.
pub fn check(code: &Code, forms: &FormTable, constants: &Constants) -> bool
    ensures { result ≡ true → AmountsHold code.now (forms_in (lists_of forms.now)) }
{
    all_pass(code, forms, constants)
}
