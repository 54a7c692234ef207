//! Instructions that load or store one element, that trap, and that return.
ghost use Rattle.std.specs.Prelude.{◌≡◌, ◌++◌, ◌≤◌, suc, OnOk, IfOk, Some};
ghost use Rattle.isp_code.specs.Calls.{place_at};
ghost use Rattle.isp_code.specs.declared.instr.Instr.TheVariants as instrs;
ghost use Rattle.isp_code.specs.declared.instr.ScalarInstr.TheVariants as scalars;
ghost use Rattle.isp_code.specs.declared.register.Class.TheVariants as classes;
ghost use Rattle.isp_forms.specs.declared.form.Form.TheVariants.{Kept};
ghost use Rattle.isp_wasm_meaning.specs.Syntax as wasm;
ghost use Rattle.isp_wasm.specs.Places as places;
ghost use Rattle.isp_wasm.specs.Templates as templates;
ghost use Rattle.isp_wasm.specs.Templates.{each};
ghost use Rattle.isp_wasm_binary.specs.Instructions.{code_bytes, expr_bytes};
ghost use Rattle.isp_wasm_write.specs.Settings.{setting};

use crate::kernel::{Kernel, Place};
use crate::refusal::Refusal;
use crate::types::{parts_for, shape_of, width_of};
use isp_code::{Class, Register};
use isp_wasm_binary::Bytes;

impl<'a> Kernel<'a> {
    // So many parts of a vector register, to globals from 1 on.
    #[tactic(auto, using(crate::proofs::Each::one_more))]
    fn parts_given(&self, out: &mut Bytes, register: Register, parts: u32) -> Result<(), Refusal>
        requires { parts ≤ 16 }
        ensures { OnOk result (out.new ≡ out.old ++ code_bytes (each parts (λ j. wasm.SetGlobal (suc j) (templates.vector_local (setting self.now) register j)))) }
    {
        for part in 0..parts {
            self.get(out, Place::Vector(register.number, part))?;
            out.set_global(part + 1)?;
        }
        Ok(())
    }

    /// How many parts a vector register has.
    pub fn parts_of(&self, register: Register) -> u32
        ensures is { result ≡ places.parts (setting self.now) (places.shape (setting self.now) register) }
        ensures few { result ≤ 16 }
    {
        parts_for(self.width(), shape_of(self.elem(register)))
    }

    // A vector register is given back by its parts.
    fn vector_given(&self, out: &mut Bytes, register: Register) -> Result<(), Refusal>
        ensures { OnOk result (out.new ≡ out.old ++ code_bytes (templates.return_code (setting self.now) classes.Vector register)) }
    {
        self.parts_given(out, register, self.parts_of(register))?;
        Ok(out.give_back()?)
    }

    /// Appends `ret`, of nothing, of a scalar or of a vector register. No other is given back: `NoLocal`.
    pub fn return_line(&self, out: &mut Bytes, register: Option<Register>) -> Result<(), Refusal>
        ensures { OnOk result (out.new ≡ out.old ++ code_bytes (templates.code_of (setting self.now) 0 Kept (instrs.Return register))) }
    {
        match register {
            None => Ok(out.give_back()?),
            Some(register) => match register.class {
                Class::Scalar => {
                    self.get(out, Place::Scalar(register.number))?;
                    out.give_back()?;
                    Ok(())
                }
                Class::Vector => self.vector_given(out, register),
                Class::Mask | Class::Array => Err(Refusal::NoLocal),
            },
        }
    }

    // Appends a trap, kind 1, where an array has not the element of an index: of a place from one byte up to another.
    fn checked(
        &self,
        out: &mut Bytes,
        element: (Register, Register),
        mask: Register,
        span: (u32, u32),
    ) -> Result<(), Refusal>
        ensures { OnOk result (out.new ≡ out.old ++ code_bytes (wasm.If (templates.is_there (setting self.now) element.0 (templates.scalar_local (setting self.now) element.1)) wasm.Skip (wasm.Fail 1 span.0 span.1 (templates.lowest_of (setting self.now) mask)))) }
    {
        self.is_there(out, element.0, element.1)?;
        out.begin_if()?;
        out.begin_else()?;
        self.fault_of_lowest(out, 1, span, mask)?;
        out.end()?;
        Ok(())
    }

    // Appends that an element goes to a scalar register.
    fn loaded(
        &self,
        out: &mut Bytes,
        result_to: Register,
        array: Register,
        index: Register,
    ) -> Result<(), Refusal>
        ensures { OnOk result (out.new ≡ out.old ++ code_bytes (wasm.Load (places.bytes_of (places.elem (setting self.now) array)) ((setting self.now).local (places.Scalar result_to.number)) (templates.address_at (setting self.now) array (templates.scalar_local (setting self.now) index)) 0)) }
    {
        self.address_at(out, array, index)?;
        out.load(width_of(self.elem(array)), 0)?;
        self.set(out, Place::Scalar(result_to.number))
    }

    // Appends that a scalar register goes to an element.
    fn stored(
        &self,
        out: &mut Bytes,
        array: Register,
        index: Register,
        value: Register,
    ) -> Result<(), Refusal>
        ensures { OnOk result (out.new ≡ out.old ++ code_bytes (wasm.Store (places.bytes_of (places.elem (setting self.now) array)) (templates.address_at (setting self.now) array (templates.scalar_local (setting self.now) index)) 0 (templates.scalar_local (setting self.now) value))) }
    {
        self.address_at(out, array, index)?;
        self.get(out, Place::Scalar(value.number))?;
        out.store(width_of(self.elem(array)), 0)?;
        Ok(())
    }

    /// The bytes of the source from which a place goes, and up to which.
    pub fn span(&self, place: u32) -> Result<(u32, u32), Refusal>
        ensures start { IfOk result (λ s. s.0 ≡ (place_at self.now.code place).start) }
        ensures end { IfOk result (λ s. s.1 ≡ (place_at self.now.code place).end) }
    {
        let Some(span) = self.places().get(place as usize) else {
            return Err(Refusal::NoLocal);
        };
        match (u32::try_from(span.start), u32::try_from(span.end)) {
            (Ok(start), Ok(end)) => Ok((start, end)),
            _ => Err(Refusal::NoLocal),
        }
    }

    /// Appends a load of one element to a scalar register.
    pub fn load_line(
        &self,
        out: &mut Bytes,
        result_to: Register,
        element: (Register, Register),
        mask: Register,
        place: u32,
    ) -> Result<(), Refusal>
        ensures { OnOk result (out.new ≡ out.old ++ code_bytes (templates.scalar_code (setting self.now) result_to (scalars.Load element.0 element.1 mask place))) }
    {
        let span = self.span(place)?;
        self.checked(out, element, mask, span)?;
        self.loaded(out, result_to, element.0, element.1)
    }

    /// Appends a store of a scalar register to one element.
    pub fn store_line(
        &self,
        out: &mut Bytes,
        element: (Register, Register),
        value: Register,
        mask: Register,
        place: u32,
    ) -> Result<(), Refusal>
        ensures { OnOk result (out.new ≡ out.old ++ code_bytes (templates.code_of (setting self.now) 0 Kept (instrs.Store element.0 element.1 value mask place))) }
    {
        let span = self.span(place)?;
        self.checked(out, element, mask, span)?;
        self.stored(out, element.0, element.1, value)
    }

    /// Appends a trap of the lowest lane of a mask, if it has one.
    pub fn fail_line(&self, out: &mut Bytes, mask: Register, place: u32) -> Result<(), Refusal>
        ensures { OnOk result (out.new ≡ out.old ++ code_bytes (templates.code_of (setting self.now) 0 Kept (instrs.Fail mask place))) }
    {
        let span = self.span(place)?;
        self.lanes_as_bits(out, mask)?;
        out.begin_if()?;
        self.fault_of_lowest(out, 2, span, mask)?;
        out.end()?;
        Ok(())
    }
}
