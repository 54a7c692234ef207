//! The locals that an instruction names.
ghost use Rattle.std.specs.Prelude.{◌≡◌, ◌++◌, OnOk};
ghost use Rattle.isp_wasm_meaning.specs.Syntax as wasm;
ghost use Rattle.isp_wasm.specs.Places as places;
ghost use Rattle.isp_wasm.specs.Templates as templates;
ghost use Rattle.isp_wasm_binary.specs.Instructions as instructions;
ghost use Rattle.isp_wasm_binary.specs.Instructions.{code_bytes, expr_bytes, word_bytes};
ghost use Rattle.isp_wasm_write.specs.Places.{place_of};
ghost use Rattle.isp_wasm_write.specs.Settings.{setting};

use crate::kernel::{Kernel, Place};
use crate::refusal::Refusal;
use crate::types::bytes_of;
use isp_code::Register;
use isp_wasm_binary::{Binary, Bytes, Shape, Size, Test, Unary, Whole};

impl<'a> Kernel<'a> {
    /// Appends what the local of a place has.
    pub fn get(&self, out: &mut Bytes, place: Place) -> Result<(), Refusal>
        ensures { OnOk result (out.new ≡ out.old ++ expr_bytes (wasm.Local ((setting self.now).local (place_of place)))) }
    {
        match self.local(place) {
            None => Err(Refusal::NoLocal),
            Some(local) => Ok(out.get(local)?),
        }
    }

    /// Appends that a value goes to the local of a place.
    pub fn set(&self, out: &mut Bytes, place: Place) -> Result<(), Refusal>
        ensures { OnOk result (out.new ≡ out.old ++ word_bytes (instructions.Set_word ((setting self.now).local (place_of place)))) }
    {
        match self.local(place) {
            None => Err(Refusal::NoLocal),
            Some(local) => Ok(out.set(local)?),
        }
    }

    /// Appends the lanes of a mask as bits.
    pub(crate) fn lanes_as_bits(&self, out: &mut Bytes, mask: Register) -> Result<(), Refusal>
        ensures { OnOk result (out.new ≡ out.old ++ expr_bytes (templates.lanes_as_bits (setting self.now) mask)) }
    {
        self.get(out, Place::Mask(mask.number, 0))?;
        out.unary(Unary::Bitmask(Shape::I8x16))?;
        self.get(out, Place::Mask(mask.number, 1))?;
        out.unary(Unary::Bitmask(Shape::I8x16))?;
        out.const32(1 << 16)?;
        out.binary(Binary::Of(Size::I32, Whole::Mul))?;
        out.binary(Binary::Of(Size::I32, Whole::Add))?;
        Ok(())
    }

    /// Appends the number of the lowest lane of a mask, or 0.
    pub fn lowest_of(&self, out: &mut Bytes, mask: Register) -> Result<(), Refusal>
        ensures { OnOk result (out.new ≡ out.old ++ expr_bytes (templates.lowest_of (setting self.now) mask)) }
    {
        self.lanes_as_bits(out, mask)?;
        out.unary(Unary::Ctz(Size::I32))?;
        out.const32(0)?;
        self.lanes_as_bits(out, mask)?;
        out.select()?;
        Ok(())
    }

    /// Appends what is not 0 where a mask has a lane.
    pub fn is_member(&self, out: &mut Bytes, mask: Register, lane: u8) -> Result<(), Refusal>
        ensures { OnOk result (out.new ≡ out.old ++ expr_bytes (templates.is_member (setting self.now) mask lane)) }
    {
        self.get(out, Place::Mask(mask.number, u32::from(lane / 16)))?;
        out.unary(Unary::Extract(Shape::I8x16, lane % 16))?;
        Ok(())
    }

    /// Appends a jump to an instruction, from inside so many labels below the loop's.
    pub(crate) fn jump_to(&self, out: &mut Bytes, depth: u32, rung: u32) -> Result<(), Refusal>
        ensures { OnOk result (out.new ≡ out.old ++ code_bytes (wasm.Then (wasm.Set ((setting self.now).local places.Counter) (wasm.Const32 rung)) (wasm.Br depth))) }
    {
        out.const32(rung)?;
        self.set(out, Place::Counter)?;
        out.br(depth)?;
        Ok(())
    }

    /// Appends a trap of a kind at a place, of the lowest lane of a mask.
    pub fn fault_of_lowest(
        &self,
        out: &mut Bytes,
        kind: u32,
        span: (u32, u32),
        mask: Register,
    ) -> Result<(), Refusal>
        ensures { OnOk result (out.new ≡ out.old ++ code_bytes (wasm.Fail kind span.0 span.1 (templates.lowest_of (setting self.now) mask))) }
    {
        out.const32(kind)?;
        out.const32(span.0)?;
        out.const32(span.1)?;
        self.lowest_of(out, mask)?;
        out.call(1)?;
        out.unreachable()?;
        Ok(())
    }

    /// Appends the address of an element of an array, of which the index is in a scalar register.
    pub fn address_at(
        &self,
        out: &mut Bytes,
        array: Register,
        index: Register,
    ) -> Result<(), Refusal>
        ensures { OnOk result (out.new ≡ out.old ++ expr_bytes (templates.address_at (setting self.now) array (templates.scalar_local (setting self.now) index))) }
    {
        self.get(out, Place::Base(array.number))?;
        self.get(out, Place::Scalar(index.number))?;
        out.unary(Unary::Wrap)?;
        out.const32(bytes_of(self.elem(array)))?;
        out.binary(Binary::Of(Size::I32, Whole::Mul))?;
        out.binary(Binary::Of(Size::I32, Whole::Add))?;
        Ok(())
    }

    /// Appends whether an array has the element of an index in a scalar register.
    pub(crate) fn is_there(
        &self,
        out: &mut Bytes,
        array: Register,
        index: Register,
    ) -> Result<(), Refusal>
        ensures { OnOk result (out.new ≡ out.old ++ expr_bytes (templates.is_there (setting self.now) array (templates.scalar_local (setting self.now) index))) }
    {
        self.get(out, Place::Scalar(index.number))?;
        self.get(out, Place::Count(array.number))?;
        out.binary(Binary::Compare(Size::I64, Test::LtU))?;
        Ok(())
    }
}
