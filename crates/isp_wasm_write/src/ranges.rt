//! Masks that are made of numbers: the lowest lane, and lanes up to an end.
ghost use Rattle.std.specs.Prelude.{◌≡◌, ◌++◌, ◌<◌, OnOk};
ghost use Rattle.isp_code.specs.declared.instr.MaskInstr.TheVariants as masks;
ghost use Rattle.isp_wasm_meaning.specs.Syntax as wasm;
ghost use Rattle.isp_wasm.specs.Places as places;
ghost use Rattle.isp_wasm.specs.Templates as templates;
ghost use Rattle.isp_wasm_binary.specs.Instructions.{expr_bytes};
ghost use Rattle.isp_wasm_write.specs.Settings.{setting};

use crate::kernel::{Kernel, Place};
use crate::parts::numbers;
use crate::refusal::Refusal;
use isp_code::Register;
use isp_wasm_binary::{Binary, Bitwise, Bytes, Shape, Size, Test, Unary, Whole};
use std::alloc::AllocError;

impl<'a> Kernel<'a> {
    // The numbers of the lanes of a part.
    fn numbers(&self, out: &mut Bytes, part: u32) -> Result<(), AllocError>
        requires { part < 4 }
        ensures { OnOk result (out.new ≡ out.old ++ expr_bytes (wasm.Const128 (templates.numbers_part (setting self.now) part))) }
    {
        numbers(out, self.width(), part)
    }

    // How far one scalar is above another.
    fn difference(&self, out: &mut Bytes, first: Register, end: Register) -> Result<(), Refusal>
        ensures { OnOk result (out.new ≡ out.old ++ expr_bytes (wasm.Two (wasm.Of wasm.I64 wasm.Sub) (templates.scalar_local (setting self.now) end) (templates.scalar_local (setting self.now) first))) }
    {
        self.get(out, Place::Scalar(end.number))?;
        self.get(out, Place::Scalar(first.number))?;
        out.binary(Binary::Of(Size::I64, Whole::Sub))?;
        Ok(())
    }

    // The same, at most the lanes of the gang.
    fn difference_in_gang(
        &self,
        out: &mut Bytes,
        first: Register,
        end: Register,
    ) -> Result<(), Refusal>
        ensures { OnOk result (out.new ≡ out.old ++ expr_bytes (let n = wasm.Two (wasm.Of wasm.I64 wasm.Sub) (templates.scalar_local (setting self.now) end) (templates.scalar_local (setting self.now) first) in wasm.Select (wasm.Two (wasm.Compare wasm.I64 wasm.LtU) n (wasm.Const64 (places.gang (setting self.now)))) n (wasm.Const64 (places.gang (setting self.now))))) }
    {
        let lanes = u64::from(self.width());
        self.difference(out, first, end)?;
        out.const64(lanes)?;
        self.difference(out, first, end)?;
        out.const64(lanes)?;
        out.binary(Binary::Compare(Size::I64, Test::LtU))?;
        out.select()?;
        Ok(())
    }

    // How many lanes are before the end.
    fn range_count(&self, out: &mut Bytes, first: Register, end: Register) -> Result<(), Refusal>
        ensures { OnOk result (out.new ≡ out.old ++ expr_bytes (templates.range_count (setting self.now) first end)) }
    {
        self.difference_in_gang(out, first, end)?;
        out.const64(0)?;
        self.get(out, Place::Scalar(first.number))?;
        self.get(out, Place::Scalar(end.number))?;
        out.binary(Binary::Compare(Size::I64, Test::LtS))?;
        out.select()?;
        Ok(())
    }

    // How many, in each lane.
    fn range_lanes(&self, out: &mut Bytes, first: Register, end: Register) -> Result<(), Refusal>
        ensures { OnOk result (out.new ≡ out.old ++ expr_bytes (wasm.One (wasm.Splat wasm.I8x16) (wasm.One wasm.Wrap (templates.range_count (setting self.now) first end)))) }
    {
        self.range_count(out, first, end)?;
        out.unary(Unary::Wrap)?;
        out.unary(Unary::Splat(Shape::I8x16))?;
        Ok(())
    }

    /// Appends a part of the lanes whose number, added to the first, is below the end.
    pub(crate) fn range_part(
        &self,
        out: &mut Bytes,
        first: Register,
        end: Register,
        part: u32,
    ) -> Result<(), Refusal>
        requires { part < 4 }
        ensures { OnOk result (out.new ≡ out.old ++ expr_bytes (templates.mask_of (setting self.now) (masks.Range first end) part)) }
    {
        self.numbers(out, part)?;
        self.range_lanes(out, first, end)?;
        out.binary(Binary::CompareLanes(Shape::I8x16, Test::LtS))?;
        Ok(())
    }

    // Which lane of a part is the lowest one of a mask.
    fn is_lowest(&self, out: &mut Bytes, mask: Register, part: u32) -> Result<(), Refusal>
        requires { part < 4 }
        ensures { OnOk result (out.new ≡ out.old ++ expr_bytes (wasm.Two (wasm.CompareLanes wasm.I8x16 wasm.Eq) (wasm.Const128 (templates.numbers_part (setting self.now) part)) (wasm.One (wasm.Splat wasm.I8x16) (templates.lowest_of (setting self.now) mask)))) }
    {
        self.numbers(out, part)?;
        self.lowest_of(out, mask)?;
        out.unary(Unary::Splat(Shape::I8x16))?;
        out.binary(Binary::CompareLanes(Shape::I8x16, Test::Eq))?;
        Ok(())
    }

    /// Appends a part of the lowest lane of a mask, alone.
    pub(crate) fn lowest_part(
        &self,
        out: &mut Bytes,
        mask: Register,
        part: u32,
    ) -> Result<(), Refusal>
        requires { part < 4 }
        ensures { OnOk result (out.new ≡ out.old ++ expr_bytes (templates.mask_of (setting self.now) (masks.Lowest mask) part)) }
    {
        self.is_lowest(out, mask, part)?;
        self.get(out, Place::Mask(mask.number, part))?;
        out.binary(Binary::Bits(Bitwise::And))?;
        Ok(())
    }
}
