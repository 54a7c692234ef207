//! Instructions that write a mask register.
ghost use Rattle.std.specs.Prelude.{◌≡◌, ◌++◌, ◌<◌, ◌≤◌, OnOk};
ghost use Rattle.isp_wasm_meaning.specs.Syntax as wasm;
ghost use Rattle.isp_wasm.specs.Places as places;
ghost use Rattle.isp_wasm.specs.Templates as templates;
ghost use Rattle.isp_wasm.specs.Templates.{each};
ghost use Rattle.isp_wasm_binary.specs.Instructions.{code_bytes, expr_bytes};
ghost use Rattle.isp_wasm_write.specs.Settings.{setting};

use crate::kernel::{Kernel, Place};
use crate::parts::{everyone, nobody};
use crate::refusal::Refusal;
use crate::rows::turned;
use isp_code::{MaskInstr, MaskOp, Register};
use isp_wasm_binary::{Binary, Bitwise, Bytes};

impl<'a> Kernel<'a> {
    // Part `part` of what an operator makes of two masks.
    fn mask_bits(
        &self,
        out: &mut Bytes,
        op: MaskOp,
        pair: (Register, Register),
        part: u32,
    ) -> Result<(), Refusal>
        ensures { OnOk result (out.new ≡ out.old ++ expr_bytes (templates.mask_bits (setting self.now) op (templates.mask_local (setting self.now) pair.0) (templates.mask_local (setting self.now) pair.1) part)) }
    {
        self.get(out, Place::Mask(pair.0.number, part))?;
        self.get(out, Place::Mask(pair.1.number, part))?;
        match op {
            MaskOp::And => Ok(out.binary(Binary::Bits(Bitwise::And))?),
            MaskOp::Or => Ok(out.binary(Binary::Bits(Bitwise::Or))?),
            MaskOp::AndNot => {
                turned(out)?;
                Ok(out.binary(Binary::Bits(Bitwise::And))?)
            }
        }
    }

    // Part `part` of a mask.
    fn mask_value(&self, out: &mut Bytes, instr: &MaskInstr, part: u32) -> Result<(), Refusal>
        requires { part < 4 }
        ensures { OnOk result (out.new ≡ out.old ++ expr_bytes (templates.mask_of (setting self.now) instr.now part)) }
    {
        match *instr {
            MaskInstr::Copy(mask) => self.get(out, Place::Mask(mask.number, part)),
            MaskInstr::Binary { op, left, right } => self.mask_bits(out, op, (left, right), part),
            MaskInstr::Test { vector, mask } => {
                self.get(out, Place::Vector(vector.number, part))?;
                self.get(out, Place::Mask(mask.number, part))?;
                Ok(out.binary(Binary::Bits(Bitwise::And))?)
            }
            MaskInstr::Full => Ok(everyone(out, self.width(), part)?),
            MaskInstr::Off => Ok(nobody(out, part)?),
            MaskInstr::Lowest(mask) => self.lowest_part(out, mask, part),
            MaskInstr::Range { first, end } => self.range_part(out, first, end, part),
        }
    }

    // The parts of a mask, each worked out into a local of its own.
    #[tactic(auto, using(crate::proofs::Each::one_more))]
    fn worked_out(&self, out: &mut Bytes, instr: &MaskInstr, parts: u32) -> Result<(), Refusal>
        requires { parts ≤ 2 }
        ensures { OnOk result (out.new ≡ out.old ++ code_bytes (each parts (λ j. wasm.Set ((setting self.now).local (places.Fresh j)) (templates.mask_of (setting self.now) instr.now j)))) }
    {
        for part in 0..parts {
            self.mask_value(out, instr, part)?;
            self.set(out, Place::Fresh(part))?;
        }
        Ok(())
    }

    // And then to the parts of a mask register.
    #[tactic(auto, using(crate::proofs::Each::one_more))]
    fn all_set(&self, out: &mut Bytes, result_to: Register, parts: u32) -> Result<(), Refusal>
        ensures { OnOk result (out.new ≡ out.old ++ code_bytes (each parts (λ j. wasm.Set ((setting self.now).local (places.Mask result_to.number j)) (wasm.Local ((setting self.now).local (places.Fresh j)))))) }
    {
        for part in 0..parts {
            self.get(out, Place::Fresh(part))?;
            self.set(out, Place::Mask(result_to.number, part))?;
        }
        Ok(())
    }

    /// How many parts a mask has.
    pub fn mask_parts(&self) -> u32
        ensures is { result ≡ places.parts (setting self.now) wasm.I8x16 }
        ensures few { result ≤ 2 }
    {
        (self.width() + 15) / 16
    }

    // So many parts of a mask register, each worked out before one is written.
    fn parts_set(
        &self,
        out: &mut Bytes,
        result_to: Register,
        instr: &MaskInstr,
        parts: u32,
    ) -> Result<(), Refusal>
        requires { parts ≤ 2 }
        ensures { OnOk result (out.new ≡ out.old ++ (code_bytes (each parts (λ j. wasm.Set ((setting self.now).local (places.Fresh j)) (templates.mask_of (setting self.now) instr.now j))) ++ code_bytes (each parts (λ j. wasm.Set ((setting self.now).local (places.Mask result_to.number j)) (wasm.Local ((setting self.now).local (places.Fresh j))))))) }
    {
        self.worked_out(out, instr, parts)?;
        self.all_set(out, result_to, parts)?;
        Ok(())
    }

    /// Appends an instruction that makes a mask.
    pub fn mask_line(
        &self,
        out: &mut Bytes,
        result_to: Register,
        instr: &MaskInstr,
    ) -> Result<(), Refusal>
        ensures { OnOk result (out.new ≡ out.old ++ code_bytes (templates.set_mask (setting self.now) result_to (templates.mask_of (setting self.now) instr.now))) }
    {
        self.parts_set(out, result_to, instr, self.mask_parts())
    }
}
