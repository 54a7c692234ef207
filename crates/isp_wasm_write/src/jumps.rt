//! Instructions that jump.
ghost use Rattle.std.specs.Prelude.{◌≡◌, ◌++◌, ◌+◌, ◌-◌, ◌<◌, ◌^◌, OnOk};
ghost use Rattle.isp_base.specs.Types.{gang_width};
ghost use Rattle.isp_code.specs.declared.instr.Instr.TheVariants as instrs;
ghost use Rattle.isp_forms.specs.declared.form.Form.TheVariants.{Kept};
ghost use Rattle.isp_wasm.specs.Templates as templates;
ghost use Rattle.isp_wasm_binary.specs.Instructions.{code_bytes, expr_bytes};
ghost use Rattle.isp_wasm_write.specs.Settings.{setting};
ghost use Rattle.isp_wasm_write.specs.reader.Jumps.{test_expr};

use crate::kernel::{Kernel, Place};
use crate::refusal::Refusal;
use isp_base::Gang;
use isp_code::{JumpTest, Register};
use isp_wasm_binary::{Binary, Bytes, Size, Test, Unary};

// The lanes of a whole gang as bits.
fn all_lanes(gang: Gang) -> u32
    ensures { result ≡ 2 ^ gang_width gang - 1 }
{
    match gang {
        Gang::W4 => 0xF,
        Gang::W8 => 0xFF,
        Gang::W16 => 0xFFFF,
        Gang::W32 => 0xFFFF_FFFF,
    }
}

impl<'a> Kernel<'a> {
    // What is not 0 where a register passes a test.
    fn passes(&self, out: &mut Bytes, test: JumpTest, register: Register) -> Result<(), Refusal>
        ensures { OnOk result (out.new ≡ out.old ++ expr_bytes (test_expr (setting self.now) test register)) }
    {
        match test {
            JumpTest::True => self.get(out, Place::Scalar(register.number)),
            JumpTest::False => {
                self.get(out, Place::Scalar(register.number))?;
                Ok(out.unary(Unary::Eqz(Size::I32))?)
            }
            JumpTest::On => self.lanes_as_bits(out, register),
            JumpTest::Off => {
                self.lanes_as_bits(out, register)?;
                Ok(out.unary(Unary::Eqz(Size::I32))?)
            }
            JumpTest::All => {
                self.lanes_as_bits(out, register)?;
                out.const32(all_lanes(self.code().gang()))?;
                Ok(out.binary(Binary::Compare(Size::I32, Test::Eq))?)
            }
        }
    }

    /// Appends a jump to an instruction, from inside so many labels below the loop's.
    pub fn jump_line(&self, out: &mut Bytes, depth: u32, target: u32) -> Result<(), Refusal>
        ensures { OnOk result (out.new ≡ out.old ++ code_bytes (templates.jump_to (setting self.now) depth target)) }
    {
        match self.rung_at(target) {
            None => Err(Refusal::NoLocal),
            Some(rung) => self.jump_to(out, depth, rung),
        }
    }

    /// Appends a jump where a register passes a test.
    #[tactic(auto, using(crate::proofs::JumpTests::tested_is))]
    pub fn jump_if_line(
        &self,
        out: &mut Bytes,
        depth: u32,
        tested: (JumpTest, Register),
        target: u32,
    ) -> Result<(), Refusal>
        requires { depth + 1 < 2 ^ 32 }
        ensures { OnOk result (out.new ≡ out.old ++ code_bytes (templates.code_of (setting self.now) depth Kept (instrs.JumpIf tested.0 tested.1 target))) }
    {
        self.passes(out, tested.0, tested.1)?;
        out.begin_if()?;
        self.jump_line(out, depth + 1, target)?;
        out.end()?;
        Ok(())
    }
}
