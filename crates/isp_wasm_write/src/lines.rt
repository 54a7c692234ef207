//! Instructions that write a scalar register.
ghost use Rattle.std.specs.Prelude.{◌≡◌, ◌++◌, IsTrue, OnOk, IfOk};
ghost use Rattle.isp_wasm.specs.Templates as templates;
ghost use Rattle.isp_wasm_binary.specs.Instructions.{code_bytes, expr_bytes};
ghost use Rattle.isp_wasm_write.specs.Operands.{operand_expr};
ghost use Rattle.isp_wasm_write.specs.Settings.{setting};
ghost use Rattle.isp_wasm_write.specs.Lines.{is_plain};

use crate::kernel::{Kernel, Place};
use crate::operand::{Operand, bits_constant};
use crate::refusal::Refusal;
use crate::scalars;
use crate::types::size_of;
use isp_base::wrap;
use isp_code::{Register, ScalarInstr};
use isp_wasm_binary::{Bytes, Unary};

impl<'a> Kernel<'a> {
    /// The value of a scalar register.
    pub(crate) fn scalar(&self, register: Register) -> Result<Operand, Refusal>
        ensures { IfOk result (λ x. operand_expr x ≡ templates.scalar_local (setting self.now) register) }
    {
        match self.local(Place::Scalar(register.number)) {
            None => Err(Refusal::NoLocal),
            Some(local) => Ok(Operand::Local(local)),
        }
    }

    /// Appends an instruction that makes a scalar of scalars, or of a mask.
    pub fn scalar_line(
        &self,
        out: &mut Bytes,
        result_to: Register,
        instr: &ScalarInstr,
    ) -> Result<(), Refusal>
        requires { IsTrue (is_plain instr.now) }
        ensures { OnOk result (out.new ≡ out.old ++ code_bytes (templates.scalar_code (setting self.now) result_to instr.now)) }
    {
        self.scalar_value(out, result_to, instr)?;
        self.set(out, Place::Scalar(result_to.number))
    }

    fn scalar_value(
        &self,
        out: &mut Bytes,
        result_to: Register,
        instr: &ScalarInstr,
    ) -> Result<(), Refusal>
        requires { IsTrue (is_plain instr.now) }
        ensures { OnOk result (out.new ≡ out.old ++ expr_bytes (templates.scalar_of (setting self.now) result_to instr.now)) }
    {
        match *instr {
            ScalarInstr::Copy(x) => self.get(out, Place::Scalar(x.number)),
            ScalarInstr::Convert(x) => {
                let value = self.scalar(x)?;
                scalars::convert(out, self.elem(x), self.elem(result_to), value)?;
                Ok(())
            }
            ScalarInstr::Unary { op, value } => {
                let value = self.scalar(value)?;
                scalars::unary(out, op, self.elem(result_to), value)?;
                Ok(())
            }
            ScalarInstr::Binary { op, left, right } => {
                let left = self.scalar(left)?;
                let right = self.scalar(right)?;
                scalars::plain(out, op, self.elem(result_to), left, right)?;
                Ok(())
            }
            ScalarInstr::Compare { op, left, right } => {
                let elem = self.elem(left);
                let left = self.scalar(left)?;
                let right = self.scalar(right)?;
                scalars::compare(out, op, elem, left, right)?;
                Ok(())
            }
            ScalarInstr::Select {
                test,
                if_true,
                if_false,
            } => {
                self.get(out, Place::Scalar(if_true.number))?;
                self.get(out, Place::Scalar(if_false.number))?;
                self.get(out, Place::Scalar(test.number))?;
                out.select()?;
                Ok(())
            }
            ScalarInstr::First(mask) => {
                self.lowest_of(out, mask)?;
                out.unary(Unary::ExtendU)?;
                Ok(())
            }
            ScalarInstr::Constant(number) => {
                let elem = self.elem(result_to);
                bits_constant(out, size_of(elem), wrap(elem, number))?;
                Ok(())
            }
            _ => unreachable!(),
        }
    }
}
