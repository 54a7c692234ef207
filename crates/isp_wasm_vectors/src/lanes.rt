//! Instructions that go lane by lane, where a mask has the lane: divisions, scatters, runs, and packed loads and stores.
ghost use Rattle.std.specs.Prelude.{◌≡◌, ◌++◌, IsTrue, OnOk};
ghost use Rattle.isp_forms.specs.declared.form.Form.TheVariants.{Kept};
ghost use Rattle.isp_wasm.specs.Templates as templates;
ghost use Rattle.isp_wasm_binary.specs.Instructions.{code_bytes};
ghost use Rattle.isp_wasm_write.specs.Settings.{setting};
ghost use Rattle.isp_wasm_vectors.specs.Lines.{is_laned};
ghost use Rattle.isp_wasm_vectors.specs.reader.Quotients as quotients;

use crate::loops::{Elements, Index, checked_stores, lane_loads, set_count};
use crate::quotients::{Quotients, lane_quotients, scalar_quotient};
use crate::runs::{Run, store_run};
use isp_code::{Class, Instr, Register};
use isp_wasm_binary::Bytes;
use isp_wasm_write::{Kernel, Refusal};

// Appends a division of scalars or of lanes, as the class of the result says.
fn division(kernel: &Kernel, out: &mut Bytes, all: &Quotients) -> Result<(), Refusal>
    ensures { OnOk result (out.new ≡ out.old ++ code_bytes (quotients.division (setting kernel.now) all.now)) }
{
    match all.result.class {
        Class::Vector => lane_quotients(kernel, out, all),
        _ => scalar_quotient(kernel, out, all),
    }
}

/// Appends a division, a scatter, a store of a run, or a packed load or store.
pub fn lanes_line(kernel: &Kernel, out: &mut Bytes, instr: &Instr) -> Result<(), Refusal>
    requires { IsTrue (is_laned instr.now) }
    ensures { OnOk result (out.new ≡ out.old ++ code_bytes (templates.code_of (setting kernel.now) 0 Kept instr.now)) }
{
    match *instr {
        Instr::Divide {
            op,
            result,
            dividend,
            divisor,
            mask,
            place,
        } => {
            let all = Quotients {
                op,
                result,
                dividend,
                divisor,
                mask,
                place,
            };
            division(kernel, out, &all)
        }
        Instr::Scatter {
            array,
            indices,
            value,
            mask,
            place,
        } => {
            let elements = Elements {
                array,
                index: Index::Own(indices),
                mask,
                place,
            };
            checked_stores(kernel, out, &elements, value)
        }
        Instr::StoreRun {
            array,
            index,
            value,
            mask,
            place,
        } => {
            let run = Run {
                array,
                index,
                mask,
                place,
            };
            store_run(kernel, out, &run, value)
        }
        Instr::PackedStore {
            count,
            array,
            index,
            value,
            mask,
            place,
        } => {
            let elements = Elements {
                array,
                index: Index::Packed(index),
                mask,
                place,
            };
            checked_stores(kernel, out, &elements, value)?;
            set_count(kernel, out, count, mask)
        }
        Instr::PackedLoad {
            count,
            array,
            index,
            result,
            mask,
            place,
        } => {
            let elements = Elements {
                array,
                index: Index::Packed(index),
                mask,
                place,
            };
            lane_loads(kernel, out, result, &elements)?;
            set_count(kernel, out, count, mask)
        }
        _ => unreachable!(),
    }
}
