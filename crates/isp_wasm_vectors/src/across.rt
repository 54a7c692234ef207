//! Instructions that make a scalar of the lanes of a vector.
ghost use Rattle.std.specs.Prelude.{◌≡◌, ◌++◌, IsTrue, OnOk};
ghost use Rattle.isp_wasm.specs.Places as places;
ghost use Rattle.isp_wasm.specs.Templates as templates;
ghost use Rattle.isp_wasm.specs.Templates.{each};
ghost use Rattle.isp_wasm_binary.specs.Instructions.{code_bytes, expr_bytes};
ghost use Rattle.isp_wasm_write.specs.Settings.{setting};
ghost use Rattle.isp_wasm_vectors.specs.Lines.{is_across};
ghost use Rattle.isp_wasm_vectors.specs.reader.Across as across;

use crate::folds::{Fold, Item, folded};
use crate::parts::{lane, lanes, value};
use crate::picks::{Pick, Source, Which, picked};
use isp_base::{Elem, widened};
use isp_code::{Plain, Reduction, Register, ScalarInstr, Scan};
use isp_wasm_binary::{Binary, Bitwise, Bytes, Size};
use isp_wasm_write::{Kernel, Place, Refusal, constant, plain, size_of};

// Whether a lane was there so far.
const SOME: Place = Place::Spare(Size::I32, 1);

// The least or the greatest of the lanes that a mask has.
#[derive(Clone, Copy)]
struct Best {
    better: Plain,
    vector: Register,
    mask: Register,
}

// Appends that the best so far becomes that of one lane more.
fn better_kept(kernel: &Kernel, out: &mut Bytes, best: &Best, number: u8) -> Result<(), Refusal>
    ensures { OnOk result (out.new ≡ out.old ++ code_bytes (across.better_kept (setting kernel.now) best.now number)) }
{
    let elem = kernel.elem(best.vector);
    let so_far = value(kernel, Place::Spare(size_of(elem), 0))?;
    let here = lane(kernel, elem, best.vector, number)?;
    plain(out, best.better, elem, so_far, here)?;
    here.write(out)?;
    kernel.get(out, SOME)?;
    out.select()?;
    so_far.write(out)?;
    kernel.is_member(out, best.mask, number)?;
    out.select()?;
    kernel.set(out, Place::Spare(size_of(elem), 0))
}

// Appends that one lane was there if this one is.
fn some_kept(kernel: &Kernel, out: &mut Bytes, mask: Register, number: u8) -> Result<(), Refusal>
    ensures { OnOk result (out.new ≡ out.old ++ code_bytes (across.some_kept (setting kernel.now) mask number)) }
{
    kernel.get(out, SOME)?;
    kernel.is_member(out, mask, number)?;
    out.binary(Binary::BitsOf(Size::I32, Bitwise::Or))?;
    kernel.set(out, SOME)
}

fn best_step(kernel: &Kernel, out: &mut Bytes, best: &Best, number: u8) -> Result<(), Refusal>
    ensures { OnOk result (out.new ≡ out.old ++ code_bytes (across.best_step (setting kernel.now) best.now number)) }
{
    better_kept(kernel, out, best, number)?;
    some_kept(kernel, out, best.mask, number)
}

#[tactic(auto, using(crate::proofs::Each::one_more))]
fn best_steps(kernel: &Kernel, out: &mut Bytes, best: &Best) -> Result<(), Refusal>
    ensures { OnOk result (out.new ≡ out.old ++ code_bytes (across.best_steps (setting kernel.now) best.now)) }
{
    for number in 0..lanes(kernel) {
        best_step(kernel, out, best, number)?;
    }
    Ok(())
}

// Appends that a scalar register gets the best.
fn best_of(
    kernel: &Kernel,
    out: &mut Bytes,
    result_to: Register,
    best: &Best,
) -> Result<(), Refusal>
    ensures { OnOk result (out.new ≡ out.old ++ code_bytes (across.best_of (setting kernel.now) result_to best.now)) }
{
    let size = size_of(kernel.elem(best.vector));
    constant(out, size, 0)?;
    kernel.set(out, Place::Spare(size, 0))?;
    out.const32(0)?;
    kernel.set(out, SOME)?;
    best_steps(kernel, out, best)?;
    kernel.get(out, Place::Spare(size, 0))?;
    kernel.set(out, Place::Scalar(result_to.number))
}

// Appends that a scalar register gets what an operator makes of the lanes.
fn folded_to(
    kernel: &Kernel,
    out: &mut Bytes,
    result_to: Register,
    fold: &Fold,
) -> Result<(), Refusal>
    ensures { OnOk result (out.new ≡ out.old ++ code_bytes (across.folded_to (setting kernel.now) result_to fold.now)) }
{
    folded(kernel, out, fold, lanes(kernel))?;
    kernel.set(out, Place::Scalar(result_to.number))
}

// An operator on bools.
fn of_bools(op: Scan, item: Item, vector: Register, mask: Register) -> Fold
    ensures { result ≡ across.of_bools op item vector mask }
{
    Fold {
        op,
        elem: Elem::Bool,
        item,
        vector,
        mask,
    }
}

// Appends a reduction.
fn reduced(
    kernel: &Kernel,
    out: &mut Bytes,
    result_to: Register,
    op: Reduction,
    vector: Register,
    mask: Register,
) -> Result<(), Refusal>
    ensures { OnOk result (out.new ≡ out.old ++ code_bytes (across.reduced (setting kernel.now) result_to op vector mask)) }
{
    match op {
        Reduction::Min => best_of(
            kernel,
            out,
            result_to,
            &Best {
                better: Plain::Min,
                vector,
                mask,
            },
        ),
        Reduction::Max => best_of(
            kernel,
            out,
            result_to,
            &Best {
                better: Plain::Max,
                vector,
                mask,
            },
        ),
        Reduction::Add => {
            let elem = widened(kernel.elem(vector));
            let fold = Fold {
                op: Scan::Add,
                elem,
                item: Item::Converted,
                vector,
                mask,
            };
            folded_to(kernel, out, result_to, &fold)
        }
        Reduction::Equal => {
            let fold = of_bools(Scan::And, Item::IsFirst, vector, mask);
            folded_to(kernel, out, result_to, &fold)
        }
        Reduction::Any => {
            let fold = of_bools(Scan::Or, Item::Lane, vector, mask);
            folded_to(kernel, out, result_to, &fold)
        }
        Reduction::All => {
            let fold = of_bools(Scan::And, Item::Lane, vector, mask);
            folded_to(kernel, out, result_to, &fold)
        }
    }
}

/// Appends an instruction that makes a scalar of the lanes of a vector: a reduction, or the value of one lane.
pub fn across_line(
    kernel: &Kernel,
    out: &mut Bytes,
    result_to: Register,
    instr: &ScalarInstr,
) -> Result<(), Refusal>
    requires { IsTrue (is_across instr.now) }
    ensures { OnOk result (out.new ≡ out.old ++ code_bytes (templates.scalar_code (setting kernel.now) result_to instr.now)) }
{
    match *instr {
        ScalarInstr::Reduce { op, vector, mask } => {
            reduced(kernel, out, result_to, op, vector, mask)
        }
        ScalarInstr::Extract { vector, lane, mask } => {
            let source = Source::Vector(vector);
            let pick = Pick {
                source,
                which: Which::Same(lane),
                mask,
                lane: 0,
            };
            picked(kernel, out, &pick, lanes(kernel))?;
            kernel.set(out, Place::Scalar(result_to.number))
        }
        _ => unreachable!(),
    }
}
