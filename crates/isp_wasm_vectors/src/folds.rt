//! What an operator makes of the lanes of a vector.
ghost use Rattle.std.specs.Prelude.{◌≡◌, ◌++◌, ◌+◌, ◌≤◌, OnOk};
ghost use Rattle.isp_wasm.specs.Places as places;
ghost use Rattle.isp_wasm.specs.Templates as templates;
ghost use Rattle.isp_wasm_binary.specs.Instructions.{expr_bytes};
ghost use Rattle.isp_wasm_write.specs.Settings.{setting};
ghost use Rattle.isp_wasm_vectors.specs.reader.Across as across;
ghost use Rattle.isp_wasm_vectors.specs.reader.Tails.{join_tail};

use crate::parts::{lane, lanes};
use isp_base::Elem;
use isp_code::{Register, Scan};
use isp_wasm_binary::{Binary, Bitwise, Bytes, Test, Whole};
use isp_wasm_write::{Kernel, Refusal, all_ones, constant, convert, cut, size_of};
use std::alloc::AllocError;

/// What an operator takes of a lane.
#[derive(Clone, Copy)]
pub(crate) enum Item {
    /// Its value.
    Lane,
    /// Its value as one of the operator's type.
    Converted,
    /// Whether it has the value of the lowest lane.
    IsFirst,
}

/// An operator, its type, and what it takes of the lanes that a mask has.
#[derive(Clone, Copy)]
pub(crate) struct Fold {
    pub op: Scan,
    pub elem: Elem,
    pub item: Item,
    pub vector: Register,
    pub mask: Register,
}

// What an operator makes of no value.
fn unit(out: &mut Bytes, fold: &Fold) -> Result<(), AllocError>
    ensures { OnOk result (out.new ≡ out.old ++ expr_bytes (across.unit_expr fold.now)) }
{
    match fold.op {
        Scan::And => all_ones(out, fold.elem),
        Scan::Add | Scan::Or => constant(out, size_of(fold.elem), 0),
    }
}

// After two values: the operator.
fn joined(out: &mut Bytes, op: Scan, elem: Elem) -> Result<(), AllocError>
    ensures { OnOk result (out.new ≡ out.old ++ join_tail op elem) }
{
    let size = size_of(elem);
    match op {
        Scan::Add => {
            out.binary(Binary::Of(size, Whole::Add))?;
            cut(out, elem)
        }
        Scan::And => out.binary(Binary::BitsOf(size, Bitwise::And)),
        Scan::Or => out.binary(Binary::BitsOf(size, Bitwise::Or)),
    }
}

// Appends the value of the lowest lane that a mask has, of so many lanes from one on; else 0.
fn first_value(
    kernel: &Kernel,
    out: &mut Bytes,
    vector: Register,
    mask: Register,
    left: u8,
    number: u8,
) -> Result<(), Refusal>
    requires { left + number ≤ 32 }
    ensures { OnOk result (out.new ≡ out.old ++ expr_bytes (templates.first_value (setting kernel.now) vector mask left number)) }
{
    let elem = kernel.elem(vector);
    if left == 0 {
        return Ok(constant(out, size_of(elem), 0)?);
    }
    lane(kernel, elem, vector, number)?.write(out)?;
    first_value(kernel, out, vector, mask, left - 1, number + 1)?;
    kernel.is_member(out, mask, number)?;
    Ok(out.select()?)
}

// Appends what the operator takes of a lane that the mask has.
fn value_taken(kernel: &Kernel, out: &mut Bytes, fold: &Fold, number: u8) -> Result<(), Refusal>
    ensures { OnOk result (out.new ≡ out.old ++ expr_bytes (across.item_expr (setting kernel.now) fold.now number)) }
{
    let elem = kernel.elem(fold.vector);
    let value = lane(kernel, elem, fold.vector, number)?;
    match fold.item {
        Item::Lane => Ok(value.write(out)?),
        Item::Converted => Ok(convert(out, elem, fold.elem, value)?),
        Item::IsFirst => {
            value.write(out)?;
            first_value(kernel, out, fold.vector, fold.mask, lanes(kernel), 0)?;
            Ok(out.binary(Binary::Compare(size_of(elem), Test::Eq))?)
        }
    }
}

// Appends what it takes of a lane.
fn taken(kernel: &Kernel, out: &mut Bytes, fold: &Fold, number: u8) -> Result<(), Refusal>
    ensures { OnOk result (out.new ≡ out.old ++ expr_bytes (across.taken_expr (setting kernel.now) fold.now number)) }
{
    value_taken(kernel, out, fold, number)?;
    unit(out, fold)?;
    kernel.is_member(out, fold.mask, number)?;
    Ok(out.select()?)
}

/// Appends what the operator makes of the first lanes, from the lowest on.
pub(crate) fn folded(
    kernel: &Kernel,
    out: &mut Bytes,
    fold: &Fold,
    count: u8,
) -> Result<(), Refusal>
    ensures { OnOk result (out.new ≡ out.old ++ expr_bytes (across.fold_expr (setting kernel.now) fold.now count)) }
{
    unit(out, fold)?;
    for number in 0..count {
        taken(kernel, out, fold, number)?;
        joined(out, fold.op, fold.elem)?;
    }
    Ok(())
}
