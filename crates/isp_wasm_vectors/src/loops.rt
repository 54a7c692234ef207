//! Lanes one after the other, where a mask has them: loads and stores.
ghost use Rattle.std.specs.Prelude.{◌≡◌, ◌++◌, ◌≤◌, OnOk};
ghost use Rattle.isp_wasm_meaning.specs.Syntax as wasm;
ghost use Rattle.isp_wasm.specs.Templates as templates;
ghost use Rattle.isp_wasm.specs.Templates.{each};
ghost use Rattle.isp_wasm_binary.specs.Instructions.{code_bytes, expr_bytes};
ghost use Rattle.isp_wasm_write.specs.Places.{place_of};
ghost use Rattle.isp_wasm_write.specs.Settings.{setting};
ghost use Rattle.isp_wasm_vectors.specs.reader.Loops as loops;

use crate::cells::{begin_lane, end_lane};
use crate::parts::{lane, lanes};
use isp_base::Elem;
use isp_code::Register;
use isp_wasm_binary::{Binary, Bitwise, Bytes, Size, Test, Unary, Whole};
use isp_wasm_write::{Kernel, Place, Refusal, bytes_of, size_of, width_of};

/// The index of a lane's element.
#[derive(Clone, Copy)]
pub(crate) enum Index {
    /// What the lane of a vector register has.
    Own(Register),
    /// What a scalar register has, and the lane's number added.
    Run(Register),
    /// The same with the number of the mask's lanes below.
    Packed(Register),
}

/// An element for each lane that a mask has, and the place of the trap where there is none.
#[derive(Clone, Copy)]
pub(crate) struct Elements {
    pub array: Register,
    pub index: Index,
    pub mask: Register,
    pub place: u32,
}

/// Of which lane a trap tells.
#[derive(Clone, Copy)]
pub(crate) enum Who {
    Lane(u8),
    Lowest(Register),
}

// Appends the number of that lane.
fn lane_of(kernel: &Kernel, out: &mut Bytes, who: Who) -> Result<(), Refusal>
    ensures { OnOk result (out.new ≡ out.old ++ expr_bytes (loops.who_expr (setting kernel.now) who)) }
{
    match who {
        Who::Lane(number) => Ok(out.const32(u32::from(number))?),
        Who::Lowest(mask) => kernel.lowest_of(out, mask),
    }
}

/// Appends a trap of a kind.
pub(crate) fn fault(
    kernel: &Kernel,
    out: &mut Bytes,
    kind: u32,
    place: u32,
    who: Who,
) -> Result<(), Refusal>
    ensures { OnOk result (out.new ≡ out.old ++ code_bytes (loops.fault_of (setting kernel.now) kind place who)) }
{
    let (start, end) = kernel.span(place)?;
    out.const32(kind)?;
    out.const32(start)?;
    out.const32(end)?;
    lane_of(kernel, out, who)?;
    out.call(1)?;
    Ok(out.unreachable()?)
}

/// Appends the beginning of what is run where a mask has a lane.
pub(crate) fn begin_member(
    kernel: &Kernel,
    out: &mut Bytes,
    mask: Register,
    number: u8,
) -> Result<(), Refusal>
    ensures { OnOk result (out.new ≡ out.old ++ loops.member_head (setting kernel.now) mask number) }
{
    kernel.is_member(out, mask, number)?;
    Ok(out.begin_if()?)
}

/// Appends how many of the first lanes a mask has.
#[tactic(auto, using(crate::proofs::RankBytes::one_more_ranked))]
pub(crate) fn rank(
    kernel: &Kernel,
    out: &mut Bytes,
    mask: Register,
    count: u8,
) -> Result<(), Refusal>
    ensures { OnOk result (out.new ≡ out.old ++ expr_bytes (templates.rank_expr (setting kernel.now) mask count)) }
{
    out.const64(0)?;
    for below in 0..count {
        kernel.is_member(out, mask, below)?;
        out.const32(1)?;
        out.binary(Binary::BitsOf(Size::I32, Bitwise::And))?;
        out.unary(Unary::ExtendU)?;
        out.binary(Binary::Of(Size::I64, Whole::Add))?;
    }
    Ok(())
}

// Appends a lane's index.
fn lane_index(
    kernel: &Kernel,
    out: &mut Bytes,
    elements: &Elements,
    number: u8,
) -> Result<(), Refusal>
    ensures { OnOk result (out.new ≡ out.old ++ expr_bytes (loops.index_expr (setting kernel.now) elements.now number)) }
{
    match elements.index {
        Index::Own(indices) => {
            let own = lane(kernel, Elem::I64, indices, number)?;
            Ok(own.write(out)?)
        }
        Index::Run(index) => {
            kernel.get(out, Place::Scalar(index.number))?;
            out.const64(u64::from(number))?;
            Ok(out.binary(Binary::Of(Size::I64, Whole::Add))?)
        }
        Index::Packed(index) => {
            kernel.get(out, Place::Scalar(index.number))?;
            rank(kernel, out, elements.mask, number)?;
            Ok(out.binary(Binary::Of(Size::I64, Whole::Add))?)
        }
    }
}

// Appends where a lane's element begins.
fn address(kernel: &Kernel, out: &mut Bytes, elements: &Elements, number: u8) -> Result<(), Refusal>
    ensures { OnOk result (out.new ≡ out.old ++ expr_bytes (loops.address (setting kernel.now) elements.now number)) }
{
    kernel.base_at(out, elements.array, number)?;
    lane_index(kernel, out, elements, number)?;
    out.unary(Unary::Wrap)?;
    out.const32(bytes_of(kernel.elem(elements.array)))?;
    out.binary(Binary::Of(Size::I32, Whole::Mul))?;
    Ok(out.binary(Binary::Of(Size::I32, Whole::Add))?)
}

/// Appends whether a lane has an element.
pub(crate) fn is_there(
    kernel: &Kernel,
    out: &mut Bytes,
    elements: &Elements,
    number: u8,
) -> Result<(), Refusal>
    ensures { OnOk result (out.new ≡ out.old ++ expr_bytes (loops.is_there (setting kernel.now) elements.now number)) }
{
    lane_index(kernel, out, elements, number)?;
    kernel.get(out, Place::Count(elements.array.number))?;
    Ok(out.binary(Binary::Compare(Size::I64, Test::LtU))?)
}

// Appends that a lane of a register gets what a local has.
fn set_lane(
    kernel: &Kernel,
    out: &mut Bytes,
    result_to: Register,
    number: u8,
    from: Place,
) -> Result<(), Refusal>
    ensures { OnOk result (out.new ≡ out.old ++ code_bytes (loops.lane_set (setting kernel.now) result_to number (place_of from))) }
{
    begin_lane(kernel, out, result_to, number)?;
    kernel.get(out, from)?;
    end_lane(kernel, out, result_to, number)
}

// Appends that it gets its element.
fn load(
    kernel: &Kernel,
    out: &mut Bytes,
    result_to: Register,
    elements: &Elements,
    number: u8,
) -> Result<(), Refusal>
    ensures { OnOk result (out.new ≡ out.old ++ code_bytes (loops.loaded (setting kernel.now) result_to elements.now number)) }
{
    let elem = kernel.elem(elements.array);
    let spare = Place::Spare(size_of(elem), 0);
    address(kernel, out, elements, number)?;
    out.load(width_of(elem), 0)?;
    kernel.set(out, spare)?;
    set_lane(kernel, out, result_to, number, spare)
}

// Appends that it gets it, or a trap where there is none.
fn checked_load(
    kernel: &Kernel,
    out: &mut Bytes,
    result_to: Register,
    elements: &Elements,
    number: u8,
) -> Result<(), Refusal>
    ensures { OnOk result (out.new ≡ out.old ++ code_bytes (loops.checked_load (setting kernel.now) result_to elements.now number)) }
{
    is_there(kernel, out, elements, number)?;
    out.begin_if()?;
    load(kernel, out, result_to, elements, number)?;
    out.begin_else()?;
    fault(kernel, out, 1, elements.place, Who::Lane(number))?;
    Ok(out.end()?)
}

fn lane_load(
    kernel: &Kernel,
    out: &mut Bytes,
    result_to: Register,
    elements: &Elements,
    number: u8,
) -> Result<(), Refusal>
    ensures { OnOk result (out.new ≡ out.old ++ code_bytes (loops.lane_load (setting kernel.now) result_to elements.now number)) }
{
    begin_member(kernel, out, elements.mask, number)?;
    checked_load(kernel, out, result_to, elements, number)?;
    Ok(out.end()?)
}

/// Appends loads of the lanes' elements to a vector register.
#[tactic(auto, using(crate::proofs::Each::one_more))]
pub(crate) fn lane_loads(
    kernel: &Kernel,
    out: &mut Bytes,
    result_to: Register,
    elements: &Elements,
) -> Result<(), Refusal>
    ensures { OnOk result (out.new ≡ out.old ++ code_bytes (loops.loads (setting kernel.now) result_to elements.now)) }
{
    for number in 0..lanes(kernel) {
        lane_load(kernel, out, result_to, elements, number)?;
    }
    Ok(())
}

// Appends a trap where there is no element for a lane.
fn check(kernel: &Kernel, out: &mut Bytes, elements: &Elements, number: u8) -> Result<(), Refusal>
    ensures { OnOk result (out.new ≡ out.old ++ code_bytes (loops.check (setting kernel.now) elements.now number)) }
{
    is_there(kernel, out, elements, number)?;
    out.begin_if()?;
    out.begin_else()?;
    fault(kernel, out, 1, elements.place, Who::Lane(number))?;
    Ok(out.end()?)
}

fn lane_check(
    kernel: &Kernel,
    out: &mut Bytes,
    elements: &Elements,
    number: u8,
) -> Result<(), Refusal>
    ensures { OnOk result (out.new ≡ out.old ++ code_bytes (loops.lane_check (setting kernel.now) elements.now number)) }
{
    begin_member(kernel, out, elements.mask, number)?;
    check(kernel, out, elements, number)?;
    Ok(out.end()?)
}

/// Appends that the lanes' elements are checked.
#[tactic(auto, using(crate::proofs::Each::one_more))]
pub(crate) fn lane_checks(
    kernel: &Kernel,
    out: &mut Bytes,
    elements: &Elements,
) -> Result<(), Refusal>
    ensures { OnOk result (out.new ≡ out.old ++ code_bytes (loops.checks (setting kernel.now) elements.now)) }
{
    for number in 0..lanes(kernel) {
        lane_check(kernel, out, elements, number)?;
    }
    Ok(())
}

// Appends that an element gets a lane's value, where the mask has the lane.
fn lane_store(
    kernel: &Kernel,
    out: &mut Bytes,
    elements: &Elements,
    value: Register,
    number: u8,
) -> Result<(), Refusal>
    ensures { OnOk result (out.new ≡ out.old ++ code_bytes (loops.lane_store (setting kernel.now) elements.now value number)) }
{
    let elem = kernel.elem(elements.array);
    begin_member(kernel, out, elements.mask, number)?;
    address(kernel, out, elements, number)?;
    lane(kernel, elem, value, number)?.write(out)?;
    out.store(width_of(elem), 0)?;
    Ok(out.end()?)
}

/// Appends stores of the lanes of a vector register to their elements, the lowest first.
#[tactic(auto, using(crate::proofs::Each::one_more))]
pub(crate) fn lane_stores(
    kernel: &Kernel,
    out: &mut Bytes,
    elements: &Elements,
    value: Register,
) -> Result<(), Refusal>
    ensures { OnOk result (out.new ≡ out.old ++ code_bytes (loops.stores (setting kernel.now) elements.now value)) }
{
    for number in 0..lanes(kernel) {
        lane_store(kernel, out, elements, value, number)?;
    }
    Ok(())
}

/// Appends that all lanes are checked, and then stored.
pub(crate) fn checked_stores(
    kernel: &Kernel,
    out: &mut Bytes,
    elements: &Elements,
    value: Register,
) -> Result<(), Refusal>
    ensures { OnOk result (out.new ≡ out.old ++ code_bytes (loops.checked_stores (setting kernel.now) elements.now value)) }
{
    lane_checks(kernel, out, elements)?;
    lane_stores(kernel, out, elements, value)
}

/// Appends that a scalar register gets how many lanes a mask has.
pub(crate) fn set_count(
    kernel: &Kernel,
    out: &mut Bytes,
    result_to: Register,
    mask: Register,
) -> Result<(), Refusal>
    ensures { OnOk result (out.new ≡ out.old ++ code_bytes (templates.set_count (setting kernel.now) result_to mask)) }
{
    rank(kernel, out, mask, lanes(kernel))?;
    out.unary(Unary::Wrap)?;
    kernel.set(out, Place::Scalar(result_to.number))
}
