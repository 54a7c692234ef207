//! Elements in a row: all at once where they are there and the lanes fill their parts, else lane by lane.
ghost use Rattle.std.specs.Prelude.{◌≡◌, ◌++◌, ◌*◌, ◌≤◌, OnOk};
ghost use Rattle.isp_wasm_meaning.specs.Syntax as wasm;
ghost use Rattle.isp_wasm.specs.Places as places;
ghost use Rattle.isp_wasm.specs.Templates as templates;
ghost use Rattle.isp_wasm.specs.Templates.{each};
ghost use Rattle.isp_wasm_binary.specs.Instructions.{code_bytes, expr_bytes};
ghost use Rattle.isp_wasm_write.specs.Settings.{setting};
ghost use Rattle.isp_wasm_vectors.specs.reader.Runs as runs;

use crate::loops::{Elements, Index, checked_stores, is_there, lane_loads};
use crate::parts::{count_of, lanes, parts, shape};
use crate::rows::widened_mask;
use crate::vectors::put_lanes;
use isp_base::Elem;
use isp_code::Register;
use isp_forms::Form;
use isp_wasm_binary::{Binary, Bitwise, Bytes, Size, Width};
use isp_wasm_write::{Kernel, Place, Refusal, shape_of};

/// Elements of an array from an index on, for each lane that a mask has, and the place of the trap where one is not there.
#[derive(Clone, Copy)]
pub(crate) struct Run {
    pub array: Register,
    pub index: Register,
    pub mask: Register,
    pub place: u32,
}

impl Run {
    // The same, lane by lane.
    fn elements(&self) -> Elements
        ensures { result ≡ runs.elements_of self.now }
    {
        Elements {
            array: self.array,
            index: Index::Run(self.index),
            mask: self.mask,
            place: self.place,
        }
    }
}

// Whether the lanes of a type fill their parts, and lie in them as in memory.
fn fills_parts(kernel: &Kernel, elem: Elem) -> bool
    ensures { result ≡ templates.fills_parts (setting kernel.now) elem }
{
    match elem {
        Elem::Bool => false,
        _ => lanes(kernel) % count_of(shape_of(elem)) == 0,
    }
}

// Appends whether the first and the last element are there.
fn run_is_there(kernel: &Kernel, out: &mut Bytes, run: &Run) -> Result<(), Refusal>
    ensures { OnOk result (out.new ≡ out.old ++ expr_bytes (templates.run_is_there (setting kernel.now) run.now.array run.now.index)) }
{
    let elements = run.elements();
    is_there(kernel, out, &elements, 0)?;
    is_there(kernel, out, &elements, lanes(kernel) - 1)?;
    Ok(out.binary(Binary::BitsOf(Size::I32, Bitwise::And))?)
}

// Appends that a part of them goes to a local.
fn part_load(kernel: &Kernel, out: &mut Bytes, run: &Run, part: u8) -> Result<(), Refusal>
    ensures { OnOk result (out.new ≡ out.old ++ code_bytes (runs.part_load (setting kernel.now) run.now part)) }
{
    kernel.address_at(out, run.array, run.index)?;
    out.load(Width::Sixteen, u32::from(part) * 16)?;
    kernel.set(out, Place::Fresh(u32::from(part)))
}

#[tactic(auto, using(crate::proofs::Each::one_more))]
fn load_parts(kernel: &Kernel, out: &mut Bytes, run: &Run, parts: u8) -> Result<(), Refusal>
    ensures { OnOk result (out.new ≡ out.old ++ code_bytes (templates.load_parts (setting kernel.now) run.now.array run.now.index parts)) }
{
    for part in 0..parts {
        part_load(kernel, out, run, part)?;
    }
    Ok(())
}

// Appends that those of the mask go to a vector register, or all where nobody reads the others.
fn load_row(
    kernel: &Kernel,
    out: &mut Bytes,
    form: Form,
    result_to: Register,
    run: &Run,
) -> Result<(), Refusal>
    ensures { OnOk result (out.new ≡ out.old ++ code_bytes (runs.load_row (setting kernel.now) form result_to run.now)) }
{
    load_parts(kernel, out, run, parts(kernel, shape(kernel, result_to)))?;
    put_lanes(kernel, out, form, result_to, run.mask)
}

// Appends the same, lane by lane.
fn load_lanes(
    kernel: &Kernel,
    out: &mut Bytes,
    result_to: Register,
    run: &Run,
) -> Result<(), Refusal>
    ensures { OnOk result (out.new ≡ out.old ++ code_bytes (runs.load_lanes (setting kernel.now) result_to run.now)) }
{
    let elements = run.elements();
    lane_loads(kernel, out, result_to, &elements)
}

// Appends the row, or its lanes where an element of them is not there.
fn load_at_once(
    kernel: &Kernel,
    out: &mut Bytes,
    form: Form,
    result_to: Register,
    run: &Run,
) -> Result<(), Refusal>
    ensures { OnOk result (out.new ≡ out.old ++ code_bytes (runs.load_at_once (setting kernel.now) form result_to run.now)) }
{
    run_is_there(kernel, out, run)?;
    out.begin_if()?;
    load_row(kernel, out, form, result_to, run)?;
    out.begin_else()?;
    load_lanes(kernel, out, result_to, run)?;
    Ok(out.end()?)
}

/// Appends loads of elements in a row to a vector register.
pub(crate) fn load_run(
    kernel: &Kernel,
    out: &mut Bytes,
    form: Form,
    result_to: Register,
    run: &Run,
) -> Result<(), Refusal>
    ensures { OnOk result (out.new ≡ out.old ++ code_bytes (templates.load_run (setting kernel.now) form result_to run.now.array run.now.index run.now.mask run.now.place)) }
{
    if fills_parts(kernel, kernel.elem(result_to)) {
        load_at_once(kernel, out, form, result_to, run)
    } else {
        load_lanes(kernel, out, result_to, run)
    }
}

// Appends that a part of the elements gets what a vector register has, and what was loaded where the mask has not the lane.
fn part_store(
    kernel: &Kernel,
    out: &mut Bytes,
    run: &Run,
    value: Register,
    part: u8,
) -> Result<(), Refusal>
    ensures { OnOk result (out.new ≡ out.old ++ code_bytes (runs.part_store (setting kernel.now) run.now value part)) }
{
    kernel.address_at(out, run.array, run.index)?;
    kernel.get(out, Place::Vector(value.number, u32::from(part)))?;
    kernel.get(out, Place::Fresh(u32::from(part)))?;
    widened_mask(kernel, out, shape(kernel, value), run.mask, part)?;
    out.bitselect()?;
    Ok(out.store(Width::Sixteen, u32::from(part) * 16)?)
}

fn store_parts(
    kernel: &Kernel,
    out: &mut Bytes,
    run: &Run,
    value: Register,
    parts: u8,
) -> Result<(), Refusal>
    ensures { OnOk result (out.new ≡ out.old ++ code_bytes (each parts (runs.part_store (setting kernel.now) run.now value))) }
{
    for part in 0..parts {
        part_store(kernel, out, run, value, part)?;
    }
    Ok(())
}

// Appends that the elements of the mask's lanes get what a vector register has.
fn store_row(kernel: &Kernel, out: &mut Bytes, run: &Run, value: Register) -> Result<(), Refusal>
    ensures { OnOk result (out.new ≡ out.old ++ code_bytes (runs.store_row (setting kernel.now) run.now value)) }
{
    let parts = parts(kernel, shape(kernel, value));
    load_parts(kernel, out, run, parts)?;
    store_parts(kernel, out, run, value, parts)
}

// Appends that all lanes are checked, and then stored.
fn store_lanes(kernel: &Kernel, out: &mut Bytes, run: &Run, value: Register) -> Result<(), Refusal>
    ensures { OnOk result (out.new ≡ out.old ++ code_bytes (runs.store_lanes (setting kernel.now) run.now value)) }
{
    let elements = run.elements();
    checked_stores(kernel, out, &elements, value)
}

// Appends a store of the row, or of the lanes where an element is not there.
fn store_at_once(
    kernel: &Kernel,
    out: &mut Bytes,
    run: &Run,
    value: Register,
) -> Result<(), Refusal>
    ensures { OnOk result (out.new ≡ out.old ++ code_bytes (runs.store_at_once (setting kernel.now) run.now value)) }
{
    run_is_there(kernel, out, run)?;
    out.begin_if()?;
    store_row(kernel, out, run, value)?;
    out.begin_else()?;
    store_lanes(kernel, out, run, value)?;
    Ok(out.end()?)
}

/// Appends stores of a vector register to elements in a row.
pub(crate) fn store_run(
    kernel: &Kernel,
    out: &mut Bytes,
    run: &Run,
    value: Register,
) -> Result<(), Refusal>
    ensures { OnOk result (out.new ≡ out.old ++ code_bytes (templates.store_run (setting kernel.now) run.now.array run.now.index value run.now.mask run.now.place)) }
{
    if fills_parts(kernel, kernel.elem(value)) {
        store_at_once(kernel, out, run, value)
    } else {
        store_lanes(kernel, out, run, value)
    }
}
