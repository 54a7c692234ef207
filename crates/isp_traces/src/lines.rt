//! What is shown of a step.
ghost use Rattle.std.specs.Prelude.{◌≡◌, ◌++◌, ◌<◌, codes, slice_index_or, OnOk};
ghost use Rattle.std.specs.Fmt.{decimal};
ghost use Rattle.std.specs.List.{flat_map};
ghost use Rattle.isp_asm.specs.Rows.{instr_words};
ghost use Rattle.isp_base.specs.Prints.{list_text};
ghost use Rattle.isp_base.specs.Types.{gang_width};
ghost use Rattle.isp_base.specs.declared.types.Elem.TheVariants.{Bool as Truth};
ghost use Rattle.isp_machine.specs.Seen.{seen_conf};
ghost use Rattle.isp_traces.specs.Operands.{read_masks, written_lanes, written_mask};
ghost use Rattle.isp_traces.specs.Steps.{flag_text, flags_text, lanes_held, mask_text, new_mask_text, vector_text, words_text};
ghost use Rattle.isp_traces.specs.Executed.{mask_held};

use crate::masks::{Written, read_masks, written_lanes, written_mask};
use crate::texts::push_number;
use isp_asm::write_instr;
use isp_base::Elem;
use isp_code::{Instr, Register};
use isp_machine::Machine;
use isp_prints::{push_comma, push_item};
use isp_verify::{Registers, Verified};
use std::alloc::{AllocError, Global};

// The number of the step, the function's name and the instruction's number: `3 share L7: `.
pub(crate) fn push_place(
    text: &mut Vec<u8>,
    number: u64,
    name: &str,
    instr: usize,
) -> Result<(), AllocError>
    ensures { OnOk result (text.new.items ≡ text.old.items ++ (decimal number ++ codes " " ++ name.now ++ codes " L" ++ decimal instr ++ codes ": ")) }
{
    push_number(text, u128::from(number))?;
    text.extend_from_slice(b" ")?;
    text.extend_from_slice(name.as_bytes())?;
    text.extend_from_slice(b" L")?;
    push_number(text, instr as u128)?;
    text.extend_from_slice(b": ")
}

// The line of code text, without its line feed.
pub(crate) fn push_instr(alloc: Global, text: &mut Vec<u8>, instr: &Instr) -> Result<(), AllocError>
    ensures { OnOk result (text.new.items ≡ text.old.items ++ words_text (instr_words instr.now)) }
{
    let line = write_instr(alloc, instr)?;
    text.extend_from_slice(line.as_bytes())?;
    let _feed = text.pop();
    Ok(())
}

// The masks that an instruction reads, as they are.
pub(crate) fn push_read<const N: usize>(
    text: &mut Vec<u8>,
    machine: &Machine<'_, N>,
    code: &Verified,
    instr: &Instr,
) -> Result<(), AllocError>
    requires { machine.now.code ≡ code.now }
    ensures { OnOk result (text.new.items ≡ text.old.items ++ flat_map (mask_text code.now (seen_conf machine.now)) (read_masks instr.now)) }
{
    let read = read_masks(instr);
    if let Some(mask) = read.first {
        push_mask(text, machine, code, mask)?;
    }
    if let Some(mask) = read.second {
        push_mask(text, machine, code, mask)?;
    }
    Ok(())
}

// A mask as it is: ` m3=1110`, lane 0 first.
fn push_mask<const N: usize>(
    text: &mut Vec<u8>,
    machine: &Machine<'_, N>,
    code: &Verified,
    mask: Register,
) -> Result<(), AllocError>
    requires { machine.now.code ≡ code.now }
    ensures { OnOk result (text.new.items ≡ text.old.items ++ mask_text code.now (seen_conf machine.now) mask) }
{
    text.extend_from_slice(b" m")?;
    push_number(text, u128::from(mask.number))?;
    text.extend_from_slice(b"=")?;
    push_flags(text, machine, code, mask)
}

fn push_flags<const N: usize>(
    text: &mut Vec<u8>,
    machine: &Machine<'_, N>,
    code: &Verified,
    mask: Register,
) -> Result<(), AllocError>
    requires { machine.now.code ≡ code.now }
    ensures { OnOk result (text.new.items ≡ text.old.items ++ flags_text (mask_held code.now (seen_conf machine.now) mask) (gang_width code.now.gang)) }
{
    for lane in 0..code.gang().width() {
        push_flag(text, is_on(machine, mask, lane))?;
    }
    Ok(())
}

// Whether a lane of a mask is on.
fn is_on<const N: usize>(machine: &Machine<'_, N>, mask: Register, lane: usize) -> bool
    requires { lane < gang_width machine.now.code.gang }
    ensures { result ≡ mask_held machine.now.code (seen_conf machine.now) mask lane }
{
    machine.is_on(mask.number as usize, lane).unwrap_or(false)
}

fn push_flag(text: &mut Vec<u8>, on: bool) -> Result<(), AllocError>
    ensures { OnOk result (text.new.items ≡ text.old.items ++ flag_text on) }
{
    text.extend_from_slice(if on { b"1" } else { b"0" })
}

// The mask that an instruction wrote, after an arrow.
pub(crate) fn push_new_mask<const N: usize>(
    text: &mut Vec<u8>,
    machine: &Machine<'_, N>,
    code: &Verified,
    instr: &Instr,
) -> Result<(), AllocError>
    requires { machine.now.code ≡ code.now }
    ensures { OnOk result (text.new.items ≡ text.old.items ++ new_mask_text code.now (seen_conf machine.now) (written_mask instr.now)) }
{
    if let Some(mask) = written_mask(instr) {
        text.extend_from_slice(b" ->")?;
        push_mask(text, machine, code, mask)?;
    }
    Ok(())
}

// The vector that an instruction wrote, after an arrow: ` -> v3=[1,2,_,4]`.
pub(crate) fn push_vector<const N: usize>(
    text: &mut Vec<u8>,
    machine: &Machine<'_, N>,
    code: &Verified,
    registers: &Registers,
    instr: &Instr,
) -> Result<(), AllocError>
    requires { machine.now.code ≡ code.now }
    ensures { OnOk result (text.new.items ≡ text.old.items ++ vector_text code.now registers.now.vectors (seen_conf machine.now) (written_lanes instr.now)) }
{
    let Some(written) = written_lanes(instr) else {
        return Ok(());
    };
    let elem = elem_of(registers, written.vector);
    text.extend_from_slice(b" -> v")?;
    push_number(text, u128::from(written.vector.number))?;
    text.extend_from_slice(b"=")?;
    push_list(text, machine, code, elem, written)
}

// The values of a vector in the lanes of a mask, in brackets.
fn push_list<const N: usize>(
    text: &mut Vec<u8>,
    machine: &Machine<'_, N>,
    code: &Verified,
    elem: Elem,
    written: Written,
) -> Result<(), AllocError>
    requires { machine.now.code ≡ code.now }
    ensures { OnOk result (text.new.items ≡ text.old.items ++ list_text elem (gang_width code.now.gang) (lanes_held code.now (seen_conf machine.now) written)) }
{
    text.extend_from_slice(b"[")?;
    for lane in 0..code.gang().width() {
        push_comma(text, lane)?;
        push_item(text, elem, value(machine, written, lane))?;
    }
    text.extend_from_slice(b"]")
}

// The type of a vector register.
fn elem_of(registers: &Registers, vector: Register) -> Elem
    ensures { result ≡ slice_index_or registers.now.vectors vector.number Truth }
{
    let vectors = registers.vectors();
    let number = vector.number as usize;
    if number < vectors.len() {
        vectors[number]
    } else {
        Elem::Bool
    }
}

// What a vector has in a lane of a mask.
fn value<const N: usize>(machine: &Machine<'_, N>, written: Written, lane: usize) -> Option<u64>
    requires { lane < gang_width machine.now.code.gang }
    ensures { result ≡ lanes_held machine.now.code (seen_conf machine.now) written lane }
{
    if is_on(machine, written.mask, lane) {
        machine.lane(written.vector.number as usize, lane)
    } else {
        None
    }
}
