//! The code of a function: rungs, each after the label that jumps to it, in a loop.
ghost use Rattle.std.specs.Prelude.{◌≡◌, ◌++◌, ◌+◌, ◌-◌, ◌^◌, ◌<◌, ◌≤◌, length, OnOk};
ghost use Rattle.isp_wasm.specs.Entry.{entry_code};
ghost use Rattle.isp_wasm.specs.Templates as templates;
ghost use Rattle.isp_wasm_binary.specs.Instructions.{code_bytes};
ghost use Rattle.isp_wasm_write.specs.Settings.{setting};
ghost use Rattle.isp_wasm_module.specs.reader.Pieces.{code_for, opened, closed};

use crate::line::line;
use isp_wasm_binary::Bytes;
use isp_wasm_write::{Caller, Kernel, Refusal};
use std::alloc::AllocError;

// So many blocks.
#[tactic(auto, using(crate::proofs::Rungs::one_opened))]
fn open(out: &mut Bytes, count: u32) -> Result<(), AllocError>
    ensures { OnOk result (out.new ≡ out.old ++ opened count) }
{
    for rung in 0..count {
        out.block()?;
    }
    Ok(())
}

// The instructions of a rung.
#[tactic(auto, using(crate::proofs::Rungs::rung_is))]
fn rung(kernel: &Kernel, out: &mut Bytes, rung: u32) -> Result<(), Refusal>
    requires there { rung < (setting kernel.now).rungs }
    ensures { OnOk result (out.new ≡ out.old ++ code_bytes (templates.rung (setting kernel.now) rung)) }
{
    let depth = kernel.rungs() - 1 - rung;
    let start = kernel.head(rung);
    let end = kernel.head(rung + 1);
    span(kernel, out, depth, start, end)
}

// The instructions from one up to another, inside so many labels below the loop's.
fn span(
    kernel: &Kernel,
    out: &mut Bytes,
    depth: u32,
    start: usize,
    end: usize,
) -> Result<(), Refusal>
    requires depth { depth + 1 < 2 ^ 32 }
    requires within { end ≤ length kernel.now.routine.code }
    ensures { OnOk result (out.new ≡ out.old ++ code_bytes (templates.span (setting kernel.now) depth start (end - start))) }
{
    for number in start..end {
        let form = kernel.form(number);
        line(kernel, out, depth, form, kernel.instr(number))?;
    }
    Ok(())
}

// Each block ends, and its rung follows.
#[tactic(auto, using(crate::proofs::Rungs::one_closed))]
fn close(kernel: &Kernel, out: &mut Bytes, count: u32) -> Result<(), Refusal>
    requires there { count ≡ (setting kernel.now).rungs }
    ensures { OnOk result (out.new ≡ out.old ++ closed (templates.rung (setting kernel.now)) count) }
{
    for number in 0..count {
        out.end()?;
        rung(kernel, out, number)?;
    }
    Ok(())
}

// Appends the rungs of a function.
fn ladder(kernel: &Kernel, out: &mut Bytes) -> Result<(), Refusal>
    ensures { OnOk result (out.new ≡ out.old ++ code_bytes (templates.function_code (setting kernel.now))) }
{
    let rungs = kernel.rungs();
    out.begin_loop()?;
    open(out, rungs)?;
    kernel.dispatch_line(out)?;
    close(kernel, out, rungs)?;
    out.end()?;
    out.unreachable()?;
    Ok(())
}

// Appends that the arrays that a function opens begin, and its rungs.
fn routine(kernel: &Kernel, out: &mut Bytes) -> Result<(), Refusal>
    ensures { OnOk result (out.new ≡ out.old ++ code_bytes (templates.routine_code (setting kernel.now))) }
{
    kernel.arrays_line(out)?;
    ladder(kernel, out)
}

// Appends the code of a function that a host calls.
fn entry(kernel: &Kernel, out: &mut Bytes) -> Result<(), Refusal>
    ensures { OnOk result (out.new ≡ out.old ++ code_bytes (entry_code (setting kernel.now))) }
{
    kernel.stack_line(out)?;
    kernel.entry_line(out)?;
    routine(kernel, out)
}

/// Appends the code of a function, as those need it who call it.
pub(crate) fn push_code(kernel: &Kernel, out: &mut Bytes) -> Result<(), Refusal>
    ensures { OnOk result (out.new ≡ out.old ++ code_bytes (code_for kernel.now.caller (setting kernel.now))) }
{
    match kernel.caller() {
        Caller::Host => entry(kernel, out),
        Caller::Function => routine(kernel, out),
    }
}
