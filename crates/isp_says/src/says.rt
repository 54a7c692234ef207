//! Instructions that write to the output.
ghost use Rattle.std.specs.Prelude.{◌≡◌, ◌+◌, ◌<◌, ◌++◌, [], length, slice_index_or, OnOk, OnErr};
ghost use Rattle.isp_base.specs.Prints.{value_text};
ghost use Rattle.isp_base.specs.Types.{gang_width};
ghost use Rattle.isp_code.specs.Fine.{IsThere};
ghost use Rattle.isp_code.specs.Registers.{elem_of};
ghost use Rattle.isp_frames.specs.Moves.{Speaks, lanes_text};
ghost use Rattle.isp_frames.specs.Shapes.{Shaped};
ghost use Rattle.isp_frames.specs.Views.{scalars_at};

use crate::texts::list_text;
use isp_code::{Class, Instr, Register};
use isp_frames::frame::Frame;
use isp_frames::here::Here;
use isp_prints::push_value;
use std::alloc::{AllocError, Global};

/// Writes a text. Where memory is refused nothing changes.
#[inline(never)]
pub fn say<const N: usize>(
    here: &Here,
    frame: &mut Frame<N>,
    out: &mut Vec<u8>,
    text: u32,
) -> Result<(), AllocError>
    requires shaped { Shaped here.now.routine frame.old }
    requires there { text < length here.now.code.texts }
    requires next { frame.old.pc + 1 < length here.now.routine.code }
    ensures ok { OnOk result (Speaks here.now (Instr.Say text) frame.old frame.new (slice_index_or here.now.code.texts text [])) }
    ensures written { OnOk result (out.new.items ≡ out.old.items ++ slice_index_or here.now.code.texts text []) }
    ensures same { OnErr result (frame.new ≡ frame.old) }
    ensures same_out { OnErr result (out.new.items ≡ out.old.items) }
{
    out.extend_from_slice(here.text(text))?;
    let _count = here.count();
    frame.next();
    Ok(())
}

/// Writes a value. Where memory is refused nothing changes.
#[inline(never)]
pub fn print_scalar<const N: usize>(
    here: &Here,
    frame: &mut Frame<N>,
    out: &mut Vec<u8>,
    x: Register,
) -> Result<(), AllocError>
    requires shaped { Shaped here.now.routine frame.old }
    requires there { IsThere here.now.routine Class.Scalar x }
    requires next { frame.old.pc + 1 < length here.now.routine.code }
    ensures ok { OnOk result (Speaks here.now (Instr.PrintScalar x) frame.old frame.new (value_text (elem_of here.now.routine x) (scalars_at frame.old x.number))) }
    ensures written { OnOk result (out.new.items ≡ out.old.items ++ value_text (elem_of here.now.routine x) (scalars_at frame.old x.number)) }
    ensures same { OnErr result (frame.new ≡ frame.old) }
    ensures same_out { OnErr result (out.new.items ≡ out.old.items) }
{
    push_value(out, here.elem(x), here.scalar(frame, x))?;
    let _count = here.count();
    frame.next();
    Ok(())
}

/// Writes the lanes of a mask, with `_` for each other lane. The text is made before any of it is
/// written. Where memory is refused nothing changes.
#[inline(never)]
pub fn print_vector<const N: usize>(
    alloc: Global,
    here: &Here,
    frame: &mut Frame<N>,
    out: &mut Vec<u8>,
    x: Register,
    k: Register,
) -> Result<(), AllocError>
    requires shaped { Shaped here.now.routine frame.old }
    requires gang { N ≡ gang_width here.now.code.gang }
    requires x { IsThere here.now.routine Class.Vector x }
    requires k { IsThere here.now.routine Class.Mask k }
    requires next { frame.old.pc + 1 < length here.now.routine.code }
    ensures ok { OnOk result (Speaks here.now (Instr.PrintVector x k) frame.old frame.new (lanes_text here.now frame.old x k)) }
    ensures written { OnOk result (out.new.items ≡ out.old.items ++ lanes_text here.now frame.old x k) }
    ensures same { OnErr result (frame.new ≡ frame.old) }
    ensures same_out { OnErr result (out.new.items ≡ out.old.items) }
{
    let text = list_text(alloc, here.vector(frame, x), here.mask(frame, k))?;
    out.extend_from_slice(text.as_slice())?;
    let _count = here.count();
    frame.next();
    Ok(())
}
