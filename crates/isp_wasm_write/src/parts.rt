//! Parts of masks that are constants: which lanes there are, and their numbers.
ghost use Rattle.std.specs.Prelude.{◌≡◌, ◌++◌, ◌+◌, ◌*◌, ◌<◌, OnOk, if◌then◌else◌, nat_lt};
ghost use Rattle.isp_base.specs.Sets.{everyone, nobody};
ghost use Rattle.isp_wasm_meaning.specs.Meaning.{flags, of_lanes};
ghost use Rattle.isp_wasm_meaning.specs.Syntax as wasm;
ghost use Rattle.isp_wasm.specs.Templates.{mask_part};
ghost use Rattle.isp_wasm_binary.specs.Instructions.{expr_bytes};

use crate::rows::Part;
use isp_wasm_binary::Bytes;
use std::alloc::AllocError;

// The byte of a lane: all ones where there are more than so many.
fn flag(lane: u32, lanes: u32) -> u8
    ensures { result ≡ flags 8 (everyone lanes lane) }
{
    if lane < lanes { 0xFF } else { 0 }
}

// The number of a lane, past the gang 127.
fn number(lane: u32, lanes: u32) -> u8
    requires { lane < 128 }
    ensures { result ≡ (if nat_lt lane lanes then lane else 127) }
{
    if lane < lanes { lane as u8 } else { 127 }
}

/// Appends a part of the mask of a whole gang.
pub(crate) fn everyone(out: &mut Bytes, lanes: u32, part: u32) -> Result<(), AllocError>
    requires { part < 4 }
    ensures { OnOk result (out.new ≡ out.old ++ expr_bytes (wasm.Const128 (mask_part (everyone lanes) part))) }
{
    let mut bytes = [0u8; 16];
    for lane in 0..16u32 {
        bytes[lane as usize] = flag(part * 16 + lane, lanes);
    }
    out.const128(&bytes)
}

/// Appends a part of the mask of no lane.
pub(crate) fn nobody(out: &mut Bytes, part: u32) -> Result<(), AllocError>
    ensures { OnOk result (out.new ≡ out.old ++ expr_bytes (wasm.Const128 (mask_part nobody part))) }
{
    Part::Zero.write(out)
}

/// Appends the numbers of the lanes of a part, past the gang 127.
pub(crate) fn numbers(out: &mut Bytes, lanes: u32, part: u32) -> Result<(), AllocError>
    requires { part < 4 }
    ensures { OnOk result (out.new ≡ out.old ++ expr_bytes (wasm.Const128 (of_lanes wasm.I8x16 (λ i. if nat_lt (part * 16 + i) lanes then part * 16 + i else 127)))) }
{
    let mut bytes = [0u8; 16];
    for lane in 0..16u32 {
        bytes[lane as usize] = number(part * 16 + lane, lanes);
    }
    out.const128(&bytes)
}
