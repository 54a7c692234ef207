//! Values that are there already.
ghost use Rattle.std.specs.Prelude.{◌≡◌, ◌++◌, ◌^◌, ◌<◌, OnOk};
ghost use Rattle.isp_wasm.specs.Words as words;
ghost use Rattle.isp_wasm_binary.specs.Instructions.{expr_bytes};
ghost use Rattle.isp_wasm_binary.specs.Named as named;
ghost use Rattle.isp_wasm_write.specs.Operands.{operand_expr, lane_expr};

use crate::types;
use isp_base::Elem;
use isp_wasm_binary::{Binary, Bitwise, Bytes, Shape, Size, Unary};
use std::alloc::AllocError;

/// A value that is there already.
#[derive(Clone, Copy)]
pub enum Operand {
    /// What a local has.
    Local(u32),
    /// What a lane of a local has: the type, the local, and the number of the lane in it.
    Lane(Elem, u32, u8),
    /// Nought, as a value of a type.
    Zero(Elem),
}

impl Operand {
    /// Appends the value.
    pub fn write(self, out: &mut Bytes) -> Result<(), AllocError>
        ensures { OnOk result (out.new ≡ out.old ++ expr_bytes (operand_expr self)) }
    {
        match self {
            Operand::Local(local) => out.get(local),
            Operand::Lane(elem, local, lane) => lane_of(out, elem, local, lane),
            Operand::Zero(elem) => constant(out, types::size_of(elem), 0),
        }
    }
}

// A lane's value; of a bool the lowest bit.
fn lane_of(out: &mut Bytes, elem: Elem, local: u32, lane: u8) -> Result<(), AllocError>
    ensures { OnOk result (out.new ≡ out.old ++ expr_bytes (lane_expr elem local lane)) }
{
    out.get(local)?;
    match elem {
        Elem::Bool => {
            out.unary(Unary::Extract(Shape::I8x16, lane))?;
            out.const32(1)?;
            out.binary(Binary::BitsOf(Size::I32, Bitwise::And))
        }
        _ => out.unary(Unary::Extract(types::shape_of(elem), lane)),
    }
}

/// Appends a constant.
pub fn constant(out: &mut Bytes, size: Size, number: u32) -> Result<(), AllocError>
    ensures { OnOk result (out.new ≡ out.old ++ expr_bytes (words.constant (named.size size) number)) }
{
    match size {
        Size::I32 => out.const32(number),
        Size::I64 => out.const64(u64::from(number)),
    }
}

/// Appends a constant, by its bits.
pub(crate) fn bits_constant(out: &mut Bytes, size: Size, bits: u64) -> Result<(), AllocError>
    ensures { OnOk result (out.new ≡ out.old ++ expr_bytes (words.constant (named.size size) bits)) }
{
    match size {
        Size::I32 => out.const32((bits % (1 << 32)) as u32),
        Size::I64 => out.const64(bits),
    }
}
