//! How the types of elements lie in WebAssembly.
ghost use Rattle.std.specs.Prelude.{◌≡◌, ◌≤◌};
ghost use Rattle.isp_wasm.specs.Places as places;
ghost use Rattle.isp_wasm.specs.Words as words;
ghost use Rattle.isp_wasm_binary.specs.Named as named;

use isp_base::Elem;
use isp_wasm_binary::{Shape, Shift, Size, Test, Width};

/// The size of a local that holds a value.
pub fn size_of(elem: Elem) -> Size
    ensures { named.size result ≡ places.size_of elem }
{
    match elem {
        Elem::I64 | Elem::U64 => Size::I64,
        _ => Size::I32,
    }
}

/// The shape of a vector of values.
pub fn shape_of(elem: Elem) -> Shape
    ensures { named.shape result ≡ places.shape_of elem }
{
    match elem {
        Elem::Bool | Elem::I8 | Elem::U8 => Shape::I8x16,
        Elem::I16 | Elem::U16 => Shape::I16x8,
        Elem::I32 | Elem::U32 => Shape::I32x4,
        Elem::I64 | Elem::U64 => Shape::I64x2,
    }
}

/// How many bytes an element has in memory.
pub fn bytes_of(elem: Elem) -> u32
    ensures { result ≡ places.bytes_of elem }
{
    match elem {
        Elem::Bool | Elem::I8 | Elem::U8 => 1,
        Elem::I16 | Elem::U16 => 2,
        Elem::I32 | Elem::U32 => 4,
        Elem::I64 | Elem::U64 => 8,
    }
}

/// The same, as a load or a store names it.
pub fn width_of(elem: Elem) -> Width
    ensures { named.width result ≡ places.bytes_of elem }
{
    match elem {
        Elem::Bool | Elem::I8 | Elem::U8 => Width::One,
        Elem::I16 | Elem::U16 => Width::Two,
        Elem::I32 | Elem::U32 => Width::Four,
        Elem::I64 | Elem::U64 => Width::Eight,
    }
}

/// How many locals a row of so many lanes of a shape takes.
pub(crate) fn parts_for(lanes: u32, shape: Shape) -> u32
    requires { lanes ≤ 32 }
    ensures is { result ≡ places.parts_for lanes (named.shape shape) }
    ensures few { result ≤ 16 }
{
    match shape {
        Shape::I8x16 => (lanes + 15) / 16,
        Shape::I16x8 => (lanes + 7) / 8,
        Shape::I32x4 => (lanes + 3) / 4,
        Shape::I64x2 => (lanes + 1) / 2,
    }
}

/// Below, of signed or of unsigned numbers.
pub(crate) fn less_of(elem: Elem) -> Test
    ensures { named.test result ≡ words.less_of elem }
{
    match elem {
        Elem::I8 | Elem::I16 | Elem::I32 | Elem::I64 => Test::LtS,
        _ => Test::LtU,
    }
}

/// A shift to the right, of signed or of unsigned numbers.
pub fn right_of(elem: Elem) -> Shift
    ensures { named.shift result ≡ words.right_of elem }
{
    match elem {
        Elem::I8 | Elem::I16 | Elem::I32 | Elem::I64 => Shift::ShrS,
        _ => Shift::ShrU,
    }
}
