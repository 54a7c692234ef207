//! What the library gives to one instance.
ghost use Rattle.std.specs.Prelude.{◌≡◌, get_or};
ghost use Rattle.isp_solo_meaning.specs.Values as Values;

use isp_base::{BinOp, Elem, UnaryOp, apply_unary};
use isp_gang_values::row::operated;
use isp_typed::Library;

/// The functions that do not look across the gang; the others give 0. An argument that is not there is 0.
pub fn by_instance(function: Library, elem: Elem, values: &[u64]) -> u64
    ensures { result ≡ Values.by_instance function elem (get_or values.now 0 0) (get_or values.now 1 0) (get_or values.now 2 0) }
{
    let x = argument(values, 0);
    let y = argument(values, 1);
    let z = argument(values, 2);
    match function {
        Library::Min => operated(BinOp::Min, elem, x, y),
        Library::Max => operated(BinOp::Max, elem, x, y),
        Library::Clamp => operated(BinOp::Min, elem, operated(BinOp::Max, elem, x, y), z),
        Library::Abs => apply_unary(UnaryOp::Absolute, elem, x),
        Library::Select => { if x != 0 { y } else { z } }
        _ => 0,
    }
}

// An argument, 0 where it is not there.
fn argument(values: &[u64], place: usize) -> u64
    ensures { result ≡ get_or values.now place 0 }
{
    if place < values.len() {
        values[place]
    } else {
        0
    }
}
