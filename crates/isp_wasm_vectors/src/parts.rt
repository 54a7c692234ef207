//! Parts and lanes of registers, as operands that are there already.
ghost use Rattle.std.specs.Prelude.{◌≡◌, ◌<◌, ◌≤◌, IfOk};
ghost use Rattle.isp_wasm_meaning.specs.Meaning.{count};
ghost use Rattle.isp_wasm_meaning.specs.Syntax as wasm;
ghost use Rattle.isp_wasm.specs.Places as places;
ghost use Rattle.isp_wasm.specs.Rows as rows;
ghost use Rattle.isp_wasm.specs.Templates as templates;
ghost use Rattle.isp_wasm_binary.specs.Named as named;
ghost use Rattle.isp_wasm_write.specs.Operands.{operand_expr, part_expr};
ghost use Rattle.isp_wasm_write.specs.Places.{place_of};
ghost use Rattle.isp_wasm_write.specs.Settings.{setting};

use isp_base::Elem;
use isp_code::Register;
use isp_wasm_binary::Shape;
use isp_wasm_write::{Kernel, Operand, Part, Place, Refusal, shape_of};

/// How many lanes a part has.
pub(crate) fn count_of(shape: Shape) -> u8
    ensures is { result ≡ count (named.shape shape) }
    ensures some { 0 < result }
    ensures few { result ≤ 16 }
{
    match shape {
        Shape::I8x16 => 16,
        Shape::I16x8 => 8,
        Shape::I32x4 => 4,
        Shape::I64x2 => 2,
    }
}

/// How many parts a vector of a shape has.
pub(crate) fn parts(kernel: &Kernel, shape: Shape) -> u8
    ensures is { result ≡ places.parts (setting kernel.now) (named.shape shape) }
    ensures few { result ≤ 16 }
{
    let count = count_of(shape);
    (lanes(kernel) + (count - 1)) / count
}

/// The lanes of the gang.
#[tactic(auto, using(crate::proofs::GangLanes::some_lanes))]
pub(crate) fn lanes(kernel: &Kernel) -> u8
    ensures is { result ≡ places.gang (setting kernel.now) }
    ensures some { 0 < result }
    ensures few { result ≤ 32 }
{
    kernel.width() as u8
}

/// The shape of a vector register.
pub(crate) fn shape(kernel: &Kernel, register: Register) -> Shape
    ensures { named.shape result ≡ places.shape (setting kernel.now) register }
{
    shape_of(kernel.elem(register))
}

/// What the local of a place has.
pub(crate) fn value(kernel: &Kernel, place: Place) -> Result<Operand, Refusal>
    ensures { IfOk result (λ x. operand_expr x ≡ wasm.Local ((setting kernel.now).local (place_of place))) }
{
    match kernel.local(place) {
        None => Err(Refusal::NoLocal),
        Some(local) => Ok(Operand::Local(local)),
    }
}

fn part_at(kernel: &Kernel, place: Place) -> Result<Part, Refusal>
    ensures { IfOk result (λ x. part_expr x ≡ wasm.Local ((setting kernel.now).local (place_of place))) }
{
    match kernel.local(place) {
        None => Err(Refusal::NoLocal),
        Some(local) => Ok(Part::Local(local)),
    }
}

/// A part of a vector register.
pub(crate) fn vector(kernel: &Kernel, register: Register, part: u8) -> Result<Part, Refusal>
    ensures { IfOk result (λ x. part_expr x ≡ templates.vector_local (setting kernel.now) register part) }
{
    part_at(kernel, Place::Vector(register.number, u32::from(part)))
}

/// A part of a mask register.
pub(crate) fn mask(kernel: &Kernel, register: Register, part: u8) -> Result<Part, Refusal>
    ensures { IfOk result (λ x. part_expr x ≡ templates.mask_local (setting kernel.now) register part) }
{
    part_at(kernel, Place::Mask(register.number, u32::from(part)))
}

/// The value of a lane of a vector register of some type.
pub fn lane(kernel: &Kernel, elem: Elem, register: Register, lane: u8) -> Result<Operand, Refusal>
    ensures { IfOk result (λ x. operand_expr x ≡ rows.lane_at elem (templates.vector_local (setting kernel.now) register) lane) }
{
    let count = count_of(shape_of(elem));
    match kernel.local(Place::Vector(register.number, u32::from(lane / count))) {
        None => Err(Refusal::NoLocal),
        Some(local) => Ok(Operand::Lane(elem, local, lane % count)),
    }
}
