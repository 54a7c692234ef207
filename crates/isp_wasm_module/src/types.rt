//! Types of values, of places and of functions.
ghost use Rattle.std.specs.Prelude.{◌≡◌, ◌++◌, ◌∷◌, [], map, OnOk, IfOk};
ghost use Rattle.std.specs.List.{flat_map};
ghost use Rattle.isp_wasm_meaning.specs.Module as wasm;
ghost use Rattle.isp_wasm_meaning.specs.Valid.{sized};
ghost use Rattle.isp_wasm_binary.specs.Binary as binary;
ghost use Rattle.isp_wasm_binary.specs.Modules as modules;
ghost use Rattle.isp_wasm_binary.specs.Numbers.{vector};
ghost use Rattle.isp_wasm.specs.Places.{size_of};
ghost use Rattle.isp_wasm.specs.Module.{type_of};
ghost use Rattle.isp_wasm_write.specs.Places.{place_of};
ghost use Rattle.isp_wasm_module.specs.reader.Pieces.{written_of};
ghost use Rattle.isp_wasm_module.specs.reader.Typed.{typed, result_types};

use crate::refusal::Stopped;
use isp_base::Elem;
use isp_code::{Register, Returns};
use isp_wasm_binary::{Bytes, Size};
use isp_wasm_write::{Caller, Kernel, Place};
use std::alloc::{AllocError, Global};

/// The type of a value.
#[derive(Clone, Copy)]
pub(crate) enum ValueType {
    I32,
    I64,
    V128,
}

// Of the value of an element.
fn of_elem(elem: Elem) -> ValueType
    ensures { typed result ≡ sized (size_of elem) }
{
    match elem {
        Elem::I64 | Elem::U64 => ValueType::I64,
        _ => ValueType::I32,
    }
}

// Of what a place has.
fn of_place(kernel: &Kernel, place: Place) -> ValueType
    ensures { typed result ≡ type_of kernel.now.code kernel.now.routine (place_of place) }
{
    match place {
        Place::Counter | Place::Depth | Place::Top | Place::Base(_) | Place::Spare(Size::I32, _) =>
            ValueType::I32,
        Place::Count(_) | Place::Spare(Size::I64, _) => ValueType::I64,
        Place::Scalar(number) => of_elem(kernel.elem(Register::scalar(number))),
        Place::Vector(_, _) | Place::Mask(_, _) | Place::Fresh(_) => ValueType::V128,
    }
}

/// The types of places.
pub(crate) fn of_places(
    alloc: Global,
    kernel: &Kernel,
    places: &[Place],
) -> Result<Vec<ValueType>, AllocError>
    ensures { IfOk result (λ v. map typed v.items ≡ map (type_of kernel.now.code kernel.now.routine) (map place_of places.now)) }
{
    let mut types = Vec::new(alloc);
    for place in places {
        types.push(of_place(kernel, *place))?;
    }
    Ok(types)
}

/// Appends a type.
pub(crate) fn push_type(out: &mut Bytes, kind: ValueType) -> Result<(), AllocError>
    ensures { OnOk result (out.new ≡ out.old ++ modules.value_type (typed kind)) }
{
    out.byte(match kind {
        ValueType::I32 => 0x7F,
        ValueType::I64 => 0x7E,
        ValueType::V128 => 0x7B,
    })
}

// How many types there are, and the types.
#[tactic(auto, using(crate::proofs::Vectors::types_counted))]
fn push_types(out: &mut Bytes, types: &[ValueType]) -> Result<(), Stopped>
    ensures { OnOk result (out.new ≡ out.old ++ vector modules.value_type (map typed types.now)) }
{
    let Ok(count) = u32::try_from(types.len()) else {
        return Err(Stopped::TooLong);
    };
    out.unsigned(count)?;
    push_each(out, types)?;
    Ok(())
}

// One after the other.
fn push_each(out: &mut Bytes, types: &[ValueType]) -> Result<(), AllocError>
    ensures { OnOk result (out.new ≡ out.old ++ flat_map modules.value_type (map typed types.now)) }
{
    for kind in types {
        push_type(out, *kind)?;
    }
    Ok(())
}

// One value of an element's type.
#[tactic(auto, using(crate::proofs::Vectors::one_type))]
fn push_one(out: &mut Bytes, elem: Elem) -> Result<(), AllocError>
    ensures { OnOk result (out.new ≡ out.old ++ vector modules.value_type (sized (size_of elem) ∷ [])) }
{
    out.byte(1)?;
    push_type(out, of_elem(elem))?;
    Ok(())
}

// What a function gives back.
#[tactic(auto, using(crate::proofs::Vectors::no_type))]
fn push_result(out: &mut Bytes, returns: Returns, caller: Caller) -> Result<(), AllocError>
    ensures { OnOk result (out.new ≡ out.old ++ vector modules.value_type (result_types returns caller)) }
{
    match returns {
        Returns::Nothing => out.byte(0),
        Returns::Scalar(elem) => push_one(out, elem),
        Returns::Vector(elem) => match caller {
            Caller::Host => push_one(out, elem),
            Caller::Function => out.byte(0),
        },
    }
}

/// Appends what a function takes and gives back.
#[tactic(auto, using(crate::proofs::Vectors::results_are))]
pub(crate) fn push_function_type(
    alloc: Global,
    out: &mut Bytes,
    kernel: &Kernel,
) -> Result<(), Stopped>
    ensures { OnOk result (out.new ≡ out.old ++ modules.func_type (binary.type_of (written_of kernel.now))) }
{
    let given = of_places(alloc, kernel, kernel.given())?;
    out.byte(0x60)?;
    push_types(out, given.as_slice())?;
    push_result(out, kernel.returns(), kernel.caller())?;
    Ok(())
}

/// Appends the type of a function that nobody calls.
#[tactic(auto, using(crate::proofs::Vectors::unused_type))]
pub(crate) fn push_unused_type(out: &mut Bytes) -> Result<(), AllocError>
    ensures { OnOk result (out.new ≡ out.old ++ modules.func_type (binary.type_of wasm.unused)) }
{
    out.all(b"\x60\x00\x00")
}
