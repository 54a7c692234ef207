//! The arrays that runs leave, one after the other.
ghost use Rattle.std.specs.Prelude.{◌≡◌, ◌++◌, ◌∷◌, [], IfOk, OnOk};
ghost use Rattle.std.specs.List.{All};
ghost use Rattle.isp_base.specs.Arguments.{rows};
ghost use Rattle.isp_base.specs.Rows.{Fit};
ghost use Rattle.isp_solo_run.specs.Arrays.{wrote_seen};
ghost use Rattle.isp_solo.specs.Left.{row_over, rows_over};

use isp_base::{Argument, Array, low_bits};
use isp_solo_run::arrays::Arrays;
use std::alloc::{AllocError, Global};

/// The arrays among the arguments.
pub fn copies(alloc: Global, arguments: &[Argument]) -> Result<Vec<Array>, AllocError>
    ensures same { IfOk result (λ rs. rs.items ≡ rows arguments.now) }
    ensures fits { IfOk result (λ rs. All (λ r. Fit r.elem r.bits) rs.items) }
{
    let mut copies = Vec::new(alloc);
    for place in 0..arguments.len() {
        push_copy(alloc, &mut copies, &arguments[place])?;
    }
    Ok(copies)
}

fn push_copy(alloc: Global, copies: &mut Vec<Array>, argument: &Argument) -> Result<(), AllocError>
    ensures more { OnOk result (copies.new.items ≡ copies.old.items ++ rows (argument.now ∷ [])) }
    ensures fits { OnOk result (All (λ r. Fit r.elem r.bits) (rows (argument.now ∷ []))) }
{
    match argument {
        Argument::Value(_) => Ok(()),
        Argument::Array(array) => {
            copies.push(copy(alloc, array)?)?;
            Ok(())
        }
    }
}

fn copy(alloc: Global, array: &Array) -> Result<Array, AllocError>
    ensures same { IfOk result (λ r. r ≡ array.now) }
    ensures fits { Fit array.now.elem array.now.bits }
{
    let _words = array.cells();
    let mut copy = Array::empty(alloc, array.elem());
    for place in 0..array.len() {
        copy.push(array.at(place))?;
    }
    Ok(copy)
}

/// A run stores in the arrays what it stored.
pub fn store_run(arrays: &mut [Array], run: &Arrays)
    ensures { arrays.new ≡ rows_over arrays.old (wrote_seen run.now.stores.items) }
{
    for store in 0..arrays.len() {
        store_in(&mut arrays[store], run, store);
    }
}

fn store_in(array: &mut Array, run: &Arrays, store: usize)
    ensures { array.new ≡ row_over array.old (wrote_seen run.now.stores.items store) }
{
    for place in 0..array.len() {
        if let Some(stored) = run.stored_at(store, place) {
            let bits = low_bits(array.elem(), stored);
            array.put(place, bits);
        }
    }
}
