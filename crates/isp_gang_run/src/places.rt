//! The places that assignments write: what is held there, and what is kept there.
ghost use Rattle.std.specs.Prelude.{◌≡◌, ℕ, IfErr, OnOk};
ghost use Rattle.isp_base.specs.Access as Access;
ghost use Rattle.isp_base.specs.Maps.{put};
ghost use Rattle.isp_base.specs.Sets.{flag_of};
ghost use Rattle.isp_base.specs.Types.{gang_width};
ghost use Rattle.isp_meaning.specs.Payloads.{mapped, offender};
ghost use Rattle.isp_meaning.specs.Places as Places;
ghost use Rattle.isp_meaning.specs.Simple as Simple;
ghost use Rattle.isp_gang_values.specs.Seen.{payload_of};
ghost use Rattle.isp_gang_run.specs.Seen.{frame_seen, place_seen, state_seen};
ghost use Rattle.isp_gang_arrays.specs.Stores.{stores_of};
ghost use Rattle.isp_gang_run.specs.Tasks.{Changes};
ghost use Rattle.isp_gang_run.specs.declared.state.Stop.TheVariants as Stop;

use crate::state::{Evaluator, Stop};
use crate::tasks::Operation;
use isp_base::{Elem, Rate, Ty};
use isp_gang_arrays::indices::{element, is_outside, picked, picked_own, places, where_outside};
use isp_gang_arrays::stores::{clear, clear_own, element_at, put_each, put_element, put_own_each};
use isp_gang_values::computed::Computed;
use isp_gang_values::growing::{self, lanes_at, put, put_lanes};
use isp_gang_values::row::{on, over};
use isp_gang_values::sets::{Active, lowest};
use isp_typed::{ArrayVariable, TypedExpr};

/// A variable, or the element of an array at an index, whose type is said.
#[derive(Clone, Copy)]
pub enum Place {
    Variable {
        number: usize,
        ty: Ty,
    },
    Element {
        array: ArrayVariable,
        elem: Elem,
        index: Computed,
    },
}

/// What is to be done with a place.
#[derive(Clone, Copy)]
pub enum Writing<'a> {
    Assign(&'a TypedExpr),
    Update {
        operation: Operation,
        value: &'a TypedExpr,
    },
    Step(Operation),
}

impl Evaluator<'_> {
    /// The lowest member whose index is outside the array.
    pub fn outside(&self, place: &Place, set: &Active) -> Option<usize>
        ensures { result ≡ Places.outside (gang_width self.now.program.now.gang) (frame_seen self.now.here) (place_seen place.now) (flag_of set.now) }
    {
        match place {
            Place::Variable { .. } => None,
            Place::Element { array, elem, index } => {
                let count = self.here.extent(*array);
                self.outside_of(count, *elem, index, set)
            }
        }
    }

    // The lowest member whose index is outside an array of so many elements.
    fn outside_of(&self, count: usize, elem: Elem, index: &Computed, set: &Active) -> Option<usize>
        ensures { result ≡ offender (gang_width self.now.program.now.gang) (Access.is_outside elem count) (flag_of set.now) (payload_of index.now) }
    {
        match index {
            Computed::One(bits) => {
                if is_outside(elem, count, *bits) {
                    lowest(self.gang(), set)
                } else {
                    None
                }
            }
            Computed::Each(row) => lowest(self.gang(), &where_outside(elem, count, row)),
        }
    }

    /// What the members of a set find at a place.
    pub fn held(&self, place: &Place, set: &Active) -> Computed
        ensures { (w : ℕ) → payload_of result ≡ Places.held (gang_width self.now.program.now.gang) (frame_seen self.now.here)
            (place_seen place.now) (flag_of set.now) (state_seen self.now w) }
    {
        match place {
            Place::Variable { number, ty } => self.variable(*number, ty.rate, set),
            Place::Element { array, elem, index } => self.elements(*array, *elem, index, set),
        }
    }

    // What a variable holds.
    fn variable(&self, number: usize, rate: Rate, set: &Active) -> Computed
        ensures { (w : ℕ) → payload_of result ≡ Places.variable rate number (flag_of set.now) (state_seen self.now w) }
    {
        match rate {
            Rate::Uniform => Computed::One(growing::at(self.here.uniforms.as_slice(), number)),
            Rate::Varying => {
                let lanes = lanes_at(self.here.varying.as_slice(), number);
                Computed::Each(on(set, &lanes))
            }
        }
    }

    // The elements that the members of a set find at their indices.
    fn elements(&self, array: ArrayVariable, elem: Elem, index: &Computed, set: &Active) -> Computed
        ensures { (w : ℕ) → payload_of result ≡ Places.elements (frame_seen self.now.here) array elem (payload_of index.now)
            (flag_of set.now) array.ty.rate (state_seen self.now w) }
    {
        match array.ty.rate {
            Rate::Uniform => self.shared(self.here.store(array.number), elem, index),
            Rate::Varying => {
                let indices = index.spread(set);
                let arrays = self.here.own.as_slice();
                Computed::Each(picked_own(arrays, array.number, elem, &indices))
            }
        }
    }

    // The elements of a store at the indices.
    fn shared(&self, store: usize, elem: Elem, index: &Computed) -> Computed
        ensures { payload_of result ≡ mapped (λ x. stores_of self.now.stores.items store (Access.element elem x)) (payload_of index.now) }
    {
        let stores = self.stores.as_slice();
        match index {
            Computed::One(bits) => Computed::One(element_at(stores, store, element(elem, *bits))),
            Computed::Each(indices) => Computed::Each(picked(stores, store, elem, indices)),
        }
    }

    /// Writes a place for the members of a set, none of whose indices is outside.
    pub fn keep(&mut self, place: &Place, set: &Active, value: &Computed) -> Result<(), Stop>
        ensures ok { OnOk result (Changes self.old self.new (Places.kept (gang_width self.old.program.now.gang) (frame_seen self.old.here)
            (place_seen place.now) (flag_of set.now) (payload_of value.now))) }
        ensures err { IfErr result (λ e. e ≡ Stop.Memory) }
    {
        match place {
            Place::Variable { number, ty } => self.write(*number, ty.rate, set, value),
            Place::Element { array, elem, index } => {
                self.store(*array, *elem, index, set, value)
            }
        }
    }

    /// Writes a variable for the members of a set, a uniform one once.
    pub fn write(
        &mut self,
        number: usize,
        rate: Rate,
        set: &Active,
        value: &Computed,
    ) -> Result<(), Stop>
        ensures ok { OnOk result (Changes self.old self.new (Places.written rate number (flag_of set.now) (payload_of value.now))) }
        ensures err { IfErr result (λ e. e ≡ Stop.Memory) }
    {
        match rate {
            Rate::Uniform => put(&mut self.here.uniforms, number, value.sole())?,
            Rate::Varying => {
                let old = lanes_at(self.here.varying.as_slice(), number);
                let lanes = over(&value.spread(set), &old);
                put_lanes(&mut self.here.varying, number, &lanes)?;
            }
        }
        Ok(())
    }

    // The members of a set store at their indices.
    fn store(
        &mut self,
        array: ArrayVariable,
        elem: Elem,
        index: &Computed,
        set: &Active,
        value: &Computed,
    ) -> Result<(), Stop>
        ensures ok { OnOk result (Changes self.old self.new (Places.with_elements (frame_seen self.old.here) array elem
            (payload_of index.now) (flag_of set.now) (gang_width self.old.program.now.gang) array.ty.rate (payload_of value.now))) }
        ensures err { IfErr result (λ e. e ≡ Stop.Memory) }
    {
        let places = places(elem, index);
        match array.ty.rate {
            Rate::Uniform => {
                let store = self.here.store(array.number);
                self.store_shared(store, &places, set, value)
            }
            Rate::Varying => {
                let places = places.spread(set);
                let values = value.spread(set);
                put_own_each(
                    self.alloc,
                    &mut self.here.own,
                    array.number,
                    &places,
                    &values,
                )?;
                Ok(())
            }
        }
    }

    // The members of a set store at their places, the highest last.
    fn store_shared(
        &mut self,
        store: usize,
        places: &Computed,
        set: &Active,
        value: &Computed,
    ) -> Result<(), Stop>
        ensures ok { OnOk result (stores_of self.new.stores.items
            ≡ put (stores_of self.old.stores.items) store (Places.stored (gang_width self.old.program.now.gang) (flag_of set.now)
            (payload_of places.now) (payload_of value.now) (stores_of self.old.stores.items store))) }
        ensures rest { OnOk result (self.new ≡ record self.old { stores = self.new.stores }) }
        ensures err { IfErr result (λ e. e ≡ Stop.Memory) }
    {
        let gang = self.gang();
        if let (Computed::One(place), Computed::One(bits)) = (places, value) {
            put_element(self.alloc, &mut self.stores, store, *place as usize, *bits)?;
            return Ok(());
        }
        let places = places.spread(set);
        let values = value.spread(set);
        put_each(self.alloc, &mut self.stores, store, gang, &places, &values)?;
        Ok(())
    }

    /// A declared array begins with zeros: a shared one whole, of the others that of each member.
    pub fn clear(&mut self, array: ArrayVariable, set: &Active)
        ensures { Changes self.old self.new (Simple.cleared (frame_seen self.old.here) array.ty.rate array.number (flag_of set.now)) }
    {
        match array.ty.rate {
            Rate::Uniform => {
                let store = self.here.store(array.number);
                clear(&mut self.stores, store);
            }
            Rate::Varying => clear_own(&mut self.here.own, array.number, set),
        }
    }
}
