//! The arrays that all instances share: what a run stored in them, and where it read them. No array is copied: an element
//! that the run did not store is the one that was bound.
ghost use Rattle.std.specs.Prelude.{◌≡◌, ◌<◌, Some, None, true, false, length, IfOk, OnOk};
ghost use Rattle.isp_solo_meaning.specs.Alone.{put_in};
ghost use Rattle.isp_base.specs.Maps.{or_old, put};
ghost use Rattle.isp_solo_run.specs.Arrays.{bound_seen, marks_of, read_in, read_seen, wrote_in, wrote_seen};

use isp_base::Array;
use isp_gang_values::growing::{at, put};
use std::alloc::{AllocError, Global};

/// One array: its working values, which elements were stored and which were read, and whether it was declared in the run.
#[derive(Drop)]
pub struct Shared {
    pub work: Vec<u64>,
    pub stored: Vec<bool>,
    pub read: Vec<bool>,
    pub declared: bool,
}

/// The arrays by store.
#[derive(Drop)]
pub struct Arrays {
    pub alloc: Global,
    pub stores: Vec<Shared>,
}

// Whether an element is marked.
fn is_marked(marks: &[bool], place: usize) -> bool
    ensures { result ≡ marks_of marks.now place }
{
    if place < marks.len() {
        marks[place]
    } else {
        false
    }
}

// Marks an element.
fn mark(marks: &mut Vec<bool>, place: usize) -> Result<(), AllocError>
    ensures { OnOk result (marks_of marks.new.items ≡ put (marks_of marks.old.items) place true) }
{
    for _next in marks.len()..place {
        marks.push(false)?;
    }
    if place < marks.len() {
        marks[place] = true;
    } else {
        marks.push(true)?;
    }
    Ok(())
}

impl Shared {
    // Nothing was done to it.
    fn new(alloc: Global) -> Shared
        ensures wrote { wrote_in result ≡ (λ e. None) }
        ensures read { read_in result ≡ (λ e. false) }
    {
        Shared {
            work: Vec::new(alloc),
            stored: Vec::new(alloc),
            read: Vec::new(alloc),
            declared: false,
        }
    }

    /// What was stored in an element.
    pub fn stored_at(&self, place: usize) -> Option<u64>
        ensures { result ≡ wrote_in self.now place }
    {
        if is_marked(self.stored.as_slice(), place) {
            Some(at(self.work.as_slice(), place))
        } else if self.declared {
            Some(0)
        } else {
            None
        }
    }

    /// Whether an element was read.
    pub fn read_at(&self, place: usize) -> bool
        ensures { result ≡ read_in self.now place }
    {
        is_marked(self.read.as_slice(), place)
    }

    // An element was read.
    fn note(&mut self, place: usize) -> Result<(), AllocError>
        ensures wrote { OnOk result (wrote_in self.new ≡ wrote_in self.old) }
        ensures read { OnOk result (read_in self.new ≡ put (read_in self.old) place true) }
    {
        mark(&mut self.read, place)?;
        Ok(())
    }

    // Stores in an element.
    fn store(&mut self, place: usize, bits: u64) -> Result<(), AllocError>
        ensures wrote { OnOk result (wrote_in self.new ≡ put (wrote_in self.old) place (Some bits)) }
        ensures read { OnOk result (read_in self.new ≡ read_in self.old) }
    {
        put(&mut self.work, place, bits)?;
        mark(&mut self.stored, place)?;
        Ok(())
    }

    // It is declared: all elements are 0.
    fn declare(&mut self)
        ensures wrote { wrote_in self.new ≡ (λ e. Some 0) }
        ensures read { read_in self.new ≡ read_in self.old }
    {
        self.stored.clear();
        self.declared = true;
    }

    // A new run begins; the working values stay.
    fn begin(&mut self)
        ensures wrote { wrote_in self.new ≡ (λ e. None) }
        ensures read { read_in self.new ≡ (λ e. false) }
        ensures work { self.new.work ≡ self.old.work }
    {
        self.stored.clear();
        self.read.clear();
        self.declared = false;
    }
}

// The element of an array that was bound, 0 where there is none.
fn bound_at(bound: &[&Array], store: usize, place: usize) -> u64
    ensures { result ≡ bound_seen bound.now store place }
{
    if store < bound.len() {
        let array = bound[store];
        if place < array.len() {
            array.at(place)
        } else {
            0
        }
    } else {
        0
    }
}

impl Arrays {
    /// Nothing was done to any.
    pub fn new(alloc: Global) -> Arrays
        ensures wrote { wrote_seen result.stores.items ≡ (λ b e. None) }
        ensures read { read_seen result.stores.items ≡ (λ b e. false) }
    {
        Arrays {
            alloc,
            stores: Vec::new(alloc),
        }
    }

    // There are so many stores, and one more.
    fn reach(&mut self, store: usize) -> Result<(), AllocError>
        ensures wrote { OnOk result (wrote_seen self.new.stores.items ≡ wrote_seen self.old.stores.items) }
        ensures read { OnOk result (read_seen self.new.stores.items ≡ read_seen self.old.stores.items) }
        ensures there { OnOk result (store < length self.new.stores.items) }
    {
        for _next in self.stores.len()..store {
            self.stores.push(Shared::new(self.alloc))?;
        }
        if self.stores.len() <= store {
            self.stores.push(Shared::new(self.alloc))?;
        }
        Ok(())
    }

    /// What the run stored in an element.
    pub fn stored_at(&self, store: usize, place: usize) -> Option<u64>
        ensures { result ≡ wrote_seen self.now.stores.items store place }
    {
        if store < self.stores.len() {
            self.stores[store].stored_at(place)
        } else {
            None
        }
    }

    // An element was read.
    fn note(&mut self, store: usize, place: usize) -> Result<(), AllocError>
        ensures wrote { OnOk result (wrote_seen self.new.stores.items ≡ wrote_seen self.old.stores.items) }
        ensures read { OnOk result (read_seen self.new.stores.items ≡ put_in (read_seen self.old.stores.items) store place true) }
    {
        self.reach(store)?;
        self.stores[store].note(place)?;
        Ok(())
    }

    /// Reads an element: what the run stored there, else what is bound. It is noted that it was read.
    pub fn read(&mut self, bound: &[&Array], store: usize, place: usize) -> Result<u64, AllocError>
        ensures found { IfOk result (λ x. x ≡ or_old (wrote_seen self.old.stores.items store place) (bound_seen bound.now store place)) }
        ensures wrote { OnOk result (wrote_seen self.new.stores.items ≡ wrote_seen self.old.stores.items) }
        ensures read { OnOk result (read_seen self.new.stores.items ≡ put_in (read_seen self.old.stores.items) store place true) }
    {
        let bits = match self.stored_at(store, place) {
            Some(bits) => bits,
            None => bound_at(bound, store, place),
        };
        self.note(store, place)?;
        Ok(bits)
    }

    /// Stores in an element.
    pub fn store(&mut self, store: usize, place: usize, bits: u64) -> Result<(), AllocError>
        ensures wrote { OnOk result (wrote_seen self.new.stores.items ≡ put_in (wrote_seen self.old.stores.items) store place (Some bits)) }
        ensures read { OnOk result (read_seen self.new.stores.items ≡ read_seen self.old.stores.items) }
    {
        self.reach(store)?;
        self.stores[store].store(place, bits)?;
        Ok(())
    }

    /// An array is declared: all its elements are 0.
    pub fn declare(&mut self, store: usize) -> Result<(), AllocError>
        ensures wrote { OnOk result (wrote_seen self.new.stores.items ≡ put (wrote_seen self.old.stores.items) store (λ e. Some 0)) }
        ensures read { OnOk result (read_seen self.new.stores.items ≡ read_seen self.old.stores.items) }
    {
        self.reach(store)?;
        self.stores[store].declare();
        Ok(())
    }

    /// A new run begins: nothing was done to any. The working values stay where they are.
    pub fn begin(&mut self)
        ensures wrote { wrote_seen self.new.stores.items ≡ (λ b e. None) }
        ensures read { read_seen self.new.stores.items ≡ (λ b e. false) }
    {
        for store in 0..self.stores.len() {
            self.stores[store].begin();
        }
    }
}
