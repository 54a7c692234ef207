//! How all elements of all arrays were touched, by the runs so far.
ghost use Rattle.std.specs.Prelude.{◌≡◌, ◌≤◌, ℕ, Some, None, is_some, length, OnOk};
ghost use Rattle.isp_solo_run.specs.Arrays.{read_in, read_seen, wrote_in, wrote_seen};
ghost use Rattle.isp_solo_run.specs.Touches as Touches;
ghost use Rattle.isp_solo_run.specs.declared.touches.Touch.TheVariants.{Nobody};
ghost use Rattle.isp_solo.specs.Touched.{FirstAt, FirstOfAll, touched_at, touched_seen};

use isp_solo_run::arrays::{Arrays, Shared};
use isp_solo_run::touches::{Touch, first_clash, join};
use std::alloc::{AllocError, Global};

/// How the elements of an array were touched: the first ones, and all others.
#[derive(Drop)]
pub struct Touched {
    pub first: Vec<Touch>,
    pub others: Touch,
}

impl Touched {
    // Nobody touched it.
    fn new(alloc: Global) -> Touched
        ensures { touched_at result ≡ (λ e. Nobody) }
    {
        Touched {
            first: Vec::new(alloc),
            others: Touch::Nobody,
        }
    }

    // So many elements, at least, are told apart from the others.
    fn reach(&mut self, count: usize) -> Result<(), AllocError>
        ensures same { OnOk result (touched_at self.new ≡ touched_at self.old) }
        ensures others { OnOk result (self.new.others ≡ self.old.others) }
        ensures long { OnOk result (count ≤ length self.new.first.items) }
        ensures longer { OnOk result (length self.old.first.items ≤ length self.new.first.items) }
    {
        for _next in self.first.len()..count {
            self.first.push(self.others)?;
        }
        Ok(())
    }

    // The run of one more instance touched it as is marked.
    fn join(&mut self, array: &Shared, instance: usize) -> Result<(), AllocError>
        ensures { OnOk result ((e : ℕ) → touched_at self.new e
            ≡ Touches.touched (touched_at self.old e) instance (read_in array.now e) (is_some (wrote_in array.now e))) }
    {
        self.reach(array.stored.len())?;
        self.reach(array.read.len())?;
        join(self.first.as_mut_slice(), array, instance);
        self.others = self.others.touched(instance, false, array.declared);
        Ok(())
    }

    // The first element at which two clash.
    fn first_clash(&self) -> Option<usize>
        ensures { FirstAt (touched_at self.now) result }
    {
        match first_clash(self.first.as_slice()) {
            Some(place) => Some(place),
            None => {
                if self.others.is_clash() {
                    Some(self.first.len())
                } else {
                    None
                }
            }
        }
    }
}

// There are so many arrays, at least.
fn reach_array(alloc: Global, touched: &mut Vec<Touched>, count: usize) -> Result<(), AllocError>
    ensures same { OnOk result (touched_seen touched.new.items ≡ touched_seen touched.old.items) }
    ensures long { OnOk result (count ≤ length touched.new.items) }
{
    for _next in touched.len()..count {
        touched.push(Touched::new(alloc))?;
    }
    Ok(())
}

/// The run of one more instance touched the arrays as is marked.
pub fn join_run(
    alloc: Global,
    touched: &mut Vec<Touched>,
    arrays: &Arrays,
    instance: usize,
) -> Result<(), AllocError>
    ensures { OnOk result ((b e : ℕ) → touched_seen touched.new.items b e ≡ Touches.touched (touched_seen touched.old.items b e)
        instance (read_seen arrays.now.stores.items b e) (is_some (wrote_seen arrays.now.stores.items b e))) }
{
    reach_array(alloc, touched, arrays.stores.len())?;
    for store in 0..arrays.stores.len() {
        touched[store].join(&arrays.stores[store], instance)?;
    }
    Ok(())
}

/// The first array and element at which two clash.
pub fn first_of(touched: &[Touched]) -> Option<(usize, usize)>
    ensures { FirstOfAll (touched_seen touched.now) result }
{
    for store in 0..touched.len() {
        if let Some(element) = touched[store].first_clash() {
            return Some((store, element));
        }
    }
    None
}
