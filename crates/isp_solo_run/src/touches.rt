//! Which elements more than one instance touched: the marks of their runs, taken together.
ghost use Rattle.std.specs.Prelude.{◌≡◌, ◌<◌, ℕ, is_some, length};
ghost use Rattle.isp_solo_run.specs.Arrays.{read_in, wrote_in};
ghost use Rattle.isp_solo_run.specs.Touches as Touches;
ghost use Rattle.isp_solo_run.specs.Touches.{ClashesAreFound, FirstClash, touch_in};

use crate::arrays::Shared;

/// How an element was touched.
#[derive(Clone, Copy)]
pub enum Touch {
    Nobody,
    One { instance: usize, stored: bool },
    /// By more than one; whether one of them stored there.
    Several { stored: bool },
}

/// What is marked so is exactly where two instances clash.
pub fn clashes_are_found()
    ensures { ClashesAreFound }
{}

impl Touch {
    // One more instance touched it.
    fn joined(self, instance: usize, stored: bool) -> Touch
        ensures { result ≡ Touches.joined self instance stored }
    {
        match self {
            Touch::Nobody => Touch::One { instance, stored },
            Touch::One { stored: before, .. } | Touch::Several { stored: before } => {
                Touch::Several {
                    stored: before || stored,
                }
            }
        }
    }

    /// One more instance read it or not, and stored there or not.
    pub fn touched(self, instance: usize, read: bool, stored: bool) -> Touch
        ensures { result ≡ Touches.touched self instance read stored }
    {
        if read || stored {
            self.joined(instance, stored)
        } else {
            self
        }
    }

    /// Two touched it, and one stored there.
    pub fn is_clash(&self) -> bool
        ensures { result ≡ Touches.is_clash self.now }
    {
        match self {
            Touch::Nobody | Touch::One { .. } => false,
            Touch::Several { stored } => *stored,
        }
    }
}

/// The elements of an array after the run of one more instance.
pub fn join(touches: &mut [Touch], array: &Shared, instance: usize)
    ensures long { length touches.new ≡ length touches.old }
    ensures each { (e : ℕ) → e < length touches.old → touch_in touches.new e
        ≡ Touches.touched (touch_in touches.old e) instance (read_in array.now e) (is_some (wrote_in array.now e)) }
{
    for place in 0..touches.len() {
        let read = array.read_at(place);
        let stored = array.stored_at(place).is_some();
        touches[place] = touches[place].touched(instance, read, stored);
    }
}

/// The first element at which instances clash.
pub fn first_clash(touches: &[Touch]) -> Option<usize>
    ensures { FirstClash touches.now result }
{
    for place in 0..touches.len() {
        if touches[place].is_clash() {
            return Some(place);
        }
    }
    None
}
