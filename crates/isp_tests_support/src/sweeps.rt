//! Each growth of a call refused once.
ghost use Rattle.std.specs.Prelude.{◌≡◌, ◌≢◌, IfOk, true};
ghost use Rattle.isp_tests_support.specs.declared.sweeps.Tried.TheVariants.{Right};

use crate::hoard::Hoard;
use std::alloc::Global;
use std::test::Fail;

/// As many times 16 bytes as are ever given to a call.
const STEPS: usize = 500_000;

/// What came of a call.
#[derive(Clone, Copy, Drop, PartialEq)]
pub enum Tried {
    /// Memory was refused.
    Refused,
    /// It answered what it should.
    Right,
    /// It answered something else, or what the caller holds is not as before.
    Wrong,
}

impl Tried {
    /// What a call comes to that gave an answer, by whether it is the one that is wanted.
    pub fn answered(right: bool) -> Tried {
        if right { Tried::Right } else { Tried::Wrong }
    }

    /// What a call comes to that answered a fault, by whether that says that memory was refused.
    pub fn failed(memory: bool) -> Tried {
        if memory { Tried::Refused } else { Tried::Wrong }
    }

    /// What a refused call comes to, by what the same call came to with memory.
    pub fn retried(self) -> Tried
        ensures { result ≢ Right }
    {
        match self {
            Tried::Right => Tried::Refused,
            _ => Tried::Wrong,
        }
    }
}

/// Lets each growth of a call be refused once: attempts it with 0, 16, 32, .. bytes until it is right.
///
/// An attempt makes what the call needs, notes what is seen of it, has the hoard give so many bytes, and calls. Where the
/// call is refused, it has the hoard give all, compares what is seen with what it noted, and calls once more on the same
/// value: it comes to `Refused` where that gives the answer that is wanted. A failure where an attempt fails or comes to
/// `Wrong`, where nothing was refused, and where the bytes end.
pub fn sweep<F: FnMut(&mut Hoard, usize) -> Result<Tried, Fail>>(
    alloc: Global,
    name: &str,
    mut attempt: F,
) -> Result<(), Fail>
    requires { F.IsAlwaysCallable attempt }
{
    let mut hoard = Hoard::new(alloc)?;
    for step in 0..STEPS {
        hoard.ample();
        let tried = attempt(&mut hoard, 16 * step)?;
        if is_over(name, step, tried)? {
            return Ok(());
        }
    }
    Err(failure(name, "always refused"))
}

/// The same for a call that changes nothing of its caller's: it is called again as it was.
pub fn sweep_call<F: FnMut() -> Tried>(alloc: Global, name: &str, mut call: F) -> Result<(), Fail>
    requires { F.IsAlwaysCallable call }
    // Some call was right.
    ensures { IfOk result (λ _. (f : F) × F.post f Right) }
{
    let mut hoard = Hoard::new(alloc)?;
    for step in 0..STEPS {
        hoard.beside(16 * step)?;
        let first = call();
        hoard.ample();
        let tried = match first {
            Tried::Refused => call().retried(),
            _ => first,
        };
        if is_over(name, step, tried)? {
            return Ok(());
        }
    }
    Err(failure(name, "always refused"))
}

// Whether an attempt is the last, with so many times 16 bytes.
fn is_over(name: &str, step: usize, tried: Tried) -> Result<bool, Fail>
    ensures { IfOk result (λ over. over ≡ true → tried ≡ Right) }
{
    match tried {
        Tried::Refused => Ok(false),
        Tried::Right if step > 0 => Ok(true),
        Tried::Right => Err(failure(name, "nothing was refused")),
        Tried::Wrong => Err(failure(name, "another answer, or something has changed")),
    }
}

fn failure(name: &str, why: &str) -> Fail {
    Fail::new(format_args!("{name}: {why}"))
}
