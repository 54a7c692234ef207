//! Where a statement stands, as far as `break`, `continue`, `return` and `foreach` ask.
ghost use Rattle.std.specs.Prelude.{◌≡◌};
ghost use Rattle.isp_rates.specs.Exits.{may_jump};
ghost use Rattle.isp_breaches.specs.reader.Within.{around_of};

use isp_tree::Jump;

/// What is nearest around a statement, of the function's body and of what a `break` or a `continue` goes to.
#[derive(Clone, Copy)]
pub enum Around {
    Body,
    Loop,
    Foreach,
    /// A `foreach_active` or a `foreach_unique`.
    Turns,
    Unmasked,
}

/// Where a statement stands.
#[derive(Clone, Copy)]
pub struct Within {
    pub nearest: Around,
    /// Whether a `return` may stand there: no `foreach`, `foreach_active`, `foreach_unique` or
    /// `unmasked` is around.
    pub returns: bool,
    /// Whether a `foreach` is around.
    pub in_foreach: bool,
}

/// Whether a jump may stand where this is nearest around it.
pub fn may_jump(jump: Jump, nearest: Around) -> bool
    ensures { result ≡ may_jump jump (around_of nearest) }
{
    match (jump, nearest) {
        (Jump::Break, Around::Loop) => true,
        (Jump::Break, _) => false,
        (Jump::Continue, Around::Body | Around::Unmasked) => false,
        (Jump::Continue, _) => true,
    }
}

impl Within {
    ghost use Rattle.isp_rates.specs.Exits.{at_start, in_foreach, in_turns, in_loop, in_unmasked};
    ghost use Rattle.isp_breaches.specs.reader.Within.{within_of};

    /// At the start of a function's body.
    pub fn start() -> Within
        ensures { within_of result ≡ at_start }
    {
        Within {
            nearest: Around::Body,
            returns: true,
            in_foreach: false,
        }
    }

    /// In the body of a loop that stands there.
    pub fn of_loop(self) -> Within
        ensures { within_of result ≡ in_loop (within_of self) }
    {
        Within {
            nearest: Around::Loop,
            ..self
        }
    }

    /// In the body of a `foreach` that stands there.
    pub fn of_foreach(self) -> Within
        ensures { within_of result ≡ in_foreach (within_of self) }
    {
        Within {
            nearest: Around::Foreach,
            returns: false,
            in_foreach: true,
        }
    }

    /// In the body of a `foreach_active` or a `foreach_unique` that stands there.
    pub fn of_turns(self) -> Within
        ensures { within_of result ≡ in_turns (within_of self) }
    {
        Within {
            nearest: Around::Turns,
            returns: false,
            ..self
        }
    }

    /// In the block of an `unmasked` that stands there.
    pub fn of_unmasked(self) -> Within
        ensures { within_of result ≡ in_unmasked (within_of self) }
    {
        Within {
            nearest: Around::Unmasked,
            returns: false,
            ..self
        }
    }
}
