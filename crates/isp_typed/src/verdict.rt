//! Verdicts: what is found, or the fault that is answered.
ghost use Rattle.std.specs.Prelude.{◌≡◌};
ghost use Rattle.isp_typed.specs.Verdicts.{beside, both, earlier, fault_unless, first_of};

use isp_lex::Fault;

/// What is found, or the fault that is answered: of several, the one whose span ends first, a tie by the
/// lower number.
pub type Verdict<T> = Result<T, Fault>;

/// The fault that is answered of two.
pub fn earlier(f: Fault, g: Fault) -> Fault
    ensures { result ≡ earlier f g }
{
    if g.span.end < f.span.end || g.span.end == f.span.end && g.rule.number() < f.rule.number() {
        g
    } else {
        f
    }
}

/// The fault that is answered of those that are there.
pub fn first(f: Option<Fault>, g: Option<Fault>) -> Option<Fault>
    ensures { result ≡ first_of f g }
{
    match (f, g) {
        (None, g) => g,
        (Some(f), None) => Some(f),
        (Some(f), Some(g)) => Some(earlier(f, g)),
    }
}

/// A fault where a test fails.
pub fn unless(test: bool, fault: Fault) -> Option<Fault>
    ensures { result ≡ fault_unless test fault }
{
    if test { None } else { Some(fault) }
}

/// Both, or the fault that is answered.
pub fn both<A: Drop, B: Drop>(x: Verdict<A>, y: Verdict<B>) -> Verdict<(A, B)>
    ensures { result ≡ both x y }
{
    match x {
        Ok(x) => match y {
            Ok(y) => Ok((x, y)),
            Err(g) => Err(g),
        },
        Err(f) => match y {
            Ok(_) => Err(f),
            Err(g) => Err(earlier(f, g)),
        },
    }
}

/// What is found, with a fault that stands beside it.
pub fn beside<A: Drop>(seen: Option<Fault>, x: Verdict<A>) -> Verdict<A>
    ensures { result ≡ beside seen x }
{
    match seen {
        None => x,
        Some(f) => match x {
            Ok(_) => Err(f),
            Err(g) => Err(earlier(f, g)),
        },
    }
}
