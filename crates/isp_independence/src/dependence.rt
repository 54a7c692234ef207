//! Why an entry is not independent.
ghost use Rattle.std.specs.Prelude.{◌≡◌};
ghost use Rattle.isp_independence.specs.Dependences.{number_of};
ghost use Rattle.isp_independence.specs.reader.Answers.{earlier, first_of, unless};

use isp_base::Span;

/// The rules that an independent entry keeps, in their order from 1 to 7 (docs/INDEPENDENCE.md), by what breaks each.
#[derive(Clone, Copy, Debug, PartialEq, Eq)]
pub enum Restriction {
    /// 1: a call of the library that looks across the gang, a packed call, `foreach_active`, `foreach_unique`,
    /// `unmasked`.
    Crossing,
    /// 2: `print`.
    Printing,
    /// 3: a local array that all instances share.
    SharedArray,
    /// 4: a uniform variable assigned in a varying `if`, a `foreach` or a loop that parts, outside of which it is declared.
    Outside,
    /// 5: a uniform variable assigned in the body of a loop with a varying `continue`, outside of which it is declared.
    Turned,
    /// 6: `foreach` where not the whole gang may come.
    Foreach,
    /// 7: `return` of a uniform result where not all may return.
    Return,
}

impl Restriction {
    /// The rule's number.
    pub fn number(self) -> u8
        ensures { result ≡ number_of self }
    {
        match self {
            Restriction::Crossing => 1,
            Restriction::Printing => 2,
            Restriction::SharedArray => 3,
            Restriction::Outside => 4,
            Restriction::Turned => 5,
            Restriction::Foreach => 6,
            Restriction::Return => 7,
        }
    }
}

/// A breach of a rule, and where it stands.
#[derive(Clone, Copy, Debug, PartialEq, Eq)]
pub struct Dependence {
    pub rule: Restriction,
    pub span: Span,
}

/// The breach that is answered of two.
fn earlier(d: Dependence, e: Dependence) -> Dependence
    ensures { result ≡ earlier d e }
{
    if e.span.start < d.span.start
        || e.span.start == d.span.start && e.rule.number() < d.rule.number()
    {
        e
    } else {
        d
    }
}

/// The breach that is answered of those that are there.
pub fn first(d: Option<Dependence>, e: Option<Dependence>) -> Option<Dependence>
    ensures { result ≡ first_of d e }
{
    match (d, e) {
        (None, e) => e,
        (Some(d), None) => Some(d),
        (Some(d), Some(e)) => Some(earlier(d, e)),
    }
}

/// A breach of a rule where a test fails.
pub fn unless(test: bool, rule: Restriction, span: Span) -> Option<Dependence>
    ensures { result ≡ unless test (record { rule = rule; span = span }) }
{
    if test {
        None
    } else {
        Some(Dependence { rule, span })
    }
}
