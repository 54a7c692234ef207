//! The verdict of a typing rule. No code is run here: the function carries a law in its contract.
ghost use Rattle.isp_meaning_laws.specs.Typings.{VerdictIsRight};

/// The verdict of an expression's typing rule is what the rule says that it is, and nothing else, and then there is no breach; or it is
/// the first of its breaches, and then the expression is nothing.
pub fn verdict_is_right()
    ensures { VerdictIsRight }
{}
