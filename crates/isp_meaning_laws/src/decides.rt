//! What decides what code comes to, and for whom it runs. No code is run here: each function carries a law in its contract.
ghost use Rattle.isp_meaning_laws.specs.Decides.{MembersDecide, NobodyRuns};

/// What an expression or a statement comes to over a set depends on what the gang and the members of the set hold, and on nothing
/// that other instances hold: neither a value nor a way, a trap, a store, the output or the work.
pub fn members_decide()
    ensures { MembersDecide }
{}

/// Over a set with a member nothing runs for nobody: what calls would do over an empty set plays no part, wherever they stand.
pub fn nobody_runs()
    ensures { NobodyRuns }
{}
