//! Whom a trap names. No code is run here: the function carries a law in its contract.
ghost use Rattle.isp_meaning_laws.specs.Members.{ATrapNamesAMember};

/// A trap names a member of the set over which the expression or the statement ran: an instance that is off never traps. Where all
/// instances take part, in a `foreach` or an `unmasked`, it names an instance of the gang, and so does the trap of every run.
pub fn a_trap_names_a_member()
    ensures { ATrapNamesAMember }
{}
