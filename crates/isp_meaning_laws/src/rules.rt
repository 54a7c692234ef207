//! Why each rule of independent entries is there. No code is run here: each function carries a law in its contract.
ghost use Rattle.isp_meaning_laws.specs.Rules.{CrossingIsNeeded, ForeachIsNeeded, OutsideIsNeeded, PrintingIsNeeded};
ghost use Rattle.isp_meaning_laws.specs.Rules.{ReturnIsNeeded, SharedArrayIsNeeded, TurnedIsNeeded};

/// Rule 1: an entry that calls `reduce_add` and breaks no other rule, where the gang leaves other arrays than its instances one by
/// one.
pub fn crossing_is_needed()
    ensures { CrossingIsNeeded }
{}

/// Rule 2: an entry that prints and breaks no other rule: the gang prints once, its instances alone nothing.
pub fn printing_is_needed()
    ensures { PrintingIsNeeded }
{}

/// Rule 3: an entry that declares an array for all instances and breaks no other rule, where the gang leaves other arrays.
pub fn shared_array_is_needed()
    ensures { SharedArrayIsNeeded }
{}

/// Rule 4: an entry that assigns a uniform variable where some are missing and breaks no other rule, where the gang leaves other
/// arrays.
pub fn outside_is_needed()
    ensures { OutsideIsNeeded }
{}

/// Rule 5: an entry that assigns a uniform variable after a varying `continue` and breaks no other rule, where the gang leaves
/// other arrays.
pub fn turned_is_needed()
    ensures { TurnedIsNeeded }
{}

/// Rule 6: an entry with a `foreach` under a varying `if` that breaks no other rule, where the gang leaves other arrays.
pub fn foreach_is_needed()
    ensures { ForeachIsNeeded }
{}

/// Rule 7: an entry that calls a function of a uniform result, from which some return before others, and breaks no other rule, where
/// the gang leaves other arrays.
pub fn return_is_needed()
    ensures { ReturnIsNeeded }
{}
