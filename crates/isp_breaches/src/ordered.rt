//! Faults in the order of their places, each once.
ghost use Rattle.std.specs.Prelude.{◌≡◌, AllPairs, Contains};
ghost use Rattle.isp_lex.specs.declared.fault.Fault.{Fault};
ghost use Rattle.isp_lex.specs.Faults.{number_of};
ghost use Rattle.isp_breaches.specs.Order.{Before};

use isp_lex::Fault;

/// By what faults are in order: where they end, their rule, where they start.
fn place(fault: Fault) -> (usize, u8, usize)
    ensures { result ≡ (fault.span.end, number_of fault.rule, fault.span.start) }
{
    (fault.span.end, fault.rule.number(), fault.span.start)
}

/// Puts faults in order, and takes out what is there twice.
pub fn put_in_order(faults: &mut Vec<Fault>)
    ensures keeps { (f : Fault) → Contains faults.old.items f → Contains faults.new.items f }
    ensures adds_none { (f : Fault) → Contains faults.new.items f → Contains faults.old.items f }
    ensures ordered { AllPairs Before faults.new.items }
{
    faults.sort_unstable_by_key(|f| place(*f));
    faults.dedup_by_key(|f| place(*f));
}
