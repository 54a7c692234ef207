//! What holds of the order in which breaches are told. No code is run here: the function carries laws in its contract.
ghost use Rattle.std.specs.Prelude.{◌≡◌, ◌⊎◌, AllPairs, Contains, List};
ghost use Rattle.isp_lex.specs.declared.fault.Fault.{Fault};
ghost use Rattle.isp_typed.specs.Order.{NoLater};
ghost use Rattle.isp_breaches.specs.Order.{Before};

/// A fault that is told before another is not answered after it. None is told before itself, and of two that
/// differ one is told before the other. So faults make one list in this order, and no other.
pub fn order_laws()
    ensures answered { (f g : Fault) → Before f g → NoLater f g }
    ensures itself { (f : Fault) → Before f f → ⊥ }
    ensures chained { (f g h : Fault) → Before f g → Before g h → Before f h }
    ensures total { (f g : Fault) → Before f g ⊎ ((f ≡ g) ⊎ Before g f) }
    ensures one { (v w : List Fault) → AllPairs Before v → AllPairs Before w → ((f : Fault) → Contains v f → Contains w f) → ((f : Fault) → Contains w f → Contains v f) → v ≡ w }
{}
