//! What the definitions of the calls come to.
ghost use Rattle.std.specs.Prelude.{◌≡◌, ℕ, ℤ, ◌+◌, ◌<◌, Some, pos, ◌+ℤ◌};
ghost use Rattle.isp_base.specs.Cross.{or_zero, reduce_best, rotate, shift};
ghost use Rattle.isp_base.specs.Maps.{Map};
ghost use Rattle.isp_base.specs.declared.operators.BinOp.TheVariants.{Min, Max};
ghost use Rattle.isp_base.specs.declared.types.Elem.{Elem};
ghost use Rattle.isp_cross.specs.Laws.{AllFit, IsGreatest, IsLeast, IsThere};

/// What holds of the calls across n lanes: where there is a value, `reduce_min` gives one that none is below, and `reduce_max` one that
/// none is above; lanes that are rotated by k and then by j, where j is -k, are those that they were; `shift` is `rotate` where the lane
/// that it names is there.
pub fn cross_laws()
    ensures least { (t : Elem) (n b : ℕ) (x : Map) → AllFit t x → IsThere n x b → IsLeast t n x (reduce_best Min t n x) }
    ensures greatest { (t : Elem) (n b : ℕ) (x : Map) → AllFit t x → IsThere n x b → IsGreatest t n x (reduce_best Max t n x) }
    ensures back { (n p : ℕ) (x : Map) (k j : ℤ) → p < n → j +ℤ k ≡ pos 0 → rotate n (λ q. Some (rotate n x k q)) j p ≡ or_zero (x p) }
    ensures inside { (n p m : ℕ) (x : Map) (k : ℤ) → pos p +ℤ k ≡ pos m → m < n → shift n x k p ≡ rotate n x k p }
{}
