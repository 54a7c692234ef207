//! The element types as types, so that what kernels ask of one is known where they are compiled.
ghost use Rattle.std.specs.Prelude.{◌≡◌, refl, ℕ, ℤ, pos, ◌<◌, ◌-◌, ◌^◌, Bool, true, false, nat_lt};
ghost use Rattle.std.specs.Int.{w8, w16, w32, w64, int_wrap};
ghost use Rattle.std.specs.Int.RustNames.{FitsSigned};
ghost use Rattle.isp_base.specs.Ranges.{IsValue};
ghost use Rattle.isp_base.specs.Values as values;
ghost use Rattle.isp_base.specs.declared.types.Elem.{Elem};
ghost use Rattle.isp_base.specs.declared.types.Elem.TheVariants.{Bool as Truth, I8, U8, I16, U16, I32, U32, I64, U64};
ghost use Rattle.isp_lanes.specs.ElemLaws as laws;
ghost use Rattle.isp_lanes.specs.Held.{is_truth};

/// An element type. Its values are those of the Rust type that has the trait.
pub trait LaneElem: Copy {
    // which element type it is
    ghost elem: { Elem };

    // how many bits a value has
    ghost width: { ℕ };

    // whether there are negative values
    ghost is_signed: { Bool };

    // what is a value of the type
    ghost fits: { Self → Type 0 };

    // the number that a value stands for
    ghost number: { Self → ℤ };

    // the value that differs from a number by a multiple of 2 to the width
    ghost wrap: { ℤ → Self };

    // a value is what its number is wrapped to
    ghost back: { (x : Self) → fits x → wrap (number x) ≡ x };

    // its number is in the type's range
    ghost within: { (x : Self) → fits x → IsValue elem (number x) };

    // width and sign are those of the element type
    ghost width_is: { width ≡ values.width elem };

    ghost sign_is: { is_signed ≡ nat_lt (values.greatest elem) (2 ^ values.width elem - 1) };

    /// A value in hand, which is one of the type's.
    fn told(self) -> Self
        ensures same { result ≡ self }
        ensures fit { fits result };

    /// Whether there are negative values.
    fn is_signed() -> bool
        ensures { result ≡ nat_lt (values.greatest elem) (2 ^ values.width elem - 1) };

    /// Whether the type is bool.
    fn is_bool() -> bool
        ensures { result ≡ is_truth elem };
}

impl LaneElem for bool {
    ghost elem = { Truth };

    ghost width = { 1 };

    ghost is_signed = { false };

    ghost fits = { λ _. Unit {0} };

    ghost number = { laws.bool_number };

    ghost wrap = { laws.bool_wrap };

    ghost back = { λ b _. laws.bool_back b };

    ghost within = { λ b _. laws.bool_within b };

    ghost width_is = { refl };

    ghost sign_is = { refl };

    fn told(self) -> Self {
        self
    }

    fn is_signed() -> bool {
        false
    }

    fn is_bool() -> bool {
        true
    }
}

impl LaneElem for i8 {
    ghost elem = { I8 };

    ghost width = { 8 };

    ghost is_signed = { true };

    ghost fits = { FitsSigned w8 };

    ghost number = { λ x. x };

    ghost wrap = { int_wrap w8 };

    ghost back = { laws.signed_back w8 };

    ghost within = { laws.within_8 };

    ghost width_is = { refl };

    ghost sign_is = { refl };

    fn told(self) -> Self {
        self
    }

    fn is_signed() -> bool {
        true
    }

    fn is_bool() -> bool {
        false
    }
}

impl LaneElem for u8 {
    ghost elem = { U8 };

    ghost width = { 8 };

    ghost is_signed = { false };

    ghost fits = { λ x. x < 2 ^ 8 };

    ghost number = { λ x. pos x };

    ghost wrap = { values.wrap_to 8 };

    ghost back = { laws.unsigned_back 8 };

    ghost within = { laws.unsigned_within 8 };

    ghost width_is = { refl };

    ghost sign_is = { refl };

    fn told(self) -> Self {
        self
    }

    fn is_signed() -> bool {
        false
    }

    fn is_bool() -> bool {
        false
    }
}

impl LaneElem for i16 {
    ghost elem = { I16 };

    ghost width = { 16 };

    ghost is_signed = { true };

    ghost fits = { FitsSigned w16 };

    ghost number = { λ x. x };

    ghost wrap = { int_wrap w16 };

    ghost back = { laws.signed_back w16 };

    ghost within = { laws.within_16 };

    ghost width_is = { refl };

    ghost sign_is = { refl };

    fn told(self) -> Self {
        self
    }

    fn is_signed() -> bool {
        true
    }

    fn is_bool() -> bool {
        false
    }
}

impl LaneElem for u16 {
    ghost elem = { U16 };

    ghost width = { 16 };

    ghost is_signed = { false };

    ghost fits = { λ x. x < 2 ^ 16 };

    ghost number = { λ x. pos x };

    ghost wrap = { values.wrap_to 16 };

    ghost back = { laws.unsigned_back 16 };

    ghost within = { laws.unsigned_within 16 };

    ghost width_is = { refl };

    ghost sign_is = { refl };

    fn told(self) -> Self {
        self
    }

    fn is_signed() -> bool {
        false
    }

    fn is_bool() -> bool {
        false
    }
}

impl LaneElem for i32 {
    ghost elem = { I32 };

    ghost width = { 32 };

    ghost is_signed = { true };

    ghost fits = { FitsSigned w32 };

    ghost number = { λ x. x };

    ghost wrap = { int_wrap w32 };

    ghost back = { laws.signed_back w32 };

    ghost within = { laws.within_32 };

    ghost width_is = { refl };

    ghost sign_is = { refl };

    fn told(self) -> Self {
        self
    }

    fn is_signed() -> bool {
        true
    }

    fn is_bool() -> bool {
        false
    }
}

impl LaneElem for u32 {
    ghost elem = { U32 };

    ghost width = { 32 };

    ghost is_signed = { false };

    ghost fits = { λ x. x < 2 ^ 32 };

    ghost number = { λ x. pos x };

    ghost wrap = { values.wrap_to 32 };

    ghost back = { laws.unsigned_back 32 };

    ghost within = { laws.unsigned_within 32 };

    ghost width_is = { refl };

    ghost sign_is = { refl };

    fn told(self) -> Self {
        self
    }

    fn is_signed() -> bool {
        false
    }

    fn is_bool() -> bool {
        false
    }
}

impl LaneElem for i64 {
    ghost elem = { I64 };

    ghost width = { 64 };

    ghost is_signed = { true };

    ghost fits = { FitsSigned w64 };

    ghost number = { λ x. x };

    ghost wrap = { int_wrap w64 };

    ghost back = { laws.signed_back w64 };

    ghost within = { laws.within_64 };

    ghost width_is = { refl };

    ghost sign_is = { refl };

    fn told(self) -> Self {
        self
    }

    fn is_signed() -> bool {
        true
    }

    fn is_bool() -> bool {
        false
    }
}

impl LaneElem for u64 {
    ghost elem = { U64 };

    ghost width = { 64 };

    ghost is_signed = { false };

    ghost fits = { λ x. x < 2 ^ 64 };

    ghost number = { λ x. pos x };

    ghost wrap = { values.wrap_to 64 };

    ghost back = { laws.unsigned_back 64 };

    ghost within = { laws.unsigned_within 64 };

    ghost width_is = { refl };

    ghost sign_is = { refl };

    fn told(self) -> Self {
        self
    }

    fn is_signed() -> bool {
        false
    }

    fn is_bool() -> bool {
        false
    }
}
