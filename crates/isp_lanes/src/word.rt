//! The word of one lane.
ghost use Rattle.std.specs.Prelude.{◌≡◌, ℕ, ◌<◌, ◌^◌};

// A word of 8, 16, 32 or 64 bits.
pub(crate) trait Word: Copy {
    ghost width: { ℕ };

    // the word of these bits
    ghost with_bits: { ℕ → Self };

    fn of(bits: u64) -> Self
        requires { bits < 2 ^ width }
        ensures { result ≡ with_bits bits };
}

impl Word for u8 {
    ghost width = { 8 };

    ghost with_bits = { λ bits. bits };

    fn of(bits: u64) -> Self {
        bits as u8
    }
}

impl Word for u16 {
    ghost width = { 16 };

    ghost with_bits = { λ bits. bits };

    fn of(bits: u64) -> Self {
        bits as u16
    }
}

impl Word for u32 {
    ghost width = { 32 };

    ghost with_bits = { λ bits. bits };

    fn of(bits: u64) -> Self {
        bits as u32
    }
}

impl Word for u64 {
    ghost width = { 64 };

    ghost with_bits = { λ bits. bits };

    fn of(bits: u64) -> Self {
        bits
    }
}
