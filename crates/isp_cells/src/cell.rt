//! What stands at one place of an array: a word that all lanes share, or a word for each lane.
ghost use Rattle.std.specs.Prelude.{◌≡◌, ℕ, ◌<◌, ◌^◌, slice_set};
ghost use Rattle.isp_base.specs.Maps.{lane_of};

/// A word, or N of them, of which each of N lanes finds one.
pub trait Cell<const N: usize>: Copy {
    /// The bits of a word.
    ghost width: { ℕ };

    /// What a lane finds.
    ghost find: { Self → ℕ → ℕ };

    /// The cell after a lane has left a word.
    ghost with: { Self → ℕ → ℕ → Self };

    /// The word that a lane finds.
    fn word(&self, lane: usize) -> u64
        requires { lane < N }
        ensures value { result ≡ find self.now lane }
        ensures fits { result < 2 ^ width };

    /// A lane leaves a word.
    fn set(&mut self, lane: usize, bits: u64)
        requires there { lane < N }
        requires fits { bits < 2 ^ width }
        ensures { self.new ≡ with self.old lane bits };
}

impl<const N: usize> Cell<N> for u8 {
    ghost width = { 8 };

    ghost find = { λ word lane. word };

    ghost with = { λ word lane bits. bits };

    fn word(&self, _lane: usize) -> u64 {
        *self as u64
    }

    fn set(&mut self, _lane: usize, bits: u64) {
        *self = bits as u8;
    }
}

impl<const N: usize> Cell<N> for u16 {
    ghost width = { 16 };

    ghost find = { λ word lane. word };

    ghost with = { λ word lane bits. bits };

    fn word(&self, _lane: usize) -> u64 {
        *self as u64
    }

    fn set(&mut self, _lane: usize, bits: u64) {
        *self = bits as u16;
    }
}

impl<const N: usize> Cell<N> for u32 {
    ghost width = { 32 };

    ghost find = { λ word lane. word };

    ghost with = { λ word lane bits. bits };

    fn word(&self, _lane: usize) -> u64 {
        *self as u64
    }

    fn set(&mut self, _lane: usize, bits: u64) {
        *self = bits as u32;
    }
}

impl<const N: usize> Cell<N> for u64 {
    ghost width = { 64 };

    ghost find = { λ word lane. word };

    ghost with = { λ word lane bits. bits };

    fn word(&self, _lane: usize) -> u64 {
        *self
    }

    fn set(&mut self, _lane: usize, bits: u64) {
        *self = bits;
    }
}

impl<const N: usize> Cell<N> for [u8; N] {
    ghost width = { 8 };

    ghost find = { λ words lane. lane_of words lane };

    ghost with = { λ words lane bits. slice_set words lane bits };

    fn word(&self, lane: usize) -> u64 {
        self[lane] as u64
    }

    fn set(&mut self, lane: usize, bits: u64) {
        self[lane] = bits as u8;
    }
}

impl<const N: usize> Cell<N> for [u16; N] {
    ghost width = { 16 };

    ghost find = { λ words lane. lane_of words lane };

    ghost with = { λ words lane bits. slice_set words lane bits };

    fn word(&self, lane: usize) -> u64 {
        self[lane] as u64
    }

    fn set(&mut self, lane: usize, bits: u64) {
        self[lane] = bits as u16;
    }
}

impl<const N: usize> Cell<N> for [u32; N] {
    ghost width = { 32 };

    ghost find = { λ words lane. lane_of words lane };

    ghost with = { λ words lane bits. slice_set words lane bits };

    fn word(&self, lane: usize) -> u64 {
        self[lane] as u64
    }

    fn set(&mut self, lane: usize, bits: u64) {
        self[lane] = bits as u32;
    }
}

impl<const N: usize> Cell<N> for [u64; N] {
    ghost width = { 64 };

    ghost find = { λ words lane. lane_of words lane };

    ghost with = { λ words lane bits. slice_set words lane bits };

    fn word(&self, lane: usize) -> u64 {
        self[lane]
    }

    fn set(&mut self, lane: usize, bits: u64) {
        self[lane] = bits;
    }
}
