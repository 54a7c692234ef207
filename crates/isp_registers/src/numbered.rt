//! Numbers of what code names: each kind has a type of its own, so that none is taken for another.
ghost use Rattle.std.specs.Prelude.{◌≡◌, ◌<◌, ◌+◌};

/// The number of a scalar or a vector register, or of an array, among those of its class.
#[derive(Clone, Copy, Default)]
pub struct RegisterNumber {
    pub number: u32,
}

/// The number of a mask register.
#[derive(Clone, Copy)]
pub struct MaskNumber {
    pub number: u32,
}

/// The number of a slot of spare registers, which has a mask register too.
#[derive(Clone, Copy)]
pub struct Slot {
    pub number: u32,
}

/// The number of a place in the source.
#[derive(Clone, Copy)]
pub struct PlaceNumber {
    pub number: usize,
}

/// The number of a text.
#[derive(Clone, Copy)]
pub struct TextNumber {
    pub number: usize,
}

impl Slot {
    /// Its mask register.
    pub fn mask(self) -> MaskNumber
        ensures { result ≡ record { number = self.number } }
    {
        MaskNumber {
            number: self.number,
        }
    }

    /// The slot so many after this one.
    pub fn plus(self, count: u32) -> Slot
        requires { self.number + count < 4294967296 }
        ensures { result ≡ record { number = self.number + count } }
    {
        Slot {
            number: self.number + count,
        }
    }

    /// The slot after this one.
    pub fn next(self) -> Slot
        requires { self.number + 1 < 4294967296 }
        ensures { result ≡ record { number = self.number + 1 } }
    {
        self.plus(1)
    }
}
