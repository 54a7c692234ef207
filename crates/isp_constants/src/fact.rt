//! What is known of the registers of some code.
ghost use Rattle.std.specs.Prelude.{◌≡◌};
ghost use Rattle.std.specs.List.{list_any};
ghost use Rattle.isp_constants.specs.reader.Passing.{facts_at, is_in, is_told, lists_in, same_known, tells};

use isp_code::{Class, Register};

/// What a register holds, by number.
#[derive(Clone, Copy)]
pub enum Known {
    /// A scalar register holds these bits.
    Scalar { register: u32, number: u64 },
    /// A vector register holds these bits in each lane of the gang.
    Vector { register: u32, number: u64 },
    /// A mask register has all lanes of the gang.
    Full { mask: u32 },
}

impl Known {
    /// Whether both say the same of the same register.
    pub(crate) fn is(self, other: Known) -> bool
        ensures { result ≡ same_known self other }
    {
        match (self, other) {
            (
                Known::Scalar { register, number },
                Known::Scalar {
                    register: r,
                    number: n,
                },
            ) => register == r && number == n,
            (
                Known::Vector { register, number },
                Known::Vector {
                    register: r,
                    number: n,
                },
            ) => register == r && number == n,
            (Known::Full { mask }, Known::Full { mask: k }) => mask == k,
            _ => false,
        }
    }
}

/// What an instruction makes known, by its number: so it is before those after it, up to the last one.
#[derive(Clone, Copy)]
pub struct Fact {
    pub known: Known,
    pub line: usize,
    pub last: usize,
}

impl Fact {
    /// Whether it is told before an instruction.
    pub(crate) fn is_in(self, pc: usize) -> bool
        ensures { result ≡ is_in self pc }
    {
        self.line < pc && pc <= self.last
    }
}

/// Whether facts tell something before an instruction.
pub(crate) fn tells(facts: &[Fact], pc: usize, known: Known) -> bool
    ensures { result ≡ tells facts.now pc known }
{
    facts.iter().any(|x| x.is_in(pc) && x.known.is(known))
}

/// What is known of the registers of each function, by number.
#[derive(Drop)]
pub struct Constants {
    pub functions: Vec<Vec<Fact>>,
}

// The number that something known says of a vector.
fn number_of(known: Known, vector: u32) -> Option<u64> {
    match known {
        Known::Vector { register, number } if register == vector => Some(number),
        _ => None,
    }
}

impl Constants {
    /// The facts of a function.
    pub(crate) fn facts(&self, function: usize) -> &[Fact]
        ensures { result.now ≡ facts_at (lists_in self.now) function }
    {
        match self.functions.get(function) {
            Some(facts) => facts.as_slice(),
            None => &[],
        }
    }

    /// The number that a vector has in each lane at an instruction, if it is known.
    pub fn amount(&self, function: usize, pc: usize, vector: Register) -> Option<u64> {
        if !matches!(vector.class, Class::Vector) {
            return None;
        }
        for x in self.facts(function) {
            if x.is_in(pc) {
                if let Some(number) = number_of(x.known, vector.number) {
                    return Some(number);
                }
            }
        }
        None
    }

    /// Whether an instruction is one by which something is known: it has to stay as it is.
    pub fn settles(&self, function: usize, pc: usize) -> bool {
        self.facts(function).iter().any(|x| x.line == pc)
    }
}
