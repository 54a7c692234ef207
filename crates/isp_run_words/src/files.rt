//! Files of bytes.
ghost use Rattle.std.specs.Prelude.{ℕ, List, Option};
ghost use Rattle.isp_run_words.specs.Finding.{Found};

use std::alloc::Global;

/// Why a file gave no bytes.
#[derive(Clone, Copy, Debug, PartialEq, Eq)]
pub enum DataFault {
    /// There is no such file, or it fails.
    CannotRead,
    /// Memory was refused.
    Memory,
}

/// What reads and writes files of bytes by their names.
pub trait DataFiles {
    /// Whether under a name these bytes may be found, or nothing that can be read.
    ghost has_bytes: { Self → List ℕ → Option (List ℕ) → Type 0 } = { λ _ _ _. Unit {0} };

    /// The bytes of the file of that name.
    fn read_bytes(&self, alloc: Global, name: &str) -> Result<Vec<u8>, DataFault>
        ensures { Found (has_bytes self.now name.now) result };

    /// Writes the file of that name whole, and says whether it did; else what was there stays.
    fn write_bytes(&self, alloc: Global, name: &str, bytes: &[u8]) -> bool;
}
