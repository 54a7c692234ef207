//! The files that the command words name.
ghost use Rattle.std.specs.Prelude.{◌≡◌, ◌<◌, ◌≤◌, ◌+◌, ◌++◌, ◌↔◌, OnOk, ℕ, List, Option, Some, None, IfOk, IfErr, IfSome, IsTrue, length, string_bytes};
ghost use Rattle.isp_engine.specs.Files.{Found};
ghost use Rattle.isp_engine.specs.declared.files.FileFault.TheVariants.{CannotRead};
ghost use Rattle.std.specs.declared.io.ErrorKind.TheVariants.{Interrupted};

use std::alloc::Global;
use std::io::{ErrorKind, Read};

/// Why a file gave no text.
#[derive(Clone, Copy, Debug, PartialEq, Eq)]
pub enum FileFault {
    /// There is no such file, or it fails, is not UTF-8 or has more than 1,073,741,824 bytes.
    CannotRead,
    /// Memory was refused.
    Memory,
}

/// What reads a file by its name.
pub trait SourceFiles {
    /// Whether under a name this text may be found, or nothing that can be read.
    ghost holds: { Self → List ℕ → Option (List ℕ) → Type 0 } = { λ _ _ _. Unit {0} };

    /// The text of the file of that name.
    fn read(&self, alloc: Global, name: &str) -> Result<String, FileFault>
        ensures { Found (holds self.now name.now) result };
}

/// The greatest number of bytes of a file, and of reads.
const MOST: usize = 1_073_741_824;

/// The bytes of one read.
const STEP: usize = 65_536;

/// The whole text that a reader gives, in at most 1,073,741,824 bytes and as many reads.
///
/// `CannotRead` comes where it gives more, where a read fails other than by a signal, and where the
/// bytes are not UTF-8.
pub fn read_source<R: Read>(alloc: Global, reader: &mut R) -> Result<String, FileFault>
    ensures whole { IfOk result (λ s. IfSome (R.remaining reader.old) (λ bytes. string_bytes s
        ≡ bytes)) }
    ensures short { IfOk result (λ s. length (string_bytes s) ≤ 1073741824) }
{
    read_text(alloc, reader, MOST)
}

/// The whole text that a reader gives, in at most `most` bytes and 1,073,741,824 reads.
///
/// A read that a signal broke off is made again. `CannotRead` comes where the reader gives more than
/// `most` bytes, where a read fails otherwise, and where the bytes are not UTF-8; nothing is read
/// after that.
#[tactic(auto, using(crate::proofs::Reading::consumes_more))]
pub fn read_text<R: Read>(alloc: Global, reader: &mut R, most: usize) -> Result<String, FileFault>
    ensures whole { IfOk result (λ s. IfSome (R.remaining reader.old) (λ bytes. string_bytes s
        ≡ bytes)) }
    ensures short { IfOk result (λ s. length (string_bytes s) ≤ most) }
{
    let mut buffer = buffer(alloc)?;
    let mut bytes = Vec::new(alloc);
    for _ in 0..MOST {
        match reader.read(buffer.as_mut_slice()) {
            Ok(0) => return String::from_utf8(bytes).map_err(|_| FileFault::CannotRead),
            Ok(count) => keep(&mut bytes, &buffer[..count], most)?,
            Err(error) => {
                if !is_broken_off(error.kind()) {
                    return Err(FileFault::CannotRead);
                }
            }
        }
    }
    Err(FileFault::CannotRead)
}

// Whether a signal broke a read off, which is then made again.
fn is_broken_off(kind: ErrorKind) -> bool
    ensures { IsTrue result ↔ (kind ≡ Interrupted) }
{
    kind == ErrorKind::Interrupted
}

fn buffer(alloc: Global) -> Result<Vec<u8>, FileFault>
    ensures { IfOk result (λ v. 0 < length v.items) }
{
    vec![in alloc; 0u8; STEP].map_err(|_| FileFault::Memory)
}

// Puts more bytes after those that were read, up to `most`.
fn keep(bytes: &mut Vec<u8>, more: &[u8], most: usize) -> Result<(), FileFault>
    requires { length bytes.old.items ≤ most }
    ensures bytes { OnOk result (bytes.new.items ≡ bytes.old.items ++ more.now) }
    ensures short { OnOk result (length bytes.new.items ≤ most) }
    // Of a length that may be, only memory is refused.
    ensures long { IfErr result (λ e. e ≡ CannotRead → most < length bytes.old.items + length more.now) }
{
    if !fits(bytes.len(), more.len(), most) {
        return Err(FileFault::CannotRead);
    }
    bytes.extend_from_slice(more).map_err(|_| FileFault::Memory)
}

// Whether so many bytes and so many more are no more than may be.
fn fits(have: usize, more: usize, most: usize) -> bool
    ensures { IsTrue result ↔ (have + more ≤ most) }
{
    have <= most && more <= most - have
}
