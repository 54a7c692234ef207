//! The texts that a request reads and writes.
ghost use Rattle.std.specs.Prelude.{◌≡◌, false, string_bytes, Some, IfOk, IfErr};
ghost use Rattle.isp_engine.specs.Stories.{Unread, Writes};

use crate::failure::Failure;
use crate::files::{FileFault, SourceFiles};
use isp_output::{Sink, SinkFault, write_all};
use std::alloc::Global;

/// Writes a text. `CannotWrite` where a write fails or takes no byte; then the first bytes of it have gone out.
pub fn write_text<O: Sink>(text: &str, out: &mut O) -> Result<(), Failure<'static>>
    requires { O.has_failed out.old ≡ false }
    ensures { Writes text.now (O.written out.old) (O.written out.new) (O.has_failed out.new) result }
{
    write_bytes(text.as_bytes(), out)
}

/// Writes bytes, as `write_text` does a text.
pub fn write_bytes<O: Sink>(bytes: &[u8], out: &mut O) -> Result<(), Failure<'static>>
    requires { O.has_failed out.old ≡ false }
    ensures { Writes bytes.now (O.written out.old) (O.written out.new) (O.has_failed out.new) result }
{
    match write_all(out, bytes) {
        Ok(()) => Ok(()),
        Err(SinkFault) => Err(Failure::CannotWrite),
    }
}

/// The text of the file of a name. `CannotRead` where it has none, `Memory` where memory is refused.
pub fn read_file<'a, F: SourceFiles>(
    alloc: Global,
    files: &F,
    name: &'a str,
) -> Result<String, Failure<'a>>
    ensures ok { IfOk result (λ s. F.holds files.now name.now (Some (string_bytes s))) }
    ensures err { IfErr result (Unread (F.holds files.now) name.now) }
{
    files.read(alloc, name).map_err(|fault| match fault {
        FileFault::CannotRead => Failure::CannotRead(name),
        FileFault::Memory => Failure::Memory,
    })
}
