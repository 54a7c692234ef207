//! Files of arrays and images, read and written whole.
ghost use Rattle.std.specs.Prelude.{◌≡◌, ◌≢◌};
ghost use Rattle.std.specs.declared.io.ErrorKind.TheVariants.{OutOfMemory};
ghost use Rattle.isp_run_words.specs.declared.files.DataFault.TheVariants.{CannotRead, Memory};

use isp_run_words::DataFault;
use std::alloc::Global;
use std::fs::File;
use std::io::{ErrorKind, Read, Write};
use std::rt::Files;
use std::{fs, io};

/// The bytes of the file of a name.
pub(crate) fn read_data<R: Files>(rt: &R, alloc: Global, name: &str) -> Result<Vec<u8>, DataFault> {
    let mut bytes = Vec::new(alloc);
    match read_into(rt, name, &mut bytes) {
        Ok(_count) => Ok(bytes),
        Err(error) => Err(unread(error.kind())),
    }
}

fn read_into<R: Files>(rt: &R, name: &str, bytes: &mut Vec<u8>) -> io::Result<usize> {
    let mut file = File::open(rt, name)?;
    file.read_to_end(bytes)
}

// Why a file gave no bytes: of memory the system tells, and anything else is no file that can be read.
fn unread(kind: ErrorKind) -> DataFault
    ensures memory { kind ≡ OutOfMemory → result ≡ Memory }
    ensures other { kind ≢ OutOfMemory → result ≡ CannotRead }
{
    if kind == ErrorKind::OutOfMemory {
        DataFault::Memory
    } else {
        DataFault::CannotRead
    }
}

/// How many names are tried for the file beside the one that is written.
const NAMES: u32 = 100;

/// Writes a file whole, and says whether it did. A file that is there stays as it is until the new one is whole: the bytes go to a file
/// beside it, which takes its name then. What is no file, as a pipe, is written to directly.
pub(crate) fn write_data<R: Files>(rt: &R, alloc: Global, name: &str, bytes: &[u8]) -> bool {
    if is_special(rt, name) {
        return write_into(File::create(rt, name), bytes).is_ok();
    }
    for number in 0..NAMES {
        let Ok(beside) = format!(in alloc; "{name}.{number}.part") else {
            return false;
        };
        match File::create_new(rt, beside.as_str()) {
            Err(error) if error.kind() == ErrorKind::AlreadyExists => {}
            opened => return write_beside(rt, opened, beside.as_str(), name, bytes),
        }
    }
    false
}

// Whether something stands under a name that is no file.
fn is_special<R: Files>(rt: &R, name: &str) -> bool {
    match fs::metadata(rt, name) {
        Ok(found) => !found.is_file(),
        Err(_error) => false,
    }
}

// Writes the file beside, and gives it the name.
fn write_beside<R: Files>(
    rt: &R,
    opened: io::Result<R::File>,
    beside: &str,
    name: &str,
    bytes: &[u8],
) -> bool {
    let is_there = opened.is_ok();
    if write_into(opened, bytes).is_ok() && fs::rename(rt, beside, name).is_ok() {
        return true;
    }
    if is_there {
        let _ = fs::remove_file(rt, beside);
    }
    false
}

fn write_into<F: Write + Drop>(opened: io::Result<F>, bytes: &[u8]) -> io::Result<()> {
    let mut file = opened?;
    file.write_all(bytes)
}
