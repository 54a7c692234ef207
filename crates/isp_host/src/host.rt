//! The system's files, its standard output and its standard error.
ghost use Rattle.std.specs.Prelude.{◌≡◌, ◌≢◌, ◌≤◌, false, length, IfOk, IfErr, IfSome};
ghost use Rattle.std.specs.IoError.{error_kind};
ghost use Rattle.std.specs.declared.io.ErrorKind.TheVariants.{Interrupted, OutOfMemory};
ghost use Rattle.isp_engine.specs.declared.files.FileFault.TheVariants.{CannotRead, Memory};

use crate::data::{read_data, write_data};
use isp_engine::{FileFault, Sink, SinkFault, SourceFiles, read_source};
use isp_run_words::{DataFault, DataFiles};
use std::alloc::Global;
use std::fs::File;
use std::io;
use std::io::ErrorKind;
use std::rt::Files;

/// The system's files.
#[derive(Drop)]
pub struct HostFiles<'a, R> {
    rt: &'a R,
}

impl<'a, R: Files> HostFiles<'a, R> {
    pub fn new(rt: &'a R) -> HostFiles<'a, R> {
        HostFiles { rt }
    }
}

impl<R: Files> SourceFiles for HostFiles<'_, R> {
    fn read(&self, alloc: Global, name: &str) -> Result<String, FileFault> {
        match File::open(self.rt, name) {
            Ok(mut file) => read_source(alloc, &mut file),
            Err(error) => Err(unopened(error.kind())),
        }
    }
}

impl<R: Files> DataFiles for HostFiles<'_, R> {
    fn read_bytes(&self, alloc: Global, name: &str) -> Result<Vec<u8>, DataFault> {
        read_data(self.rt, alloc, name)
    }

    fn write_bytes(&self, alloc: Global, name: &str, bytes: &[u8]) -> bool {
        write_data(self.rt, alloc, name, bytes)
    }
}

// Why a file was not opened: of memory the system tells, and anything else is no file that can be read.
fn unopened(kind: ErrorKind) -> FileFault
    ensures memory { kind ≡ OutOfMemory → result ≡ Memory }
    ensures other { kind ≢ OutOfMemory → result ≡ CannotRead }
{
    if kind == ErrorKind::OutOfMemory {
        FileFault::Memory
    } else {
        FileFault::CannotRead
    }
}

/// The standard output or the standard error. It does not tell what was written.
#[derive(Drop)]
pub struct HostOutput<'a, P> {
    to: &'a P,
    has_failed: bool,
}

impl<'a, P: Print> HostOutput<'a, P> {
    pub fn new(to: &'a P) -> HostOutput<'a, P>
        ensures { result.has_failed ≡ false }
    {
        HostOutput {
            to,
            has_failed: false,
        }
    }
}

/// A write that a signal broke off is tried again this often.
const TRIES: u32 = 1000;

/// What became of a write.
#[derive(Clone, Copy)]
enum WriteEnd {
    /// So many bytes were taken, which may be fewer than there are.
    Took(usize),
    /// A signal broke it off, and it took none.
    BrokenOff,
    /// The system refused it.
    Refused,
}

// What the system's answer to a write says.
fn tried(answer: io::Result<usize>) -> WriteEnd
    ensures took { IfOk answer (λ n. result ≡ WriteEnd.Took n) }
    ensures broken { IfErr answer (λ e. error_kind e ≡ Interrupted → result ≡ WriteEnd.BrokenOff) }
    ensures refused { IfErr answer (λ e. error_kind e ≢ Interrupted → result ≡ WriteEnd.Refused) }
{
    match answer {
        Ok(count) => WriteEnd::Took(count),
        Err(error) => {
            if error.kind() == ErrorKind::Interrupted {
                WriteEnd::BrokenOff
            } else {
                WriteEnd::Refused
            }
        }
    }
}

// The number of bytes that were written, or nothing where the system refused.
fn write_some<P: Print>(to: &P, bytes: &[u8]) -> Option<usize>
    ensures { IfSome result (λ n. n ≤ length bytes.now) }
{
    for _ in 0..TRIES {
        match tried(to.write_some(bytes)) {
            WriteEnd::Took(count) => return Some(count),
            WriteEnd::BrokenOff => {}
            WriteEnd::Refused => return None,
        }
    }
    None
}

impl<P: Print> Sink for HostOutput<'_, P> {
    ghost has_failed = { λ o. o.has_failed };

    fn write(&mut self, bytes: &[u8]) -> Result<usize, SinkFault> {
        let Some(count) = write_some(self.to, bytes) else {
            self.has_failed = true;
            return Err(SinkFault);
        };
        if count == 0 && !bytes.is_empty() {
            self.has_failed = true;
        }
        Ok(count)
    }

    fn failed(&self) -> bool {
        self.has_failed
    }
}
