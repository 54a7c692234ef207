//! Where a program's output goes.
ghost use Rattle.std.specs.Prelude.{◌≡◌, ◌≤◌, ◌||◌, ℕ, List, [], Bool, false, Option, None, Some, length, IfOk, OnOk, OnErr};
ghost use Rattle.isp_output.specs.Sinks.{Takes, TookAll, TookSome, refuses};

use std::alloc::Global;

/// A write failed, and took nothing.
#[derive(Clone, Copy, Debug, PartialEq, Eq)]
pub struct SinkFault;

/// What takes bytes, a few at a time, until it fails.
pub trait Sink {
    /// The bytes that the sink holds, where it tells them.
    ghost written: { Self → Option (List ℕ) } = { λ _. None };

    /// Whether a write failed, or took no byte of a slice that is not empty.
    ghost has_failed: { Self → Bool };

    /// Takes a prefix of `bytes` and answers its length, or takes nothing and answers the fault.
    fn write(&mut self, bytes: &[u8]) -> Result<usize, SinkFault>
        ensures bound { IfOk result (λ n. n ≤ length bytes.now) }
        ensures taken { Takes (written self.old) (written self.new) result bytes.now }
        ensures failure { has_failed self.new ≡ (has_failed self.old || refuses result bytes.now) };

    /// Whether a write failed, or took no byte of a slice that is not empty.
    fn failed(&self) -> bool
        ensures { result ≡ has_failed self.now };
}

/// Takes all that is written, and drops it.
#[derive(Drop)]
pub struct Nowhere;

impl Sink for Nowhere {
    ghost has_failed = { λ _. false };

    fn write(&mut self, bytes: &[u8]) -> Result<usize, SinkFault> {
        Ok(bytes.len())
    }

    fn failed(&self) -> bool {
        false
    }
}

/// Keeps all that is written, until memory is refused.
#[derive(Drop)]
pub struct Kept {
    pub bytes: Vec<u8>,
    has_failed: bool,
}

impl Kept {
    pub fn new(alloc: Global) -> Kept
        ensures bytes { result.bytes.items ≡ [] }
        ensures failed { result.has_failed ≡ false }
    {
        Kept {
            bytes: Vec::new(alloc),
            has_failed: false,
        }
    }
}

impl Sink for Kept {
    ghost written = { λ k. Some k.bytes.items };

    ghost has_failed = { λ k. k.has_failed };

    fn write(&mut self, bytes: &[u8]) -> Result<usize, SinkFault> {
        match self.bytes.extend_from_slice(bytes) {
            Ok(()) => Ok(bytes.len()),
            Err(_) => {
                self.has_failed = true;
                Err(SinkFault)
            }
        }
    }

    fn failed(&self) -> bool {
        self.has_failed
    }
}

/// Writes all of `bytes`. `SinkFault` where a write fails or takes no byte; then the first of them have gone out.
pub fn write_all<W: Sink>(out: &mut W, bytes: &[u8]) -> Result<(), SinkFault>
    requires { W.has_failed out.old ≡ false }
    ensures ok { OnOk result (TookAll bytes.now (W.written out.old) (W.written out.new)
        (W.has_failed out.new)) }
    ensures err { OnErr result (TookSome bytes.now (W.written out.old) (W.written out.new)
        (W.has_failed out.new)) }
{
    let mut taken = 0;
    while taken < bytes.len() {
        let count = out.write(&bytes[taken..])?;
        if count == 0 {
            return Err(SinkFault);
        }
        taken += count;
    }
    Ok(())
}
