//! How a connection ends.
ghost use Rattle.std.specs.Prelude.{◌≡◌};
ghost use Rattle.isp_lsp_command.specs.Ends.{Told, line_of, status_of};

use isp_output::{Sink, write_all};
use isp_rpc_frames::FrameFault;

/// How a connection ends.
#[derive(Clone, Copy, Debug, PartialEq, Eq)]
pub enum LspEnd {
    /// `exit` came. This is its status: 0 after `shutdown`, else 1.
    Exit(u8),
    /// The input ended before `exit` came.
    InputEnd,
    /// The bytes that came can be no message, whatever follows.
    Broken(FrameFault),
    /// The input cannot be read.
    CannotRead,
    /// An answer cannot be written.
    CannotWrite,
    /// Memory was refused.
    Memory,
}

impl LspEnd {
    /// The exit status.
    pub fn status(self) -> u8
        ensures { result ≡ status_of self }
    {
        match self {
            LspEnd::Exit(status) => status,
            LspEnd::InputEnd | LspEnd::Broken(_) => 1,
            LspEnd::CannotRead | LspEnd::CannotWrite => 6,
            LspEnd::Memory => 7,
        }
    }

    /// The line on standard error. After `exit` there is none.
    pub fn line(self) -> &'static str
        ensures { result.now ≡ line_of self }
    {
        match self {
            LspEnd::Exit(_) => "",
            LspEnd::InputEnd => "isp: the input ended before exit\n",
            LspEnd::Broken(FrameFault::Header) => "isp: no message: its header\n",
            LspEnd::Broken(FrameFault::LongHeader) => "isp: no message: its header is too long\n",
            LspEnd::Broken(FrameFault::Length) => "isp: no message: its length\n",
            LspEnd::CannotRead => "isp: cannot read standard input\n",
            LspEnd::CannotWrite => "isp: cannot write\n",
            LspEnd::Memory => "isp: memory\n",
        }
    }
}

/// Writes the line that says why a connection has ended, where `exit` did not end it, and answers the exit status. Where `err` has
/// failed before, nothing is written.
pub(crate) fn tell_end<E: Sink>(end: LspEnd, err: &mut E) -> u8
    ensures status { result ≡ status_of end }
    ensures line { Told (line_of end) (E.written err.old) (E.written err.new) (E.has_failed err.new) }
{
    tell(end.line(), err);
    end.status()
}

// Writes a line, as far as the sink takes it.
fn tell<E: Sink>(line: &str, err: &mut E)
    ensures { Told line.now (E.written err.old) (E.written err.new) (E.has_failed err.new) }
{
    if !err.failed() {
        let _ = write_all(err, line.as_bytes());
    }
}
