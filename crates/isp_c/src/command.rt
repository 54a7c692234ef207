//! Each command over memory.
ghost use Rattle.std.specs.Prelude.{◌≡◌, [], false, IfErr, IfOk, IfSome, IsUtf8, MatchOption, None, Some, string_bytes};
ghost use Rattle.isp_engine.specs.declared.files.FileFault.TheVariants.{CannotRead};
ghost use Rattle.isp_c.specs.Commanding.{Commanded, Did, Gives, Holds, bytes_in};

use crate::texts::Text;
use isp_commands::command;
use isp_engine::{FileFault, Kept, Sink, SourceFiles};
use isp_reports::put;
use std::alloc::{AllocError, AllocFailed, Global};

/// A file for C: its name, and its text.
#[derive(Clone, Copy)]
#[repr(C)]
pub struct File<'a> {
    pub name: Text<'a>,
    pub text: Text<'a>,
}

/// How many bytes a command wrote at the front of its rooms. With status 10, how many it wants.
#[derive(Clone, Copy)]
#[repr(C)]
pub struct Used {
    pub out: usize,
    pub err: usize,
}

// ---- files

/// Files that stand in memory.
#[derive(Drop)]
struct Held<'a> {
    files: &'a [File<'a>],
}

impl SourceFiles for Held<'_> {
    ghost holds = { λ h. Holds h.files.now };

    fn read(&self, alloc: Global, name: &str) -> Result<String, FileFault> {
        match found(self.files, name) {
            Some(bytes) => text(alloc, bytes),
            None => Err(FileFault::CannotRead),
        }
    }
}

// The bytes of the first file of a name.
fn found<'a>(files: &[File<'a>], name: &str) -> Option<&'a [u8]>
    ensures { MatchOption result (bytes_in files.now name.now ≡ None) (λ b. bytes_in files.now name.now ≡ Some b.now) }
{
    for file in files {
        if file.name.bytes == name.as_bytes() {
            return Some(file.text.bytes);
        }
    }
    None
}

// The text that bytes are.
fn text(alloc: Global, bytes: &[u8]) -> Result<String, FileFault>
    ensures ok { IfOk result (λ s. (string_bytes s ≡ bytes.now) × IsUtf8 bytes.now) }
    ensures err { IfErr result (λ e. e ≡ CannotRead → IsUtf8 bytes.now → ⊥) }
{
    match std::str::from_utf8(bytes) {
        Ok(text) => String::from_str(alloc, text).map_err(|_| FileFault::Memory),
        Err(_) => Err(FileFault::CannotRead),
    }
}

// ---- streams

/// What a command wrote, and its status.
#[derive(Drop)]
struct Written {
    status: u8,
    out: Vec<u8>,
    err: Vec<u8>,
}

// ---- words

// A word.
fn word(alloc: Global, bytes: &[u8]) -> Result<String, Unspelt> {
    match std::str::from_utf8(bytes) {
        Ok(text) => Ok(String::from_str(alloc, text)?),
        Err(_) => Err(Unspelt::NoText),
    }
}

// The words, after the name of the program.
fn spelt(alloc: Global, words: &[Text<'_>]) -> Result<Vec<String>, Unspelt> {
    let mut all = Vec::new(alloc);
    all.push(String::from_str(alloc, "isp")?)?;
    for given in words {
        all.push(word(alloc, given.bytes)?)?;
    }
    Ok(all)
}

/// Why bytes are no words.
#[derive(Clone, Copy)]
enum Unspelt {
    Memory,
    NoText,
}

impl From<AllocError> for Unspelt {
    fn from(_error: AllocError) -> Unspelt {
        Unspelt::Memory
    }
}

impl<T: Drop> From<AllocFailed<T>> for Unspelt {
    fn from(_error: AllocFailed<T>) -> Unspelt {
        Unspelt::Memory
    }
}

// ---- the call

/// Does what the words ask for, as the program does, with files that stand in memory. The words are those after `isp`,
/// and the files that they name are the first of that name in `files`.
///
/// What goes to standard output is written at the front of `out`, and what goes to standard error at the front of `err`;
/// `used` has both lengths, and the bytes after them stay. The result is the status of the program, or
///
/// - 7: memory was refused. The rooms have what was written until then, or both stay and `used` is 0.
/// - 10: `out` or `err` has fewer bytes than were written, which are as many as `used` says. Both stay.
#[unsafe(no_mangle)]
pub extern "C" fn isp_command(
    alloc: Global,
    words: &[Text<'_>],
    files: &[File<'_>],
    out: &mut [u8],
    err: &mut [u8],
    used: &mut Used,
) -> u8
    ensures { Commanded files.now out.old out.new err.old err.new used.new result }
{
    match done(alloc, words, files) {
        Some(done) => give(&done, out, err, used),
        None => {
            *used = Used { out: 0, err: 0 };
            7
        }
    }
}

// Writes what a command wrote, where there is room for both.
fn give(done: &Written, out: &mut [u8], err: &mut [u8], used: &mut Used) -> u8
    ensures { Gives done.now.out.items done.now.err.items done.now.status out.old out.new err.old err.new used.new result }
{
    *used = Used {
        out: done.out.len(),
        err: done.err.len(),
    };
    if out.len() < done.out.len() || err.len() < done.err.len() {
        return 10;
    }
    put(done.out.as_slice(), out);
    put(done.err.as_slice(), err);
    done.status
}

// What a command wrote, where there was memory for it.
fn done(alloc: Global, words: &[Text<'_>], files: &[File<'_>]) -> Option<Written>
    ensures { IfSome result (λ d. Did files.now d.out.items d.err.items d.status) }
{
    match spelt(alloc, words) {
        Ok(spelt) => commanded(alloc, spelt.as_slice(), files),
        Err(Unspelt::NoText) => no_text(alloc),
        Err(Unspelt::Memory) => None,
    }
}

fn commanded(alloc: Global, words: &[String], files: &[File<'_>]) -> Option<Written>
    ensures { IfSome result (λ d. Did files.now d.out.items d.err.items d.status) }
{
    let mut out = Kept::new(alloc);
    let mut err = Kept::new(alloc);
    let status = command(alloc, words, &Held { files }, &mut out, &mut err);
    if out.failed() || err.failed() {
        return None;
    }
    Some(Written {
        status,
        out: out.bytes,
        err: err.bytes,
    })
}

// A word is no text, as the program says of its own.
fn no_text(alloc: Global) -> Option<Written>
    ensures { IfSome result (λ d. (d.status ≡ 2) × (d.out.items ≡ [])) }
{
    let mut err = Vec::new(alloc);
    match err.extend_from_slice(b"error: invalid UTF-8 was detected in one or more arguments\n") {
        Ok(()) => Some(Written {
            status: 2,
            out: Vec::new(alloc),
            err,
        }),
        Err(_) => None,
    }
}
