//! Numbers as bytes, the lowest or the highest first.
ghost use Rattle.std.specs.Prelude.{◌≡◌, ◌≤◌, ◌++◌, length, OnOk};
ghost use Rattle.isp_files.specs.Endian.{big_number, bytes_in, little_number, number_in};

use std::alloc::AllocError;

/// Which byte of a number stands first.
#[derive(Clone, Copy)]
pub(crate) enum Endian {
    /// The lowest.
    Little,
    /// The highest.
    Big,
}

impl Endian {
    /// The number in the first bytes, so many.
    pub(crate) fn number(self, bytes: &[u8], size: usize) -> u64
        requires few { size ≤ 8 }
        requires there { size ≤ length bytes.now }
        ensures { result ≡ number_in self size bytes.now }
    {
        match self {
            Endian::Little => little(bytes, size),
            Endian::Big => big(bytes, size),
        }
    }

    /// Appends the lowest bytes of a number, so many.
    pub(crate) fn push(
        self,
        bytes: &mut Vec<u8>,
        number: u64,
        size: usize,
    ) -> Result<(), AllocError>
        requires { size ≤ 8 }
        ensures { OnOk result (bytes.new.items ≡ bytes.old.items ++ bytes_in self size number) }
    {
        match self {
            Endian::Little => bytes.extend_from_slice(&number.to_le_bytes()[..size]),
            Endian::Big => bytes.extend_from_slice(&number.to_be_bytes()[8 - size..]),
        }
    }
}

fn little(bytes: &[u8], size: usize) -> u64
    requires few { size ≤ 8 }
    requires there { size ≤ length bytes.now }
    ensures { result ≡ little_number size bytes.now }
{
    let mut word = [0; 8];
    word[..size].copy_from_slice(&bytes[..size]);
    u64::from_le_bytes(word)
}

fn big(bytes: &[u8], size: usize) -> u64
    requires few { size ≤ 8 }
    requires there { size ≤ length bytes.now }
    ensures { result ≡ big_number size bytes.now }
{
    let mut word = [0; 8];
    word[8 - size..].copy_from_slice(&bytes[..size]);
    u64::from_be_bytes(word)
}
