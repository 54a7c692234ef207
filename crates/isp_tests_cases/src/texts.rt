//! Texts of code, most of them broken: each is read, and what is read is written again.
//!
//! A row is a text, in which `␤` is a line feed, then `|`, and what becomes of the text: its fault, or `read`.
use isp_asm::{AsmFault, read, write};
use isp_tests_programs::Tried;
use isp_tests_support::parted;
use std::alloc::{AllocError, Global};

/// Tries the rows of a file.
pub(crate) fn follow(alloc: Global, text: &str, tried: &mut Tried) -> Result<(), AllocError> {
    for row in text.lines() {
        let (shown, wanted) = parted(row, '|');
        let found = found(alloc, shown)?;
        tried.begin();
        if found.as_str() != wanted {
            tried.differ(format!(in alloc; "{row}: {found}")?)?;
        }
    }
    Ok(())
}

// What becomes of a text.
fn found(alloc: Global, shown: &str) -> Result<String, AllocError> {
    let text = shown
        .chars()
        .map(|c| if c == '␤' { '\n' } else { c })
        .collect::<String>(alloc)?;
    match read(alloc, text.as_str()) {
        Ok(code) => {
            let again = write(alloc, &code)?;
            let is_alike = again.as_str() == text.as_str();
            String::from_str(
                alloc,
                if is_alike {
                    "read"
                } else {
                    "written otherwise"
                },
            )
        }
        Err(AsmFault::Memory) => Err(AllocError),
        Err(AsmFault::Refused(fault)) => format!(in alloc; "{fault}"),
    }
}
