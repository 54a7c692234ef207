//! Code by its text.
use isp_asm::read;
use isp_base::Gang;
use isp_tests_support::{number, parted};
use isp_verify::{Verified, verify};
use std::alloc::Global;
use std::process::Abort;

/// The gang of a width.
pub(crate) fn gang_of(rt: &impl Abort, width: &str) -> Gang {
    let width = number(width).expect(rt, "no width") as usize;
    Gang::of_width(width).expect(rt, "no gang")
}

// The first line of the text of a gang's code.
fn head(gang: Gang) -> &'static str {
    match gang {
        Gang::W4 => "isp 1 gang 4",
        Gang::W8 => "isp 1 gang 8",
        Gang::W16 => "isp 1 gang 16",
        Gang::W32 => "isp 2 gang 32",
    }
}

// Two places, 0..4 and 7..9, and two texts, `x` and `one two`.
const BEFORE: &str = "place 0 4\nplace 7 9\ntext 78\ntext 6f6e652074776f";

/// The code of functions, by their text: the verifier takes it. Two places come before them, 0..4 and 7..9, and two texts, `x` and `one two`.
pub(crate) fn verified(rt: &impl Abort, alloc: Global, gang: Gang, functions: &str) -> Verified {
    let text = format!(in alloc; "{}\n{}\n{functions}\n", head(gang), BEFORE).expect(rt, "memory");
    let code = read(alloc, text.as_str()).expect(rt, "no code text");
    verify(alloc, code).ok().expect(rt, "the code is refused")
}

/// A text with one after the other of these in the places `…`; a stroke stands between two of them.
pub(crate) fn filled(rt: &impl Abort, alloc: Global, text: &str, fills: &str) -> String {
    let mut out = String::from_str(alloc, text).expect(rt, "memory");
    for fill in fills.split('/') {
        let (before, after) = parted(out.as_str(), '…');
        let next = format!(in alloc; "{before}{fill}{after}").expect(rt, "memory");
        out = next;
    }
    out
}
