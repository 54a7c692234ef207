//! One text with a line of each kind, broken everywhere, and read and written where memory is refused.
use isp_asm::{AsmFault, Fault, Rule, read, write};
use isp_code::Code;
use isp_tests_support::{Tried, sweep_call};
use std::alloc::Global;
use std::process::Abort;
use std::test::Fail;

const TEXT: &str = "isp 1 gang 4
place 0 4
place 10 1048576
text 0a7eff
func f export void
par a i32 a
par s i32 n
loc u u8 2
s i64
v i32 i64
m 2
const s1 -7
index v0 m0
conv v1 v0 m0
scatter a0 v1 v0 m0 p0
call f1 s0 m1 p1 a0 s1
joff m1 L0
ret -
end
func g inner s i32
m 1
say t0
jmp L0
end
";

const WIDE: &str = "isp 2 gang 32
func f export void
m 1
ret -
end
";

// First lines that are refused: what each word is comes before whether version and gang go together.
const HEADERS: [(&str, Rule); 6] = [
    ("isp 1 gang 32\n", Rule::BadOperand),
    ("isp 2 gang 4\n", Rule::BadOperand),
    ("isp 2 gang 16\n", Rule::BadOperand),
    ("isp 2 gang 04\n", Rule::NotCanonical),
    ("isp 3 gang 04\n", Rule::BadOperand),
    ("isp 01 gang 32\n", Rule::NotCanonical),
];

// Whether a text may stop here: after a whole line that is the head, a place, a text or the end of a function.
fn may_stop(front: &str) -> bool {
    let Some(lines) = front.strip_suffix('\n') else {
        return false;
    };
    let last = lines.rsplit_once('\n').unwrap_or(("", lines)).1;
    let word = last.split_once(' ').unwrap_or((last, "")).0;
    LAST_WORDS.iter().any(|known| *known == word)
}

// The words of the lines after which a text may stop.
const LAST_WORDS: [&str; 4] = ["isp", "place", "text", "end"];

// What is told of a text that begins as one of these and stops after `front`: 60 at the line that is not there, if it may not stop there.
fn cut_fault(front: &str) -> Option<AsmFault> {
    if may_stop(front) {
        return None;
    }
    Some(AsmFault::Refused(Fault {
        rule: Rule::BadLine,
        line: front.split('\n').count(),
    }))
}

// Reads the first bytes of each text, each number of them.
#[test]
fn cut_behind_each_byte(rt: HostRuntime) {
    for text in [TEXT, WIDE] {
        for length in 0..text.len() + 1 {
            let front = text.get(..length).unwrap_or("");
            assert!(rt;
                read(rt.alloc(), front).err() == cut_fault(front),
                "{length}"
            );
        }
    }
}

#[test]
fn headers_refused(rt: HostRuntime) {
    for (text, rule) in HEADERS {
        let wanted = AsmFault::Refused(Fault { rule, line: 1 });
        assert!(rt; read(rt.alloc(), text).err() == Some(wanted), "{text}");
    }
}

// A text with another byte at a place.
fn replaced(rt: &impl Abort, alloc: Global, text: &str, place: usize, byte: u8) -> String {
    let mut bytes = Vec::from_slice(alloc, text.as_bytes()).expect(rt, "memory");
    if let Some(old) = bytes.get_mut(place) {
        *old = byte;
    }
    String::from_utf8(bytes).ok().expect(rt, "a text")
}

// Reads a text, and writes what is read: alike. No memory is refused.
fn goes_round(alloc: Global, text: &str) -> bool {
    match read(alloc, text) {
        Ok(code) => write(alloc, &code).is_ok_and(|again| again.as_str() == text),
        Err(fault) => fault != AsmFault::Memory,
    }
}

// Reads each text with each byte replaced by each of 0 to 127.
#[test]
fn each_byte_replaced(rt: HostRuntime) {
    let alloc = rt.alloc();
    for text in [TEXT, WIDE] {
        for place in 0..text.len() {
            for byte in 0..128u8 {
                let other = replaced(&rt, alloc, text, place, byte);
                assert!(rt; goes_round(alloc, other.as_str()), "{place}: {byte}");
            }
        }
    }
}

// What comes of code that is written: the text, or memory was refused.
fn written(alloc: Global, code: &Code, text: &str) -> Tried {
    match write(alloc, code) {
        Ok(again) => Tried::answered(again.as_str() == text),
        Err(_) => Tried::Refused,
    }
}

// Each growth is refused once to the reading and to the writing of a text.
#[test]
fn memory_refused(rt: HostRuntime) -> Result<(), Fail> {
    let alloc = rt.alloc();
    sweep_call(alloc, "read", || match read(alloc, TEXT) {
        Ok(code) => written(alloc, &code, TEXT),
        Err(fault) => Tried::failed(fault == AsmFault::Memory),
    })?;
    let code = read(alloc, TEXT).ok().expect(&rt, "code");
    sweep_call(alloc, "write", || written(alloc, &code, TEXT))
}
