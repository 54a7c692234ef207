//! Runs whose output goes to a sink while they run: what went out, and how they end, where it takes little or fails.
use crate::fakes::Page;
use isp_base::{Gang, Span, Trap, TrapKind};
use isp_engine::{Ending, Image, Report, RunFault, Sink, compile, load_code, run_to};
use std::alloc::Global;
use std::process::Abort;

// Each turn says `x` by one instruction and jumps back by another, for ever.
const ENDLESS: &str = "isp 1 gang 4\ntext 78\nfunc f export void\nm 1\nsay t0\njmp L0\nend\n";

/// Says `0,2,3,` and ends.
pub(crate) const SHORT: &str =
    "isp 1 gang 4\ntext 302c\ntext 322c\ntext 332c\nfunc f export void\nm 1\nsay t0\nsay t1\nsay t2\nret -\nend\n";

pub(crate) const SENT: &str = "0,2,3,{\"arrays\":{},\"result\":null}\n";

// Says `ab`, and traps where the place is 0..4.
const TRAPPED: &str =
    "isp 1 gang 4\nplace 0 4\ntext 6162\nfunc f export void\nm 1\nsay t0\nfail m0 p0\nret -\nend\n";

// Programs whose runs are these.
const ENDLESS_SOURCE: &str = "export void f() { while (true) print(\"x\"); }";

const SHORT_SOURCE: &str =
    "export void f() { if (programIndex != 1) foreach_active (i) print(\"%,\", i); }";

/// Code of a text that is not refused.
pub(crate) fn image(rt: &impl Abort, alloc: Global, text: &str) -> Image {
    load_code(alloc, text).ok().expect(rt, "no code text")
}

fn compiled(rt: &impl Abort, alloc: Global, text: &str) -> Image {
    compile(alloc, text, Gang::W4).ok().expect(rt, "no code")
}

fn runs_entry(
    alloc: Global,
    image: &Image,
    entry: &str,
    json: &str,
    budget: u64,
    out: &mut Page,
) -> Result<Report, RunFault> {
    out.has_failed = false;
    run_to(alloc, image, entry, json, budget, out)
}

/// Runs `f` without arguments.
pub(crate) fn runs(
    alloc: Global,
    image: &Image,
    budget: u64,
    out: &mut Page,
) -> Result<Report, RunFault> {
    runs_entry(alloc, image, "f", "{}", budget, out)
}

// A run that has a report, whatever the sink took.
fn report_of(rt: &impl Abort, alloc: Global, image: &Image, budget: u64, out: &mut Page) -> Report {
    runs(alloc, image, budget, out).expect(rt, "no report")
}

// All of it goes out, in few bytes a write, and the sink has not failed.
#[test]
fn a_few_bytes_a_write(rt: HostRuntime) {
    let alloc = rt.alloc();
    let image = image(&rt, alloc, SHORT);
    for step in [1, 2, 3, 7, 100] {
        let mut out = Page::new(alloc, 100_000, step);
        let report = report_of(&rt, alloc, &image, 1000, &mut out);
        assert!(rt; out.bytes.as_slice() == SENT.as_bytes() && !out.has_failed);
        assert!(rt; SENT.as_bytes().starts_with(report.output.as_slice()));
    }
}

// What a sink took of a run that ends where it takes no more: 81.
fn cut(rt: &impl Abort, alloc: Global, image: &Image, budget: u64, mut out: Page) -> Vec<u8> {
    let fault = runs(alloc, image, budget, &mut out).err();
    assert!(rt; fault == Some(RunFault::WriteFailed) && out.has_failed);
    out.bytes
}

// How many bytes a sink takes a write, and whether it answers 0 where it takes none.
const STEPS: [(usize, bool); 4] = [(1, false), (5, false), (100, false), (100, true)];

// A sink that takes so many bytes and then no more has the first of what is sent.
fn fails_behind(rt: &impl Abort, alloc: Global, image: &Image, room: usize) {
    for (step, is_quiet) in STEPS {
        let mut out = Page::new(alloc, room, step);
        out.is_quiet = is_quiet;
        let bytes = cut(rt, alloc, image, 1000, out);
        assert!(rt;
            SENT.as_bytes().get(..room) == Some(bytes.as_slice()),
            "with room for {room}"
        );
    }
}

// The same of each number, and of a sink that takes all.
fn fails_behind_each(rt: &impl Abort, alloc: Global, image: &Image) {
    for room in 0..SENT.len() {
        fails_behind(rt, alloc, image, room);
    }
    let mut out = Page::new(alloc, SENT.len(), 100);
    let report = report_of(rt, alloc, image, 1000, &mut out);
    assert_eq!(rt; report.ending, Ending::Ended);
    assert!(rt; report.output.as_slice() == b"0,2,3,".as_slice());
}

#[test]
fn failing_behind_each_byte(rt: HostRuntime) {
    let alloc = rt.alloc();
    let code = image(&rt, alloc, SHORT);
    fails_behind_each(&rt, alloc, &code);
    let source = compiled(&rt, alloc, SHORT_SOURCE);
    fails_behind_each(&rt, alloc, &source);
}

// How many bytes a sink takes, how many a write, and whether it answers 0 where it takes none.
const ROOMS: [(usize, usize, bool); 8] = [
    (0, 1, false),
    (10, 1, false),
    (10, 4, false),
    (10, 100, false),
    (5_000, 3_000, false),
    (0, 100, true),
    (10, 100, true),
    (5_000, 10_000, true),
];

// A program that prints for ever ends with the first write that fails or takes no byte, whatever the budget.
fn ends_with_the_sink(rt: &impl Abort, alloc: Global, image: &Image) {
    for (room, step, is_quiet) in ROOMS {
        let mut out = Page::new(alloc, room, step);
        out.is_quiet = is_quiet;
        let bytes = cut(rt, alloc, image, u64::MAX, out);
        assert!(rt; bytes.len() == room && bytes.iter().all(|byte| *byte == b'x'));
    }
}

#[test]
fn without_an_end(rt: HostRuntime) {
    let alloc = rt.alloc();
    let code = image(&rt, alloc, ENDLESS);
    ends_with_the_sink(&rt, alloc, &code);
    let source = compiled(&rt, alloc, ENDLESS_SOURCE);
    ends_with_the_sink(&rt, alloc, &source);
}

// No answer goes out after a trap, and the report has none.
#[test]
fn trap(rt: HostRuntime) {
    let alloc = rt.alloc();
    let image = image(&rt, alloc, TRAPPED);
    let mut out = Page::new(alloc, 1000, 100);
    let report = report_of(&rt, alloc, &image, 1000, &mut out);
    let trap = Trap {
        kind: TrapKind::Assert,
        place: Span { start: 0, end: 4 },
        instance: 0,
    };
    assert!(rt; report.ending == Ending::Trapped(trap) && report.answer.is_none());
    assert!(rt; out.bytes.as_slice() == b"ab".as_slice());
}

// The output of so many instructions, about the places where what is new of it goes out: each odd instruction says one
// byte.
#[test]
fn budgets(rt: HostRuntime) {
    let alloc = rt.alloc();
    let image = image(&rt, alloc, ENDLESS);
    for (budget, bytes) in BUDGETS {
        let mut out = Page::new(alloc, 100_000, 1000);
        let report = report_of(&rt, alloc, &image, budget, &mut out);
        assert!(rt; report.ending == Ending::Running && report.answer.is_none());
        assert!(rt;
            out.bytes.len() == bytes && report.output.len() == bytes,
            "with {budget} instructions"
        );
        assert!(rt; out.bytes.iter().all(|byte| *byte == b'x'));
    }
}

const BUDGETS: [(u64, usize); 10] = [
    (0, 0),
    (1, 1),
    (2, 1),
    (5, 3),
    (4_095, 2_048),
    (4_096, 2_048),
    (4_097, 2_049),
    (8_192, 4_096),
    (8_193, 4_097),
    (12_289, 6_145),
];

// 50 and 70 to 76 send nothing: the entry, the arguments, and the refusal.
const REFUSED: [(&str, &str, &str); 4] = [
    ("g", "{", "50 NoEntry"),
    ("f", "{", "70 NotJson"),
    ("f", "[]", "71 NotObject"),
    ("f", "{\"x\":1}", "73 Extra"),
];

#[test]
fn refusals(rt: HostRuntime) {
    let alloc = rt.alloc();
    let image = image(&rt, alloc, SHORT);
    for (entry, json, wanted) in REFUSED {
        let mut out = Page::new(alloc, 1000, 100);
        let fault = runs_entry(alloc, &image, entry, json, 1000, &mut out).err();
        let fault = fault.expect(&rt, "it ran");
        let text = format!(in alloc; "{fault}").expect(&rt, "memory");
        assert!(rt; text.as_str() == wanted, "{text}");
        assert!(rt; out.bytes.is_empty() && !out.has_failed);
    }
}
