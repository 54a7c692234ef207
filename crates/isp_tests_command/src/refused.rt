//! Memory refused to each call of the engine, at each growth.
ghost use Rattle.std.specs.Prelude.{◌≡◌, false};

use crate::commands::{ANSWER, FILES, words};
use crate::fakes::{Page, Shelf};
use crate::reading::{TEXT, gives};
use crate::writes::{SENT, SHORT, image, runs};
use isp_asm::write;
use isp_base::Gang;
use isp_commands::command;
use isp_engine::{
    CodeFault, Ending, FileFault, Image, Report, RunFault, compile, execute, front, load_code,
    read_text,
};
use isp_lex::SourceFault;
use isp_masks::lower;
use isp_tests_support::{INC, LOCAL_ARRAY, Program, Tried, UNIQUE, sweep_call};
use std::alloc::Global;
use std::process::Abort;
use std::test::Fail;

/// More instructions than any of the programs makes.
const BUDGET: u64 = 10_000;

/// Code that was written by hand, in place of a source.
const SCATTER: Program<'static> = Program {
    source: "isp 1 gang 4\nplace 0 4\nfunc f export void\npar a i32 a\nv i32 i64\nm 1\nindex v0 m0\nconv v1 v0 m0\nscatter a0 v1 v0 m0 p0\nret -\nend\n",
    entry: "f",
    arguments: "{\"a\":[9,9,9,9]}",
    answer: "{\"arrays\":{\"a\":[0,1,2,3]},\"result\":null}",
    output: "",
};

fn is_right(report: &Report, program: &Program<'_>) -> bool {
    match (&report.ending, &report.answer) {
        (Ending::Ended, Some(text)) => {
            text.as_str() == program.answer && report.output.as_slice() == program.output.as_bytes()
        }
        _ => false,
    }
}

fn executed(alloc: Global, image: &Image, program: &Program<'_>) -> Tried {
    match execute(alloc, image, program.entry, program.arguments, BUDGET) {
        Ok(report) => Tried::answered(is_right(&report, program)),
        Err(fault) => Tried::failed(fault == RunFault::Memory),
    }
}

// What comes of a source, by its run.
fn compiled(alloc: Global, program: &Program<'_>) -> Tried {
    match compile(alloc, program.source, Gang::W4) {
        Ok(image) => executed(alloc, &image, program),
        Err(fault) => Tried::failed(fault == SourceFault::Memory),
    }
}

// What comes of code text, by its run.
fn loaded(alloc: Global, text: &str, program: &Program<'_>) -> Tried {
    match load_code(alloc, text) {
        Ok(image) => executed(alloc, &image, program),
        Err(fault) => Tried::failed(fault == CodeFault::Memory),
    }
}

// What comes of the text of code, beside one that was written before.
fn texted(alloc: Global, image: &Image, text: &str) -> Tried {
    match image.text(alloc) {
        Ok(again) => Tried::answered(again.as_str() == text),
        Err(_) => Tried::Refused,
    }
}

// What comes of the judgement of a source.
fn fronted(alloc: Global, program: &Program<'_>) -> Tried {
    match front(alloc, program.source, Gang::W4) {
        Ok(checked) => Tried::answered(checked.signature(program.entry).is_some()),
        Err(fault) => Tried::failed(fault == SourceFault::Memory),
    }
}

/// The calls that are tried of a program.
#[derive(Clone, Copy)]
enum Call {
    Front,
    Lower,
    Compile,
    Execute,
    Text,
    LoadCode,
}

const CALLS: [(&str, Call); 6] = [
    ("front", Call::Front),
    ("lower", Call::Lower),
    ("compile", Call::Compile),
    ("execute", Call::Execute),
    ("text", Call::Text),
    ("load_code", Call::LoadCode),
];

// What comes of the code that a program is lowered to, by its text and its run.
fn lowered(alloc: Global, program: &Program<'_>) -> Tried {
    let Ok(checked) = front(alloc, program.source, Gang::W4) else {
        return Tried::Refused;
    };
    let Ok(code) = lower(alloc, &checked) else {
        return Tried::Refused;
    };
    match write(alloc, &code) {
        Ok(text) => loaded(alloc, text.as_str(), program),
        Err(_) => Tried::Refused,
    }
}

// What comes of a call, beside the code and its text that were made before.
fn tried(alloc: Global, call: Call, program: &Program<'_>, image: &Image, text: &str) -> Tried {
    match call {
        Call::Front => fronted(alloc, program),
        Call::Lower => lowered(alloc, program),
        Call::Compile => compiled(alloc, program),
        Call::Execute => executed(alloc, image, program),
        Call::Text => texted(alloc, image, text),
        Call::LoadCode => loaded(alloc, text, program),
    }
}

fn swept(rt: &impl Abort, alloc: Global, program: &Program<'_>) -> Result<(), Fail> {
    let image = compile(alloc, program.source, Gang::W4)
        .ok()
        .expect(rt, "no code");
    let text = image.text(alloc).expect(rt, "memory");
    for (name, call) in CALLS {
        sweep_call(alloc, name, || {
            tried(alloc, call, program, &image, text.as_str())
        })?;
    }
    Ok(())
}

#[test]
fn memory_refused_to_programs(rt: HostRuntime) -> Result<(), Fail> {
    for program in &[INC, LOCAL_ARRAY, UNIQUE] {
        swept(&rt, rt.alloc(), program)?;
    }
    Ok(())
}

#[test]
fn memory_refused_to_code_by_hand(rt: HostRuntime) -> Result<(), Fail> {
    let alloc = rt.alloc();
    sweep_call(
        alloc,
        "load_code",
        || loaded(alloc, SCATTER.source, &SCATTER),
    )
}

// Takes what a page has away, and gives it room.
fn empty(page: &mut Page)
    ensures { page.new.has_failed ≡ false }
{
    page.bytes.clear();
    page.room = 1000;
    page.has_failed = false;
}

// What goes out of a run that is refused is the beginning of what is sent.
fn sent(alloc: Global, image: &Image, out: &mut Page) -> Tried {
    empty(out);
    match runs(alloc, image, 1000, out) {
        Ok(report) => Tried::answered(
            report.ending == Ending::Ended && out.bytes.as_slice() == SENT.as_bytes(),
        ),
        Err(fault) => Tried::failed(
            fault == RunFault::Memory
                && SENT.as_bytes().starts_with(out.bytes.as_slice())
                && out.bytes.len() < SENT.len(),
        ),
    }
}

#[test]
fn memory_refused_to_run_to(rt: HostRuntime) -> Result<(), Fail> {
    let alloc = rt.alloc();
    let image = image(&rt, alloc, SHORT);
    let mut out = page(&rt, alloc);
    sweep_call(alloc, "run_to", || sent(alloc, &image, &mut out))
}

fn text_read(alloc: Global) -> Tried {
    match read_text(alloc, &mut gives(TEXT.as_bytes(), 3), 100) {
        Ok(text) => Tried::answered(text.as_str() == TEXT),
        Err(fault) => Tried::failed(fault == FileFault::Memory),
    }
}

// What is read goes through 65,536 bytes, which are the first growth; what is kept of it is the second.
#[test]
fn memory_refused_to_read_text(rt: HostRuntime) -> Result<(), Fail> {
    let alloc = rt.alloc();
    sweep_call(alloc, "read_text", || text_read(alloc))
}

// What comes of a request: all that is to be sent, or a line that says that memory was refused, and nothing else.
fn asked(alloc: Global, words: &[String], wanted: &str, out: &mut Page, err: &mut Page) -> Tried {
    empty(out);
    empty(err);
    let files = Shelf { files: &FILES };
    match command(alloc, words, &files, out, err) {
        0 => Tried::answered(out.bytes.as_slice() == wanted.as_bytes() && err.bytes.is_empty()),
        7 => Tried::failed(
            out.bytes.is_empty() && err.bytes.as_slice() == b"isp: memory\n".as_slice(),
        ),
        _ => Tried::Wrong,
    }
}

/// The commands, and what each sends. The code of double.ispc is as docs/MACHINE.md shows it.
const COMMANDS: [(&str, &str); 5] = [
    ("isp run double.ispc f four.json", ANSWER),
    ("isp solo double.ispc f four.json", ANSWER),
    (
        "isp exec scatter.isp f nines.json",
        "{\"arrays\":{\"a\":[0,1,2,3]},\"result\":null}\n",
    ),
    ("isp check double.ispc", "ok\nf independent\n"),
    ("isp asm double.ispc", DOUBLE_CODE),
];

const DOUBLE_CODE: &str = "isp 1 gang 4
place 51 66
place 33 48
func f export void
par a i32 a
s i64 i64 i32
v i64 i32 i32 i64 i32
m 3
const s0 0
const s1 0
vload v2 a0 s1 m0 p0
const s2 2
splat v4 s2 m0
mul v2 v2 v4 m0
const s2 1
splat v4 s2 m0
add v2 v2 v4 m0
vstore a0 s0 v2 m0 p1
ret -
end
";

// A sink that takes five bytes a write, and has its room already.
fn page(rt: &impl Abort, alloc: Global) -> Page
    ensures { result.has_failed ≡ false }
{
    let mut page = Page::new(alloc, 1000, 5);
    page.bytes.reserve(1000).expect(rt, "memory");
    page
}

#[test]
fn memory_refused_to_commands(rt: HostRuntime) -> Result<(), Fail> {
    let alloc = rt.alloc();
    let mut out = page(&rt, alloc);
    let mut err = page(&rt, alloc);
    for (line, wanted) in COMMANDS {
        let words = words(alloc, line).expect(&rt, "memory");
        sweep_call(
            alloc,
            line,
            || asked(alloc, words.as_slice(), wanted, &mut out, &mut err),
        )?;
    }
    Ok(())
}
