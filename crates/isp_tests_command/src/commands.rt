//! The whole program over sinks that fail or take a few bytes. tools/requests has what it
//! answers to each kind of request.
use crate::fakes::{Page, Shelf};
use isp_asm::{read, write};
use isp_commands::command;
use std::alloc::{AllocError, Global};
use std::process::Abort;

const DOUBLE: &str =
    "export void f(uniform int a[]) { a[programIndex] = a[programIndex] * 2 + 1; }";

/// The files in memory.
pub(crate) const FILES: [(&str, &str); 8] = [
    ("double.ispc", DOUBLE),
    (
        "endless.ispc",
        "export void f() { while (true) print(\"x\"); }",
    ),
    (
        "assert.ispc",
        "export void f() { print(\"a\"); assert(programIndex < 2); }",
    ),
    ("four.json", "{\"a\":[5,6,7,8]}"),
    ("three.json", "{\"a\":[5,6,7]}"),
    ("none.json", "{}"),
    ("nines.json", "{\"a\":[9,9,9,9]}"),
    (
        "scatter.isp",
        "isp 1 gang 4\nplace 0 4\nfunc f export void\npar a i32 a\nv i32 i64\nm 1\nindex v0 m0\nconv v1 v0 m0\nscatter a0 v1 v0 m0 p0\nret -\nend\n",
    ),
];

/// What the runs of double.ispc with four.json send.
pub(crate) const ANSWER: &str = "{\"arrays\":{\"a\":[11,13,15,17]},\"result\":null}\n";

/// The words of a line.
pub(crate) fn words(alloc: Global, line: &str) -> Result<Vec<String>, AllocError> {
    line.split(' ')
        .map(|word| String::from_str(alloc, word))
        .try_collect(alloc)
}

// A request: its words, the files, how many bytes standard output and standard error take, and whether the former then answers 0.
#[derive(Clone, Copy)]
struct Request<'a> {
    line: &'a str,
    files: &'a [(&'a str, &'a str)],
    room: usize,
    err_room: usize,
    is_quiet: bool,
}

// A request with the files in memory, and room for all.
fn asked(line: &str) -> Request<'_> {
    Request {
        line,
        files: &FILES,
        room: 100_000,
        err_room: 10_000,
        is_quiet: false,
    }
}

// What comes out of a request.
#[derive(Drop)]
struct Answer {
    status: u8,
    out: Vec<u8>,
    err: Vec<u8>,
}

impl Answer {
    fn is(&self, status: u8, out: &[u8], err: &[u8]) -> bool {
        self.status == status && self.out.as_slice() == out && self.err.as_slice() == err
    }
}

// Makes a request; the sinks take five bytes a write.
fn made(rt: &impl Abort, alloc: Global, request: Request<'_>) -> Answer {
    let words = words(alloc, request.line).expect(rt, "memory");
    let mut out = Page::new(alloc, request.room, 5);
    out.is_quiet = request.is_quiet;
    let mut err = Page::new(alloc, request.err_room, 5);
    let files = Shelf {
        files: request.files,
    };
    let status = command(alloc, words.as_slice(), &files, &mut out, &mut err);
    Answer {
        status,
        out: out.bytes,
        err: err.bytes,
    }
}

// No words: the text of clap begins so. All other words are in tools/requests.
#[test]
fn refused_words(rt: HostRuntime) {
    let answer = made(&rt, rt.alloc(), asked("isp"));
    assert_eq!(rt; answer.status, 2);
    assert!(rt; answer.out.is_empty());
    let beginning = "error: 'isp' requires a subcommand but one was not provided";
    assert!(rt; answer.err.starts_with(beginning.as_bytes()));
}

// Code text that is read and written alike.
fn goes_round(alloc: Global, text: &str) -> bool {
    match read(alloc, text) {
        Ok(code) => write(alloc, &code).is_ok_and(|again| again.as_str() == text),
        Err(_) => false,
    }
}

// The code of a source, written, read and run, does what the source does.
#[test]
fn assembled_and_executed_again(rt: HostRuntime) {
    let alloc = rt.alloc();
    let answer = made(&rt, alloc, asked("isp asm double.ispc"));
    assert_eq!(rt; answer.status, 0);
    let text = String::from_utf8(answer.out).ok().expect(&rt, "no text");
    assert!(rt; goes_round(alloc, text.as_str()));
    let request = Request {
        files: &[
            ("double.isp", text.as_str()),
            ("four.json", "{\"a\":[5,6,7,8]}"),
        ],
        ..asked("isp exec double.isp f four.json")
    };
    assert!(rt; made(&rt, alloc, request).is(0, ANSWER.as_bytes(), b""));
}

// The words, how many bytes standard output takes, and what must come out. With the greatest budget a program that prints for ever ends where the output
// takes no more; what is printed before a trap goes out.
const CASES: [(&str, usize, u8, &str, &str); 3] = [
    (
        "isp run double.ispc f four.json",
        7,
        6,
        "{\"array",
        "isp: cannot write\n",
    ),
    (
        "isp run --budget 18446744073709551615 endless.ispc f none.json",
        10,
        6,
        "xxxxxxxxxx",
        "isp: cannot write\n",
    ),
    (
        "isp run assert.ispc f none.json",
        1000,
        3,
        "a",
        "isp: trap assert at 30..54, instance 2\n",
    ),
];

#[test]
fn sinks_that_fail(rt: HostRuntime) {
    for (line, room, status, out, err) in CASES {
        let request = Request {
            room,
            ..asked(line)
        };
        let answer = made(&rt, rt.alloc(), request);
        assert!(rt; answer.is(status, out.as_bytes(), err.as_bytes()), "{line}");
    }
}

// A standard output that takes no more bytes, and says so by 0: 6, as where a write fails.
#[test]
fn sink_that_takes_no_byte(rt: HostRuntime) {
    for room in 0..ANSWER.len() {
        let request = Request {
            room,
            is_quiet: true,
            ..asked("isp run double.ispc f four.json")
        };
        let answer = made(&rt, rt.alloc(), request);
        let out = &ANSWER.as_bytes()[..room];
        assert!(rt; answer.is(6, out, b"isp: cannot write\n"), "{room}");
    }
}

// A program that prints for ever: what it printed goes out though it does not end, more with a greater budget.
#[test]
fn endless_print(rt: HostRuntime) {
    let mut least = 1;
    for line in [
        "isp run --budget 10000 endless.ispc f none.json",
        "isp run --budget 20000 endless.ispc f none.json",
    ] {
        let answer = made(&rt, rt.alloc(), asked(line));
        assert!(rt;
            answer.status == 4 && answer.err.as_slice() == b"isp: budget used\n".as_slice()
        );
        assert!(rt; answer.out.iter().all(|byte| *byte == b'x'));
        assert!(rt; answer.out.len() >= least);
        least = answer.out.len();
    }
}

// A standard error that takes so many bytes has the first of the line, and the status stays.
#[test]
fn line_cut_off(rt: HostRuntime) {
    let line = "isp: trap index at 51..66, instance 3\n".as_bytes();
    for room in 0..line.len() {
        let request = Request {
            err_room: room,
            ..asked("isp run double.ispc f three.json")
        };
        let answer = made(&rt, rt.alloc(), request);
        assert!(rt; answer.is(3, b"", &line[..room]), "{room}");
    }
}
