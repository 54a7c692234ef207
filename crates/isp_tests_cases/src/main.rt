//! What must come out, as data: the words name files, and the folder of a file says what its rows are.
//!
//! - In no folder of these, records of programs, which are judged, evaluated, compiled and run (isp_tests_programs);
//! - `texts/`, texts of code, which are read and written again (src/texts.rt);
//! - `files/`, files of arrays and images, which are read (src/files.rt);
//! - `lanes/`, a kernel in each, of whose code tables are found (src/lanes.rt);
//! - `connections/`, records of connections of a language server (src/connections.rt).
//!
//! Of each kind a line is printed for whatever differs, and then how many were tried and how many lines that were.
#![tactic(auto)]

mod connections;
mod files;
mod lanes;
mod texts;

use isp_tests_programs::Tried;
use std::alloc::{AllocError, Global};
use std::{env, fs, io};

/// What a file holds.
#[derive(Clone, Copy, PartialEq)]
enum Kind {
    Cases,
    Texts,
    Files,
    Lanes,
    Connections,
}

/// The kinds, and what each has.
const KINDS: [(Kind, &str); 5] = [
    (Kind::Cases, "cases"),
    (Kind::Texts, "texts"),
    (Kind::Files, "files"),
    (Kind::Lanes, "kernels"),
    (Kind::Connections, "connections"),
];

fn main(rt: HostRuntime) -> io::Result<()> {
    let words = env::args(&rt)?.collect::<Vec<String>>(rt.alloc())?;
    for (kind, name) in KINDS {
        let tried = all_of(&rt, words.as_slice(), kind)?;
        report(&rt, &tried, name)?;
    }
    Ok(())
}

// Tries the files of one kind, after the first word.
fn all_of(rt: &HostRuntime, words: &[String], kind: Kind) -> io::Result<Tried> {
    let mut tried = Tried::new(rt.alloc());
    for word in words.iter().skip(1) {
        if kind_of(word.as_str()) == kind {
            let text = fs::read_to_string(rt, word)?;
            follow(rt.alloc(), kind, text.as_str(), &mut tried)?;
        }
    }
    Ok(tried)
}

fn kind_of(word: &str) -> Kind {
    match folder_of(word) {
        "texts" => Kind::Texts,
        "files" => Kind::Files,
        "lanes" => Kind::Lanes,
        "connections" => Kind::Connections,
        _ => Kind::Cases,
    }
}

// The folder in which a file stands, where one is named.
fn folder_of(word: &str) -> &str {
    let Some((path, _name)) = word.rsplit_once('/') else {
        return "";
    };
    match path.rsplit_once('/') {
        Some((_above, folder)) => folder,
        None => path,
    }
}

fn follow(alloc: Global, kind: Kind, text: &str, tried: &mut Tried) -> Result<(), AllocError> {
    match kind {
        Kind::Cases => isp_tests_programs::follow(alloc, text, tried),
        Kind::Texts => texts::follow(alloc, text, tried),
        Kind::Files => files::follow(alloc, text, tried),
        Kind::Lanes => lanes::follow(alloc, text, tried),
        Kind::Connections => connections::follow(alloc, text, tried),
    }
}

// What differs, and how many were tried, if any were.
fn report(rt: &HostRuntime, tried: &Tried, name: &str) -> io::Result<()> {
    for line in &tried.differences {
        println!(rt; "{line}")?;
    }
    if tried.count > 0 {
        println!(rt;
            "{} {name}, {} differ",
            tried.count,
            tried.differences.len()
        )?;
    }
    Ok(())
}
