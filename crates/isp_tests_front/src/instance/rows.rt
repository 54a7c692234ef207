//! What a record of the table says, and its comparison with a run.
use super::touched::{Named, arrays_of, read, stored};
use crate::programs::program;
use isp_base::Gang;
use isp_bind::bind;
use isp_solo_run::arrays::Arrays;
use isp_solo_run::running::{Ending, Run, run_alone};
use isp_tests_support::{Marked, number};
use std::alloc::{AllocError, Global};
use std::process::Abort;
use std::test::Fail;

/// A program, how one instance runs it, and what comes out.
#[derive(Clone, Copy)]
struct Row<'a> {
    /// What the program shows.
    name: &'a str,
    call: Call<'a>,
    /// How the run ends: the first word, and what it is said with.
    ending: &'a str,
    /// The elements that it stored in, with what it stored.
    stored: &'a str,
    /// The elements that it read.
    read: &'a str,
    /// The source, with the place of a trap in brackets.
    source: &'a str,
}

/// How a program is run.
#[derive(Clone, Copy)]
pub(crate) struct Call<'a> {
    pub gang: Gang,
    pub entry: &'a str,
    pub instance: usize,
    /// How many turns each loop may make each time it is entered.
    pub turns: u64,
    /// The arguments in JSON.
    pub arguments: &'a str,
}

// How the third line of a record says that a program is run.
fn called(line: &str) -> Option<Call<'_>> {
    let (lanes, rest) = line.split_once(' ')?;
    let (entry, rest) = rest.split_once(' ')?;
    let (instance, rest) = rest.split_once(' ')?;
    let (turns, arguments) = rest.split_once(' ')?;
    Some(Call {
        gang: Gang::of_width(number(lanes)? as usize)?,
        entry,
        instance: number(instance)? as usize,
        turns: number(turns)?,
        arguments,
    })
}

// What a record says: the working is for the reader alone.
fn row_of(record: &str) -> Option<Row<'_>> {
    let (name, rest) = record.split_once('\n')?;
    let (_working, rest) = rest.split_once('\n')?;
    let (line, rest) = rest.split_once('\n')?;
    let (ending, rest) = rest.split_once('\n')?;
    let (stored, rest) = rest.split_once('\n')?;
    let (read, source) = rest.split_once('\n')?;
    Some(Row {
        name,
        call: called(line)?,
        ending,
        stored,
        read,
        source,
    })
}

/// What a run came to, in the words of a record, and its arrays for the run after it.
#[derive(Drop)]
struct Found {
    ending: String,
    stored: String,
    read: String,
    arrays: Arrays,
}

// How a run ended.
fn told(alloc: Global, ending: Ending) -> Result<String, AllocError> {
    match ending {
        Ending::Gave(bits) => format!(in alloc; "gives {bits}"),
        Ending::Trapped(trap) => format!(in alloc; "{trap}"),
        Ending::Cut => String::from_str(alloc, "cut"),
    }
}

// What a run came to, in words.
fn worded(alloc: Global, arrays: &[Named<'_>], run: Run) -> Result<Found, AllocError> {
    Ok(Found {
        ending: told(alloc, run.ending)?,
        stored: stored(alloc, arrays, &run.arrays)?,
        read: read(alloc, arrays, &run.arrays)?,
        arrays: run.arrays,
    })
}

// The run of a source by one instance, with the arrays of an earlier run.
fn found_by(alloc: Global, source: &str, call: Call<'_>, arrays: Arrays) -> Result<Found, Fail> {
    let checked = program(alloc, source, call.gang)?;
    let (Some(signature), Some(number)) = (checked.signature(call.entry), checked.entry(call.entry))
    else {
        return Err(Fail::from("no such entry"));
    };
    let bound = bind(alloc, signature, call.arguments)?;
    let arguments = bound.arguments.as_slice();
    let names = arrays_of(alloc, signature.params.as_slice(), arguments)?;
    let run = run_alone(
        checked.program(),
        number,
        arguments,
        call.turns,
        call.instance,
        arrays,
    )?;
    Ok(worded(alloc, names.as_slice(), run)?)
}

// What a record says of the end of a run; a trap has the source's place, and names the instance.
fn wanted(alloc: Global, marked: &Marked, row: Row<'_>) -> Result<String, AllocError> {
    match row.ending.strip_prefix("traps ") {
        Some(kind) => format!(in alloc;
            "trap {kind} at {}..{}, instance {}",
            marked.start, marked.end, row.call.instance
        ),
        None => String::from_str(alloc, row.ending),
    }
}

fn same(rt: &impl Abort, name: &str, found: &str, wanted: &str) {
    assert!(rt; found == wanted, "{name}: {found}, not {wanted}");
}

// Runs the program of a row and compares what comes out.
fn compare(rt: &impl Abort, alloc: Global, row: Row<'_>, arrays: Arrays) -> Result<Arrays, Fail> {
    let marked = Marked::new(alloc, row.source)?;
    let ending = wanted(alloc, &marked, row)?;
    let found = found_by(alloc, marked.source.as_str(), row.call, arrays)?;
    same(rt, row.name, found.ending.as_str(), ending.as_str());
    same(rt, row.name, found.stored.as_str(), row.stored);
    same(rt, row.name, found.read.as_str(), row.read);
    Ok(found.arrays)
}

fn compare_record(
    rt: &impl Abort,
    alloc: Global,
    record: &str,
    arrays: Arrays,
) -> Result<Arrays, Fail> {
    match row_of(record) {
        Some(row) => compare(rt, alloc, row, arrays),
        None => Err(Fail::from("a record that says too little")),
    }
}

/// Each of so many records of a table, each run with the arrays that the run before it left.
pub(crate) fn compare_all(
    rt: &impl Abort,
    alloc: Global,
    table: &str,
    count: usize,
) -> Result<(), Fail> {
    let mut left = count;
    let mut arrays = Arrays::new(alloc);
    for record in table.split("=== ") {
        if !record.is_empty() {
            arrays = compare_record(rt, alloc, record, arrays)?;
            let Some(fewer) = left.checked_sub(1) else {
                return Err(Fail::from("more records than there should be"));
            };
            left = fewer;
        }
    }
    assert!(rt; left == 0, "{left} records are not there");
    Ok(())
}
