//! Tables of the kernels of examples/: they are found and looked at, and the writes of vectors are counted.
//!
//! A file is a line of what must come out, and code text: whether the check takes its tables, and of how many writes of vectors the
//! mask is known to be full, lanes that are off are read by nobody (free), the whole is read by nobody (useless), and the lanes
//! that are off have to be kept (select).
use isp_asm::read;
use isp_code::{Class, Code, Function};
use isp_lanes_read::{LaneSet, Tables, check, find, written};
use isp_tests_programs::Tried;
use isp_tests_support::parted;
use std::alloc::{AllocError, Global};

// The writes of vectors, by what a translator makes of them.
#[derive(Clone, Copy)]
struct Writes {
    full: u64,
    free: u64,
    useless: u64,
    select: u64,
}

/// Tries a file.
pub(crate) fn follow(alloc: Global, text: &str, tried: &mut Tried) -> Result<(), AllocError> {
    tried.begin();
    let (wanted, text) = parted(text, '\n');
    let found = found(alloc, text)?;
    if found.as_str() != wanted {
        tried.differ(format!(in alloc; "{found}, not {wanted}")?)?;
    }
    Ok(())
}

// What is told of a code text.
fn found(alloc: Global, text: &str) -> Result<String, AllocError> {
    let Ok(code) = read(alloc, text) else {
        return String::from_str(alloc, "no code");
    };
    let tables = find(alloc, &code)?;
    let taken = if check(&code, &tables) {
        "taken"
    } else {
        "refused"
    };
    let writes = counted(&code, &tables);
    format!(in alloc;
        "{taken}, {} full, {} free, {} useless, {} select",
        writes.full, writes.free, writes.useless, writes.select
    )
}

// The writes of all functions.
fn counted(code: &Code, tables: &Tables) -> Writes {
    let mut writes = Writes {
        full: 0,
        free: 0,
        useless: 0,
        select: 0,
    };
    for (f, function) in code.functions().iter().enumerate() {
        count(&mut writes, tables, f, function);
    }
    writes
}

// The writes of one function.
fn count(writes: &mut Writes, tables: &Tables, f: usize, function: &Function) {
    for (pc, instr) in function.code.iter().enumerate() {
        if let Some(write) = written(instr) {
            if tables.is_useless(f, pc, instr) {
                writes.useless = writes.useless.saturating_add(1);
            } else if tables.is_within(f, pc, LaneSet::Gang, write.lanes) {
                writes.full = writes.full.saturating_add(1);
            } else if tables.is_free(f, pc, instr) {
                writes.free = writes.free.saturating_add(1);
            } else {
                writes.select = writes.select.saturating_add(1);
            }
        }
    }
}
