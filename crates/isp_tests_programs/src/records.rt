//! Programs with what must come out: each is judged, evaluated, compiled and run.
//!
//! A record is the lines from `=== ` and its name on. Each line begins with a word that says what it is:
//!
//! - `.` how what comes out was found, for the reader alone;
//! - `source` the text, where `␤` is a line feed, `␉` a tab, and a trap's place stands between `⟦` and `⟧`;
//! - `gang` how many instances run it, `entry` the function that is run, `arguments` its arguments in JSON;
//! - `turns` how many turns each loop may make each time it is entered, `writes` what the run writes;
//! - `budget` how many instructions its code may run, where no work is said or another number is meant;
//! - `running` numbers of instructions after which the code goes on, and has written nothing: each is a case;
//! - `code` how many lines of the code's text begin with a word, at least, that word, and a number of lines that the text has fewer than;
//! - `lines` how many lines of the code's text begin with a word, and that word.
//!
//! Then comes what must come out: `work` the work of the run; `refused` and the fault of the source, `accepted` where no entry is run, `unbound` and the fault of the
//! arguments, `ends` and the answer, `traps` with the kind, the instance and the arrays as an answer without a result, or `cut`. Lines
//! after it may say other turns and what must come out then. `alone` says that the instances, each run alone one by one, end with the same answer; where they
//! do, in any record, it has to be the gang's, from 0 up and from the last down. After `alone` may stand what the instances come to, by itself: `ends` or `traps` as
//! above, `cut` and the instance, `clash` with the places of the parameter and the element, or `rule` and the number of the rule that the entry breaks, at the
//! place in the source.
//!
//! A text that is only judged stands in one line with what becomes of it, and inside the last `frame` in place of its `…`: `accepts TEXT`;
//! `refuses 20 UnknownName|TEXT`, where the place of the fault stands between `⟦` and `⟧`; `compiles TEXT`; and `rejects`, which is `refuses` of the whole
//! way to code. Each line that says what must come out is a case.
use crate::case::Case;
use crate::tried::Tried;
use std::alloc::{AllocError, Global};

/// Tries the records of a file, whose text this is.
pub fn follow(alloc: Global, text: &str, tried: &mut Tried) -> Result<(), AllocError> {
    for record in text.split("=== ").skip(1) {
        follow_record(alloc, record, tried)?;
    }
    Ok(())
}

fn follow_record(alloc: Global, record: &str, tried: &mut Tried) -> Result<(), AllocError> {
    let mut lines = record.split('\n');
    let mut case = Case::new(alloc, lines.next().unwrap_or(""));
    for line in lines {
        case.follow(line, tried)?;
    }
    Ok(())
}
