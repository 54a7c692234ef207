//! What is said of a run that does not end well.
use crate::given::given_message;
use crate::stop::{RunStop, Slip};
use isp_base::Signature;
use isp_messages::{Message, Source, entry_message, fault_message, source_message, trap_message};
use isp_run_words::{OutputFault, RunWords};
use std::alloc::{AllocError, Global};

/// What a program exports, as far as a message tells of it.
#[derive(Drop)]
pub struct Exports<'c> {
    /// The names of the exported functions.
    pub names: Vec<&'c str>,
    /// What the entry takes, where it is one of them.
    pub signature: Option<&'c Signature>,
}

/// What is said of a run that does not end well, for people or for tools: `text` is that of the source, as far as it was read.
pub fn stop_text(
    alloc: Global,
    request: &RunWords<'_>,
    text: &str,
    exports: &Exports<'_>,
    stop: &RunStop<'_>,
) -> Result<String, AllocError> {
    let source = Source {
        name: request.source,
        text,
    };
    let message = message(alloc, request, source, exports, stop)?;
    if request.is_json {
        message.json(alloc, stop.status())
    } else {
        message.text(alloc)
    }
}

fn message<'n, 't>(
    alloc: Global,
    request: &RunWords<'n>,
    source: Source<'n, 't>,
    exports: &Exports<'_>,
    stop: &RunStop<'n>,
) -> Result<Message<'n, 't>, AllocError> {
    match stop {
        RunStop::Source(fault) => source_message(alloc, source, *fault),
        RunStop::Trapped { trap, element } => trap_message(alloc, source, *trap, *element),
        RunStop::NoEntry => entry_message(alloc, source, request.entry, &exports.names),
        RunStop::BadWord { word, slip } => {
            let (sentence, fix) = slip.text();
            word_message(alloc, "the word", word, sentence, fix)
        }
        RunStop::NotPlanned { word, fault } => {
            let (sentence, fix) = output_text(*fault);
            word_message(alloc, "the output", word, sentence, fix)
        }
        RunStop::NotGiven { words, fault } => {
            given_message(alloc, request, exports.signature, words, *fault)
        }
        _ => plain_message(alloc, stop),
    }
}

// Of what has no place.
fn plain_message<'n, 't>(alloc: Global, stop: &RunStop<'n>) -> Result<Message<'n, 't>, AllocError> {
    match stop {
        RunStop::BudgetUsed => fault_message(alloc, "budget used", ""),
        RunStop::CannotRead(name) => fault_message(alloc, "cannot read", name),
        RunStop::CannotWrite(name) => fault_message(alloc, "cannot write", name),
        RunStop::NoOutput => fault_message(alloc, "cannot write", ""),
        _ => fault_message(alloc, "memory", ""),
    }
}

fn word_message<'n, 't>(
    alloc: Global,
    what: &str,
    word: &str,
    sentence: &str,
    fix: &str,
) -> Result<Message<'n, 't>, AllocError> {
    let mut message = Message::new(alloc, format!(in alloc; "{what} {word}")?);
    message.sentence.push_str(sentence)?;
    message.fix.push_str(fix)?;
    Ok(message)
}

impl Slip {
    // What is wrong, and what to write instead.
    fn text(self) -> (&'static str, &'static str) {
        match self {
            Slip::NoName => (
                "A word behind the entry is NAME=VALUE, for a parameter.",
                "write the name of the parameter and `=` before the value, as in `n=5`.",
            ),
            Slip::NotAlone => (
                "It holds all arguments, and other words stand beside it.",
                "leave the others out, or name the parameter, `a=@FILE`.",
            ),
            Slip::NoObject => (
                "It has no name, so it has to hold all arguments: a JSON object in a file whose name ends in .json.",
                "name the parameter, `a=@FILE`.",
            ),
            Slip::NoFormat => (
                "The format of a file is known by the ending of its name: .json, .npy, .pgm or .ppm.",
                "save the file in one of these formats.",
            ),
            Slip::NoLength => (
                "In `zeros(..)` stand lengths, with `*` between them, whose product is at most 18446744073709551615.",
                "write numbers, as in `zeros(1920*1080)`, and no names.",
            ),
            Slip::NoEquals => (
                "An output is NAME=FILE: an array, and the file that it goes to.",
                "write the name of the array and `=` before the file.",
            ),
            Slip::SameFile => ("Another array goes to the same file.", "give each its own."),
        }
    }
}

// Why an array cannot go to its file, and what to do.
fn output_text(fault: OutputFault) -> (&'static str, &'static str) {
    match fault {
        OutputFault::Memory => ("", ""),
        OutputFault::NoArray => (
            "No array parameter has the name.",
            "write the name of an array as the head of the function has it.",
        ),
        OutputFault::NoSamples => (
            "An image holds uint8 or uint16, and the array has another type.",
            "write a file that ends in .npy, or declare the array `uint8`.",
        ),
        OutputFault::NoSize => (
            "Nothing says how high and how wide the image is.",
            "the height and the width are those of an image among the arguments with as many places, or the values of\nparameters that are called `height` and `width`. Else write a file that ends in .npy.",
        ),
    }
}
