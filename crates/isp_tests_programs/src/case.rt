//! One record of cases, line by line.
use crate::alone::{downward, upward};
use crate::found::Found;
use crate::tried::Tried;
use crate::ways::{
    accepted, compiled, evaluated, executed, goes_on, is_read_back, is_sent, left, lines_with,
    worked,
};
use isp_base::Gang;
use isp_engine::{Image, compile};
use isp_tests_support::{Marked, number, parted, spelt_out};
use std::alloc::{AllocError, Global};

/// How far a text is judged: by names, types and rates, or to its code.
#[derive(Clone, Copy)]
enum Way {
    Front,
    Code,
}

/// What a line says, by its first word.
#[derive(Clone, Copy)]
enum Word {
    /// Something for the reader alone.
    Nothing,
    Source,
    Gang,
    Entry,
    Arguments,
    Turns,
    Work,
    Budget,
    Running,
    Code,
    Lines,
    Writes,
    Frame,
    Alone,
    Takes(Way),
    Refuses(Way),
    /// What must come out of a run.
    Comes,
}

const WORDS: [(&str, Word); 19] = [
    (".", Word::Nothing),
    ("", Word::Nothing),
    ("source", Word::Source),
    ("gang", Word::Gang),
    ("entry", Word::Entry),
    ("arguments", Word::Arguments),
    ("turns", Word::Turns),
    ("work", Word::Work),
    ("budget", Word::Budget),
    ("running", Word::Running),
    ("code", Word::Code),
    ("lines", Word::Lines),
    ("writes", Word::Writes),
    ("frame", Word::Frame),
    ("alone", Word::Alone),
    ("accepts", Word::Takes(Way::Front)),
    ("compiles", Word::Takes(Way::Code)),
    ("refuses", Word::Refuses(Way::Front)),
    ("rejects", Word::Refuses(Way::Code)),
];

fn word_of(text: &str) -> Word {
    for (known, word) in &WORDS {
        if *known == text {
            return *word;
        }
    }
    Word::Comes
}

/// What a record says, up to the line that was read last.
#[derive(Drop)]
pub(crate) struct Case<'a> {
    alloc: Global,
    name: &'a str,
    /// The source, with a place.
    pub marked: Marked,
    pub gang: Gang,
    pub entry: &'a str,
    pub arguments: String,
    pub turns: u64,
    /// The work of the run, where it is said.
    pub work: Option<u64>,
    /// How many instructions the code may run, where it is said.
    pub budget: Option<u64>,
    output: String,
    /// How the last run was to end.
    ending: String,
    /// The text in which those of the lines stand that are judged alone, in place of `…`.
    frame: &'a str,
}

impl<'a> Case<'a> {
    pub(crate) fn new(alloc: Global, name: &'a str) -> Case<'a> {
        Case {
            alloc,
            name,
            marked: Marked {
                source: String::new(alloc),
                start: 0,
                end: 0,
            },
            gang: Gang::W4,
            entry: "",
            arguments: String::new(alloc),
            turns: 0,
            work: None,
            budget: None,
            output: String::new(alloc),
            ending: String::new(alloc),
            frame: "…",
        }
    }

    /// Takes a line. One that says what must come out is tried, and what differs is added.
    pub(crate) fn follow(&mut self, line: &'a str, tried: &mut Tried) -> Result<(), AllocError> {
        let (word, rest) = parted(line, ' ');
        match word_of(word) {
            Word::Nothing => Ok(()),
            Word::Source => self.take(rest),
            Word::Gang => self.widen(rest, tried),
            Word::Entry => {
                self.entry = rest;
                Ok(())
            }
            Word::Arguments => {
                self.arguments = spelt_out(self.alloc, rest)?;
                Ok(())
            }
            Word::Turns => {
                self.turns = number(rest).unwrap_or(0);
                Ok(())
            }
            Word::Work => self.count(rest, tried),
            Word::Budget => {
                self.budget = number(rest);
                Ok(())
            }
            Word::Running => self.run_on(rest, tried),
            Word::Code => self.measure(rest, tried),
            Word::Lines => self.count_lines(rest, tried),
            Word::Writes => {
                self.output = spelt_out(self.alloc, rest)?;
                Ok(())
            }
            Word::Frame => {
                self.frame = rest;
                Ok(())
            }
            Word::Alone => self.compare_alone(rest, tried),
            Word::Takes(way) => self.judge(way, "", rest, tried),
            Word::Refuses(way) => {
                let (fault, text) = parted(rest, '|');
                self.judge(way, fault, text, tried)
            }
            Word::Comes => self.compare(word, rest, tried),
        }
    }

    fn take(&mut self, source: &str) -> Result<(), AllocError> {
        let text = spelt_out(self.alloc, source)?;
        self.marked = Marked::new(self.alloc, text.as_str())?;
        Ok(())
    }

    // Takes the width of a gang. It is a difference where there is no such gang.
    fn widen(&mut self, lanes: &str, tried: &mut Tried) -> Result<(), AllocError> {
        match Gang::of_width(number(lanes).unwrap_or(0) as usize) {
            Some(gang) => self.gang = gang,
            None => tried.differ(format!(in self.alloc; "{}: no gang of {lanes}", self.name)?)?,
        }
        Ok(())
    }

    // Tries a text inside the frame: its fault, none if it is empty.
    fn judge(
        &mut self,
        way: Way,
        fault: &str,
        text: &str,
        tried: &mut Tried,
    ) -> Result<(), AllocError> {
        let (before, after) = parted(self.frame, '…');
        let framed = format!(in self.alloc; "{before}{text}{after}")?;
        self.take(framed.as_str())?;
        let wanted = self.wanted_fault(fault)?;
        let found = match way {
            Way::Front => accepted(self.alloc, self)?,
            Way::Code => compiled(self.alloc, self)?,
        };
        tried.begin();
        if found != wanted {
            tried.differ(format!(in self.alloc; "{text}: {found}, not {wanted}")?)?;
        }
        Ok(())
    }

    // What is told of a source with a fault at its place, or without one.
    fn wanted_fault(&self, fault: &str) -> Result<String, AllocError> {
        if fault.is_empty() {
            return String::from_str(self.alloc, "accepted");
        }
        format!(in self.alloc; "{fault} at {}..{}", self.marked.start, self.marked.end)
    }

    // Tries a line that says the work of the run.
    fn count(&mut self, rest: &str, tried: &mut Tried) -> Result<(), AllocError> {
        tried.begin();
        self.work = number(rest);
        let found = worked(self.alloc, self);
        if found != self.work {
            let found = found.unwrap_or(0);
            tried.differ(format!(in self.alloc; "{}: work {found}, not {rest}", self.name)?)?;
        }
        Ok(())
    }

    // Tries a line that says how many lines of the code's text begin with a word, at least, and than how many lines it has fewer.
    fn measure(&self, rest: &str, tried: &mut Tried) -> Result<(), AllocError> {
        let (least, rest) = parted(rest, ' ');
        let (word, most) = parted(rest, ' ');
        tried.begin();
        let Some((found, lines)) = lines_with(self.alloc, self, word) else {
            return tried.differ(format!(in self.alloc; "{}: no code", self.name)?);
        };
        if found < number(least).unwrap_or(0) || lines >= number(most).unwrap_or(0) {
            tried.differ(format!(in self.alloc;
                "{}: {found} {word} in {lines} lines",
                self.name
            )?)?;
        }
        Ok(())
    }

    // Tries a line that says how many lines of the code's text begin with a word.
    fn count_lines(&self, rest: &str, tried: &mut Tried) -> Result<(), AllocError> {
        let (wanted, word) = parted(rest, ' ');
        tried.begin();
        let found = match lines_with(self.alloc, self, word) {
            Some((found, _lines)) => Some(found),
            None => None,
        };
        if found.is_none() || found != number(wanted) {
            tried.differ(format!(in self.alloc; "{}: not {rest} but {found:?}", self.name)?)?;
        }
        Ok(())
    }

    // What must come out by a line.
    fn wanted(&self, word: &str, rest: &str) -> Result<Found, AllocError> {
        let output = String::from_str(self.alloc, self.output.as_str())?;
        if word != "traps" {
            return Ok(Found {
                ending: format!(in self.alloc; "{word} {rest}")?,
                arrays: String::new(self.alloc),
                output: output.into_bytes(),
            });
        }
        let (kind, rest) = parted(rest, ' ');
        let (instance, arrays) = parted(rest, ' ');
        Ok(Found {
            ending: format!(in self.alloc;
                "trap {kind} at {}..{}, instance {instance}",
                self.marked.start, self.marked.end
            )?,
            arrays: String::from_str(self.alloc, arrays)?,
            output: output.into_bytes(),
        })
    }

    fn compare(&mut self, word: &str, rest: &str, tried: &mut Tried) -> Result<(), AllocError> {
        tried.begin();
        let wanted = self.wanted(word, rest)?;
        self.compare_with(&wanted, tried)?;
        self.ending = wanted.ending;
        self.output = String::new(self.alloc);
        self.work = None;
        self.budget = None;
        Ok(())
    }

    fn compare_with(&self, wanted: &Found, tried: &mut Tried) -> Result<(), AllocError> {
        let found = evaluated(self.alloc, self)?;
        if !found.is(wanted) {
            tried.differ(format!(in self.alloc; "{}: {found}, not {wanted}", self.name)?)?;
        }
        if wanted.has_run() {
            self.run_code(found.arrays.as_str(), wanted, tried)?;
            self.run_alone(wanted, tried)?;
        }
        Ok(())
    }

    // Where the instances end one by one, they leave what the gang leaves, in both orders.
    fn run_alone(&self, wanted: &Found, tried: &mut Tried) -> Result<(), AllocError> {
        let found = upward(self.alloc, self)?;
        if found.as_str().starts_with("ends ") {
            self.compare_orders(found.as_str(), wanted, tried)?;
        }
        Ok(())
    }

    fn compare_orders(
        &self,
        found: &str,
        wanted: &Found,
        tried: &mut Tried,
    ) -> Result<(), AllocError> {
        let other = downward(self.alloc, self)?;
        if found == wanted.ending.as_str() && other == wanted.ending {
            return Ok(());
        }
        tried.differ(format!(in self.alloc;
            "{}: one by one {found}, and from the last down {other}, not {wanted}",
            self.name
        )?)
    }

    // What the instances must come to one by one: what a line says, or as the gang did.
    fn wanted_alone(&self, told: &str) -> Result<String, AllocError> {
        let (word, rest) = parted(told, ' ');
        match word {
            "" => String::from_str(self.alloc, self.ending.as_str()),
            "rule" => {
                format!(in self.alloc; "{told} at {}..{}", self.marked.start, self.marked.end)
            }
            _ => Ok(self.wanted(word, rest)?.ending),
        }
    }

    // Tries a line that says what the instances come to one by one.
    fn compare_alone(&self, told: &str, tried: &mut Tried) -> Result<(), AllocError> {
        tried.begin();
        let wanted = self.wanted_alone(told)?;
        let found = upward(self.alloc, self)?;
        if found != wanted {
            tried.differ(format!(in self.alloc;
                "{}: one by one {found}, not {wanted}",
                self.name
            )?)?;
        }
        Ok(())
    }

    // Tries a line that says after how many instructions the code goes on, and has written nothing.
    fn run_on(&self, budgets: &str, tried: &mut Tried) -> Result<(), AllocError> {
        for budget in budgets.split(' ') {
            tried.begin();
            if !goes_on(self.alloc, self, number(budget)) {
                tried.differ(format!(in self.alloc;
                    "{}: the code does not go on after {budget}",
                    self.name
                )?)?;
            }
        }
        Ok(())
    }

    // Tries the code of a case. `arrays` are those that the evaluator leaves at a trap.
    fn run_code(&self, arrays: &str, wanted: &Found, tried: &mut Tried) -> Result<(), AllocError> {
        match compile(self.alloc, self.marked.source.as_str(), self.gang) {
            Ok(image) => self.judge_code(&image, arrays, wanted, tried),
            Err(_fault) => self.say("no code", tried),
        }
    }

    // Adds what differs.
    fn say(&self, what: &str, tried: &mut Tried) -> Result<(), AllocError> {
        tried.differ(format!(in self.alloc; "{}: {what}", self.name)?)
    }

    // Tries code: its text, its report, what goes out while it runs, and the arrays that it leaves at a trap.
    fn judge_code(
        &self,
        image: &Image,
        arrays: &str,
        wanted: &Found,
        tried: &mut Tried,
    ) -> Result<(), AllocError> {
        if !is_read_back(self.alloc, image) {
            self.say("the text of its code is read as other code", tried)?;
        }
        self.compare_report(image, wanted, tried)?;
        if !is_sent(self.alloc, self, image, wanted) {
            self.say("other bytes go out", tried)?;
        }
        if wanted.is_trap() {
            self.compare_left(image, arrays, wanted, tried)?;
        }
        Ok(())
    }

    fn compare_left(
        &self,
        image: &Image,
        arrays: &str,
        wanted: &Found,
        tried: &mut Tried,
    ) -> Result<(), AllocError> {
        let found = left(self.alloc, self, image, wanted)?;
        if found.as_str() == arrays {
            return Ok(());
        }
        self.say("the code leaves other arrays", tried)
    }

    fn compare_report(
        &self,
        image: &Image,
        wanted: &Found,
        tried: &mut Tried,
    ) -> Result<(), AllocError> {
        let Some(found) = executed(self.alloc, self, image, wanted)? else {
            return self.say("the code does not run", tried);
        };
        if found.begins(wanted) {
            return Ok(());
        }
        tried.differ(format!(in self.alloc; "{}: as code {found}, not {wanted}", self.name)?)
    }
}
