//! What a call's name means, and what it asks of each argument.
ghost use Rattle.std.specs.Prelude.{◌≡◌, ℕ, IfOk, OnOk, OnErr, option_map, slice_get, ◌++◌, ◌∷◌, [], map};
ghost use Rattle.isp_exprs.specs.Callees.{asked_past, by_count, callee, counted, cross_library, function_from, instance_library, is_packed, library_named, library_wants, move_library, named_in, of_function, of_library, unless_unknown};
ghost use Rattle.isp_exprs.specs.reader.Headings.{heading_of};

use isp_base::{Elem, Name, Ty};
use isp_lex::{Fault, Rule};
use isp_tree::Word;
use isp_typed::{Library, Verdict};
use std::alloc::{AllocError, Global};
use std::collections::BTreeMap;
use std::marker::Model;

/// What is asked of an argument.
#[derive(Clone, Copy)]
pub enum Want {
    /// A value of any type.
    AnyValue,
    /// A value that is converted to an element type.
    ValueOf(Elem),
    /// An array of an element type; a constant one where it is a constant parameter.
    ArrayOf { elem: Elem, constant: bool },
    /// The array of a packed call, in which it stores or not.
    Base { stored: bool },
    /// The variable that a packed call loads.
    Destination,
    /// Nothing, but that it has no `&`.
    NoReference,
    /// Nothing.
    Anything,
}

/// What a call's name means.
#[derive(Clone, Copy)]
pub enum Callee {
    /// Nothing.
    Unknown,
    /// Something that takes another number of arguments: a packed call of the library or not.
    Miscounted {
        packed: bool,
    },
    /// A function of the program, by its number, with the type of its result, if it has one.
    Function {
        number: usize,
        answer: Verdict<Option<Ty>>,
    },
    Library(Library),
    PackedStore,
    PackedLoad,
}

/// What callers see of a function: its name, the type of its result, if it has one, and what each
/// parameter asks.
#[derive(Drop)]
pub struct Header {
    pub name: Name,
    pub answer: Verdict<Option<Ty>>,
    pub wants: Vec<Want>,
}

/// The functions of a program as callers see them, in the order of the text, and the first number of
/// each name.
#[derive(Drop)]
pub struct Headers {
    all: Vec<Header>,
    numbers: BTreeMap<String, usize>,
}

impl Model for Headers {
    ghost use Rattle.std.specs.Prelude.{◌≡◌, ℕ, List, map, option_map};
    ghost use Rattle.std.specs.BTreeMap.{get_by_text};
    ghost use Rattle.isp_exprs.specs.Callees.{Heading, function_from};
    ghost use Rattle.isp_exprs.specs.reader.Headings.{headings_of};

    ghost Value = { List Heading };

    ghost view = { λ h. headings_of h.all.items };

    ghost invariant = { λ h. (w : List ℕ) → get_by_text h.numbers w ≡ option_map (λ f. f.0) (function_from w 0 (headings_of h.all.items)) };
}

/// What the library calls by a name, of what looks at the whole gang.
fn cross_named(name: &str) -> Option<Callee>
    ensures { result ≡ named_in cross_library name.now }
{
    match name {
        "reduce_add" => Some(Callee::Library(Library::ReduceAdd)),
        "reduce_min" => Some(Callee::Library(Library::ReduceMin)),
        "reduce_max" => Some(Callee::Library(Library::ReduceMax)),
        "reduce_equal" => Some(Callee::Library(Library::ReduceEqual)),
        "any" => Some(Callee::Library(Library::Any)),
        "all" => Some(Callee::Library(Library::All)),
        "none" => Some(Callee::Library(Library::None)),
        "exclusive_scan_add" => Some(Callee::Library(Library::ScanAdd)),
        "exclusive_scan_and" => Some(Callee::Library(Library::ScanAnd)),
        "exclusive_scan_or" => Some(Callee::Library(Library::ScanOr)),
        _ => None,
    }
}

/// What the library calls by a name, of what moves values between instances.
fn move_named(name: &str) -> Option<Callee>
    ensures { result ≡ named_in move_library name.now }
{
    match name {
        "broadcast" => Some(Callee::Library(Library::Broadcast)),
        "rotate" => Some(Callee::Library(Library::Rotate)),
        "shift" => Some(Callee::Library(Library::Shift)),
        "shuffle" => Some(Callee::Library(Library::Shuffle)),
        "extract" => Some(Callee::Library(Library::Extract)),
        "insert" => Some(Callee::Library(Library::Insert)),
        "packed_store_active" => Some(Callee::PackedStore),
        "packed_load_active" => Some(Callee::PackedLoad),
        _ => None,
    }
}

/// What the library calls by a name, of what goes by instance.
fn instance_named(name: &str) -> Option<Callee>
    ensures { result ≡ named_in instance_library name.now }
{
    match name {
        "min" => Some(Callee::Library(Library::Min)),
        "max" => Some(Callee::Library(Library::Max)),
        "clamp" => Some(Callee::Library(Library::Clamp)),
        "abs" => Some(Callee::Library(Library::Abs)),
        "select" => Some(Callee::Library(Library::Select)),
        _ => None,
    }
}

/// What the library calls by a name.
pub fn library_named(name: &Name) -> Option<Callee>
    ensures { result ≡ library_named name.now }
{
    let name = name.as_str();
    match cross_named(name) {
        Some(callee) => Some(callee),
        None => match move_named(name) {
            Some(callee) => Some(callee),
            None => instance_named(name),
        },
    }
}

/// `shuffle` of three arguments is of two values.
fn by_count(count: usize, callee: Callee) -> Callee
    ensures { result ≡ by_count count callee }
{
    match callee {
        Callee::Library(Library::Shuffle) => if count == 3 {
            Callee::Library(Library::ShuffleTwo)
        } else {
            callee
        },
        _ => callee,
    }
}

/// What the library asks of its arguments.
fn library_wants(callee: Callee) -> &'static [Want]
    ensures { result.now ≡ library_wants callee }
{
    match callee {
        Callee::Library(function) => match function {
            Library::ReduceAdd
            | Library::ReduceMin
            | Library::ReduceMax
            | Library::ReduceEqual
            | Library::Any
            | Library::All
            | Library::None
            | Library::ScanAdd
            | Library::ScanAnd
            | Library::ScanOr
            | Library::Abs => &[Want::AnyValue],
            Library::Broadcast
            | Library::Rotate
            | Library::Shift
            | Library::Shuffle
            | Library::Extract
            | Library::Min
            | Library::Max => &[Want::AnyValue, Want::AnyValue],
            Library::ShuffleTwo | Library::Insert | Library::Clamp | Library::Select => &[
                Want::AnyValue,
                Want::AnyValue,
                Want::AnyValue,
            ],
        },
        Callee::PackedStore => &[Want::Base { stored: true }, Want::AnyValue],
        Callee::PackedLoad => &[Want::Base { stored: false }, Want::Destination],
        _ => &[],
    }
}

/// Where a callee is unknown, 20 UnknownName at the name.
pub fn unless_unknown(word: &Word, callee: Callee) -> Verdict<Callee>
    ensures { result ≡ unless_unknown word.now callee }
{
    match callee {
        Callee::Unknown => Err(Fault {
            rule: Rule::UnknownName,
            span: word.span,
        }),
        _ => Ok(callee),
    }
}

/// Whether a packed call of the library is meant.
fn is_packed(callee: Callee) -> bool
    ensures { result ≡ is_packed callee }
{
    matches!(callee, Callee::PackedStore | Callee::PackedLoad)
}

/// Arguments are held against what is asked only where their number is right.
fn counted(count: usize, callee: Callee, wants: &[Want]) -> (Callee, &[Want])
    ensures { (result.0, result.1.now) ≡ counted count callee wants.entry.now }
{
    if wants.len() == count {
        (callee, wants)
    } else {
        let packed = is_packed(callee);
        (Callee::Miscounted { packed }, &[])
    }
}

/// What is asked of an argument past the last that something is asked of: `&` stands in packed calls
/// alone, in one with a wrong number of arguments too.
pub fn asked_past(callee: Callee) -> Want
    ensures { result ≡ asked_past callee }
{
    match callee {
        Callee::Miscounted { packed: true } => Want::Anything,
        _ => Want::NoReference,
    }
}

/// A call of the library with so many arguments, and what it asks of each.
fn of_library(count: usize, callee: Callee) -> (Callee, &'static [Want])
    ensures { (result.0, result.1.now) ≡ of_library count callee }
{
    let callee = by_count(count, callee);
    counted(count, callee, library_wants(callee))
}

/// A call of the function of a number, and what it asks of each argument.
fn function_at(all: &[Header], number: usize, count: usize) -> (Callee, &[Want])
    ensures { (result.0, result.1.now) ≡ of_function count (option_map (λ h. (number, heading_of h)) (slice_get all.entry.now number)) }
{
    match all.get(number) {
        Some(header) => {
            let callee = Callee::Function {
                number,
                answer: header.answer,
            };
            counted(count, callee, &header.wants)
        }
        None => (Callee::Unknown, &[]),
    }
}

impl Headers {
    /// No functions.
    pub fn new(alloc: Global) -> Headers
        ensures { result ≡ [] }
    {
        Headers {
            all: Vec::new(alloc),
            numbers: BTreeMap::new(alloc),
        }
    }

    /// One more function after the others.
    pub fn push(&mut self, alloc: Global, header: Header) -> Result<(), AllocError>
        ensures { OnOk result (self.new ≡ self.old ++ heading_of header ∷ []) }
    {
        let number = self.all.len();
        let known = self.numbers.contains_key(header.name.as_str());
        let key = String::from_str(alloc, header.name.as_str())?;
        self.all.push(header)?;
        if known {
            return Ok(());
        }
        match self.numbers.insert(key, number) {
            Ok(_) => Ok(()),
            Err(refused) => {
                self.all.pop();
                Err(refused.into())
            }
        }
    }

    /// What a name calls with so many arguments, and what it asks of each: a name of the library means
    /// the library, another name the first function of that name.
    pub fn called(&self, name: &Name, count: usize) -> (Callee, &[Want])
        ensures { (result.0, result.1.now) ≡ callee self.entry.now name.entry.now count }
    {
        match library_named(name) {
            Some(callee) => of_library(count, callee),
            None => match self.numbers.get(name.as_str()) {
                Some(number) => function_at(&self.all, *number, count),
                None => (Callee::Unknown, &[]),
            },
        }
    }
}
