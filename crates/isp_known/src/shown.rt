//! What is shown of a byte of a program's text.
ghost use Rattle.std.specs.Prelude.{◌≡◌, ◌≤◌, ◌++◌, List, ℕ, IfOk, OnOk, length, option_map, string_bytes, take};
ghost use Rattle.isp_typed.specs.Views.{function_of, program_of};
ghost use Rattle.isp_known.specs.Shown.{Shows, ValueShows, answer_text, const_text, elem_text, function_text, holds_text, listed_text, params_text, rate_text, subject_text, type_text, variable_of, variable_text};
ghost use Rattle.isp_known.specs.reader.Views.{shown_view};

use crate::note::{Note, Subject};
use crate::place::{subject_at, value_at};
use crate::word::word_around;
use isp_base::{Elem, Rate, Span, Ty};
use isp_typed::{Holds, Program, TypedFunction, Variable};
use std::alloc::{AllocError, Global};

/// What is shown of a part of a text.
#[derive(Drop)]
pub struct Shown {
    pub span: Span,
    pub text: String,
}

fn elem_word(elem: Elem) -> &'static str
    ensures { result.now ≡ elem_text elem }
{
    match elem {
        Elem::Bool => "bool",
        Elem::I8 => "int8",
        Elem::U8 => "uint8",
        Elem::I16 => "int16",
        Elem::U16 => "uint16",
        Elem::I32 => "int32",
        Elem::U32 => "uint32",
        Elem::I64 => "int64",
        Elem::U64 => "uint64",
    }
}

fn rate_word(rate: Rate) -> &'static str
    ensures { result.now ≡ rate_text rate }
{
    match rate {
        Rate::Uniform => "uniform",
        Rate::Varying => "varying",
    }
}

fn const_word(constant: bool) -> &'static str
    ensures { result.now ≡ const_text constant }
{
    if constant { "const " } else { "" }
}

/// A type as the language writes it: `varying int32`.
pub fn type_text(alloc: Global, ty: Ty) -> Result<String, AllocError>
    ensures { IfOk result (λ text. string_bytes text ≡ type_text ty) }
{
    format!(in alloc; "{} {}", rate_word(ty.rate), elem_word(ty.elem))
}

fn given_text(alloc: Global, elem: Elem) -> Result<String, AllocError>
    ensures { IfOk result (λ text. string_bytes text ≡ holds_text (Holds.Given elem)) }
{
    format!(in alloc; "uniform {}[]", elem_word(elem))
}

fn local_text(alloc: Global, ty: Ty, size: usize) -> Result<String, AllocError>
    ensures { IfOk result (λ text. string_bytes text ≡ holds_text (Holds.Local ty size)) }
{
    let elements = type_text(alloc, ty)?;
    format!(in alloc; "{elements}[{size}]")
}

fn holds_text(alloc: Global, holds: Holds) -> Result<String, AllocError>
    ensures { IfOk result (λ text. string_bytes text ≡ holds_text holds) }
{
    match holds {
        Holds::Value(ty) => type_text(alloc, ty),
        Holds::Given(elem) => given_text(alloc, elem),
        Holds::Local(ty, size) => local_text(alloc, ty, size),
    }
}

fn variable_text(alloc: Global, variable: Variable) -> Result<String, AllocError>
    ensures { IfOk result (λ text. string_bytes text ≡ variable_text variable) }
{
    let holds = holds_text(alloc, variable.holds)?;
    format!(in alloc; "{}{holds}", const_word(variable.constant))
}

fn push_listed(text: &mut String, alloc: Global, variables: &[Variable]) -> Result<(), AllocError>
    ensures { OnOk result (string_bytes text.new ≡ string_bytes text.old ++ listed_text variables.now) }
{
    for variable in variables {
        text.push_str(", ")?;
        text.push_str(variable_text(alloc, *variable)?.as_str())?;
    }
    Ok(())
}

fn params_text(alloc: Global, variables: &[Variable]) -> Result<String, AllocError>
    ensures { IfOk result (λ text. string_bytes text ≡ params_text variables.now) }
{
    if variables.is_empty() {
        return Ok(String::new(alloc));
    }
    let mut text = variable_text(alloc, variables[0])?;
    push_listed(&mut text, alloc, &variables[1..])?;
    Ok(text)
}

fn answer_text(alloc: Global, answer: Option<Ty>) -> Result<String, AllocError>
    ensures { IfOk result (λ text. string_bytes text ≡ answer_text answer) }
{
    match answer {
        Some(ty) => type_text(alloc, ty),
        None => String::from_str(alloc, "void"),
    }
}

fn first_of(variables: &[Variable], count: usize) -> &[Variable]
    ensures { result.now ≡ take count variables.now }
{
    if count < variables.len() {
        &variables[..count]
    } else {
        variables
    }
}

fn function_text(alloc: Global, one: &TypedFunction) -> Result<String, AllocError>
    ensures { IfOk result (λ text. string_bytes text ≡ function_text (function_of one.now)) }
{
    let mut text = answer_text(alloc, one.result)?;
    text.push_str(" ")?;
    text.push_str(one.name.as_str())?;
    text.push_str("(")?;
    let params = params_text(alloc, first_of(&one.variables, one.params.len()))?;
    text.push_str(params.as_str())?;
    text.push_str(")")?;
    Ok(text)
}

fn variable_of(program: &Program, function: usize, number: usize) -> Option<Variable>
    ensures { result ≡ variable_of (program_of program.now) function number }
{
    let one = program.functions.get(function)?;
    one.variables.get(number).copied()
}

fn subject_text(
    alloc: Global,
    program: &Program,
    subject: Subject,
) -> Result<Option<String>, AllocError>
    ensures { IfOk result (λ o. option_map string_bytes o ≡ subject_text (program_of program.now) subject) }
{
    match subject {
        Subject::Variable { function, number } => match variable_of(program, function, number) {
            Some(variable) => Ok(Some(variable_text(alloc, variable)?)),
            None => Ok(None),
        },
        Subject::Function { number } => match program.functions.get(number) {
            Some(one) => Ok(Some(function_text(alloc, one)?)),
            None => Ok(None),
        },
    }
}

fn of_word(
    alloc: Global,
    program: &Program,
    subject: Subject,
    span: Span,
) -> Result<Option<Shown>, AllocError>
    ensures { IfOk result (λ o. option_map shown_view o ≡ option_map (λ text. (span, text)) (subject_text (program_of program.now) subject)) }
{
    match subject_text(alloc, program, subject)? {
        Some(text) => Ok(Some(Shown { span, text })),
        None => Ok(None),
    }
}

fn of_value(alloc: Global, notes: &[Note], at: usize) -> Result<Option<Shown>, AllocError>
    ensures { IfOk result (λ o. ValueShows notes.now at (option_map shown_view o)) }
{
    match value_at(notes, at) {
        Some(value) => {
            let text = type_text(alloc, value.ty)?;
            Ok(Some(Shown {
                span: value.span,
                text,
            }))
        }
        None => Ok(None),
    }
}

/// What is shown of a byte of a text: of a name what it stands for, else the type of the narrowest expression around the byte; and
/// of which part of the text. `notes` are those of the program, and `text` is its source.
pub fn shown_at(
    alloc: Global,
    program: &Program,
    notes: &[Note],
    text: &[u8],
    at: usize,
) -> Result<Option<Shown>, AllocError>
    requires { at ≤ length text.now }
    ensures { IfOk result (λ o. Shows (program_of program.now) notes.now text.now at (option_map shown_view o)) }
{
    let word = word_around(text, at);
    match subject_at(notes, word.start) {
        Some(subject) => of_word(alloc, program, subject, word),
        None => of_value(alloc, notes, at),
    }
}
