//! The arguments that words and their files give.
ghost use Rattle.std.specs.Prelude.{◌≡◌, ◌≢◌, ℕ, [], List, true, replicate, string_bytes, bytes_eq, take, IfErr, IfOk, Ok, Err};
ghost use Rattle.std.specs.List.{list_any};
ghost use Rattle.isp_base.specs.Binding.{has_signature, is_for};
ghost use Rattle.isp_base.specs.declared.signature.Argument.TheVariants.{Array as AnArray};
ghost use Rattle.isp_base.specs.declared.signature.Parameter.{Parameter};
ghost use Rattle.isp_bind.specs.Binding.{is_parameter};
ghost use Rattle.isp_files.specs.declared.fault.FileFault.TheVariants as file;
ghost use Rattle.isp_run_words.specs.Giving.{alone, alone_text, argument_by, argument_of, arguments_by, each_of, fitting, given_by, is_given, stray_from};
ghost use Rattle.isp_run_words.specs.Giving.{sheet_argument, only_of, text_argument, zeros_argument};
ghost use Rattle.isp_run_words.specs.declared.fault.GivenFault.TheVariants as fault;

use crate::fault::GivenFault;
use isp_base::{Argument, Array, Bound, Elem, Name, Parameter, Signature};
use isp_bind::{BindFault, bind};
use isp_files::{FileFault, Grid, read_image, read_npy};
use std::alloc::{AllocError, Global};

/// What stands for a parameter.
#[derive(Drop)]
pub enum Content {
    /// A text of JSON: a whole number, `true`, `false`, or a list.
    Json(String),
    /// The bytes of an NPY file.
    Npy(Vec<u8>),
    /// The bytes of a PGM or a PPM file.
    Image(Vec<u8>),
    /// So many elements that are 0.
    Zeros(usize),
}

/// The name of a parameter, and what stands for it.
#[derive(Drop)]
pub struct Given {
    pub name: Name,
    pub content: Content,
}

/// What the words of a run give.
#[derive(Drop)]
pub enum Words {
    /// A text of JSON that holds all arguments.
    Whole(String),
    /// A word for each parameter.
    Each(Vec<Given>),
}

/// One argument for each parameter, in the order of the signature.
///
/// The first fault is answered. Of a text that holds all arguments it is that of isp_bind, as `Whole`. Of words, for each parameter in
/// order: `Missing`; `Text` where a JSON text is no value of its type, with the number of the pages; `File` where a file is none of its
/// format; `WrongKind` where an array stands for a value, or has another type. Then for each word in order `Unknown` and `Twice`.
/// `Memory` takes the place of what would follow.
pub fn bind_words(alloc: Global, signature: &Signature, words: &Words) -> Result<Bound, GivenFault>
    ensures ok { IfOk result (λ b. given_by signature.now.params.items words.now ≡ Ok b.arguments.items) }
    ensures err { IfErr result (λ e. e ≢ fault.Memory → given_by signature.now.params.items words.now ≡ Err e) }
    // Each argument has the kind and the type of its parameter.
    ensures fits { IfOk result (λ b. has_signature signature.now.params.items b.arguments.items ≡ true) }
{
    match words {
        Words::Whole(text) => match bind(alloc, signature, text.as_str()) {
            Ok(bound) => Ok(bound),
            Err(BindFault::Memory) => Err(GivenFault::Memory),
            Err(fault) => Err(GivenFault::Whole { fault }),
        },
        Words::Each(given) => each(alloc, &signature.params, given),
    }
}

// What the words give, one for each parameter.
fn each(alloc: Global, params: &[Parameter], given: &[Given]) -> Result<Bound, GivenFault>
    ensures ok { IfOk result (λ b. each_of params.now given.now ≡ Ok b.arguments.items) }
    ensures err { IfErr result (λ e. e ≢ fault.Memory → each_of params.now given.now ≡ Err e) }
    ensures fits { IfOk result (λ b. has_signature params.now b.arguments.items ≡ true) }
{
    let arguments = arguments(alloc, params, given)?;
    match stray(params, given) {
        Some(fault) => Err(fault),
        None => Ok(Bound { arguments }),
    }
}

fn arguments(
    alloc: Global,
    params: &[Parameter],
    given: &[Given],
) -> Result<Vec<Argument>, GivenFault>
    ensures ok { IfOk result (λ v. arguments_by 0 params.now given.now ≡ Ok v.items) }
    ensures err { IfErr result (λ e. e ≢ fault.Memory → arguments_by 0 params.now given.now ≡ Err e) }
    ensures fits { IfOk result (λ v. has_signature params.now v.items ≡ true) }
{
    let mut arguments = Vec::new(alloc);
    for (number, parameter) in params.iter().enumerate() {
        let argument = argument(alloc, number, parameter, given)?;
        arguments.push(argument)?;
    }
    Ok(arguments)
}

// The first word of no parameter's name, or of the name of a word before.
fn stray(params: &[Parameter], given: &[Given]) -> Option<GivenFault>
    ensures { result ≡ stray_from params.now given.now 0 given.now }
{
    for (word, one) in given.iter().enumerate() {
        if !is_parameter(params, one.name.as_str()) {
            return Some(GivenFault::Unknown { word });
        }
        if is_given(&given[..word], one.name.as_str()) {
            return Some(GivenFault::Twice { word });
        }
    }
    None
}

fn is_parameter(params: &[Parameter], name: &str) -> bool
    ensures { result ≡ is_parameter params.now name.now }
{
    params
        .iter()
        .any(|parameter| parameter.name.as_str() == name)
}

fn is_given(given: &[Given], name: &str) -> bool
    ensures { result ≡ is_given given.now name.now }
{
    given.iter().any(|one| one.name.as_str() == name)
}

// What the first word of its name gives to a parameter.
fn argument(
    alloc: Global,
    number: usize,
    parameter: &Parameter,
    given: &[Given],
) -> Result<Argument, GivenFault>
    ensures ok { IfOk result (λ x. argument_by number parameter.now given.now ≡ Ok x) }
    ensures err { IfErr result (λ e. e ≢ fault.Memory → argument_by number parameter.now given.now ≡ Err e) }
    ensures fits { IfOk result (λ x. is_for parameter.now x ≡ true) }
{
    for one in given {
        if one.name.as_str() == parameter.name.as_str() {
            return argument_for(alloc, number, parameter, &one.content);
        }
    }
    Err(GivenFault::Missing { parameter: number })
}

fn argument_for(
    alloc: Global,
    number: usize,
    parameter: &Parameter,
    content: &Content,
) -> Result<Argument, GivenFault>
    ensures ok { IfOk result (λ x. argument_of number parameter.now content.now ≡ Ok x) }
    ensures err { IfErr result (λ e. e ≢ fault.Memory → argument_of number parameter.now content.now ≡ Err e) }
    ensures fits { IfOk result (λ x. is_for parameter.now x ≡ true) }
{
    match content {
        Content::Json(text) => literal(alloc, number, parameter, text.as_str()),
        Content::Npy(bytes) => sheet(number, parameter, read_npy(alloc, bytes)),
        Content::Image(bytes) => sheet(number, parameter, read_image(alloc, bytes)),
        Content::Zeros(count) => zeros(alloc, number, parameter, *count),
    }
}

// ---- one parameter

// What a text of JSON is for a parameter: isp_bind says it of a parameter alone.
fn literal(
    alloc: Global,
    number: usize,
    parameter: &Parameter,
    text: &str,
) -> Result<Argument, GivenFault>
    ensures ok { IfOk result (λ x. text_argument number parameter.now text.now ≡ Ok x) }
    ensures err { IfErr result (λ e. e ≢ fault.Memory → text_argument number parameter.now text.now ≡ Err e) }
    ensures fits { IfOk result (λ x. is_for parameter.now x ≡ true) }
{
    let signature = alone(alloc, parameter)?;
    let text = alone_text(alloc, text)?;
    match bind(alloc, &signature, text.as_str()) {
        Ok(bound) => only(number, bound),
        Err(BindFault::Memory) => Err(GivenFault::Memory),
        Err(fault) => Err(GivenFault::Text {
            parameter: number,
            fault,
        }),
    }
}

// A parameter of its type alone.
fn alone(alloc: Global, parameter: &Parameter) -> Result<Signature, AllocError>
    ensures { IfOk result (λ s. s.params.items ≡ alone parameter.now) }
{
    let mut params = Vec::new(alloc);
    params.push(Parameter {
        name: Name::new(String::from_str(alloc, "a")?),
        elem: parameter.elem,
        is_array: parameter.is_array,
    })?;
    Ok(Signature {
        params,
        result: None,
    })
}

fn alone_text(alloc: Global, text: &str) -> Result<String, AllocError>
    ensures { IfOk result (λ s. string_bytes s ≡ alone_text text.now) }
{
    let mut alone = String::from_str(alloc, "{\"a\":")?;
    alone.push_str(text)?;
    alone.push_str("}")?;
    Ok(alone)
}

// The one argument that was bound.
fn only(number: usize, bound: Bound) -> Result<Argument, GivenFault>
    ensures only { only_of number (Ok bound.arguments.items) ≡ result }
    ensures fits { (p : Parameter) → has_signature (alone p) bound.arguments.items ≡ true → IfOk result (λ x. is_for p x ≡ true) }
{
    match bound.arguments.into_iter().next() {
        Some(argument) => Ok(argument),
        None => Err(GivenFault::Missing { parameter: number }),
    }
}

// An array, where the parameter takes one of its type.
fn fitting(number: usize, parameter: &Parameter, array: Array) -> Result<Argument, GivenFault>
    ensures fitting { result ≡ fitting number parameter.now (AnArray array) }
    ensures fits { IfOk result (λ x. is_for parameter.now x ≡ true) }
{
    let argument = Argument::Array(array);
    if argument.is_for(parameter) {
        Ok(argument)
    } else {
        Err(GivenFault::WrongKind { parameter: number })
    }
}

// The array of a file.
fn sheet(
    number: usize,
    parameter: &Parameter,
    read: Result<Grid, FileFault>,
) -> Result<Argument, GivenFault>
    ensures ok { IfOk read (λ g. result ≡ fitting number parameter.now (AnArray g.array)) }
    ensures err { IfErr read (λ e. e ≢ file.Memory → result ≡ Err (fault.File number e)) }
    ensures memory { read ≡ Err file.Memory → result ≡ Err fault.Memory }
    ensures fits { IfOk result (λ x. is_for parameter.now x ≡ true) }
{
    match read {
        Ok(grid) => fitting(number, parameter, grid.array),
        Err(FileFault::Memory) => Err(GivenFault::Memory),
        Err(fault) => Err(GivenFault::File {
            parameter: number,
            fault,
        }),
    }
}

// So many elements that are 0.
fn zeros(
    alloc: Global,
    number: usize,
    parameter: &Parameter,
    count: usize,
) -> Result<Argument, GivenFault>
    ensures ok { IfOk result (λ x. zeros_argument number parameter.now count ≡ Ok x) }
    ensures err { IfErr result (λ e. e ≢ fault.Memory → zeros_argument number parameter.now count ≡ Err e) }
    ensures fits { IfOk result (λ x. is_for parameter.now x ≡ true) }
{
    let array = nothing(alloc, parameter.elem, count)?;
    fitting(number, parameter, array)
}

fn nothing(alloc: Global, elem: Elem, count: usize) -> Result<Array, AllocError>
    ensures { IfOk result (λ a. a ≡ record { elem = elem; bits = replicate count 0 }) }
{
    let mut array = Array::empty(alloc, elem);
    for _done in 0..count {
        array.push(0)?;
    }
    Ok(array)
}
