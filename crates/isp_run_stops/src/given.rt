//! What is said of words and files that give no arguments.
use isp_base::{Elem, Parameter, Signature};
use isp_bind::BindFault;
use isp_files::{FileFault, Flaw};
use isp_messages::{Message, Source, advise, argument_site, arguments_site, closest};
use isp_run_words::{Content, Given, GivenFault, RunWords, Value, Words, read_value};
use std::alloc::{AllocError, Global};
use std::fmt::Write;

/// Which parameter gets no value, or which word is none of the function's, and why.
pub(crate) fn given_message<'n, 't>(
    alloc: Global,
    request: &RunWords<'n>,
    signature: Option<&Signature>,
    words: &Words,
    fault: GivenFault,
) -> Result<Message<'n, 't>, AllocError> {
    let Some(signature) = signature else {
        return Ok(Message::new(alloc, String::new(alloc)));
    };
    match (words, fault) {
        (Words::Whole(text), GivenFault::Whole { fault }) => {
            whole(alloc, request, signature, text.as_str(), fault)
        }
        (Words::Each(given), _) => each(alloc, request, signature, given, fault),
        _ => Ok(Message::new(alloc, String::new(alloc))),
    }
}

// Of a text that holds all arguments.
fn whole<'n, 't>(
    alloc: Global,
    request: &RunWords<'n>,
    signature: &Signature,
    text: &str,
    fault: BindFault,
) -> Result<Message<'n, 't>, AllocError> {
    let what = arguments_site(alloc, text, signature, fault)?;
    let mut message = Message::new(alloc, what);
    message.source = file_of(request, 0);
    let words = format!(in alloc; "{fault}")?;
    advise(&mut message, words.as_str(), None)?;
    Ok(message)
}

// Of a word for each parameter.
fn each<'n, 't>(
    alloc: Global,
    request: &RunWords<'n>,
    signature: &Signature,
    given: &[Given],
    fault: GivenFault,
) -> Result<Message<'n, 't>, AllocError> {
    match fault {
        GivenFault::Unknown { word } => unknown(alloc, signature, given.get(word)),
        GivenFault::Twice { word } => twice(alloc, given.get(word)),
        GivenFault::Missing { parameter } => missing(alloc, signature, given, parameter),
        GivenFault::Text { parameter, .. }
        | GivenFault::File { parameter, .. }
        | GivenFault::WrongKind { parameter } => match site_of(signature, given, parameter) {
            Some(site) => at_site(alloc, request, site, fault),
            None => Ok(Message::new(alloc, String::new(alloc))),
        },
        GivenFault::Whole { .. } | GivenFault::Memory => {
            Ok(Message::new(alloc, String::new(alloc)))
        }
    }
}

/// A parameter, and the first word of its name, with its number.
#[derive(Clone, Copy)]
struct Site<'g, 's> {
    word: usize,
    given: &'g Given,
    parameter: &'s Parameter,
}

// What is wrong with the value of a parameter.
fn at_site<'n, 't>(
    alloc: Global,
    request: &RunWords<'n>,
    site: Site<'_, '_>,
    fault: GivenFault,
) -> Result<Message<'n, 't>, AllocError> {
    let mut message = match fault {
        GivenFault::Text { fault, .. } => text_message(alloc, site.given, site.parameter, fault)?,
        GivenFault::File { fault, .. } => file_message(alloc, site.parameter, fault)?,
        _ => kind_message(alloc, site.parameter)?,
    };
    message.source = file_of(request, site.word);
    Ok(message)
}

fn site_of<'s, 'g>(
    signature: &'s Signature,
    given: &'g [Given],
    parameter: usize,
) -> Option<Site<'g, 's>> {
    let parameter = signature.params.get(parameter)?;
    for (word, one) in given.iter().enumerate() {
        if one.name.as_str() == parameter.name.as_str() {
            return Some(Site {
                word,
                given: one,
                parameter,
            });
        }
    }
    None
}

// The file that a word names.
fn file_of<'n, 't>(request: &RunWords<'n>, word: usize) -> Option<Source<'n, 't>> {
    let (_name, value) = read_value(*request.values.get(word)?)?;
    match value {
        Value::File(name, _format) => Some(Source { name, text: "" }),
        _ => None,
    }
}

fn missing<'n, 't>(
    alloc: Global,
    signature: &Signature,
    given: &[Given],
    parameter: usize,
) -> Result<Message<'n, 't>, AllocError> {
    let Some(parameter) = signature.params.get(parameter) else {
        return Ok(Message::new(alloc, String::new(alloc)));
    };
    let name = parameter.name.as_str();
    let mut message = Message::new(
        alloc,
        format!(in alloc; "72 Missing: parameter \"{name}\"")?,
    );
    write!(
        message.sentence,
        "No word gives a value to `{}`.",
        Head(parameter)
    )?;
    match misspelt(alloc, signature, given, name)? {
        Some(word) => write!(
            message.fix,
            "`{word}` names no parameter: did you mean `{name}`?"
        )?,
        None => push_example(&mut message.fix, parameter)?,
    }
    Ok(message)
}

fn push_example(page: &mut String, parameter: &Parameter) -> Result<(), AllocError> {
    let name = parameter.name.as_str();
    if parameter.is_array {
        return write!(
            page,
            "write `{name}=[1,2,3]`, `{name}=@FILE` or `'{name}=zeros(100)'`."
        );
    }
    let value = if parameter.elem == Elem::Bool {
        "true"
    } else {
        "5"
    };
    write!(page, "write `{name}={value}`.")
}

// The word that is close to the name of a parameter, of those that name none.
fn misspelt<'g>(
    alloc: Global,
    signature: &Signature,
    given: &'g [Given],
    name: &str,
) -> Result<Option<&'g str>, AllocError> {
    let mut strays = Vec::new(alloc);
    for one in given {
        let word = one.name.as_str();
        if !signature
            .params
            .iter()
            .any(|parameter| parameter.name.is(word))
        {
            strays.push(word)?;
        }
    }
    closest(alloc, name, &strays)
}

fn unknown<'n, 't>(
    alloc: Global,
    signature: &Signature,
    given: Option<&Given>,
) -> Result<Message<'n, 't>, AllocError> {
    let name = name_of(given);
    let mut names = Vec::new(alloc);
    for parameter in &signature.params {
        names.push(parameter.name.as_str())?;
    }
    let mut message = Message::new(alloc, format!(in alloc; "73 Extra: parameter \"{name}\"")?);
    message
        .sentence
        .push_str("The function has no parameter of this name. It takes")?;
    push_heads(&mut message.sentence, signature)?;
    match closest(alloc, name, &names)? {
        Some(meant) => write!(message.fix, "did you mean `{meant}`?")?,
        None => message
            .fix
            .push_str("leave the word out, or spell it as the parameter.")?,
    }
    Ok(message)
}

// ` uint8 a[], int32 n.`
fn push_heads(page: &mut String, signature: &Signature) -> Result<(), AllocError> {
    let mut comma = "";
    for parameter in &signature.params {
        write!(page, "{comma} `{}`", Head(parameter))?;
        comma = ",";
    }
    page.push_str(if comma.is_empty() { " nothing." } else { "." })
}

fn twice<'n, 't>(alloc: Global, given: Option<&Given>) -> Result<Message<'n, 't>, AllocError> {
    let name = name_of(given);
    let mut message = Message::new(alloc, format!(in alloc; "73 Extra: parameter \"{name}\"")?);
    message
        .sentence
        .push_str("A word before gives it a value too.")?;
    message.fix.push_str("leave one of them out.")?;
    Ok(message)
}

fn name_of(given: Option<&Given>) -> &str {
    match given {
        Some(given) => given.name.as_str(),
        None => "",
    }
}

fn text_message<'n, 't>(
    alloc: Global,
    given: &Given,
    parameter: &Parameter,
    fault: BindFault,
) -> Result<Message<'n, 't>, AllocError> {
    let text = match &given.content {
        Content::Json(text) => text.as_str(),
        _ => "",
    };
    let mut message = Message::new(alloc, argument_site(alloc, text, parameter, fault)?);
    let words = format!(in alloc; "{fault}")?;
    advise(&mut message, words.as_str(), None)?;
    if fault == BindFault::NotJson {
        message.sentence = format!(in alloc;
            "The value is not JSON: `{}` takes {}.",
            Head(parameter),
            taken(parameter)
        )?;
        message.fix = String::from_str(
            alloc,
            "name a file by `@` before it, and put quotes around a list, as in `'a=[1, 2]'`.",
        )?;
    }
    Ok(message)
}

fn taken(parameter: &Parameter) -> &'static str {
    match (parameter.is_array, parameter.elem) {
        (true, Elem::Bool) => "a list, as [true,false]",
        (true, _) => "a list, as [1,2,3]",
        (false, Elem::Bool) => "true or false",
        (false, _) => "a whole number",
    }
}

fn file_message<'n, 't>(
    alloc: Global,
    parameter: &Parameter,
    fault: FileFault,
) -> Result<Message<'n, 't>, AllocError> {
    let name = parameter.name.as_str();
    let mut message = Message::new(alloc, format!(in alloc; "parameter \"{name}\": {fault}")?);
    if let FileFault::At { flaw, .. } = fault {
        push_remedy(&mut message.fix, flaw, parameter)?;
    }
    Ok(message)
}

fn push_remedy(page: &mut String, flaw: Flaw, parameter: &Parameter) -> Result<(), AllocError> {
    match flaw {
        Flaw::BigEndian | Flaw::Float | Flaw::Struct | Flaw::UnknownType => {
            let ty = elem_name(parameter.elem);
            write!(page, "in NumPy save `a.astype(np.{ty})`.")
        }
        Flaw::Fortran => page.push_str("in NumPy save `np.ascontiguousarray(a)`."),
        Flaw::Magic => page.push_str(
            "name the file by what it holds: .npy for NumPy, .pgm for P5, .ppm for P6, .json for a list.",
        ),
        Flaw::Ends | Flaw::Long => page.push_str("look whether the file was copied whole."),
        _ => page.push_str("write the file anew, by NumPy or Netpbm."),
    }
}

fn kind_message<'n, 't>(
    alloc: Global,
    parameter: &Parameter,
) -> Result<Message<'n, 't>, AllocError> {
    let name = parameter.name.as_str();
    let ty = elem_name(parameter.elem);
    let mut message = Message::new(
        alloc,
        format!(in alloc; "74 WrongKind: parameter \"{name}\"")?,
    );
    if parameter.is_array {
        write!(
            message.sentence,
            "The parameter is `{}`, and the file has another type.",
            Head(parameter)
        )?;
        write!(
            message.fix,
            "in NumPy save `a.astype(np.{ty})`, or declare the parameter as the file has it: an image has `uint8`."
        )?;
    } else {
        write!(
            message.sentence,
            "The parameter is `{}`, one value, and the word gives an array.",
            Head(parameter)
        )?;
        write!(message.fix, "write `{name}=5`.")?;
    }
    Ok(message)
}

/// A parameter as it is declared: `uint8 pixels[]`.
#[derive(Drop)]
struct Head<'a>(&'a Parameter);

impl std::fmt::Display for Head<'_> {
    fn fmt<W: std::fmt::Write>(&self, f: &mut std::fmt::Formatter<W>) -> std::fmt::Result {
        f.write_str(elem_name(self.0.elem))?;
        f.write_str(" ")?;
        f.write_str(self.0.name.as_str())?;
        f.write_str(if self.0.is_array { "[]" } else { "" })
    }
}

fn elem_name(elem: Elem) -> &'static str {
    match elem {
        Elem::Bool => "bool",
        Elem::I8 => "int8",
        Elem::U8 => "uint8",
        Elem::I16 => "int16",
        Elem::U16 => "uint16",
        Elem::I32 => "int32",
        Elem::U32 => "uint32",
        Elem::I64 => "int64",
        Elem::U64 => "uint64",
    }
}
