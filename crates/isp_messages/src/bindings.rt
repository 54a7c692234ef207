//! Where the arguments of an entry are refused.
use crate::page::Source;
use isp_base::{Elem, Parameter, Signature, greatest_of, low_mask};
use isp_bind::BindFault;
use serde_json::{Category, Number, Value as Json};
use std::alloc::{AllocError, Global};
use std::fmt::Write;

/// The elements that an array may have.
const LONGEST: usize = 16_777_216;

/// What is refused, and where.
#[derive(Clone, Copy)]
struct Refused<'a> {
    fault: BindFault,
    site: Site<'a>,
}

#[derive(Clone, Copy)]
enum Site<'a> {
    Parameter(&'a str),
    Element(&'a str, usize),
    Member(&'a str),
}

/// `FILE: FAULT: WHERE`, where the arguments of this text are refused: by line and column where it is no JSON, else by the
/// parameter and the element, or the member.
pub fn push_arguments(
    page: &mut String,
    alloc: Global,
    arguments: Source<'_, '_>,
    signature: &Signature,
    fault: BindFault,
) -> Result<(), AllocError> {
    page.push_str(arguments.name)?;
    match Json::from_str(alloc, arguments.text) {
        Ok(value) => {
            page.push_str(": ")?;
            push_site(page, fault, first_refusal(signature, &value))?;
            page.push_str("\n")
        }
        Err(error) => {
            if error.classify() == Category::Memory {
                return Err(AllocError);
            }
            let (line, column) = (error.line(), error.column());
            write!(page, ":{line}:{column}: {fault}\n")
        }
    }
}

/// `FAULT: WHERE`, where the arguments of this text are refused, the same without the file.
pub fn arguments_site(
    alloc: Global,
    text: &str,
    signature: &Signature,
    fault: BindFault,
) -> Result<String, AllocError> {
    let mut page = String::new(alloc);
    match Json::from_str(alloc, text) {
        Ok(value) => push_site(&mut page, fault, first_refusal(signature, &value))?,
        Err(error) => {
            if error.classify() == Category::Memory {
                return Err(AllocError);
            }
            let (line, column) = (error.line(), error.column());
            write!(page, "{fault}: line {line}, column {column}")?;
        }
    }
    Ok(page)
}

/// `FAULT: WHERE`, where a text is refused that is the value of a parameter.
pub fn argument_site(
    alloc: Global,
    text: &str,
    parameter: &Parameter,
    fault: BindFault,
) -> Result<String, AllocError> {
    let mut page = String::new(alloc);
    match Json::from_str(alloc, text) {
        Ok(value) => push_site(&mut page, fault, refused_value(parameter, &value))?,
        Err(error) => {
            if error.classify() == Category::Memory {
                return Err(AllocError);
            }
            write!(page, "{fault}: parameter \"{}\"", parameter.name.as_str())?;
        }
    }
    Ok(page)
}

// Where a fault is, if it is the one that was found.
fn push_site(
    page: &mut String,
    fault: BindFault,
    refused: Option<Refused<'_>>,
) -> Result<(), AllocError> {
    match refused {
        Some(refused) if refused.fault == fault => match refused.site {
            Site::Parameter(name) => write!(page, "{fault}: parameter \"{name}\""),
            Site::Element(name, element) => {
                write!(page, "{fault}: parameter \"{name}\", element {element}")
            }
            Site::Member(name) => write!(page, "{fault}: member \"{name}\""),
        },
        _ => write!(page, "{fault}"),
    }
}

// The first refusal of an object that should have the arguments.
fn first_refusal<'a>(signature: &'a Signature, value: &'a Json) -> Option<Refused<'a>> {
    for parameter in &signature.params {
        if let Some(refused) = refused_for(parameter, value) {
            return Some(refused);
        }
    }
    let extra = extra(signature, value)?;
    Some(Refused {
        fault: BindFault::Extra,
        site: Site::Member(extra),
    })
}

fn extra<'a>(signature: &Signature, value: &'a Json) -> Option<&'a str> {
    for key in value.as_object()?.keys() {
        if !has_parameter(signature, key.as_str()) {
            return Some(key.as_str());
        }
    }
    None
}

fn has_parameter(signature: &Signature, name: &str) -> bool {
    signature
        .params
        .iter()
        .any(|parameter| parameter.name.as_str() == name)
}

fn refused_for<'a>(parameter: &'a Parameter, value: &'a Json) -> Option<Refused<'a>> {
    let name = parameter.name.as_str();
    match value.get(name) {
        Some(found) => refused_value(parameter, found),
        None => Some(Refused {
            fault: BindFault::Missing,
            site: Site::Parameter(name),
        }),
    }
}

// Why a value is none of a parameter.
fn refused_value<'a>(parameter: &'a Parameter, found: &Json) -> Option<Refused<'a>> {
    let site = Site::Parameter(parameter.name.as_str());
    if !parameter.is_array {
        let fault = element_fault(parameter.elem, found)?;
        return Some(Refused { fault, site });
    }
    match found.as_array() {
        Some(values) => refused_in(parameter, values),
        None => Some(Refused {
            fault: BindFault::WrongKind,
            site,
        }),
    }
}

fn refused_in<'a>(parameter: &'a Parameter, values: &[Json]) -> Option<Refused<'a>> {
    let name = parameter.name.as_str();
    if values.len() > LONGEST {
        return Some(Refused {
            fault: BindFault::TooLong,
            site: Site::Parameter(name),
        });
    }
    for (element, value) in values.iter().enumerate() {
        if let Some(fault) = element_fault(parameter.elem, value) {
            return Some(Refused {
                fault,
                site: Site::Element(name, element),
            });
        }
    }
    None
}

// Why a value is none of an element type.
fn element_fault(elem: Elem, value: &Json) -> Option<BindFault> {
    if elem == Elem::Bool {
        return match value.as_bool() {
            Some(_) => None,
            None => Some(BindFault::WrongKind),
        };
    }
    let Some(whole) = value.as_number().and_then(Number::as_i128) else {
        return Some(BindFault::WrongKind);
    };
    let greatest = i128::from(greatest_of(elem));
    if whole > greatest || whole < greatest - i128::from(low_mask(elem)) {
        return Some(BindFault::OutOfRange);
    }
    None
}
