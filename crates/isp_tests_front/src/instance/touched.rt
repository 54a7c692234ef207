//! What a run touched, in the words of a record: each element by the name of its array.
use isp_base::{Argument, Parameter};
use isp_solo_run::arrays::Arrays;
use std::alloc::{AllocError, Global};

/// An array among the arguments: its name and its length.
#[derive(Clone, Copy)]
pub(crate) struct Named<'a> {
    name: &'a str,
    count: usize,
}

/// The arrays among the arguments, in order: the numbers of their stores.
pub(crate) fn arrays_of<'a>(
    alloc: Global,
    parameters: &'a [Parameter],
    arguments: &[Argument],
) -> Result<Vec<Named<'a>>, AllocError> {
    let mut arrays = Vec::new(alloc);
    for (parameter, argument) in parameters.iter().zip(arguments) {
        if let Argument::Array(array) = argument {
            arrays.push(Named {
                name: parameter.name.as_str(),
                count: array.len(),
            })?;
        }
    }
    Ok(arrays)
}

/// The elements that a run stored in, with what it stored.
pub(crate) fn stored(
    alloc: Global,
    arrays: &[Named<'_>],
    touched: &Arrays,
) -> Result<String, AllocError> {
    let mut text = String::new(alloc);
    for (store, array) in arrays.iter().enumerate() {
        for place in 0..array.count {
            if let Some(bits) = touched.stored_at(store, place) {
                let item = format!(in alloc; "{}[{place}]={bits}", array.name)?;
                push_word(&mut text, item.as_str())?;
            }
        }
    }
    Ok(text)
}

/// The elements that a run read.
pub(crate) fn read(
    alloc: Global,
    arrays: &[Named<'_>],
    touched: &Arrays,
) -> Result<String, AllocError> {
    let mut text = String::new(alloc);
    for (store, array) in arrays.iter().enumerate() {
        for place in 0..array.count {
            if was_read(touched, store, place) {
                let item = format!(in alloc; "{}[{place}]", array.name)?;
                push_word(&mut text, item.as_str())?;
            }
        }
    }
    Ok(text)
}

fn was_read(touched: &Arrays, store: usize, place: usize) -> bool {
    match touched.stores.get(store) {
        Some(array) => array.read_at(place),
        None => false,
    }
}

// One more word, after a space where others came before.
fn push_word(text: &mut String, word: &str) -> Result<(), AllocError> {
    if !text.is_empty() {
        text.push(' ')?;
    }
    text.push_str(word)?;
    Ok(())
}
