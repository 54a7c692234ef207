//! Arrays that a run leaves, as the bytes of files.
use crate::given::Words;
use crate::shapes::{shape_of, size_of};
use crate::words::Format;
use isp_base::{Argument, Array, Bound, Elem, Name, Parameter, Signature};
use isp_bind::answer;
use isp_files::{write_image, write_npy};
use std::alloc::{AllocError, Global};

/// How an array is written.
#[derive(Debug, Drop)]
pub enum Layout {
    /// A list in JSON, and a line feed.
    List,
    /// An NPY file of this shape.
    Npy {
        shape: Vec<usize>,
    },
    /// A PGM, or with three samples for each place a PPM.
    Image {
        is_color: bool,
        height: usize,
        width: usize,
    },
}

/// An array that goes to a file when the run has ended.
#[derive(Debug, Drop)]
pub struct Output<'a> {
    /// Its number among the array parameters.
    pub array: usize,
    pub file: &'a str,
    pub layout: Layout,
}

/// An array, by the name of its parameter, and the file that it is to go to.
#[derive(Clone, Copy, Debug)]
pub struct Wanted<'a> {
    pub name: &'a str,
    pub file: &'a str,
    pub format: Format,
}

/// Why an array cannot be written as is asked.
#[derive(Clone, Copy, Debug, PartialEq, Eq)]
pub enum OutputFault {
    /// Memory was refused.
    Memory,
    /// No array parameter has the name.
    NoArray,
    /// An image holds `uint8` or `uint16`, and this array another type.
    NoSamples,
    /// Nothing says how high and how wide the image is.
    NoSize,
}

impl From<AllocError> for OutputFault {
    ghost use Rattle.isp_run_words.specs.declared.outputs.OutputFault.TheVariants.{Memory};
    ghost use Rattle.std.specs.Prelude.{◌≡◌};

    ghost from_gives = { λ _ e. e ≡ Memory };

    fn from(_error: AllocError) -> OutputFault {
        OutputFault::Memory
    }
}

/// How an array is written to its file, as far as the arguments tell.
///
/// An NPY file has the shape of the file that gave the array, else one dimension. An image is as high and as wide as shapes.rt says.
pub fn planned<'a>(
    alloc: Global,
    signature: &Signature,
    words: &Words,
    bound: &Bound,
    wanted: Wanted<'a>,
) -> Result<Output<'a>, OutputFault> {
    let Some((array, found)) = array_of(signature, bound, wanted.name) else {
        return Err(OutputFault::NoArray);
    };
    let layout = match wanted.format {
        Format::Json => Layout::List,
        Format::Npy => Layout::Npy {
            shape: shape(alloc, words, wanted.name, found)?,
        },
        format => image(alloc, signature, words, bound, found, format)?,
    };
    Ok(Output {
        array,
        file: wanted.file,
        layout,
    })
}

fn shape(
    alloc: Global,
    words: &Words,
    name: &str,
    array: &Array,
) -> Result<Vec<usize>, AllocError> {
    match shape_of(alloc, words, name)? {
        Some(shape) => Ok(shape),
        None => Ok(vec![in alloc; array.len()]?),
    }
}

fn image(
    alloc: Global,
    signature: &Signature,
    words: &Words,
    bound: &Bound,
    array: &Array,
    format: Format,
) -> Result<Layout, OutputFault> {
    if !matches!(array.elem(), Elem::U8 | Elem::U16) {
        return Err(OutputFault::NoSamples);
    }
    let is_color = format == Format::Ppm;
    let places = if is_color {
        array.len() / 3
    } else {
        array.len()
    };
    if is_color && array.len() % 3 != 0 {
        return Err(OutputFault::NoSize);
    }
    match size_of(alloc, signature, words, bound, places)? {
        Some((height, width)) => Ok(Layout::Image {
            is_color,
            height,
            width,
        }),
        None => Err(OutputFault::NoSize),
    }
}

// The array parameter of a name, by its number among the arrays.
fn array_of<'b>(signature: &Signature, bound: &'b Bound, name: &str) -> Option<(usize, &'b Array)> {
    let mut number = 0usize;
    for (place, parameter) in signature.params.iter().enumerate() {
        if let Some(Argument::Array(array)) = bound.arguments.get(place) {
            if parameter.name.as_str() == name {
                return Some((number, array));
            }
            number = number.saturating_add(1);
        }
    }
    None
}

/// The bytes of an array in a file.
pub fn output_bytes(alloc: Global, layout: &Layout, array: &Array) -> Result<Vec<u8>, AllocError> {
    match layout {
        Layout::List => list(alloc, array),
        Layout::Npy { shape } => write_npy(alloc, shape, array),
        Layout::Image {
            is_color,
            height,
            width,
        } => write_image(alloc, *is_color, *height, *width, array),
    }
}

const BEFORE: &str = "{\"arrays\":{\"a\":";

const BEHIND: &str = "},\"result\":null}";

// What stands for an array in the answer of a run, and a line feed.
fn list(alloc: Global, array: &Array) -> Result<Vec<u8>, AllocError> {
    let mut params = Vec::new(alloc);
    params.push(Parameter {
        name: Name::new(String::from_str(alloc, "a")?),
        elem: array.elem(),
        is_array: true,
    })?;
    let signature = Signature {
        params,
        result: None,
    };
    let text = answer(alloc, &signature, std::slice::from_ref(array), None)?;
    let list = text.as_str().strip_prefix(BEFORE).unwrap_or("");
    let mut bytes = Vec::new(alloc);
    bytes.extend_from_slice(list.strip_suffix(BEHIND).unwrap_or("").as_bytes())?;
    bytes.push(b'\n')?;
    Ok(bytes)
}
