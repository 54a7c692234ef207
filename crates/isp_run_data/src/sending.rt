//! The arrays that go to files.
ghost use Rattle.std.specs.Prelude.{IfErr};
ghost use Rattle.isp_run_data.specs.Writing.{IsUnplanned, IsUnwritten};
ghost use Rattle.isp_run_words.specs.declared.request.RunWords.{RunWords};

use isp_base::{Array, Bound, Signature};
use isp_run_stops::{RunStop, Slip};
use isp_run_words::{
    DataFiles, Output, OutputFault, RunWords, Wanted, Words, output_bytes, planned, read_output,
};
use std::alloc::Global;

/// The outputs, with how each array is to be written.
///
/// `BadWord` where a word is no output, `NotPlanned` where its array cannot be written so, `Memory` where memory is refused.
pub fn outputs<'a>(
    alloc: Global,
    request: &RunWords<'a>,
    signature: &Signature,
    words: &Words,
    bound: &Bound,
) -> Result<Vec<Output<'a>>, RunStop<'a>>
    ensures { IfErr result (IsUnplanned request.now) }
{
    let mut outputs = Vec::new(alloc);
    for word in &request.outputs {
        let output = output(alloc, *word, signature, words, bound)?;
        outputs.push(output)?;
    }
    Ok(outputs)
}

fn output<'a>(
    alloc: Global,
    word: &'a str,
    signature: &Signature,
    words: &Words,
    bound: &Bound,
) -> Result<Output<'a>, RunStop<'a>>
    ensures { IfErr result (λ s. (q : RunWords) → IsUnplanned q s) }
{
    let wanted = wanted(word)?;
    match planned(alloc, signature, words, bound, wanted) {
        Ok(output) => Ok(output),
        Err(OutputFault::Memory) => Err(RunStop::Memory),
        Err(fault) => Err(RunStop::NotPlanned { word, fault }),
    }
}

fn wanted(word: &str) -> Result<Wanted<'_>, RunStop<'_>>
    ensures { IfErr result (λ s. (q : RunWords) → IsUnplanned q s) }
{
    match read_output(word) {
        Some((name, file, Some(format))) => Ok(Wanted { name, file, format }),
        Some((_name, _file, None)) => Err(RunStop::BadWord {
            word,
            slip: Slip::NoFormat,
        }),
        None => Err(RunStop::BadWord {
            word,
            slip: Slip::NoEquals,
        }),
    }
}

/// Writes each output to its file. `CannotWrite` with the name of the first file that is not written, `Memory` where memory is refused.
pub fn write_outputs<'a, F: DataFiles>(
    alloc: Global,
    outputs: &[Output<'a>],
    arrays: &[Array],
    files: &F,
) -> Result<(), RunStop<'a>>
    ensures { IfErr result IsUnwritten }
{
    for output in outputs {
        if let Some(array) = arrays.get(output.array) {
            let bytes = output_bytes(alloc, &output.layout, array)?;
            if !files.write_bytes(alloc, output.file, &bytes) {
                return Err(RunStop::CannotWrite(output.file));
            }
        }
    }
    Ok(())
}
