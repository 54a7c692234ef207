//! What the words give, with what their files hold.
ghost use Rattle.std.specs.Prelude.{◌∷◌, [], List, None, Option, Some, ℕ, IfErr, IfOk, string_bytes};
ghost use Rattle.isp_run_data.specs.Loading.{EachGiven, IsContent, IsGiven, IsLoaded, IsUnloaded};
ghost use Rattle.isp_run_words.specs.Saying.{IsWord};
ghost use Rattle.isp_run_words.specs.declared.request.RunWords.{RunWords};
ghost use denote.Ref.{Bor};

use isp_base::Name;
use isp_run_stops::{RunStop, Slip};
use isp_run_words::{
    Content, DataFault, DataFiles, Format, Given, RunWords, Value, Words, read_value,
};
use std::alloc::Global;

/// The name of the standard input as a file.
const INPUT: &str = "/dev/stdin";

/// What the words give, with what their files hold, which are read in the order of the words.
///
/// `BadWord` where a word is none of a run, which `bad_word` of isp_run_stops says before a file is read. `CannotRead` with the name of
/// a file that is not there, or that holds no text where the word wants one. `Memory` where memory is refused.
pub fn loaded<'a, F: DataFiles>(
    alloc: Global,
    request: &RunWords<'a>,
    files: &F,
) -> Result<Words, RunStop<'a>>
    ensures ok { IfOk result (IsLoaded (F.has_bytes files.now) request.now.values.items) }
    ensures err { IfErr result (IsUnloaded (F.has_bytes files.now) request.now) }
{
    if let [word] = request.values.as_slice() {
        if let Some((None, value)) = read_value(*word) {
            return whole(alloc, *word, value, files);
        }
    }
    let given = each(alloc, request, files)?;
    Ok(Words::Each(given))
}

// All arguments, from the value of a word without a name.
fn whole<'a, F: DataFiles>(
    alloc: Global,
    word: &'a str,
    value: Value<'a>,
    files: &F,
) -> Result<Words, RunStop<'a>>
    requires { IsWord word.now (Some (None, value)) }
    ensures ok { IfOk result (IsLoaded (F.has_bytes files.now) (word.entry ∷ [])) }
    ensures err { IfErr result (λ s. (q : RunWords) → IsUnloaded (F.has_bytes files.now) q s) }
{
    match content_of(alloc, word, value, files)? {
        Content::Json(text) => Ok(Words::Whole(text)),
        _ => Err(RunStop::BadWord {
            word,
            slip: Slip::NoObject,
        }),
    }
}

// What each word gives.
fn each<'a, F: DataFiles>(
    alloc: Global,
    request: &RunWords<'a>,
    files: &F,
) -> Result<Vec<Given>, RunStop<'a>>
    ensures ok { IfOk result (λ v. EachGiven (F.has_bytes files.now) request.now.values.items v.items) }
    ensures err { IfErr result (IsUnloaded (F.has_bytes files.now) request.now) }
{
    let mut given = Vec::new(alloc);
    for word in &request.values {
        let one = one(alloc, *word, files)?;
        given.push(one)?;
    }
    Ok(given)
}

// What a word gives.
fn one<'a, F: DataFiles>(alloc: Global, word: &'a str, files: &F) -> Result<Given, RunStop<'a>>
    ensures ok { IfOk result (IsGiven (F.has_bytes files.now) word.now) }
    ensures err { IfErr result (λ s. (q : RunWords) → IsUnloaded (F.has_bytes files.now) q s) }
{
    let Some((Some(name), value)) = read_value(word) else {
        return Err(RunStop::BadWord {
            word,
            slip: Slip::NoName,
        });
    };
    let content = content_of(alloc, word, value, files)?;
    let name = Name::new(String::from_str(alloc, name)?);
    Ok(Given { name, content })
}

// What a value stands for, which is that of the word.
fn content_of<'a, F: DataFiles>(
    alloc: Global,
    word: &'a str,
    value: Value<'a>,
    files: &F,
) -> Result<Content, RunStop<'a>>
    ensures ok { IfOk result (IsContent (F.has_bytes files.now) value.entry) }
    ensures err { IfErr result (λ s. (q : RunWords) (n : Option (Bor (List ℕ))) → IsWord word.now (Some (n, value.entry)) → IsUnloaded (F.has_bytes files.now) q s) }
{
    match value {
        Value::Literal(text) => Ok(Content::Json(String::from_str(alloc, text)?)),
        Value::Input => Ok(Content::Json(text_of(alloc, INPUT, files)?)),
        Value::File(name, Some(Format::Json)) => Ok(Content::Json(text_of(alloc, name, files)?)),
        Value::File(name, Some(Format::Npy)) => Ok(Content::Npy(bytes_of(alloc, name, files)?)),
        Value::File(name, Some(_image)) => Ok(Content::Image(bytes_of(alloc, name, files)?)),
        Value::Zeros(Some(count)) => Ok(Content::Zeros(count)),
        Value::File(_, None) => Err(RunStop::BadWord {
            word,
            slip: Slip::NoFormat,
        }),
        Value::Zeros(None) => Err(RunStop::BadWord {
            word,
            slip: Slip::NoLength,
        }),
    }
}

// The bytes of a file.
fn bytes_of<'a, F: DataFiles>(
    alloc: Global,
    name: &'a str,
    files: &F,
) -> Result<Vec<u8>, RunStop<'a>>
    ensures ok { IfOk result (λ v. F.has_bytes files.now name.now (Some v.items)) }
    ensures err { IfErr result (λ s. (q : RunWords) → IsUnloaded (F.has_bytes files.now) q s) }
{
    match files.read_bytes(alloc, name) {
        Ok(bytes) => Ok(bytes),
        Err(DataFault::CannotRead) => Err(RunStop::CannotRead(name)),
        Err(DataFault::Memory) => Err(RunStop::Memory),
    }
}

// The text of a file.
fn text_of<'a, F: DataFiles>(alloc: Global, name: &'a str, files: &F) -> Result<String, RunStop<'a>>
    ensures ok { IfOk result (λ s. F.has_bytes files.now name.now (Some (string_bytes s))) }
    ensures err { IfErr result (λ s. (q : RunWords) → IsUnloaded (F.has_bytes files.now) q s) }
{
    let bytes = bytes_of(alloc, name, files)?;
    match String::from_utf8(bytes) {
        Ok(text) => Ok(text),
        Err(_error) => Err(RunStop::CannotRead(name)),
    }
}
