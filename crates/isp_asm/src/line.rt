//! Lines as they are read.
ghost use Rattle.std.specs.Prelude.{◌≡◌, ◌∷◌, [], true, length, map, replicate, codes, IfOk, IfErr, OnOk, Some, None};
ghost use Rattle.isp_code.specs.Writable.{local_fits, name_fits, number_fits, param_fits, place_fits, text_fits};
ghost use Rattle.isp_asm.specs.Heads.{head_word};
ghost use Rattle.isp_asm.specs.Spelling as says;
ghost use Rattle.isp_asm.specs.Spelling.{line_words, returns_words};
ghost use Rattle.isp_asm.specs.Words.{type_word};
ghost use Rattle.isp_asm.specs.declared.fault.LineFault.TheVariants.{Refused};
ghost use Rattle.isp_asm.specs.declared.fault.Rule.{Rule};
ghost use Rattle.isp_asm.specs.declared.head.Head.TheVariants as head;
ghost use Rattle.isp_asm.specs.reader.Reading.{behind_fault, is_some_types, line_fits, said, types_fault, words_of};

use crate::fault::{LineFault, Rule};
use crate::head::Head;
use crate::instr::{call, instr};
use crate::{operands, page, words};
use isp_base::{Elem, Gang, Name, Span};
use isp_code::{Instr, Local, Param, Returns};
use std::alloc::Global;

/// The bytes that a source may have.
const SOURCE_LIMIT: usize = 1_048_576;

/// How a function begins.
#[derive(Drop)]
pub(crate) struct Heading {
    pub name: Name,
    pub exported: bool,
    pub returns: Returns,
}

/// The same, with the name as it stands in the text.
#[derive(Clone, Copy)]
struct FuncWords<'a> {
    name: &'a str,
    exported: bool,
    returns: Returns,
}

/// What a line says.
#[derive(Drop)]
pub(crate) enum Line {
    Isp(Gang),
    Place(Span),
    Text(Vec<u8>),
    Func(Heading),
    Par(Param),
    Loc(Local),
    Scalars(Vec<Elem>),
    Vectors(Vec<Elem>),
    Masks(u32),
    Do(Instr),
    End,
}

fn header(words: &[&str]) -> Result<Gang, Rule>
    ensures spelled { IfOk result (λ g. line_words (says.Isp g) ≡ codes "isp" ∷ words_of words.now) }
    ensures ok { OnOk result (behind_fault head.Isp (words_of words.now) ≡ None) }
    ensures err { IfErr result (λ e. behind_fault head.Isp (words_of words.now) ≡ Some e) }
{
    let [version, gang, width] = words else {
        return Err(Rule::BadLine);
    };
    lanes(version, gang, width)
}

// The lanes of a gang, after its version.
fn lanes(version: &str, gang: &str, width: &str) -> Result<Gang, Rule>
    ensures spelled { IfOk result (λ g. line_words (says.Isp g) ≡ codes "isp" ∷ version.now ∷ gang.now ∷ width.now ∷ []) }
    ensures ok { OnOk result (behind_fault head.Isp (version.now ∷ gang.now ∷ width.now ∷ []) ≡ None) }
    ensures err { IfErr result (λ e. behind_fault head.Isp (version.now ∷ gang.now ∷ width.now ∷ []) ≡ Some e) }
{
    let version = words::version(version.as_bytes())?;
    words::expect("gang", gang)?;
    let gang = words::gang(width.as_bytes())?;
    if version == page::version_of(gang) {
        Ok(gang)
    } else {
        Err(Rule::BadOperand)
    }
}

fn place(words: &[&str]) -> Result<Span, Rule>
    ensures spelled { IfOk result (λ s. line_words (says.Place s) ≡ codes "place" ∷ words_of words.now) }
    ensures fits { IfOk result (λ s. place_fits s ≡ true) }
    ensures err { IfErr result (λ e. behind_fault head.Place (words_of words.now) ≡ Some e) }
{
    let [start, end] = words else {
        return Err(Rule::BadLine);
    };
    span(start, end)
}

// From one byte up to another.
fn span(start: &str, end: &str) -> Result<Span, Rule>
    ensures spelled { IfOk result (λ s. line_words (says.Place s) ≡ codes "place" ∷ start.now ∷ end.now ∷ []) }
    ensures fits { IfOk result (λ s. place_fits s ≡ true) }
    ensures err { IfErr result (λ e. behind_fault head.Place (start.now ∷ end.now ∷ []) ≡ Some e) }
{
    let start = words::number(Rule::BadOperand, start.as_bytes())? as usize;
    let end = words::number(Rule::BadOperand, end.as_bytes())? as usize;
    if start <= end && end <= SOURCE_LIMIT {
        Ok(Span { start, end })
    } else {
        Err(Rule::BadOperand)
    }
}

fn masks(words: &[&str]) -> Result<u32, Rule>
    ensures spelled { IfOk result (λ n. line_words (says.Masks n) ≡ codes "m" ∷ words_of words.now) }
    ensures fits { IfOk result (λ n. number_fits n ≡ true) }
    ensures ok { OnOk result (behind_fault head.Masks (words_of words.now) ≡ None) }
    ensures err { IfErr result (λ e. behind_fault head.Masks (words_of words.now) ≡ Some e) }
{
    let [count] = words else {
        return Err(Rule::BadLine);
    };
    words::number(Rule::BadOperand, count.as_bytes())
}

fn local(words: &[&str]) -> Result<Local, Rule>
    ensures spelled { IfOk result (λ l. line_words (says.Loc l) ≡ codes "loc" ∷ words_of words.now) }
    ensures fits { IfOk result (λ l. local_fits l ≡ true) }
    ensures ok { OnOk result (behind_fault head.Loc (words_of words.now) ≡ None) }
    ensures err { IfErr result (λ e. behind_fault head.Loc (words_of words.now) ≡ Some e) }
{
    let [sharing, elem, size] = words else {
        return Err(Rule::BadLine);
    };
    let sharing = words::sharing(sharing)?;
    let elem = words::elem(elem)?;
    let size = words::size(size.as_bytes())?;
    Ok(Local {
        sharing,
        elem,
        size,
    })
}

fn text(alloc: Global, words: &[&str]) -> Result<Vec<u8>, LineFault>
    ensures spelled { IfOk result (λ bytes. line_words (says.Text bytes.items) ≡ codes "text" ∷ words_of words.now) }
    ensures fits { IfOk result (λ bytes. text_fits bytes.items ≡ true) }
    ensures err { IfErr result (λ e. (r : Rule) → e ≡ Refused r → behind_fault head.Text (words_of words.now) ≡ Some r) }
{
    let [word] = words else {
        return Err(LineFault::Refused(Rule::BadLine));
    };
    words::hex(alloc, word)
}

fn opening<'a>(words: &[&'a str]) -> Result<FuncWords<'a>, Rule>
    ensures spelled { IfOk result (λ o. line_words (says.Func o.name.now o.exported o.returns) ≡ codes "func" ∷ words_of words.now) }
    ensures fits { IfOk result (λ o. name_fits o.name.now ≡ true) }
    ensures err { IfErr result (λ e. behind_fault head.Func (words_of words.now) ≡ Some e) }
{
    match words {
        [name, exported, void] => {
            words::check_name(name)?;
            let exported = words::exported(exported)?;
            words::expect("void", void)?;
            Ok(FuncWords {
                name,
                exported,
                returns: Returns::Nothing,
            })
        }
        [name, exported, kind, elem] => {
            words::check_name(name)?;
            let exported = words::exported(exported)?;
            let returns = words::value(kind, elem)?;
            Ok(FuncWords {
                name,
                exported,
                returns,
            })
        }
        _ => Err(Rule::BadLine),
    }
}

fn func(alloc: Global, words: &[&str]) -> Result<Heading, LineFault>
    ensures spelled { IfOk result (λ h. line_words (says.Func h.name h.exported h.returns) ≡ codes "func" ∷ words_of words.now) }
    ensures fits { IfOk result (λ h. name_fits h.name ≡ true) }
    ensures err { IfErr result (λ e. (r : Rule) → e ≡ Refused r → behind_fault head.Func (words_of words.now) ≡ Some r) }
{
    let opening = opening(words)?;
    let name = words::name(alloc, opening.name)?;
    Ok(Heading {
        name,
        exported: opening.exported,
        returns: opening.returns,
    })
}

fn param(alloc: Global, words: &[&str]) -> Result<Param, LineFault>
    ensures spelled { IfOk result (λ p. line_words (says.Par p) ≡ codes "par" ∷ words_of words.now) }
    ensures fits { IfOk result (λ p. param_fits p ≡ true) }
    ensures err { IfErr result (λ e. (r : Rule) → e ≡ Refused r → behind_fault head.Par (words_of words.now) ≡ Some r) }
{
    let [kind, elem, name] = words else {
        return Err(LineFault::Refused(Rule::BadLine));
    };
    let kind = words::kind(kind)?;
    let elem = words::elem(elem)?;
    words::check_name(name)?;
    let name = words::name(alloc, name)?;
    Ok(Param { name, kind, elem })
}

// The types of further registers, of which there is one at least.
fn elems(alloc: Global, words: &[&str]) -> Result<Vec<Elem>, LineFault>
    ensures spelled { IfOk result (λ ts. map type_word ts.items ≡ words_of words.now) }
    ensures fits { IfOk result (λ ts. is_some_types ts.items ≡ true) }
    ensures err { IfErr result (λ e. (r : Rule) → e ≡ Refused r → types_fault (words_of words.now) ≡ Some r) }
{
    if words.is_empty() {
        return Err(LineFault::Refused(Rule::BadLine));
    }
    operands::elems(alloc, words)
}

fn end(words: &[&str]) -> Result<(), Rule>
    ensures spelled { OnOk result (words_of words.now ≡ []) }
    ensures err { IfErr result (λ e. behind_fault head.End (words_of words.now) ≡ Some e) }
{
    if words.is_empty() {
        Ok(())
    } else {
        Err(Rule::BadLine)
    }
}

/// The line with this first word and these words after it.
pub(crate) fn read(alloc: Global, head: Head, words: &[&str]) -> Result<Line, LineFault>
    ensures spelled { IfOk result (λ l. line_words (said l) ≡ head_word head ∷ words_of words.now) }
    ensures fits { IfOk result (λ l. line_fits (said l) ≡ true) }
    ensures err { IfErr result (λ e. (r : Rule) → e ≡ Refused r → behind_fault head (words_of words.now) ≡ Some r) }
{
    match head {
        Head::Isp => Ok(Line::Isp(header(words)?)),
        Head::Place => Ok(Line::Place(place(words)?)),
        Head::Text => Ok(Line::Text(text(alloc, words)?)),
        Head::Func => Ok(Line::Func(func(alloc, words)?)),
        Head::Par => Ok(Line::Par(param(alloc, words)?)),
        Head::Loc => Ok(Line::Loc(local(words)?)),
        Head::Scalars => Ok(Line::Scalars(elems(alloc, words)?)),
        Head::Vectors => Ok(Line::Vectors(elems(alloc, words)?)),
        Head::Masks => Ok(Line::Masks(masks(words)?)),
        Head::Call => Ok(Line::Do(call(alloc, words)?)),
        Head::Op(op) => Ok(Line::Do(instr(alloc, op, words)?)),
        Head::End => {
            end(words)?;
            Ok(Line::End)
        }
    }
}
