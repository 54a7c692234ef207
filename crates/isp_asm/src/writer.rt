//! How code is written: its lines, in their order.
ghost use Rattle.std.specs.Prelude.{◌≡◌, ◌++◌, ◌∷◌, [], ◌≤◌, map, length, string_bytes, IfOk, OnOk};
ghost use Rattle.std.specs.List.{flat_map};
ghost use Rattle.isp_code.specs.Listing.{routine_of};
ghost use Rattle.isp_asm.specs.Heads.{head_word};
ghost use Rattle.isp_asm.specs.Rows.{instr_words};
ghost use Rattle.isp_asm.specs.Spelling as says;
ghost use Rattle.isp_asm.specs.Spelling.{export_word, instr_line, kind_word, if_any, line_text, line_words, lines_text, local_line, param_line, place_line, returns_words, routine_lines, scalars_line, sharing_word, spaced, text_line, text_of, vectors_line};
ghost use Rattle.isp_asm.specs.Words.{type_word};

use crate::head::Head;
use crate::page::{self, Page};
use isp_base::{Elem, Gang, Span};
use isp_code::{Code, Function, Instr, Local, Param, ParamKind, Returns, Sharing};
use std::alloc::{AllocError, Global};

/// The text of code, by `docs/MACHINE.md`. No other code has it.
pub fn write(alloc: Global, code: &Code) -> Result<String, AllocError>
    ensures { IfOk result (λ s. string_bytes s ≡ text_of code.now) }
{
    let mut page = Page::new(alloc);
    page.header(code.gang())?;
    page.places(code.places())?;
    page.texts(code)?;
    page.functions(code.functions())?;
    Ok(page.into_text())
}

/// The line of an instruction, with its line feed, as it stands in the text of code.
pub fn write_instr(alloc: Global, instr: &Instr) -> Result<String, AllocError>
    ensures { IfOk result (λ s. string_bytes s ≡ line_text (instr_words instr.now)) }
{
    let mut line = Page::new(alloc);
    line.instr(instr)?;
    Ok(line.into_text())
}

impl Page {
    fn header(&mut self, gang: Gang) -> Result<(), AllocError>
        ensures { OnOk result (self.new ≡ self.old ++ line_text (line_words (says.Isp gang))) }
    {
        self.head(Head::Isp)?;
        self.number(page::version_of(gang))?;
        self.word("gang")?;
        self.number(gang.width() as u64)?;
        self.feed()
    }

    fn places(&mut self, places: &[Span]) -> Result<(), AllocError>
        ensures { OnOk result (self.new ≡ self.old ++ lines_text (map place_line places.now)) }
    {
        for place in places {
            self.place(*place)?;
        }
        Ok(())
    }

    fn place(&mut self, place: Span) -> Result<(), AllocError>
        ensures { OnOk result (self.new ≡ self.old ++ line_text (line_words (says.Place place))) }
    {
        self.head(Head::Place)?;
        self.number(place.start as u64)?;
        self.number(place.end as u64)?;
        self.feed()
    }

    fn texts(&mut self, code: &Code) -> Result<(), AllocError>
        ensures { OnOk result (self.new ≡ self.old ++ lines_text (map text_line code.now.texts)) }
    {
        for number in 0..code.text_count() {
            self.text(code.text(number))?;
        }
        Ok(())
    }

    fn text(&mut self, bytes: &[u8]) -> Result<(), AllocError>
        ensures { OnOk result (self.new ≡ self.old ++ line_text (line_words (says.Text bytes.now))) }
    {
        self.head(Head::Text)?;
        self.hex(bytes)?;
        self.feed()
    }

    fn functions(&mut self, functions: &[Function]) -> Result<(), AllocError>
        ensures { OnOk result (self.new ≡ self.old ++ lines_text (flat_map routine_lines (map routine_of functions.now))) }
    {
        for function in functions {
            self.function(function)?;
        }
        Ok(())
    }

    fn function(&mut self, function: &Function) -> Result<(), AllocError>
        ensures { OnOk result (self.new ≡ self.old ++ lines_text (routine_lines (routine_of function.now))) }
    {
        self.func(function.name.as_str(), function.exported, function.returns)?;
        self.params(&function.params)?;
        self.locals(&function.locals)?;
        self.scalars(&function.scalars)?;
        self.vectors(&function.vectors)?;
        self.masks(function.masks)?;
        self.code(&function.code)?;
        self.end()
    }

    fn func(&mut self, name: &str, exported: bool, returns: Returns) -> Result<(), AllocError>
        ensures { OnOk result (self.new ≡ self.old ++ line_text (line_words (says.Func name.now exported returns))) }
    {
        self.head(Head::Func)?;
        self.word(name)?;
        self.word(if exported { "export" } else { "inner" })?;
        self.returns(returns)?;
        self.feed()
    }

    fn returns(&mut self, returns: Returns) -> Result<(), AllocError>
        ensures { OnOk result (self.new ≡ self.old ++ flat_map spaced (returns_words returns)) }
    {
        match returns {
            Returns::Nothing => self.word("void"),
            Returns::Scalar(elem) => self.given("s", elem),
            Returns::Vector(elem) => self.given("v", elem),
        }
    }

    fn given(&mut self, word: &str, elem: Elem) -> Result<(), AllocError>
        ensures { OnOk result (self.new ≡ self.old ++ flat_map spaced (word.now ∷ type_word elem ∷ [])) }
    {
        self.word(word)?;
        self.elem(elem)
    }

    fn params(&mut self, params: &[Param]) -> Result<(), AllocError>
        ensures { OnOk result (self.new ≡ self.old ++ lines_text (map param_line params.now)) }
    {
        for param in params {
            self.param(param)?;
        }
        Ok(())
    }

    fn param(&mut self, param: &Param) -> Result<(), AllocError>
        ensures { OnOk result (self.new ≡ self.old ++ line_text (line_words (says.Par param.now))) }
    {
        self.head(Head::Par)?;
        self.word(kind_name(param.kind))?;
        self.elem(param.elem)?;
        self.word(param.name.as_str())?;
        self.feed()
    }

    fn locals(&mut self, locals: &[Local]) -> Result<(), AllocError>
        ensures { OnOk result (self.new ≡ self.old ++ lines_text (map local_line locals.now)) }
    {
        for local in locals {
            self.local(*local)?;
        }
        Ok(())
    }

    fn local(&mut self, local: Local) -> Result<(), AllocError>
        ensures { OnOk result (self.new ≡ self.old ++ line_text (line_words (says.Loc local))) }
    {
        self.head(Head::Loc)?;
        self.word(sharing_name(local.sharing))?;
        self.elem(local.elem)?;
        self.number(u64::from(local.size))?;
        self.feed()
    }

    // The further scalars, in one line if there are any.
    fn scalars(&mut self, elems: &[Elem]) -> Result<(), AllocError>
        ensures { OnOk result (self.new ≡ self.old ++ lines_text (if_any scalars_line elems.now)) }
    {
        if elems.is_empty() {
            return Ok(());
        }
        self.types(Head::Scalars, elems)
    }

    // The further vectors.
    fn vectors(&mut self, elems: &[Elem]) -> Result<(), AllocError>
        ensures { OnOk result (self.new ≡ self.old ++ lines_text (if_any vectors_line elems.now)) }
    {
        if elems.is_empty() {
            return Ok(());
        }
        self.types(Head::Vectors, elems)
    }

    fn types(&mut self, head: Head, elems: &[Elem]) -> Result<(), AllocError>
        ensures { OnOk result (self.new ≡ self.old ++ line_text (head_word head ∷ map type_word elems.now)) }
    {
        self.head(head)?;
        self.elems(elems)?;
        self.feed()
    }

    fn masks(&mut self, count: u32) -> Result<(), AllocError>
        ensures { OnOk result (self.new ≡ self.old ++ line_text (line_words (says.Masks count))) }
    {
        self.head(Head::Masks)?;
        self.number(u64::from(count))?;
        self.feed()
    }

    fn code(&mut self, code: &[Instr]) -> Result<(), AllocError>
        ensures { OnOk result (self.new ≡ self.old ++ lines_text (map instr_line code.now)) }
    {
        for instr in code {
            self.instr(instr)?;
        }
        Ok(())
    }

    fn end(&mut self) -> Result<(), AllocError>
        ensures { OnOk result (self.new ≡ self.old ++ line_text (line_words says.End)) }
    {
        self.head(Head::End)?;
        self.feed()
    }
}

fn kind_name(kind: ParamKind) -> &'static str
    ensures { result.now ≡ kind_word kind }
{
    match kind {
        ParamKind::Scalar => "s",
        ParamKind::Vector => "v",
        ParamKind::Array => "a",
    }
}

fn sharing_name(sharing: Sharing) -> &'static str
    ensures { result.now ≡ sharing_word sharing }
{
    match sharing {
        Sharing::Shared => "u",
        Sharing::PerInstance => "p",
    }
}
