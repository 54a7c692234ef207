//! The C file, and the prototypes of its exported functions.
ghost use Rattle.std.specs.Prelude.{◌≡◌, ◌++◌, map, option_map, string_bytes, IfOk, OnOk};
ghost use Rattle.std.specs.List.{flat_map};
ghost use Rattle.isp_code.specs.Listing.{routine_of};
ghost use Rattle.isp_lanes_read.specs.Rows.{rows_of};
ghost use Rattle.isp_native.specs.reader.Forms.{HaveLawsIfAny, forms_by};
ghost use Rattle.isp_native.specs.Text as says;
ghost use Rattle.isp_native.specs.Text.{IsCText, c_text, header_text, numbered};

use crate::page::Page;
use isp_base::Span;
use isp_code::{Code, Function};
use isp_lanes_read::{Tables, check, find};
use std::alloc::{AllocError, Global};

// No tables are looked for where a function has more instructions. The search looks at each with all vectors that are read later: 12,000
// instructions on 1,000 variables that live in all of them took six seconds, as many on a few variables a quarter of one.
const MOST_LINES: usize = 8192;

/// The C file of code: a line for each instruction, in their order, over `include/isp_machine.h`. Where nobody reads
/// the lanes again that an instruction has to keep, its line has the free word, and where nobody reads what it writes, the
/// line does nothing: as tables of `isp_lanes_read` say that its check has taken. Fails only where memory is refused.
pub fn write(alloc: Global, code: &Code) -> Result<String, AllocError>
    ensures { IfOk result (λ s. IsCText code.now (string_bytes s)) }
{
    match tables_of(alloc, code)? {
        Some(tables) => written(alloc, code, Some(&tables)),
        None => written(alloc, code, None),
    }
}

// Tables that the check takes; none where it takes none, and of large code.
fn tables_of(alloc: Global, code: &Code) -> Result<Option<Tables>, AllocError>
    ensures { IfOk result (λ t. HaveLawsIfAny code.now (option_map rows_of t)) }
{
    if is_large(code) {
        return Ok(None);
    }
    let tables = find(alloc, code)?;
    if check(code, &tables) {
        Ok(Some(tables))
    } else {
        Ok(None)
    }
}

fn is_large(code: &Code) -> bool {
    code.functions().iter().any(|f| f.code.len() > MOST_LINES)
}

// The C file of code, by tables or without.
fn written(alloc: Global, code: &Code, tables: Option<&Tables>) -> Result<String, AllocError>
    ensures { IfOk result (λ s. string_bytes s ≡ c_text code.now (forms_by tables.entry)) }
{
    let mut page = Page::new(alloc);
    page.first(code.gang().width() as u64)?;
    page.places(code.places())?;
    page.texts(code)?;
    page.all_declared(code.functions())?;
    page.all_defined(code.functions(), tables)?;
    page.entries(code.functions())?;
    Ok(page.into_text())
}

/// The prototypes of the exported functions, for a C file that calls them.
pub fn header(alloc: Global, code: &Code) -> Result<String, AllocError>
    ensures { IfOk result (λ s. string_bytes s ≡ header_text code.now) }
{
    let mut page = Page::new(alloc);
    page.text("#include \"isp_machine.h\"\n")?;
    page.prototypes(code.functions())?;
    Ok(page.into_text())
}

impl Page {
    fn first(&mut self, width: u64) -> Result<(), AllocError>
        ensures { OnOk result (self.new ≡ self.old ++ says.head_text width) }
    {
        self.number("#define ISP_GANG ", width)?;
        self.text("\n#include \"isp_machine.h\"\n")
    }

    fn places(&mut self, places: &[Span]) -> Result<(), AllocError>
        ensures { OnOk result (self.new ≡ self.old ++ numbered says.place_line 0 places.now) }
    {
        for (number, place) in places.iter().enumerate() {
            self.place(number, *place)?;
        }
        Ok(())
    }

    fn place(&mut self, number: usize, place: Span) -> Result<(), AllocError>
        ensures { OnOk result (self.new ≡ self.old ++ says.place_line number place) }
    {
        self.number("PLACE(p", number as u64)?;
        self.number(", ", place.start as u64)?;
        self.number(", ", place.end as u64)?;
        self.text(")\n")
    }

    fn texts(&mut self, code: &Code) -> Result<(), AllocError>
        ensures { OnOk result (self.new ≡ self.old ++ numbered says.text_line 0 code.now.texts) }
    {
        for number in 0..code.text_count() {
            self.text_of(number, code.text(number))?;
        }
        Ok(())
    }

    fn text_of(&mut self, number: usize, bytes: &[u8]) -> Result<(), AllocError>
        ensures { OnOk result (self.new ≡ self.old ++ says.text_line number bytes.now) }
    {
        self.number("TEXT(t", number as u64)?;
        self.text(", \"")?;
        self.bytes(bytes)?;
        self.text("\")\n")
    }

    fn all_declared(&mut self, functions: &[Function]) -> Result<(), AllocError>
        ensures { OnOk result (self.new ≡ self.old ++ numbered says.declared 0 (map routine_of functions.now)) }
    {
        for (number, function) in functions.iter().enumerate() {
            self.declared(number, function)?;
        }
        Ok(())
    }

    fn all_defined(
        &mut self,
        functions: &[Function],
        tables: Option<&Tables>,
    ) -> Result<(), AllocError>
        ensures { OnOk result (self.new ≡ self.old ++ numbered (says.defined (forms_by tables.entry)) 0 (map routine_of functions.now)) }
    {
        for (number, function) in functions.iter().enumerate() {
            self.defined(number, function, tables)?;
        }
        Ok(())
    }

    fn entries(&mut self, functions: &[Function]) -> Result<(), AllocError>
        ensures { OnOk result (self.new ≡ self.old ++ numbered says.entry 0 (map routine_of functions.now)) }
    {
        for (number, function) in functions.iter().enumerate() {
            self.entry(number, function)?;
        }
        Ok(())
    }

    fn prototypes(&mut self, functions: &[Function]) -> Result<(), AllocError>
        ensures { OnOk result (self.new ≡ self.old ++ flat_map says.prototype_line (map routine_of functions.now)) }
    {
        for function in functions {
            self.prototype_line(function)?;
        }
        Ok(())
    }
}
