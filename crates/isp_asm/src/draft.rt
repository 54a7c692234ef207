//! Code as its lines are read.
ghost use Rattle.std.specs.Prelude.{◌≡◌, ◌∷◌, [], true, OnOk, IfOk, IfErr, Some};
ghost use Rattle.std.specs.List.{slice_split};
ghost use Rattle.isp_code.specs.Listing.{routine_of};
ghost use Rattle.isp_code.specs.Writable.{IsWritable, place_fits, routine_fits, table_has_room, text_fits};
ghost use Rattle.isp_asm.specs.Faults.{is_space, line_fault, words_line_fault};
ghost use Rattle.isp_asm.specs.Faults as faults;
ghost use Rattle.isp_asm.specs.Order as order;
ghost use Rattle.isp_asm.specs.Spelling as says;
ghost use Rattle.isp_asm.specs.Spelling.{line_words};
ghost use Rattle.isp_asm.specs.declared.fault.LineFault.TheVariants.{Refused};
ghost use Rattle.isp_asm.specs.declared.fault.Rule.{Rule};
ghost use Rattle.isp_asm.specs.reader.Drafting as drafting;
ghost use Rattle.isp_asm.specs.reader.Drafting.{AddsLine, IsDraft, drafted, nothing_drafted, seen_of, taken};
ghost use Rattle.isp_asm.specs.reader.Reading.{Stands, said, words_of};

use crate::fault::{LineFault, Rule};
use crate::head::Head;
use crate::line::{Heading, Line};
use crate::order::Kind;
use crate::{line, words};
use isp_base::{Elem, Gang, Name, Span};
use isp_code::{Code, CodeLimit, Function, Instr, Local, Param, Returns};
use std::alloc::{AllocError, Global};
use std::mem;

/// The numbers that name a place or a text.
const TABLE_LIMIT: usize = 1 << 32;

/// The code that lines say so far, the function that has begun, and the kind of the last line.
#[derive(Drop)]
pub(crate) struct Draft {
    code: Code,
    begun: Function,
    last: Kind,
}

// A function of which nothing is said.
fn blank(alloc: Global) -> Function
    ensures { routine_of result ≡ drafting.blank }
{
    Function {
        name: Name::new(String::new(alloc)),
        exported: false,
        returns: Returns::Nothing,
        params: Vec::new(alloc),
        locals: Vec::new(alloc),
        scalars: Vec::new(alloc),
        vectors: Vec::new(alloc),
        masks: 0,
        code: Vec::new(alloc),
    }
}

impl Draft {
    /// Nothing is read.
    pub(crate) fn new(alloc: Global) -> Draft
        ensures { drafted result ≡ nothing_drafted }
    {
        Draft {
            code: Code::new(alloc, Gang::W4),
            begun: blank(alloc),
            last: Kind::Start,
        }
    }

    /// Whether the text may end here.
    pub(crate) fn may_end(&self) -> bool
        ensures { result ≡ order.may_end self.now.last }
    {
        self.last.may_end()
    }

    /// The code.
    pub(crate) fn into_code(self) -> Code
        ensures code { result ≡ self.code }
        ensures writable { IsWritable result }
    {
        let _functions = self.code.functions();
        self.code
    }

    // Whether a line of a kind may stand here.
    fn takes(&self, kind: Kind) -> bool
        ensures { result ≡ faults.takes (seen_of (drafted self.now)) kind }
    {
        self.last.may_follow(kind) && self.has_room(kind)
    }

    fn has_room(&self, kind: Kind) -> bool
        ensures { result ≡ faults.has_room (seen_of (drafted self.now)) kind }
    {
        match kind {
            Kind::Place => self.code.places().len() < TABLE_LIMIT,
            Kind::Text => self.code.text_count() < TABLE_LIMIT,
            _ => true,
        }
    }

    /// Takes the next line of the text.
    pub(crate) fn line(&mut self, alloc: Global, text: &str) -> Result<(), LineFault>
        requires { IsDraft (drafted self.old) }
        ensures ok { OnOk result (AddsLine (drafted self.old) (drafted self.new) text.now) }
        ensures err { IfErr result (λ e. (r : Rule) → e ≡ Refused r → line_fault (seen_of (drafted self.old)) text.now ≡ Some r) }
    {
        let line = self.parse(alloc, text)?;
        self.take(alloc, line)?;
        Ok(())
    }

    // What a line says that may stand here.
    fn parse(&self, alloc: Global, text: &str) -> Result<Line, LineFault>
        ensures words { IfOk result (λ l. line_words (said l) ≡ slice_split is_space text.now) }
        ensures stands { IfOk result (λ l. Stands (seen_of (drafted self.now)) (said l)) }
        ensures err { IfErr result (λ e. (r : Rule) → e ≡ Refused r → line_fault (seen_of (drafted self.now)) text.now ≡ Some r) }
    {
        let words = words::split(alloc, text)?;
        let [first, operands @ ..] = words.as_slice() else {
            return Err(LineFault::Refused(Rule::NotCanonical));
        };
        self.parse_words(alloc, first, operands)
    }

    fn parse_words(&self, alloc: Global, first: &str, operands: &[&str]) -> Result<Line, LineFault>
        ensures words { IfOk result (λ l. line_words (said l) ≡ first.now ∷ words_of operands.now) }
        ensures stands { IfOk result (λ l. Stands (seen_of (drafted self.now)) (said l)) }
        ensures err { IfErr result (λ e. (r : Rule) → e ≡ Refused r → words_line_fault (seen_of (drafted self.now)) (first.now ∷ words_of operands.now) ≡ Some r) }
    {
        if !words::is_plain(first.as_bytes()) || !words::are_plain(operands) {
            return Err(LineFault::Refused(Rule::NotCanonical));
        }
        let Some(head) = Head::of(first) else {
            return Err(LineFault::Refused(Rule::BadLine));
        };
        if self.takes(head.kind()) {
            line::read(alloc, head, operands)
        } else {
            Err(LineFault::Refused(Rule::BadLine))
        }
    }

    // Takes a line.
    fn take(&mut self, alloc: Global, line: Line) -> Result<(), AllocError>
        requires draft { IsDraft (drafted self.old) }
        requires stands { Stands (seen_of (drafted self.old)) (said line) }
        ensures { OnOk result (drafted self.new ≡ taken (said line) (drafted self.old)) }
    {
        match line {
            Line::Isp(gang) => self.isp(alloc, gang),
            Line::Place(place) => self.place(place)?,
            Line::Text(text) => self.text(&text)?,
            Line::Func(heading) => self.func(alloc, heading),
            Line::Par(param) => self.par(param)?,
            Line::Loc(local) => self.loc(local)?,
            Line::Scalars(elems) => self.scalars(elems),
            Line::Vectors(elems) => self.vectors(elems),
            Line::Masks(count) => self.masks(count),
            Line::Do(instr) => self.instr(instr)?,
            Line::End => self.end(alloc)?,
        }
        Ok(())
    }

    fn isp(&mut self, alloc: Global, gang: Gang)
        ensures { drafted self.new ≡ taken (says.Isp gang) (drafted self.old) }
    {
        self.code = Code::new(alloc, gang);
        self.last = Kind::Isp;
    }

    fn place(&mut self, place: Span) -> Result<(), AllocError>
        requires { table_has_room self.old.code.places (place_fits place) ≡ true }
        ensures { OnOk result (drafted self.new ≡ taken (says.Place place) (drafted self.old)) }
    {
        match self.code.add_place(place) {
            Ok(_) => {
                self.last = Kind::Place;
                Ok(())
            }
            Err(CodeLimit::Memory) => Err(AllocError),
            Err(CodeLimit::OverLimit) => unreachable!(),
        }
    }

    fn text(&mut self, text: &[u8]) -> Result<(), AllocError>
        requires { table_has_room self.old.code.texts (text_fits text.now) ≡ true }
        ensures { OnOk result (drafted self.new ≡ taken (says.Text text.now) (drafted self.old)) }
    {
        match self.code.add_text(text) {
            Ok(_) => {
                self.last = Kind::Text;
                Ok(())
            }
            Err(CodeLimit::Memory) => Err(AllocError),
            Err(CodeLimit::OverLimit) => unreachable!(),
        }
    }

    fn func(&mut self, alloc: Global, heading: Heading)
        ensures { drafted self.new ≡ taken (says.Func heading.name heading.exported heading.returns) (drafted self.old) }
    {
        self.begun = blank(alloc);
        self.begun.name = heading.name;
        self.begun.exported = heading.exported;
        self.begun.returns = heading.returns;
        self.last = Kind::Func;
    }

    fn par(&mut self, param: Param) -> Result<(), AllocError>
        ensures { OnOk result (drafted self.new ≡ taken (says.Par param) (drafted self.old)) }
    {
        self.begun.params.push(param)?;
        self.last = Kind::Par;
        Ok(())
    }

    fn loc(&mut self, local: Local) -> Result<(), AllocError>
        ensures { OnOk result (drafted self.new ≡ taken (says.Loc local) (drafted self.old)) }
    {
        self.begun.locals.push(local)?;
        self.last = Kind::Loc;
        Ok(())
    }

    fn scalars(&mut self, elems: Vec<Elem>)
        ensures { drafted self.new ≡ taken (says.Scalars elems.items) (drafted self.old) }
    {
        self.begun.scalars = elems;
        self.last = Kind::Scalars;
    }

    fn vectors(&mut self, elems: Vec<Elem>)
        ensures { drafted self.new ≡ taken (says.Vectors elems.items) (drafted self.old) }
    {
        self.begun.vectors = elems;
        self.last = Kind::Vectors;
    }

    fn masks(&mut self, count: u32)
        ensures { drafted self.new ≡ taken (says.Masks count) (drafted self.old) }
    {
        self.begun.masks = count;
        self.last = Kind::Masks;
    }

    fn instr(&mut self, instr: Instr) -> Result<(), AllocError>
        ensures { OnOk result (drafted self.new ≡ taken (says.Do instr) (drafted self.old)) }
    {
        self.begun.code.push(instr)?;
        self.last = Kind::Instr;
        Ok(())
    }

    fn end(&mut self, alloc: Global) -> Result<(), AllocError>
        requires { routine_fits (routine_of self.old.begun) ≡ true }
        ensures { OnOk result (drafted self.new ≡ taken says.End (drafted self.old)) }
    {
        let function = mem::replace(&mut self.begun, blank(alloc));
        match self.code.add_function(function) {
            Ok(()) => {
                self.last = Kind::End;
                Ok(())
            }
            Err((_function, CodeLimit::Memory)) => Err(AllocError),
            Err((_function, CodeLimit::OverLimit)) => unreachable!(),
        }
    }
}
