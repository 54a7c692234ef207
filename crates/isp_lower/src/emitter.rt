//! The code of a program while it is written.
ghost use Rattle.std.specs.Prelude.{◌≡◌, ◌<◌, length, IfOk, OnErr, OnOk};
ghost use Rattle.isp_typed.specs.Views.{function_of, program_of};
ghost use Rattle.isp_lower.specs.Drafts.{CanBeWritten, HasAllNamed, HasNamed, IsBegun, begun, draft_of, finished, first_draft, next_mask, next_register, with_instr, with_mask, with_place, with_register, with_target, with_text};
ghost use Rattle.isp_lower_code.specs.Header.{HeadingFits};
ghost use Rattle.isp_lower_code.specs.Layout.{mask_register, register};
ghost use Rattle.isp_lower_code.specs.Named.{Unnamed};
ghost use Rattle.isp_lower_code.specs.Patched.{IsJump, instr_at};
ghost use Rattle.isp_lower_code.specs.Rows.{fresh_at};

use crate::header::heading_of;
use crate::line::Line;
use crate::listing::{add_functions, add_places, add_texts};
use crate::named::{behind_named, class_at};
use crate::types::{Body, Emitter};
use isp_base::{Elem, Rate, Span};
use isp_code::{Class, Code};
use isp_rates::Checked;
use isp_registers::{
    MaskNumber, PlaceNumber, RegisterNumber, Reserve, TextNumber, begin, no_registers,
};
use isp_typed::TypedFunction;
use std::alloc::{AllocError, Global};

impl<'p> Emitter<'p> {
    /// No code, no place, no text and no function, for a checked program's gang.
    pub fn new(alloc: Global, checked: &'p Checked) -> Emitter<'p>
        ensures { draft_of result ≡ first_draft (program_of checked.now) }
    {
        let program = checked.program();
        Emitter {
            gang: program.gang,
            callees: &program.functions,
            functions: Vec::new(alloc),
            heading: None,
            reserved: Reserve {
                registers: no_registers(alloc),
                masks: 0,
            },
            body: Body::new(alloc),
        }
    }

    /// Closes the function at work, if there is one, and begins another: it has a register for each variable, in their
    /// order, one for what it gives back, three masks, and no instruction. 0 where memory is refused.
    pub fn begin(&mut self, f: &TypedFunction) -> Result<(), AllocError>
        requires { HeadingFits (function_of f.now) }
        ensures begun { OnOk result (draft_of self.new ≡ begun (function_of f.now) (draft_of self.old)) }
        ensures refused { OnErr result (draft_of self.new ≡ draft_of self.old) }
    {
        let alloc = *self.functions.allocator();
        let heading = heading_of(alloc, f)?;
        let registers = begin(alloc, f.variables.as_slice(), f.result)?;
        self.close(alloc)?;
        self.body.code = Vec::new(alloc);
        self.heading = Some(heading);
        self.reserved = Reserve {
            registers,
            masks: 3,
        };
        Ok(())
    }

    /// Adds a place in the source and gives its number. 0 where memory is refused.
    pub fn place(&mut self, span: Span) -> Result<PlaceNumber, AllocError>
        ensures number { IfOk result (λ n. n.number ≡ length (draft_of self.old).places) }
        ensures added { OnOk result (draft_of self.new ≡ with_place span (draft_of self.old)) }
        ensures refused { OnErr result (draft_of self.new ≡ draft_of self.old) }
    {
        self.body.place(span)
    }

    /// Adds a text, its bytes, and gives its number. 0 where memory is refused.
    pub fn text(&mut self, bytes: &[u8]) -> Result<TextNumber, AllocError>
        ensures number { IfOk result (λ n. n.number ≡ length (draft_of self.old).texts) }
        ensures added { OnOk result (draft_of self.new ≡ with_text bytes.now (draft_of self.old)) }
        ensures refused { OnErr result (draft_of self.new ≡ draft_of self.old) }
    {
        self.body.text(bytes)
    }

    /// Adds an instruction, with the number that it names, and gives its own number. 0 where memory is refused.
    pub fn emit(&mut self, line: Line) -> Result<usize, AllocError>
        requires { IsBegun (draft_of self.old) }
        ensures number { IfOk result (λ n. n ≡ length (draft_of self.old).code) }
        ensures added { OnOk result (draft_of self.new ≡ with_instr line (draft_of self.old)) }
        ensures all_named { HasAllNamed (draft_of self.old) → HasNamed (draft_of self.old) line → OnOk result (HasAllNamed (draft_of self.new)) }
        ensures refused { OnErr result (draft_of self.new ≡ draft_of self.old) }
    {
        let number = self.body.code.len();
        self.body.code.push(line)?;
        Ok(number)
    }

    /// A register of the function at work for values of a type, and its number: after those that are there and those that
    /// instructions name, so no instruction names it, and no other call gives it. The number has 32 bits. It takes time in
    /// step with the code so far. 0 where memory is refused.
    pub fn fresh(&mut self, rate: Rate, elem: Elem) -> Result<RegisterNumber, AllocError>
        requires begun { IsBegun (draft_of self.old) }
        requires few { next_register rate (draft_of self.old) < 4294967296 }
        ensures number { IfOk result (λ d. d.number ≡ next_register rate (draft_of self.old)) }
        ensures added { OnOk result (draft_of self.new ≡ with_register rate elem (draft_of self.old)) }
        ensures named { IfOk result (λ d. fresh_at (draft_of self.new).rows rate d.number ≡ d.number) }
        ensures all_named { HasAllNamed (draft_of self.old) → OnOk result (HasAllNamed (draft_of self.new)) }
        ensures unnamed { IfOk result (λ d. Unnamed (register rate d.number) (draft_of self.old).code) }
        ensures refused { OnErr result (draft_of self.new ≡ draft_of self.old) }
    {
        let alloc = *self.functions.allocator();
        let behind = behind_named(class_at(rate), self.body.code.as_slice());
        self.reserved
            .registers
            .fresh_from(alloc, behind, rate, elem)
    }

    /// One more mask register of the function at work, and its number: after those that are there and those that
    /// instructions name, so no instruction names it, and no earlier call gave it. Code in the slots after its number leaves
    /// it as it is. There are fewer than 4,294,967,295 masks then. It takes time in step with the code so far.
    pub fn fresh_mask(&mut self) -> MaskNumber
        requires begun { IsBegun (draft_of self.old) }
        requires few { next_mask (draft_of self.old) < 4294967295 }
        ensures number { result.number ≡ next_mask (draft_of self.old) }
        ensures added { draft_of self.new ≡ with_mask (draft_of self.old) }
        ensures all_named { HasAllNamed (draft_of self.old) → HasAllNamed (draft_of self.new) }
        ensures unnamed { Unnamed (mask_register result.number) (draft_of self.old).code }
    {
        let behind = behind_named(Class::Mask, self.body.code.as_slice());
        self.reserved.fresh_mask_from(behind)
    }

    /// The jump of a number leads to another instruction; nothing else changes.
    pub fn patch(&mut self, at: usize, target: usize)
        requires there { at < length (draft_of self.old).code }
        requires jump { IsJump (instr_at (draft_of self.old).code at) }
        ensures patched { draft_of self.new ≡ with_target at target (draft_of self.old) }
        ensures all_named { HasAllNamed (draft_of self.old) → HasAllNamed (draft_of self.new) }
    {
        self.body.patch(at, target)
    }

    /// Closes the function at work, if there is one, and gives the code, on the condition that the text of code can have
    /// its places, its texts and its functions, with the numbers that they name. 0 where memory is refused.
    pub fn finish(mut self) -> Result<Code, AllocError>
        requires { CanBeWritten (draft_of self) }
        ensures { IfOk result (λ code. code ≡ finished (draft_of self.entry)) }
    {
        let alloc = *self.functions.allocator();
        self.close(alloc)?;
        let mut code = Code::new(alloc, self.gang);
        add_places(&mut code, self.body.places.as_slice())?;
        add_texts(&mut code, self.body.texts.as_slice())?;
        add_functions(alloc, &mut code, self.functions)?;
        Ok(code)
    }
}
