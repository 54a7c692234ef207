//! Code grows, and jumps are written once it is known where they lead.
ghost use Rattle.std.specs.Prelude.{◌≡◌, ◌<◌, ◌∷◌, [], length, slice_set, IfOk, OnErr, OnOk};
ghost use Rattle.isp_code.specs.declared.instr.Instr.TheVariants as instr;
ghost use Rattle.isp_lower.specs.Emitted.{Appends, AppendsText, Unchanged, texts_of};
ghost use Rattle.isp_lower_code.specs.Patched.{IsJump, instr_at, patched};

use crate::line::Line;
use crate::types::Body;
use isp_base::Span;
use isp_code::{Instr, JumpTest, Register};
use isp_registers::{PlaceNumber, TextNumber};
use std::alloc::{AllocError, Global};
use std::mem;

impl Body {
    /// No code.
    pub fn new(alloc: Global) -> Body
        ensures code { result.code.items ≡ [] }
        ensures places { result.places.items ≡ [] }
        ensures texts { result.texts.items ≡ [] }
    {
        Body {
            places: Vec::new(alloc),
            texts: Vec::new(alloc),
            code: Vec::new(alloc),
        }
    }

    /// Appends an instruction.
    pub fn push(&mut self, instr: Instr) -> Result<(), AllocError>
        ensures { OnOk result (Appends self.old self.new (λ pc p. instr ∷ []) []) }
    {
        self.add(Line::new(instr))
    }

    /// Appends an instruction with the number that it names.
    pub fn add(&mut self, line: Line) -> Result<(), AllocError>
        ensures { OnOk result (Appends self.old self.new (λ pc p. line ∷ []) []) }
    {
        self.code.push(line)?;
        Ok(())
    }

    /// Appends a place in the source, and gives its number.
    pub fn place(&mut self, span: Span) -> Result<PlaceNumber, AllocError>
        ensures number { IfOk result (λ n. n.number ≡ length self.old.places.items) }
        ensures added { OnOk result (Appends self.old self.new (λ pc p. []) (span ∷ [])) }
        ensures refused { OnErr result (Unchanged self.old self.new) }
    {
        let number = self.places.len();
        self.places.push(span)?;
        Ok(PlaceNumber { number })
    }

    /// Appends a text, its bytes, and gives its number.
    pub fn text(&mut self, bytes: &[u8]) -> Result<TextNumber, AllocError>
        ensures number { IfOk result (λ n. n.number ≡ length (texts_of self.old)) }
        ensures added { OnOk result (AppendsText self.old self.new bytes.now) }
        ensures refused { OnErr result (Unchanged self.old self.new) }
    {
        let number = self.texts.len();
        let alloc = *self.texts.allocator();
        self.texts.push(Vec::from_slice(alloc, bytes)?)?;
        Ok(TextNumber { number })
    }

    /// Hands out its code, and has none.
    pub(crate) fn taken(&mut self, alloc: Global) -> Vec<Line>
        ensures code { result ≡ self.old.code }
        ensures left { self.new.code.items ≡ [] }
        ensures places { self.new.places ≡ self.old.places }
        ensures texts { self.new.texts ≡ self.old.texts }
    {
        mem::replace(&mut self.code, Vec::new(alloc))
    }

    /// Writes a jump, of which the number is known, once it is known that it leads to the next instruction.
    pub fn land(&mut self, at: usize, test: JumpTest, register: Register)
        requires { at < length self.old.code.items }
        ensures code { self.new.code.items ≡ slice_set self.old.code.items at (instr.JumpIf test register (length self.old.code.items)) }
        ensures places { self.new.places ≡ self.old.places }
        ensures texts { self.new.texts ≡ self.old.texts }
    {
        let jump = Instr::JumpIf {
            test,
            register,
            target: 0,
        };
        self.code[at] = Line::naming(jump, self.code.len());
    }

    /// The same for a jump that is always taken.
    pub fn land_always(&mut self, at: usize)
        requires { at < length self.old.code.items }
        ensures code { self.new.code.items ≡ slice_set self.old.code.items at (instr.Jump (length self.old.code.items)) }
        ensures places { self.new.places ≡ self.old.places }
        ensures texts { self.new.texts ≡ self.old.texts }
    {
        self.code[at] = Line::naming(Instr::Jump { target: 0 }, self.code.len());
    }

    /// A jump leads to another instruction.
    pub fn patch(&mut self, at: usize, target: usize)
        requires there { at < length self.old.code.items }
        requires jump { IsJump (instr_at self.old.code.items at) }
        ensures code { self.new.code.items ≡ patched self.old.code.items at target }
        ensures places { self.new.places ≡ self.old.places }
        ensures texts { self.new.texts ≡ self.old.texts }
    {
        self.code[at].retarget(target);
    }
}
