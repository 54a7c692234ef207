//! Code that is written apart first, so that a refusal leaves no trace.
ghost use Rattle.std.specs.Prelude.{◌≡◌, ◌≤◌, length, IfOk, OnErr, OnOk};
ghost use Rattle.isp_lower.specs.Emitted.{Unchanged};
ghost use Rattle.isp_lower.specs.reader.Apart.{IsApart, TakesOver};

use crate::line::Line;
use crate::types::Body;
use isp_code::Instr;
use std::alloc::{AllocError, Global};

/// So many instructions.
fn fillers(alloc: Global, count: usize) -> Result<Vec<Line>, AllocError>
    ensures { IfOk result (λ code. length code.items ≡ count) }
{
    let mut code = Vec::new(alloc);
    for at in 0..count {
        code.push(Line::new(Instr::Return(None)))?;
    }
    Ok(code)
}

impl Body {
    /// A body of as many instructions and of the same places, without a text: what is written after them is numbered as in
    /// this one, where it names no text.
    pub(crate) fn apart(&self, alloc: Global) -> Result<Body, AllocError>
        ensures { IfOk result (λ b. IsApart self.now b) }
    {
        Ok(Body {
            places: Vec::from_slice(alloc, self.places.as_slice())?,
            texts: Vec::new(alloc),
            code: fillers(alloc, self.code.len())?,
        })
    }

    /// Takes what was written apart: the instructions after as many as this one has, and the places. Where memory is
    /// refused, all stays as it was.
    pub(crate) fn join(&mut self, mut written: Body) -> Result<(), AllocError>
        requires { length self.old.code.items ≤ length written.code.items }
        ensures taken { OnOk result (TakesOver self.old written self.new) }
        ensures refused { OnErr result (Unchanged self.old self.new) }
    {
        let mut more = written.code.split_off(self.code.len())?;
        self.code.append(&mut more)?;
        self.places = written.places;
        Ok(())
    }
}
