//! The function at work becomes a routine.
ghost use Rattle.std.specs.Prelude.{◌≡◌, Some, None, OnErr, OnOk};
ghost use Rattle.isp_lower.specs.Drafts.{closed, draft_of, heading_in, with_heading};
ghost use Rattle.isp_registers.specs.Growth.{rows_of};
ghost use Rattle.isp_lower_code.specs.Header.{scalars_behind, vectors_behind};

use crate::header::{Heading, Types, types_of};
use crate::line::Line;
use crate::types::Emitter;
use isp_code::Function;
use std::alloc::{AllocError, Global};

/// A function that is closed: its routine, whose code stands beside it.
#[derive(Drop)]
pub struct Closed {
    pub routine: Function,
    pub lines: Vec<Line>,
}

impl Emitter<'_> {
    /// The routine of the function at work, if there is one, is the next one. Where memory is refused, all stays as it was.
    pub(crate) fn close(&mut self, alloc: Global) -> Result<(), AllocError>
        ensures closed { OnOk result (draft_of self.new ≡ closed (draft_of self.old)) }
        ensures refused { OnErr result (draft_of self.new ≡ draft_of self.old) }
    {
        let heading = match self.heading.take() {
            Some(heading) => heading,
            None => return Ok(()),
        };
        match types_of(alloc, &self.reserved.registers, heading.params.as_slice()) {
            Ok(types) => self.append(alloc, heading, types),
            Err(refused) => {
                self.heading = Some(heading);
                Err(refused)
            }
        }
    }

    /// The same where its heading and the types of its registers are given.
    fn append(&mut self, alloc: Global, heading: Heading, types: Types) -> Result<(), AllocError>
        requires none { self.old.heading ≡ None }
        requires scalars { types.scalars.items ≡ scalars_behind heading.params.items (rows_of self.old.reserved.registers) }
        requires vectors { types.vectors.items ≡ vectors_behind heading.params.items (rows_of self.old.reserved.registers) }
        ensures closed { OnOk result (draft_of self.new ≡ closed (with_heading (heading_in heading) (draft_of self.old))) }
        ensures refused { OnErr result (draft_of self.new ≡ with_heading (heading_in heading) (draft_of self.old)) }
    {
        let routine = Function {
            name: heading.name,
            exported: heading.exported,
            returns: heading.returns,
            params: heading.params,
            locals: heading.locals,
            scalars: types.scalars,
            vectors: types.vectors,
            masks: self.reserved.masks,
            code: Vec::new(alloc),
        };
        let lines = self.body.taken(alloc);
        match self.functions.push(Closed { routine, lines }) {
            Ok(()) => Ok(()),
            Err(failed) => {
                let Closed { routine, lines } = failed.value;
                self.body.code = lines;
                self.heading = Some(Heading {
                    name: routine.name,
                    exported: routine.exported,
                    returns: routine.returns,
                    params: routine.params,
                    locals: routine.locals,
                });
                Err(AllocError)
            }
        }
    }
}
