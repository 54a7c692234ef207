//! Functions and programs.
ghost use Rattle.std.specs.Prelude.{◌≡◌, ◌++◌, ◌∷◌, [], IfOk, OnOk};
ghost use Rattle.isp_typed.specs.Views.{function_of, functions_of, program_of};
ghost use Rattle.isp_known.specs.Notes.{function_notes, functions_notes, params_notes, program_notes};

use crate::note::{Note, Subject, declared};
use crate::stmt::block;
use isp_base::Span;
use isp_typed::{Program, TypedFunction};
use std::alloc::{AllocError, Global};

fn params(found: &mut Vec<Note>, function: usize, spans: &[Span]) -> Result<(), AllocError>
    ensures { OnOk result (found.new.items ≡ found.old.items ++ params_notes function 0 spans.now) }
{
    for (number, span) in spans.iter().enumerate() {
        declared(found, function, number, *span)?;
    }
    Ok(())
}

fn name(found: &mut Vec<Note>, number: usize, span: Span) -> Result<(), AllocError>
    ensures { OnOk result (found.new.items ≡ found.old.items ++ Note.Declared span.start (Subject.Function number) ∷ []) }
{
    found.push(Note::Declared {
        start: span.start,
        subject: Subject::Function { number },
    })?;
    Ok(())
}

fn function(found: &mut Vec<Note>, number: usize, one: &TypedFunction) -> Result<(), AllocError>
    ensures { IfOk result (λ u. found.new.items ≡ found.old.items ++ function_notes number (function_of one.now)) }
{
    name(found, number, one.span)?;
    params(found, number, &one.params)?;
    block(found, number, &one.body)
}

fn functions(found: &mut Vec<Note>, all: &[TypedFunction]) -> Result<(), AllocError>
    ensures { OnOk result (found.new.items ≡ found.old.items ++ functions_notes 0 (functions_of all.now)) }
{
    for (number, one) in all.iter().enumerate() {
        function(found, number, one)?;
    }
    Ok(())
}

/// What is known of the places of a program: of each expression its type, of each name what it stands for.
pub fn notes(alloc: Global, program: &Program) -> Result<Vec<Note>, AllocError>
    ensures { IfOk result (λ v. v.items ≡ program_notes (program_of program.now)) }
{
    let mut found = Vec::new(alloc);
    functions(&mut found, &program.functions)?;
    Ok(found)
}
