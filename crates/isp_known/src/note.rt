//! What is known of a place of a program's text.
ghost use Rattle.std.specs.Prelude.{◌≡◌, ◌++◌, ◌∷◌, [], OnOk};
ghost use Rattle.isp_known.specs.Notes.{declares, indexes, loads, uses};

use isp_base::{Span, Ty};
use std::alloc::AllocError;

/// What a name stands for.
#[derive(Clone, Copy, Debug, PartialEq, Eq)]
pub enum Subject {
    /// A variable, by its function's number and by its own there.
    Variable { function: usize, number: usize },
    /// A function of the program, by its number.
    Function { number: usize },
}

/// What is known of a place.
#[derive(Clone, Copy, Debug, PartialEq, Eq)]
pub enum Note {
    /// An expression stands there; the type is that of its own value.
    Value { span: Span, ty: Ty },
    /// A name begins there, which declares what it stands for.
    Declared { start: usize, subject: Subject },
    /// A name begins there, which is used.
    Used { start: usize, subject: Subject },
    /// A `foreach_active` or a `foreach_unique` begins there, whose index is declared. A typed tree has no place for its name.
    Index { keyword: usize, subject: Subject },
    /// A packed call ends there, which loads a variable. A typed tree has no place for its name.
    Loaded { end: usize, subject: Subject },
}

/// Notes an expression.
pub(crate) fn value(found: &mut Vec<Note>, span: Span, ty: Ty) -> Result<(), AllocError>
    ensures { OnOk result (found.new.items ≡ found.old.items ++ Note.Value span ty ∷ []) }
{
    found.push(Note::Value { span, ty })?;
    Ok(())
}

/// Notes that a variable of a function is declared by the name that begins a span.
pub(crate) fn declared(
    found: &mut Vec<Note>,
    function: usize,
    number: usize,
    span: Span,
) -> Result<(), AllocError>
    ensures { OnOk result (found.new.items ≡ found.old.items ++ declares function number span ∷ []) }
{
    found.push(Note::Declared {
        start: span.start,
        subject: Subject::Variable { function, number },
    })?;
    Ok(())
}

/// Notes that a variable of a function is used by the name that begins a span.
pub(crate) fn used(
    found: &mut Vec<Note>,
    function: usize,
    number: usize,
    span: Span,
) -> Result<(), AllocError>
    ensures { OnOk result (found.new.items ≡ found.old.items ++ uses function number span ∷ []) }
{
    found.push(Note::Used {
        start: span.start,
        subject: Subject::Variable { function, number },
    })?;
    Ok(())
}

/// Notes the index of a `foreach_active` or a `foreach_unique`, by the place of its keyword.
pub(crate) fn indexed(
    found: &mut Vec<Note>,
    function: usize,
    number: usize,
    keyword: Span,
) -> Result<(), AllocError>
    ensures { OnOk result (found.new.items ≡ found.old.items ++ indexes function number keyword ∷ []) }
{
    found.push(Note::Index {
        keyword: keyword.start,
        subject: Subject::Variable { function, number },
    })?;
    Ok(())
}

/// Notes that a packed call loads a variable of a function, by the place of the call.
pub(crate) fn loaded(
    found: &mut Vec<Note>,
    function: usize,
    number: usize,
    call: Span,
) -> Result<(), AllocError>
    ensures { OnOk result (found.new.items ≡ found.old.items ++ loads function number call ∷ []) }
{
    found.push(Note::Loaded {
        end: call.end,
        subject: Subject::Variable { function, number },
    })?;
    Ok(())
}

/// Notes that a function is called by the name that begins a span.
pub(crate) fn called(found: &mut Vec<Note>, number: usize, span: Span) -> Result<(), AllocError>
    ensures { OnOk result (found.new.items ≡ found.old.items ++ Note.Used span.start (Subject.Function number) ∷ []) }
{
    found.push(Note::Used {
        start: span.start,
        subject: Subject::Function { number },
    })?;
    Ok(())
}
