//! The first breach in a function: as one that is called, and as the entry.
ghost use Rattle.std.specs.Prelude.{◌≡◌};
ghost use Rattle.std.specs.Prelude.{◌≡◌};
ghost use Rattle.isp_typed.specs.Views.{function_of};
ghost use Rattle.isp_independence.specs.reader.Answers.{called_answer, entry_answer};

use crate::control::Control;
use crate::dependence::Dependence;
use crate::early::leaves_block_early;
use crate::stmt::block;
use isp_typed::TypedFunction;

/// The first breach in a function that is called, where a part of the gang may call it; None where there is none. Of several
/// the one is answered whose place starts first, a tie by the lower number of its rule (docs/INDEPENDENCE.md).
pub fn called(function: &TypedFunction) -> Option<Dependence>
    ensures { result ≡ called_answer (function_of function.now) }
{
    block(Control::start(true, function), &function.body)
}

/// The first breach in an entry, which the whole gang begins, in the same order; None where there is none. What it calls
/// has breaches of its own, and so has it where it is called again.
pub fn entry(function: &TypedFunction) -> Option<Dependence>
    ensures { result ≡ entry_answer (function_of function.now) }
{
    let whole = Control::start(false, function);
    let early = leaves_block_early(whole, &function.body);
    block(Control::start(early, function), &function.body)
}
