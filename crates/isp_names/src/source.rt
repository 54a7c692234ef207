//! What is known of a source text.
ghost use Rattle.std.specs.Prelude.{◌≡◌, IfErr, IfOk};
ghost use Rattle.isp_lex.specs.declared.fault.Fault.{Fault};
ghost use Rattle.isp_lex.specs.declared.fault.SourceFault.TheVariants.{Refused};
ghost use Rattle.isp_typed.specs.Views.{program_of};
ghost use Rattle.isp_front.specs.Front.{HasTokens, IsFaulty, IsUnread};
ghost use Rattle.isp_names.specs.Known.{IsKnown};

use isp_base::Gang;
use isp_front::front;
use isp_known::{Note, notes, with_places};
use isp_lex::{SourceFault, Tokens, lex};
use isp_rates::Checked;
use std::alloc::Global;

/// The program of a text, its tokens, and what is known of the places of the text.
#[derive(Drop)]
pub struct Known {
    pub program: Checked,
    pub tokens: Tokens,
    /// Each name has its place.
    pub notes: Vec<Note>,
}

/// The tokens of a text, with their faults, 1 to 5.
fn tokens_of(alloc: Global, text: &str) -> Result<Tokens, SourceFault>
    ensures ok { IfOk result (λ t. HasTokens text.now t) }
    ensures refused { IfErr result (λ e. (f : Fault) → e ≡ Refused f → IsUnread text.now f) }
{
    lex(alloc, text)
}

/// The program of a source text for a gang of some size, with its tokens and notes. A text that is no program is refused for its
/// fault, as `front` refuses it.
pub fn known_text(alloc: Global, gang: Gang, text: &str) -> Result<Known, SourceFault>
    ensures ok { IfOk result (λ k. IsKnown gang text.now (program_of k.program) k.tokens k.notes.items) }
    ensures refused { IfErr result (λ e. (f : Fault) → e ≡ Refused f → IsFaulty gang text.now f) }
{
    let program = front(alloc, text, gang)?;
    let tokens = tokens_of(alloc, text)?;
    let found = notes(alloc, program.program())?;
    let notes = with_places(alloc, &found, tokens.as_slice())?;
    Ok(Known {
        program,
        tokens,
        notes,
    })
}
