//! The faults of a source text.
ghost use Rattle.std.specs.Prelude.{◌≡◌, ◌∷◌, [], IfOk, Some, slice_get};
ghost use Rattle.isp_lex.specs.declared.fault.Fault.{Fault};
ghost use Rattle.isp_tree.specs.Views.{functions_of as tree_of};
ghost use Rattle.isp_typed.specs.Typed.{Program};
ghost use Rattle.isp_front.specs.Front.{IsFaulty, IsSource};
ghost use Rattle.isp_faults.specs.Faults.{AreFaults, OfTree};

use isp_base::Gang;
use isp_breaches::breaches;
use isp_front::read;
use isp_lex::{Fault, SourceFault};
use isp_name_breaches::name_breaches;
use isp_tree::Tree;
use isp_types::resolve;
use std::alloc::{AllocError, Global};

/// A list of one fault.
fn alone(alloc: Global, fault: Fault) -> Result<Vec<Fault>, AllocError>
    ensures { IfOk result (λ v. v.items ≡ fault ∷ []) }
{
    let mut list = Vec::new(alloc);
    list.push(fault)?;
    Ok(list)
}

/// The faults of a tree.
fn of_tree(alloc: Global, tree: &Tree, gang: Gang) -> Result<Vec<Fault>, AllocError>
    ensures { IfOk result (λ v. OfTree gang (tree_of tree.now) v.items) }
{
    match resolve(alloc, tree, gang) {
        Ok(typed) => breaches(alloc, typed.program()),
        Err(SourceFault::Refused(_)) => name_breaches(alloc, tree, gang),
        Err(SourceFault::Memory) => Err(AllocError),
    }
}

/// The faults of a source text: that for which it has no tree, or those of its tree.
fn of_text(alloc: Global, text: &str, gang: Gang) -> Result<Vec<Fault>, AllocError>
    ensures { IfOk result (λ v. AreFaults gang text.now v.items) }
{
    match read(alloc, text) {
        Ok(tree) => of_tree(alloc, &tree, gang),
        Err(SourceFault::Refused(fault)) => alone(alloc, fault),
        Err(SourceFault::Memory) => Err(AllocError),
    }
}

/// The faults of a source text for a gang of some size, each once, in the order of the bytes where their spans end, a tie by the
/// lower number, and then by where they start.
///
/// Of a text without a tree it is the one fault of the lexer, 1 to 5, or of the parser, 10 to 12. Of a tree they are all
/// breaches of names and types, 20 to 25; and where there is none, all of rates, exits and exports, 30 to 33
/// (docs/LANGUAGE.md). AllocError: memory was refused.
pub fn faults(alloc: Global, text: &str, gang: Gang) -> Result<Vec<Fault>, AllocError>
    ensures all { IfOk result (λ v. AreFaults gang text.now v.items) }
    // Where there is none, the text is the source of a program; else the first is one for which `front` may refuse it.
    ensures none { IfOk result (λ v. v.items ≡ [] → (program : Program) × IsSource gang text.now program) }
    ensures first { IfOk result (λ v. (f : Fault) → slice_get v.items 0 ≡ Some f → IsFaulty gang text.now f) }
{
    of_text(alloc, text, gang)
}
