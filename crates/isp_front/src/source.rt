//! From a source text to a checked program.
ghost use Rattle.std.specs.Prelude.{◌≡◌, ◌≤◌, List, IfOk, IfErr, MatchResult};
ghost use Rattle.isp_lex.specs.declared.fault.Fault.{Fault};
ghost use Rattle.isp_tree.specs.Tree.{Function as Read};
ghost use Rattle.isp_tree.specs.Views.{functions_of as tree_of};
ghost use Rattle.isp_typed.specs.Typed.{Program};
ghost use Rattle.isp_typed.specs.Views.{program_of};
ghost use Rattle.isp_front.specs.Front.{HasTree, IsChecked, IsFaulty, IsSource, IsUnread, IsUnsound};

use isp_base::Gang;
use isp_lex::{SourceFault, lex};
use isp_rates::{Checked, check};
use isp_syntax::parse;
use isp_tree::Tree;
use isp_types::resolve;
use std::alloc::Global;

/// The tree of a source text. The first refusal is answered: of the lexer 1 to 5, of the parser 10 to 12
/// (docs/LANGUAGE.md, Lexical rules, Grammar). 0: memory was refused.
pub fn read(alloc: Global, text: &str) -> Result<Tree, SourceFault>
    ensures found { IfOk result (λ t. HasTree text.now (tree_of t)) }
    ensures only { (tree : List Read) → HasTree text.now tree → MatchResult result (λ t. tree_of t ≡ tree) (λ e. e ≡ SourceFault.Memory) }
    ensures refused { IfErr result (λ e. (f : Fault) → e ≡ SourceFault.Refused f → IsUnread text.now f) }
{
    let tokens = lex(alloc, text)?;
    parse(alloc, &tokens)
}

// The program of a tree. 20 to 25 of names and types, 30 to 33 of rates, exits and exports.
fn judge(alloc: Global, tree: &Tree, gang: Gang) -> Result<Checked, SourceFault>
    ensures accepted { IfOk result (λ c. IsChecked gang (tree_of tree.now) (program_of c)) }
    ensures refused { IfErr result (λ e. (f : Fault) → e ≡ SourceFault.Refused f → IsUnsound gang (tree_of tree.now) f) }
{
    let typed = resolve(alloc, tree, gang)?;
    check(alloc, typed)
}

/// The program of a source text for a gang of some size, with the type and the rate of each node.
///
/// The first refusal is answered: of the lexer 1 to 5, of the parser 10 to 12, of names and types 20 to 25, of rates,
/// exits and exports 30 to 33 (docs/LANGUAGE.md). 0: memory was refused.
pub fn front(alloc: Global, text: &str, gang: Gang) -> Result<Checked, SourceFault>
    ensures accepted { IfOk result (λ c. IsSource gang text.now (program_of c)) }
    // What has a program is not refused, but for memory.
    ensures only { (program : Program) → IsSource gang text.now program
        → MatchResult result (λ c. program_of c ≡ program) (λ e. e ≡ SourceFault.Memory) }
    ensures refused { IfErr result (λ e. (f : Fault) → e ≡ SourceFault.Refused f → IsFaulty gang text.now f) }
{
    let tree = read(alloc, text)?;
    judge(alloc, &tree, gang)
}
