//! From tokens to the tree.
ghost use Rattle.std.specs.Prelude.{◌≡◌, ◌≤◌, ◌-◌, IfOk, IfErr, List, length, drop};
ghost use Rattle.isp_tree.specs.Depth.{depth_of_functions};
ghost use Rattle.isp_tree.specs.Views.{functions_of};
ghost use Rattle.isp_tree.specs.Tree.{Function as FunctionTree};
ghost use Rattle.isp_lex.specs.declared.token.Token.{Token};
ghost use Rattle.isp_grammar.specs.Grammar.{IsProgram};
ghost use Rattle.isp_syntax.specs.Promise.{rule_of, GivesTree, Refuses};
ghost use Rattle.isp_tree.specs.Depth.{limit};
ghost use Rattle.isp_syntax.specs.Refusals.{fault_of};

use isp_base::Span;
use isp_grammar::{Refusal, Stop, Why, program};
use isp_lex::{Fault, Rule, SourceFault, TokenKind, Tokens};
use isp_tree::Tree;
use std::alloc::Global;

/// The rule that a token breaks which may not stand where it stands.
fn rule_of(kind: &TokenKind) -> Rule
    ensures { result ≡ rule_of kind.now }
{
    match kind {
        TokenKind::LeftOut => Rule::LeftOut,
        _ => Rule::Unexpected,
    }
}

/// The fault of a refusal of one of these tokens.
fn fault_at(tokens: &Tokens, refusal: Refusal) -> Fault
    requires { refusal.left ≤ length tokens.now.items }
    ensures { result ≡ fault_of refusal.why tokens.now.end (drop (length tokens.now.items - refusal.left) tokens.now.items) }
{
    let all = tokens.as_slice();
    let place = all.len() - refusal.left;
    let (rule, span) = match &all[place..] {
        [] => {
            let end = tokens.end();
            (Rule::Unexpected, Span { start: end, end })
        }
        [first, ..] => (rule_of(&first.kind), first.span),
    };
    match refusal.why {
        Why::Unexpected => Fault { rule, span },
        Why::TooDeep => Fault {
            rule: Rule::TooDeep,
            span,
        },
    }
}

/// The tree of the tokens of a text.
///
/// 10 Unexpected: the first token with which no program goes on, with its span; where the text ends
/// too soon, the empty span at its end. 12 LeftOut in place of it, where that token is a word that
/// the language leaves out. 11 TooDeep: the tree would be deeper than 128. 0 Memory.
pub fn parse(alloc: Global, tokens: &Tokens) -> Result<Tree, SourceFault>
    // It is a tree of the tokens, and no deeper than the limit.
    ensures found { IfOk result (λ t. IsProgram tokens.now.items (functions_of t)) }
    ensures shallow { IfOk result (λ t. depth_of_functions (functions_of t) ≤ limit) }
    // Where there is such a tree, it is given, unless memory runs out.
    ensures only { (fs : List FunctionTree) → IsProgram tokens.now.items fs → depth_of_functions fs ≤ limit → GivesTree result fs }
    // What a refusal means: 10 or 12, 11, or memory.
    ensures refused { IfErr result (λ e. Refuses e tokens.now) }
{
    match program(alloc, tokens.as_slice()) {
        Ok(functions) => Ok(Tree::new(functions)),
        Err(Stop::Memory) => Err(SourceFault::Memory),
        Err(Stop::Refused(refusal)) => Err(SourceFault::Refused(fault_at(tokens, refusal))),
    }
}

/// No tokens have two trees.
pub fn one_tree()
    ensures { (ts : List Token) (fs gs : List FunctionTree) → IsProgram ts fs → IsProgram ts gs → fs ≡ gs }
{}
