//! Parts of statements: bounds and indices, values that are printed or given back.
ghost use Rattle.std.specs.Prelude.{◌≡◌, ◌++◌, IfOk, map, option_map};
ghost use Rattle.isp_tree.specs.Views.{expr_of as read_expr, exprs_of as read_exprs, range_of as read_range};
ghost use Rattle.isp_types.specs.Numbering.{range_names, range_variables};
ghost use Rattle.isp_types.specs.reader.Settings.{within};
ghost use Rattle.isp_name_breaches.specs.reader.Stmts.{bounds_faults, indices_faults, printed_faults, ranges_faults, returned_faults, values_faults};

use crate::expr::expr;
use crate::faults::{tell, unless};
use crate::simple::value;
use crate::walk::{Context, Walk};
use isp_base::Span;
use isp_exprs::{Scope, Setting, mismatch};
use isp_lex::{Fault, Rule, Text};
use isp_tree::{Expr, Range};
use isp_types::{agrees, foreach_index, places, twice};
use std::alloc::{AllocError, Global};

/// Finds the faults in the bounds of ranges, before their indices have names.
fn bounds(
    found: &mut Vec<Fault>,
    setting: &Setting,
    scope: &Scope,
    all: &[Range],
) -> Result<(), AllocError>
    ensures { IfOk result (λ u. found.new.items ≡ found.old.items ++ within setting.now bounds_faults scope.now (map read_range all.now)) }
{
    for r in all {
        expr(found, setting, scope, &r.start)?;
        expr(found, setting, scope, &r.end)?;
    }
    Ok(())
}

/// Finds the faults in the indices of ranges, which join the names and variables.
fn indices(walk: &mut Walk, alloc: Global, start: usize, all: &[Range]) -> Result<(), AllocError>
    ensures found { IfOk result (λ u. walk.new.found.items
        ≡ walk.old.found.items ++ indices_faults start walk.old.scope walk.old.variables.items (map read_range all.now)) }
    ensures names { IfOk result (λ u. walk.new.scope ≡ range_names walk.old.scope walk.old.variables.items (map read_range all.now)) }
    ensures variables { IfOk result (λ u. walk.new.variables.items ≡ range_variables walk.old.variables.items (map read_range all.now)) }
{
    for r in all {
        let seen = twice(&walk.scope, start, &r.word);
        tell(&mut walk.found, seen)?;
        walk.declare(alloc, &r.word, foreach_index())?;
    }
    Ok(())
}

/// Finds the faults in the ranges of a `foreach`, whose indices join the names and variables.
pub fn ranges(
    walk: &mut Walk,
    setting: &Setting,
    start: usize,
    all: &[Range],
) -> Result<(), AllocError>
    ensures found { IfOk result (λ u. walk.new.found.items
        ≡ walk.old.found.items ++ within setting.now ranges_faults walk.old.scope start walk.old.variables.items (map read_range all.now)) }
    ensures names { IfOk result (λ u. walk.new.scope ≡ range_names walk.old.scope walk.old.variables.items (map read_range all.now)) }
    ensures variables { IfOk result (λ u. walk.new.variables.items ≡ range_variables walk.old.variables.items (map read_range all.now)) }
{
    bounds(&mut walk.found, setting, &walk.scope, all)?;
    indices(walk, setting.alloc, start, all)
}

fn values(
    found: &mut Vec<Fault>,
    setting: &Setting,
    scope: &Scope,
    all: &[Expr],
) -> Result<(), AllocError>
    ensures { IfOk result (λ u. found.new.items ≡ found.old.items ++ within setting.now values_faults scope.now (read_exprs all.now)) }
{
    for x in all {
        expr(found, setting, scope, x)?;
    }
    Ok(())
}

/// Finds the faults in a `print`: its own at the text, and those of its values.
pub fn printed(
    found: &mut Vec<Fault>,
    setting: &Setting,
    scope: &Scope,
    text: &Text,
    text_span: Span,
    all: &[Expr],
) -> Result<(), AllocError>
    ensures { IfOk result (λ u. found.new.items
        ≡ found.old.items ++ within setting.now printed_faults scope.now text.now text_span (read_exprs all.now)) }
{
    let fault = Fault {
        rule: Rule::BadPrint,
        span: text_span,
    };
    unless(found, places(text) == all.len(), fault)?;
    values(found, setting, scope, all)
}

/// Finds the faults in a `return`: its own at the word, and those of its value.
pub fn returned(
    found: &mut Vec<Fault>,
    context: &Context,
    scope: &Scope,
    keyword: Span,
    x: &Option<Expr>,
) -> Result<(), AllocError>
    ensures { IfOk result (λ u. found.new.items
        ≡ found.old.items ++ within context.now.setting returned_faults context.now.answer scope.now keyword (option_map read_expr x.now)) }
{
    let agrees = agrees(context.answer, x.is_some());
    unless(found, agrees, mismatch(keyword))?;
    value(found, &context.setting, scope, x)
}
