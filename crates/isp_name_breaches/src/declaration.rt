//! Declarations.
ghost use Rattle.std.specs.Prelude.{◌≡◌, ◌++◌, IfOk, map};
ghost use Rattle.isp_tree.specs.Views.{declaration_of as read_declaration, item_of as read_item};
ghost use Rattle.isp_types.specs.Numbering.{declaration_names, declaration_variables, item_names, item_variables, item_word, items_names, items_variables};
ghost use Rattle.isp_types.specs.reader.Settings.{within};
ghost use Rattle.isp_name_breaches.specs.reader.Stmts.{declaration_faults, initial_faults, item_faults, items_faults};

use crate::expr::expr;
use crate::faults::{refused, tell};
use crate::walk::Walk;
use isp_exprs::{Scope, Setting, ValueWords, value_said};
use isp_lex::Fault;
use isp_tree::{Declaration, Item, Word};
use isp_typed::Verdict;
use isp_types::{array_sized, declare_item, or_nothing, twice};
use std::alloc::AllocError;

fn item_word(item: &Item) -> &Word
    ensures { result.now ≡ item_word (read_item item.now) }
{
    match item {
        Item::Plain(word) => word,
        Item::Value { word, .. } | Item::Array { word, .. } => word,
    }
}

/// Finds the faults in what stands after the name of a variable of this number.
fn initial(
    found: &mut Vec<Fault>,
    setting: &Setting,
    words: Verdict<ValueWords>,
    scope: &Scope,
    number: usize,
    item: &Item,
) -> Result<(), AllocError>
    ensures { IfOk result (λ u. found.new.items ≡ found.old.items ++ within setting.now initial_faults words scope.now number (read_item item.now)) }
{
    match item {
        Item::Plain(_) => Ok(()),
        Item::Value { value, .. } => expr(found, setting, scope, value),
        Item::Array { size, .. } => refused(
            found,
            array_sized(setting.gang, number, or_nothing(words), *size),
        ),
    }
}

/// Finds the faults in a declared item, whose name and variable join the others.
fn item(
    walk: &mut Walk,
    setting: &Setting,
    start: usize,
    words: Verdict<ValueWords>,
    declared: &Item,
) -> Result<(), AllocError>
    ensures found { IfOk result (λ u. walk.new.found.items
        ≡ walk.old.found.items ++ within setting.now item_faults words start walk.old.scope walk.old.variables.items (read_item declared.now)) }
    ensures names { IfOk result (λ u. walk.new.scope
        ≡ item_names setting.now.gang words walk.old.scope walk.old.variables.items (read_item declared.now)) }
    ensures variables { IfOk result (λ u. walk.new.variables.items
        ≡ item_variables setting.now.gang words walk.old.variables.items (read_item declared.now)) }
{
    let seen = twice(&walk.scope, start, item_word(declared));
    tell(&mut walk.found, seen)?;
    let number = walk.variables.len();
    initial(
        &mut walk.found,
        setting,
        words,
        &walk.scope,
        number,
        declared,
    )?;
    let _ = declare_item(
        setting,
        &mut walk.scope,
        start,
        &mut walk.variables,
        words,
        declared,
    )?;
    Ok(())
}

fn items(
    walk: &mut Walk,
    setting: &Setting,
    start: usize,
    words: Verdict<ValueWords>,
    all: &[Item],
) -> Result<(), AllocError>
    ensures found { IfOk result (λ u. walk.new.found.items
        ≡ walk.old.found.items ++ within setting.now items_faults words start walk.old.scope walk.old.variables.items (map read_item all.now)) }
    ensures names { IfOk result (λ u. walk.new.scope
        ≡ items_names setting.now.gang words walk.old.scope walk.old.variables.items (map read_item all.now)) }
    ensures variables { IfOk result (λ u. walk.new.variables.items
        ≡ items_variables setting.now.gang words walk.old.variables.items (map read_item all.now)) }
{
    for x in all {
        item(walk, setting, start, words, x)?;
    }
    Ok(())
}

/// Finds the faults in a declaration, whose names and variables join the others.
pub fn declaration(
    walk: &mut Walk,
    setting: &Setting,
    start: usize,
    d: &Declaration,
) -> Result<(), AllocError>
    ensures found { IfOk result (λ u. walk.new.found.items
        ≡ walk.old.found.items ++ within setting.now declaration_faults walk.old.scope start walk.old.variables.items (read_declaration d.now)) }
    ensures names { IfOk result (λ u. walk.new.scope
        ≡ declaration_names setting.now.gang walk.old.scope walk.old.variables.items (read_declaration d.now)) }
    ensures variables { IfOk result (λ u. walk.new.variables.items
        ≡ declaration_variables setting.now.gang walk.old.variables.items (read_declaration d.now)) }
{
    let words = value_said(&d.ty);
    refused(&mut walk.found, words)?;
    items(walk, setting, start, words, &d.items)
}
