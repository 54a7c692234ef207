//! Declarations.
ghost use Rattle.std.specs.Prelude.{◌≡◌, IfOk, map};
ghost use Rattle.isp_tree.specs.Views.{declaration_of as read_declaration, item_of as read_item};
ghost use Rattle.isp_typed.specs.Verdicts.{both, made};
ghost use Rattle.isp_exprs.specs.reader.Parts.{boxed_of};
ghost use Rattle.isp_types.specs.reader.Boxes.{boxed_item, listed_items};
ghost use Rattle.isp_types.specs.reader.Settings.{within};
ghost use Rattle.isp_exprs.specs.Rules.{second};
ghost use Rattle.isp_types.specs.Numbering.{declaration_names, declaration_variables, declared, or_nothing, size_number};
ghost use Rattle.isp_types.specs.Numbering.{item_names, item_variable, item_variables, item_word, items_names, items_variables};
ghost use Rattle.isp_types.specs.Numbering.{value_variable};
ghost use Rattle.isp_types.specs.Declarations.{array_sized, sized_item, with_initial, declaration_typing, item_typing, items_typing};
ghost use Rattle.isp_exprs.specs.reader.Lists.{and_one};
ghost use Rattle.isp_types.specs.reader.Lists.{item_verdict, known_next, twice};

use crate::gathered;
use isp_base::{Elem, Gang, Span, Ty};
use isp_exprs::{
    Known, Scope, Setting, ValueWords, converted, expr, mismatch, type_declared, value_said,
};
use isp_lex::{Fault, Rule};
use isp_tree::{Declaration, Item, Size, Word};
use isp_typed::{
    ArrayVariable, Holds, TypedExpr, TypedItem, Variable, Verdict, beside, both, unless,
};
use std::alloc::{AllocError, Global};

/// Words that contradict each other say nothing: varying int32 stands in their place, in no accepted program.
pub fn or_nothing(words: Verdict<ValueWords>) -> ValueWords
    ensures { result ≡ or_nothing words }
{
    match words {
        Ok(words) => words,
        Err(_) => ValueWords {
            constant: false,
            rate: None,
            elem: Elem::I32,
        },
    }
}

/// What the next variable's name stands for: the variable, or the fault of the words of its type.
pub fn declared(words: Verdict<ValueWords>, number: usize, variable: Variable) -> Verdict<Known>
    ensures { result ≡ known_next number (declared words variable) }
{
    words?;
    Ok(Known { number, variable })
}

/// The fault of a name that stands in its scope already.
pub fn twice(scope: &Scope, start: usize, word: &Word) -> Option<Fault>
    ensures { result ≡ twice word.now start scope.now }
{
    unless(
        scope.is_new(&word.name, start),
        Fault {
            rule: Rule::NameTwice,
            span: word.span,
        },
    )
}

fn size_number(gang: Gang, size: Size) -> u64
    ensures { result ≡ size_number gang size }
{
    match size {
        Size::Number { value, .. } => value.bits,
        Size::ProgramCount { .. } => gang.width() as u64,
    }
}

/// A variable that holds a value.
pub fn value_variable(words: ValueWords) -> Variable
    ensures { result ≡ value_variable words }
{
    Variable {
        holds: Holds::Value(type_declared(words)),
        constant: words.constant,
    }
}

fn item_word(item: &Item) -> &Word
    ensures { result.now ≡ item_word (read_item item.now) }
{
    match item {
        Item::Plain(word) => word,
        Item::Value { word, .. } | Item::Array { word, .. } => word,
    }
}

/// The variable that an item declares.
fn item_variable(gang: Gang, words: ValueWords, item: &Item) -> Variable
    ensures { result ≡ item_variable gang words (read_item item.now) }
{
    match item {
        Item::Plain(_) | Item::Value { .. } => value_variable(words),
        Item::Array { size, .. } => Variable {
            holds: Holds::Local(type_declared(words), size_number(gang, *size) as usize),
            constant: words.constant,
        },
    }
}

/// A local array, of 1 to 65,536 elements. 22 Mismatch at another size.
pub fn array_sized(
    gang: Gang,
    number: usize,
    words: ValueWords,
    size: Size,
) -> Verdict<ArrayVariable>
    ensures { result ≡ array_sized gang number words size }
{
    let count = size_number(gang, size);
    if 0 < count && count < 65_537 {
        Ok(ArrayVariable {
            number,
            ty: type_declared(words),
            constant: words.constant,
        })
    } else {
        Err(mismatch(size.span()))
    }
}

fn with_initial(
    alloc: Global,
    number: usize,
    ty: Ty,
    value: Verdict<Box<TypedExpr>>,
    span: Span,
) -> Result<Verdict<Box<TypedItem>>, AllocError>
    ensures { IfOk result (λ v. made boxed_item v ≡ made (with_initial number ty span) (made boxed_of value)) }
{
    match value {
        Ok(value) => {
            let value = converted(alloc, ty.elem, value)?;
            let item = TypedItem::Value {
                number,
                ty,
                value: Box::into_inner(value),
                span,
            };
            Ok(Ok(Box::new(alloc, item)?))
        }
        Err(fault) => Ok(Err(fault)),
    }
}

fn sized_item(
    alloc: Global,
    array: Verdict<ArrayVariable>,
    span: Span,
) -> Result<Verdict<Box<TypedItem>>, AllocError>
    ensures { IfOk result (λ v. made boxed_item v ≡ made (sized_item span) array) }
{
    match array {
        Ok(array) => Ok(Ok(Box::new(alloc, TypedItem::Array { array, span })?)),
        Err(fault) => Ok(Err(fault)),
    }
}

/// A declared item, with the fault of its name.
fn item(
    setting: &Setting,
    scope: &Scope,
    seen: Option<Fault>,
    number: usize,
    words: ValueWords,
    item: &Item,
) -> Result<Verdict<Box<TypedItem>>, AllocError>
    ensures { IfOk result (λ v. made boxed_item v ≡ within setting.now item_verdict scope.now seen number words (read_item item.now)) }
{
    match item {
        Item::Plain(word) => {
            let plain = TypedItem::Plain {
                number,
                ty: type_declared(words),
                span: word.span,
            };
            let plain = Box::new(setting.alloc, plain)?;
            Ok(beside(seen, Ok(plain)))
        }
        Item::Value { value, span, .. } => {
            let value = expr(setting, scope, value)?;
            with_initial(
                setting.alloc,
                number,
                type_declared(words),
                beside(seen, value),
                *span,
            )
        }
        Item::Array { size, span, .. } => {
            let array = array_sized(setting.gang, number, words, *size);
            sized_item(setting.alloc, beside(seen, array), *span)
        }
    }
}

/// A declared item, whose name and variable join the others.
pub fn declare_item(
    setting: &Setting,
    scope: &mut Scope,
    start: usize,
    variables: &mut Vec<Variable>,
    words: Verdict<ValueWords>,
    declared_item: &Item,
) -> Result<Verdict<Box<TypedItem>>, AllocError>
    ensures value { IfOk result (λ v. made boxed_item v
        ≡ (within setting.now item_typing words start scope.old variables.old.items (read_item declared_item.now)).verdict) }
    ensures names { IfOk result (λ v. scope.new
        ≡ item_names setting.now.gang words scope.old variables.old.items (read_item declared_item.now)) }
    ensures variables { IfOk result (λ v. variables.new.items
        ≡ item_variables setting.now.gang words variables.old.items (read_item declared_item.now)) }
{
    let word = item_word(declared_item);
    let seen = twice(scope, start, word);
    let number = variables.len();
    let part = item(
        setting,
        scope,
        seen,
        number,
        or_nothing(words),
        declared_item,
    )?;
    let variable = item_variable(setting.gang, or_nothing(words), declared_item);
    variables.push(variable)?;
    scope.push(setting.alloc, &word.name, declared(words, number, variable))?;
    Ok(part)
}

/// One more item after the others.
fn push(
    so_far: Verdict<Vec<TypedItem>>,
    part: Verdict<Box<TypedItem>>,
) -> Result<Verdict<Vec<TypedItem>>, AllocError>
    ensures { IfOk result (λ v. made listed_items v ≡ made and_one (both (made listed_items so_far) (made boxed_item part))) }
{
    gathered::push_boxed(so_far, part)
}

fn items(
    setting: &Setting,
    scope: &mut Scope,
    start: usize,
    variables: &mut Vec<Variable>,
    words: Verdict<ValueWords>,
    all: &[Item],
) -> Result<Verdict<Vec<TypedItem>>, AllocError>
    ensures value { IfOk result (λ v. made listed_items v
        ≡ (within setting.now items_typing words start scope.old variables.old.items (map read_item all.now)).verdict) }
    ensures names { IfOk result (λ v. scope.new
        ≡ items_names setting.now.gang words scope.old variables.old.items (map read_item all.now)) }
    ensures variables { IfOk result (λ v. variables.new.items
        ≡ items_variables setting.now.gang words variables.old.items (map read_item all.now)) }
{
    let mut done = Ok(Vec::new(setting.alloc));
    for x in all {
        let part = declare_item(setting, scope, start, variables, words, x)?;
        done = push(done, part)?;
    }
    Ok(done)
}

fn behind_words(
    words: Verdict<ValueWords>,
    items: Verdict<Vec<TypedItem>>,
) -> Verdict<Vec<TypedItem>>
    ensures { made listed_items result ≡ made second (both words (made listed_items items)) }
{
    let (_, items) = both(words, items)?;
    Ok(items)
}

/// A declaration, whose names and variables join the others.
pub fn declaration(
    setting: &Setting,
    scope: &mut Scope,
    start: usize,
    variables: &mut Vec<Variable>,
    d: &Declaration,
) -> Result<Verdict<Vec<TypedItem>>, AllocError>
    ensures value { IfOk result (λ v. made listed_items v
        ≡ (within setting.now declaration_typing scope.old start variables.old.items (read_declaration d.now)).verdict) }
    ensures names { IfOk result (λ v. scope.new
        ≡ declaration_names setting.now.gang scope.old variables.old.items (read_declaration d.now)) }
    ensures variables { IfOk result (λ v. variables.new.items
        ≡ declaration_variables setting.now.gang variables.old.items (read_declaration d.now)) }
{
    let words = value_said(&d.ty);
    let items = items(setting, scope, start, variables, words, &d.items)?;
    Ok(behind_words(words, items))
}
