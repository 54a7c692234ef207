//! What the words of a type say.
ghost use Rattle.std.specs.Prelude.{◌≡◌};
ghost use Rattle.isp_tree.specs.Views.{type_of};
ghost use Rattle.isp_exprs.specs.Words.{contradicts, elem_said, excludes, base_elem, unsigned_elem, has_rate, has_sign, misfits, rate_or_varying, rate_said, repeats, said, same_word, stands, stands_twice, takes_sign, answer_said, type_declared, value_said};

use isp_base::{Elem, Rate, Ty};
use isp_lex::{Fault, Rule};
use isp_tree::{Base, Qualifier, TypeWords};
use isp_typed::Verdict;

/// What the words of a type say: whether values are constant, a rate if one is named, and the values'
/// element type, which `void` has not.
#[derive(Clone, Copy)]
pub struct Said {
    pub constant: bool,
    pub rate: Option<Rate>,
    pub elem: Option<Elem>,
}

/// What the words of a value's type say.
#[derive(Clone, Copy)]
pub struct ValueWords {
    pub constant: bool,
    pub rate: Option<Rate>,
    pub elem: Elem,
}

fn same_word(wanted: Qualifier, word: Qualifier) -> bool
    ensures { result ≡ same_word wanted word }
{
    match wanted {
        Qualifier::Const => matches!(word, Qualifier::Const),
        Qualifier::Uniform => matches!(word, Qualifier::Uniform),
        Qualifier::Varying => matches!(word, Qualifier::Varying),
        Qualifier::Signed => matches!(word, Qualifier::Signed),
        Qualifier::Unsigned => matches!(word, Qualifier::Unsigned),
    }
}

fn stands(words: &[Qualifier], wanted: Qualifier) -> bool
    ensures { result ≡ stands words.now wanted }
{
    words.iter().any(|word| same_word(wanted, *word))
}

fn stands_twice(words: &[Qualifier], wanted: Qualifier) -> bool
    ensures { result ≡ stands_twice words.now wanted }
{
    words
        .iter()
        .filter(|word| same_word(wanted, **word))
        .count()
        > 1
}

/// Whether a word stands twice.
fn repeats(words: &[Qualifier]) -> bool
    ensures { result ≡ repeats words.now }
{
    let rate = stands_twice(words, Qualifier::Const)
        || stands_twice(words, Qualifier::Uniform)
        || stands_twice(words, Qualifier::Varying);
    rate || stands_twice(words, Qualifier::Signed) || stands_twice(words, Qualifier::Unsigned)
}

fn has_rate(words: &[Qualifier]) -> bool
    ensures { result ≡ has_rate words.now }
{
    stands(words, Qualifier::Uniform) || stands(words, Qualifier::Varying)
}

fn has_sign(words: &[Qualifier]) -> bool
    ensures { result ≡ has_sign words.now }
{
    stands(words, Qualifier::Signed) || stands(words, Qualifier::Unsigned)
}

/// Whether two words exclude each other.
fn excludes(words: &[Qualifier]) -> bool
    ensures { result ≡ excludes words.now }
{
    let rates = stands(words, Qualifier::Uniform) && stands(words, Qualifier::Varying);
    rates || stands(words, Qualifier::Signed) && stands(words, Qualifier::Unsigned)
}

fn takes_sign(base: Base) -> bool
    ensures { result ≡ takes_sign base }
{
    matches!(
        base,
        Base::Int | Base::Int8 | Base::Int16 | Base::Int32 | Base::Int64
    )
}

/// Whether a sign stands before a base that has one or none, or a rate before `void`.
fn misfits(words: &[Qualifier], base: Option<Base>) -> bool
    ensures { result ≡ misfits words.now base }
{
    let Some(base) = base else {
        return false;
    };
    has_sign(words) && !takes_sign(base) || has_rate(words) && matches!(base, Base::Void)
}

fn rate_said(words: &[Qualifier]) -> Option<Rate>
    ensures { result ≡ rate_said words.now }
{
    if stands(words, Qualifier::Uniform) {
        Some(Rate::Uniform)
    } else if stands(words, Qualifier::Varying) {
        Some(Rate::Varying)
    } else {
        None
    }
}

fn base_elem(base: Base) -> Option<Elem>
    ensures { result ≡ base_elem base }
{
    match base {
        Base::Void => None,
        Base::Bool => Some(Elem::Bool),
        Base::Int8 => Some(Elem::I8),
        Base::Int16 => Some(Elem::I16),
        Base::Int | Base::Int32 => Some(Elem::I32),
        Base::Int64 => Some(Elem::I64),
        Base::Uint8 => Some(Elem::U8),
        Base::Uint16 => Some(Elem::U16),
        Base::Uint | Base::Uint32 => Some(Elem::U32),
        Base::Uint64 => Some(Elem::U64),
    }
}

fn unsigned_elem(base: Base) -> Option<Elem>
    ensures { result ≡ unsigned_elem base }
{
    match base {
        Base::Int8 => Some(Elem::U8),
        Base::Int16 => Some(Elem::U16),
        Base::Int64 => Some(Elem::U64),
        _ => Some(Elem::U32),
    }
}

fn elem_said(unsigned: bool, base: Option<Base>) -> Option<Elem>
    ensures { result ≡ elem_said unsigned base }
{
    match (unsigned, base) {
        (true, None) => Some(Elem::U32),
        (false, None) => Some(Elem::I32),
        (true, Some(base)) => unsigned_elem(base),
        (false, Some(base)) => base_elem(base),
    }
}

fn contradicts(ty: &TypeWords) -> bool
    ensures { result ≡ contradicts (type_of ty.now) }
{
    let words = ty.qualifiers.as_slice();
    repeats(words) || excludes(words) || misfits(words, ty.base)
}

/// What the words say. 22 Mismatch at them where they contradict each other.
pub fn type_said(ty: &TypeWords) -> Verdict<Said>
    ensures { result ≡ said (type_of ty.now) }
{
    if contradicts(ty) {
        return Err(Fault {
            rule: Rule::Mismatch,
            span: ty.span,
        });
    }
    let words = ty.qualifiers.as_slice();
    Ok(Said {
        constant: stands(words, Qualifier::Const),
        rate: rate_said(words),
        elem: elem_said(stands(words, Qualifier::Unsigned), ty.base),
    })
}

/// Without a word for it, a rate is varying.
pub fn rate_or_varying(rate: Option<Rate>) -> Rate
    ensures { result ≡ rate_or_varying rate }
{
    match rate {
        None => Rate::Varying,
        Some(rate) => rate,
    }
}

/// What the words of a value's type say. 22 Mismatch at them where they contradict each other or say `void`.
pub fn value_said(ty: &TypeWords) -> Verdict<ValueWords>
    ensures { result ≡ value_said (type_of ty.now) }
{
    match type_said(ty) {
        Ok(words) => match words.elem {
            Some(elem) => Ok(ValueWords {
                constant: words.constant,
                rate: words.rate,
                elem,
            }),
            None => Err(Fault {
                rule: Rule::Mismatch,
                span: ty.span,
            }),
        },
        Err(fault) => Err(fault),
    }
}

/// The type of a declared variable.
pub fn type_declared(words: ValueWords) -> Ty
    ensures { result ≡ type_declared words }
{
    Ty {
        rate: rate_or_varying(words.rate),
        elem: words.elem,
    }
}

/// The type of a function's result, if it has one. 22 Mismatch at the words where they contradict each other.
pub fn answer_said(ty: &TypeWords) -> Verdict<Option<Ty>>
    ensures { result ≡ answer_said (type_of ty.now) }
{
    match type_said(ty) {
        Ok(words) => match words.elem {
            Some(elem) => Ok(Some(Ty {
                rate: rate_or_varying(words.rate),
                elem,
            })),
            None => Ok(None),
        },
        Err(fault) => Err(fault),
    }
}
