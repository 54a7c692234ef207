//! The code of `print`: the values, each in a register of its own rate; then the words of the text, and the values between
//! them.
ghost use Rattle.std.specs.Prelude.{◌≡◌, ◌≤◌, [], length, drop, IfOk, OnOk};
ghost use Rattle.isp_typed.specs.Typed.{t_exprs};
ghost use Rattle.isp_typed.specs.Views.{exprs_of};
ghost use Rattle.isp_lower_code.specs.Asks.{values_asks};
ghost use Rattle.isp_lower_code.specs.Code.{value_registers};
ghost use Rattle.isp_lower.specs.Emitted.{Appends, Present, layout};
ghost use Rattle.isp_lower.specs.Written.{Writes as Adds, values_at};
ghost use Rattle.isp_masks_code.specs.Prints.{own_rates, parts, show};
ghost use Rattle.isp_masks.specs.Printed.{first_shown, first_word, print_at, rates_of, registers_of, told_at, words_at};
ghost use Rattle.isp_masks.specs.Written.{Writes};

use isp_base::Rate;
use isp_code::Instr;
use isp_lower::{Body, Line, Scope, Site, mask, operand, scalar, vector};
use isp_registers::{MaskNumber, RegisterNumber};
use isp_typed::TypedExpr;
use std::alloc::AllocError;

/// A value that is printed, in a register of its own rate.
#[derive(Clone, Copy)]
pub(crate) struct Shown {
    pub rate: Rate,
    pub register: RegisterNumber,
}

/// The words of a text, if there are any.
fn say(b: &mut Body, words: &[u8]) -> Result<(), AllocError>
    ensures { OnOk result (Writes b.old b.new (words_at words.now)) }
{
    match words {
        [] => Ok(()),
        _ => {
            let named = b.text(words)?;
            b.add(Line::naming(Instr::Say { text: 0 }, named.number))?;
            Ok(())
        }
    }
}

/// A value: one, or those of a mask.
fn show(value: Shown, k: MaskNumber) -> Instr
    ensures { result ≡ show value.rate value.register.number k.number }
{
    match value.rate {
        Rate::Uniform => Instr::PrintScalar(scalar(value.register)),
        Rate::Varying => Instr::PrintVector {
            vector: vector(value.register),
            mask: mask(k),
        },
    }
}

/// The first of the values that are left, if there is one; and the others.
fn show_first<'a>(b: &mut Body, left: &'a [Shown], k: MaskNumber) -> Result<&'a [Shown], AllocError>
    ensures others { IfOk result (λ others. others.now ≡ drop 1 left.now) }
    ensures code { OnOk result (Appends b.old b.new (λ pc p. first_shown left.now k.number) []) }
{
    match left {
        [value, others @ ..] => {
            b.push(show(*value, k))?;
            Ok(others)
        }
        [] => Ok(left),
    }
}

/// How many bytes stand before the first `%`.
fn word_end(text: &[u8]) -> usize
    ensures end { result ≡ length (first_word text.now) }
    ensures low { result ≤ length text.now }
{
    let mut end = 0;
    while end < text.len() && text[end] != b'%' {
        end += 1;
    }
    end
}

/// The words of a text, and the values in the places of its `%`.
fn tell(b: &mut Body, text: &[u8], shown: &[Shown], k: MaskNumber) -> Result<(), AllocError>
    ensures { OnOk result (Writes b.old b.new (told_at (parts text.now) shown.now k.number)) }
{
    let first = word_end(text);
    say(b, &text[..first])?;
    let mut rest = text;
    let mut left = shown;
    let mut end = first;
    while end < rest.len() {
        left = show_first(b, left, k)?;
        rest = &rest[end + 1..];
        end = word_end(rest);
        say(b, &rest[..end])?;
    }
    Ok(())
}

/// The values, from left to right, each in a slot of its own.
fn values(b: &mut Body, on: &Scope, all: &[TypedExpr], site: Site) -> Result<Vec<Shown>, AllocError>
    requires { Present on.now (values_asks (own_rates (exprs_of all.now)) (t_exprs (exprs_of all.now)) site.slot.number) }
    ensures rates { IfOk result (λ v. rates_of v.items ≡ own_rates (exprs_of all.now)) }
    ensures registers { IfOk result (λ v. registers_of v.items ≡ value_registers (layout on.now) (own_rates (exprs_of all.now)) (t_exprs (exprs_of all.now)) site.slot.number) }
    ensures code { OnOk result (Adds b.old b.new (values_at on.now (own_rates (exprs_of all.now)) (t_exprs (exprs_of all.now)) site)) }
{
    let mut shown = Vec::new(*b.code.allocator());
    let mut slot = site.slot;
    for x in all {
        let rate = x.ty().rate;
        let at = Site {
            mask: site.mask,
            slot,
        };
        let register = operand(b, on, rate, x, at)?;
        shown.push(Shown { rate, register })?;
        slot = at.slot.next();
    }
    Ok(shown)
}

/// `print`: nothing is written before all values are taken.
pub(crate) fn prints(
    b: &mut Body,
    on: &Scope,
    text: &[u8],
    all: &[TypedExpr],
    site: Site,
) -> Result<(), AllocError>
    requires { Present on.now (values_asks (own_rates (exprs_of all.now)) (t_exprs (exprs_of all.now)) site.slot.number) }
    ensures { OnOk result (Writes b.old b.new (print_at on.now text.now (exprs_of all.now) site.mask.number site.slot.number)) }
{
    let shown = values(b, on, all, site)?;
    tell(b, text, shown.as_slice(), site.mask)?;
    Ok(())
}
