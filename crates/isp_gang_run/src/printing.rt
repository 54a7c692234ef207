//! What a `print` writes.
ghost use Rattle.std.specs.Prelude.{◌≡◌, ◌<◌, ◌++◌, map, drop, IfErr, OnOk};
ghost use Rattle.isp_base.specs.Prints.{list_text, value_text, first_text, print_text};
ghost use Rattle.isp_base.specs.Sets.{flag_of};
ghost use Rattle.isp_base.specs.Types.{gang_width, widest};
ghost use Rattle.isp_typed.specs.Typed.{type_of};
ghost use Rattle.isp_typed.specs.Views.{expr_of, exprs_of};
ghost use Rattle.isp_meaning.specs.Printing as Printing;
ghost use Rattle.isp_meaning.specs.Printing.{shown_all};
ghost use Rattle.isp_gang_values.specs.Seen.{map_of, payload_of};
ghost use Rattle.isp_gang_run.specs.Arms.{prints};
ghost use Rattle.isp_gang_run.specs.Due.{Leaves};
ghost use Rattle.isp_gang_run.specs.Tasks.{Comes};
ghost use Rattle.isp_gang_run.specs.declared.state.Stop.TheVariants as Stop;

use crate::state::{Evaluator, Sets, Stop};
use isp_base::{Elem, Gang, Rate};
use isp_gang_values::computed::Computed;
use isp_gang_values::row::Row;
use isp_gang_values::sets::Active;
use isp_prints::{push_comma, push_item, push_value};
use isp_typed::TypedExpr;
use std::alloc::AllocError;

// The values of the instances of a gang, in brackets.
fn push_row(output: &mut Vec<u8>, elem: Elem, gang: Gang, row: &Row) -> Result<(), AllocError>
    ensures { OnOk result (output.new.items ≡ output.old.items ++ list_text elem (gang_width gang) (map_of row.now)) }
{
    output.extend_from_slice(b"[")?;
    for instance in 0..gang.width() {
        push_comma(output, instance)?;
        push_item(output, elem, row[instance])?;
    }
    output.extend_from_slice(b"]")?;
    Ok(())
}

// One value of a set.
fn show(
    output: &mut Vec<u8>,
    gang: Gang,
    shown: &TypedExpr,
    value: &Computed,
    set: &Active,
) -> Result<(), AllocError>
    ensures { OnOk result (output.new.items ≡ output.old.items
        ++ Printing.shown (gang_width gang) (flag_of set.now) (type_of (expr_of shown.now)) (payload_of value.now)) }
{
    let ty = shown.ty();
    match ty.rate {
        Rate::Uniform => push_value(output, ty.elem, value.sole())?,
        Rate::Varying => {
            let row = value.spread(set);
            push_row(output, ty.elem, gang, &row)?;
        }
    }
    Ok(())
}

// The value of a number, if there is one.
fn show_at(
    output: &mut Vec<u8>,
    gang: Gang,
    shown: &[TypedExpr],
    values: &[Computed],
    place: usize,
    set: &Active,
) -> Result<(), AllocError>
    ensures { OnOk result (output.new.items ≡ output.old.items
        ++ first_text (drop place (shown_all (gang_width gang) (flag_of set.now) (exprs_of shown.now) (map payload_of values.now)))) }
{
    if place >= shown.len() {
        return Ok(());
    }
    if place >= values.len() {
        return Ok(());
    }
    show(output, gang, &shown[place], &values[place], set)?;
    Ok(())
}

// The text, in which each `%` stands for the next value.
fn show_text(
    output: &mut Vec<u8>,
    gang: Gang,
    text: &[u8],
    shown: &[TypedExpr],
    values: &[Computed],
    set: &Active,
) -> Result<(), AllocError>
    ensures { OnOk result (output.new.items ≡ output.old.items
        ++ print_text text.now (shown_all (gang_width gang) (flag_of set.now) (exprs_of shown.now) (map payload_of values.now))) }
{
    let mut next: usize = 0;
    for place in 0..text.len() {
        if text[place] == b'%' {
            show_at(output, gang, shown, values, next, set)?;
            next += 1;
        } else {
            output.push(text[place])?;
        }
    }
    Ok(())
}

impl Evaluator<'_> {
    /// The text of a `print` is written.
    pub fn print(
        &mut self,
        text: &[u8],
        shown: &[TypedExpr],
        values: &[Computed],
        set: Active,
    ) -> Result<(), Stop>
        ensures ok { OnOk result (Comes self.old self.new (prints self.old text.now shown.now values.now (flag_of set))) }
        ensures fewer { OnOk result (Leaves self.old self.new 0) }
        ensures err { IfErr result (λ e. e ≡ Stop.Memory) }
    {
        let gang = self.gang();
        show_text(&mut self.output, gang, text, shown, values, &set)?;
        self.leave(Sets::all(&set));
        Ok(())
    }
}
