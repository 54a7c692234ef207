//! What `check` says of a program.
ghost use Rattle.std.specs.Prelude.{◌≡◌, ◌++◌, find, string_bytes, IfOk, OnOk};
ghost use Rattle.std.specs.Option.{IsSome};
ghost use Rattle.isp_rates.specs.Exports.{is_entry};
ghost use Rattle.isp_typed.specs.Views.{program_of};
ghost use Rattle.isp_verdicts.specs.Verdicts.{Checks, IsVerdict, dependence_text, verdict_line};

use isp_independence::Dependence;
use isp_rates::Checked;
use itoa::Buffer;
use std::alloc::{AllocError, Global};

/// `ok`, and for each exported function, in the order of the text, whether it is an independent entry
/// (docs/INDEPENDENCE.md): `NAME independent`, or the first of its breaches as `NAME dependent: rule R at S..E`, where the
/// place is in bytes of the source.
pub fn verdicts(alloc: Global, checked: &Checked) -> Result<String, AllocError>
    ensures { IfOk result (λ s. Checks (program_of checked.now) (string_bytes s)) }
{
    let mut text = String::new(alloc);
    text.push_str("ok\n")?;
    for k in 0..checked.exports().len() {
        if let Some(name) = checked.export(k) {
            push_verdict(&mut text, name, breach(checked, name))?;
        }
    }
    Ok(text)
}

// The first breach of an exported function as an independent entry.
fn breach(checked: &Checked, name: &str) -> Option<Dependence>
    requires { IsSome (find (is_entry name.now) checked.now.functions.items) }
    ensures { IsVerdict (program_of checked.now) name.now result }
{
    match checked.independent(name) {
        Ok(()) => None,
        Err(dependence) => Some(dependence),
    }
}

fn push_verdict(text: &mut String, name: &str, breach: Option<Dependence>) -> Result<(), AllocError>
    ensures { OnOk result (string_bytes text.new ≡ string_bytes text.old ++ verdict_line name.now breach) }
{
    text.push_str(name)?;
    match breach {
        None => text.push_str(" independent\n"),
        Some(dependence) => {
            text.push_str(" dependent: ")?;
            push_dependence(text, dependence)?;
            text.push_str("\n")
        }
    }
}

fn push_dependence(text: &mut String, dependence: Dependence) -> Result<(), AllocError>
    ensures { OnOk result (string_bytes text.new ≡ string_bytes text.old ++ dependence_text dependence) }
{
    let (mut number, mut start, mut end) = (Buffer::new(), Buffer::new(), Buffer::new());
    text.push_str("rule ")?;
    text.push_str(number.format(dependence.rule.number()))?;
    text.push_str(" at ")?;
    text.push_str(start.format(dependence.span.start))?;
    text.push_str("..")?;
    text.push_str(end.format(dependence.span.end))
}
