//! What is shown of cases that were tried.
ghost use Rattle.std.specs.Prelude.{◌≡◌, ◌≤◌, ◌++◌, flat_map, length, string_bytes, IfOk, OnOk};
ghost use Rattle.isp_case_command.specs.Showing.{counted, differing, end_of, ending, line_of, lines_of, number_text, page_of, summary, title_of, unit_of};

use crate::stop::TestStop;
use crate::tried::Tried;
use isp_base::Gang;
use isp_case_files::{Case, Verdict};
use itoa::Buffer;
use std::alloc::{AllocError, Global};

/// What goes out, and how the program ends after it.
#[derive(Drop)]
pub(crate) struct Page {
    pub(crate) text: String,
    pub(crate) end: Result<(), TestStop>,
}

/// A line for each case that does not hold at a gang, and one that counts them.
pub(crate) fn page_of(
    alloc: Global,
    cases: &[Case<'_>],
    gangs: &[Gang],
    tried: &[Tried<'_, '_>],
) -> Result<Page, AllocError>
    ensures text { IfOk result (λ p. string_bytes p.text ≡ page_of (length cases.now) (length gangs.now) tried.now) }
    ensures end { IfOk result (λ p. p.end ≡ end_of (differing tried.now)) }
{
    let count = differing(tried);
    let mut text = String::new(alloc);
    push_lines(alloc, &mut text, tried)?;
    let last = summary(alloc, cases.len(), gangs.len(), count)?;
    text.push_str(last.as_str())?;
    Ok(Page {
        text,
        end: end_of(count),
    })
}

// Well only where none differs.
fn end_of(count: usize) -> Result<(), TestStop>
    ensures { result ≡ end_of count }
{
    if count == 0 {
        Ok(())
    } else {
        Err(TestStop::Differs)
    }
}

fn push_lines(alloc: Global, text: &mut String, tried: &[Tried<'_, '_>]) -> Result<(), AllocError>
    ensures { OnOk result (string_bytes text.new ≡ string_bytes text.old ++ flat_map lines_of tried.now) }
{
    for one in tried {
        let lines = lines_of(alloc, one)?;
        text.push_str(lines.as_str())?;
    }
    Ok(())
}

// The line of a case that does not hold.
fn lines_of(alloc: Global, tried: &Tried<'_, '_>) -> Result<String, AllocError>
    ensures { IfOk result (λ s. string_bytes s ≡ lines_of tried.now) }
{
    match &tried.verdict {
        Verdict::Holds => Ok(String::new(alloc)),
        Verdict::Differs(what) => line_of(alloc, tried.gang, tried.case, what.as_str()),
    }
}

// `NAME, gang 8: blurred[3]: 7, wanted 8`
fn line_of(alloc: Global, gang: Gang, case: &Case<'_>, what: &str) -> Result<String, AllocError>
    ensures { IfOk result (λ s. string_bytes s ≡ line_of gang case.now what.now) }
{
    let mut line = title_of(alloc, case)?;
    line.push_str(", gang ")?;
    let width = number_text(alloc, gang.width())?;
    line.push_str(width.as_str())?;
    line.push_str(": ")?;
    line.push_str(what)?;
    line.push_str("\n")?;
    Ok(line)
}

// The name of a case, or `case 3`.
fn title_of(alloc: Global, case: &Case<'_>) -> Result<String, AllocError>
    ensures { IfOk result (λ s. string_bytes s ≡ title_of case.now) }
{
    match &case.name {
        Some(name) => String::from_str(alloc, name.as_str()),
        None => {
            let number = number_text(alloc, case.number)?;
            let mut title = String::from_str(alloc, "case ")?;
            title.push_str(number.as_str())?;
            Ok(title)
        }
    }
}

fn number_text(alloc: Global, number: usize) -> Result<String, AllocError>
    ensures { IfOk result (λ s. string_bytes s ≡ number_text number) }
{
    let mut buffer = Buffer::new();
    String::from_str(alloc, buffer.format(number))
}

// How many do not hold.
fn differing(tried: &[Tried<'_, '_>]) -> usize
    ensures { result ≡ differing tried.now }
{
    let mut count = 0;
    for one in tried {
        count += unit_of(&one.verdict);
    }
    count
}

// 1 where it does not hold.
fn unit_of(verdict: &Verdict) -> usize
    ensures unit { result ≡ unit_of verdict.now }
    ensures few { result ≤ 1 }
{
    match verdict {
        Verdict::Holds => 0,
        Verdict::Differs(_) => 1,
    }
}

// `5 cases at 4 gangs, 1 differ`
fn summary(alloc: Global, cases: usize, gangs: usize, count: usize) -> Result<String, AllocError>
    ensures { IfOk result (λ s. string_bytes s ≡ summary cases gangs count) }
{
    let gangs = counted(alloc, gangs, " gang")?;
    let number = number_text(alloc, count)?;
    let mut line = counted(alloc, cases, " case")?;
    line.push_str(" at ")?;
    line.push_str(gangs.as_str())?;
    line.push_str(", ")?;
    line.push_str(number.as_str())?;
    line.push_str(" differ\n")?;
    Ok(line)
}

// `1 case`, `2 cases`
fn counted(alloc: Global, count: usize, word: &str) -> Result<String, AllocError>
    ensures { IfOk result (λ s. string_bytes s ≡ counted count word.now) }
{
    let mut text = number_text(alloc, count)?;
    text.push_str(word)?;
    text.push_str(ending(count))?;
    Ok(text)
}

fn ending(count: usize) -> &'static str
    ensures { result.now ≡ ending count }
{
    if count == 1 { "" } else { "s" }
}
