//! Counts as a line of JSON.
ghost use Rattle.std.specs.Prelude.{◌≡◌, ◌++◌, ◌<◌, ◌≤◌, [], get_or, length, map, IfOk, OnOk};
ghost use Rattle.std.specs.Fmt.{decimal};
ghost use Rattle.isp_code.specs.Listing.{routine_of};
ghost use Rattle.isp_traces.specs.Tallies.{nothing};
ghost use Rattle.isp_base.specs.Types.{gang_width};
ghost use Rattle.isp_traces.specs.Texts.{busy_text, counts_text, kind_names, line_text, lines_text, member_text, members_text, routine_name, tally_text};

use crate::kinds::Kind;
use crate::tallies::{Counts, Tally};
use isp_base::gang_laws;
use isp_code::Function;
use isp_prints::push_comma;
use isp_verify::Verified;
use itoa::Buffer;
use std::alloc::{AllocError, Global};

/// The counts of a run of some code as one line of JSON, with its line feed.
///
/// `{"instructions":..,"masked":..,"lanes_on":..,"lanes":..,"functions":{..},"kinds":{..}}`. Each function has a member
/// of its name and each kind one of its word, with the same four numbers; also those that did not run.
pub fn counts_line(alloc: Global, code: &Verified, counts: &Counts) -> Result<Vec<u8>, AllocError>
    ensures { IfOk result (λ v. v.items ≡ counts_text code.now counts.now) }
{
    gang_laws();
    let width = code.gang().width();
    let mut text = Vec::from_slice(alloc, b"{")?;
    push_tally(&mut text, width, counts.total)?;
    text.extend_from_slice(b",\"functions\":{")?;
    push_functions(&mut text, width, code.code().functions(), &counts.functions)?;
    text.extend_from_slice(b"},\"kinds\":{")?;
    push_kinds(&mut text, width, &counts.kinds)?;
    text.extend_from_slice(b"}}\n")?;
    Ok(text)
}

/// The counts by lines of a run that was counted by groups of which each has the places of one line, the first line first, as one line
/// of JSON with its line feed: `{"lines":{"3":{"instructions":..,"masked":..,"lanes_on":..,"lanes":..}}}`. A member is the
/// number of a line, from 1; lines in which no instruction names a place have none.
pub fn lines_line(alloc: Global, code: &Verified, counts: &Counts) -> Result<Vec<u8>, AllocError>
    ensures { IfOk result (λ v. v.items ≡ lines_text (gang_width code.now.gang) counts.now.groups.tallies.items) }
{
    gang_laws();
    let width = code.gang().width();
    let mut text = Vec::from_slice(alloc, b"{\"lines\":{")?;
    push_lines(&mut text, width, &counts.groups.tallies)?;
    text.extend_from_slice(b"}}\n")?;
    Ok(text)
}

// Each busy line's number and what its instructions come to.
fn push_lines(text: &mut Vec<u8>, width: usize, tallies: &[Tally]) -> Result<(), AllocError>
    requires { width ≤ 64 }
    ensures { OnOk result (text.new.items ≡ text.old.items ++ busy_text width tallies.now (length tallies.now)) }
{
    let mut busy = 0;
    for line in 0..tallies.len() {
        push_line(text, width, busy, line, tally_at(tallies, line))?;
        if tally_at(tallies, line).instructions > 0 {
            busy += 1;
        }
    }
    Ok(())
}

// The line of a number, from 0, if it is busy, after so many busy ones.
fn push_line(
    text: &mut Vec<u8>,
    width: usize,
    busy: usize,
    line: usize,
    tally: Tally,
) -> Result<(), AllocError>
    requires wide { width ≤ 64 }
    requires low { line < 18446744073709551615 }
    ensures { OnOk result (text.new.items ≡ text.old.items ++ line_text width busy line tally) }
{
    if tally.instructions > 0 {
        let mut buffer = Buffer::new();
        push_member(text, width, busy, buffer.format(line + 1), tally)?;
    }
    Ok(())
}

// Each function's name and what its instructions come to.
fn push_functions(
    text: &mut Vec<u8>,
    width: usize,
    functions: &[Function],
    tallies: &[Tally],
) -> Result<(), AllocError>
    requires { width ≤ 64 }
    ensures { OnOk result (text.new.items ≡ text.old.items ++ members_text width (map routine_name (map routine_of functions.now)) tallies.now (length functions.now)) }
{
    for number in 0..functions.len() {
        let name = functions[number].name.as_str();
        push_member(text, width, number, name, tally_at(tallies, number))?;
    }
    Ok(())
}

// Each kind's word and what its instructions come to.
fn push_kinds(text: &mut Vec<u8>, width: usize, tallies: &[Tally]) -> Result<(), AllocError>
    requires { width ≤ 64 }
    ensures { OnOk result (text.new.items ≡ text.old.items ++ members_text width kind_names tallies.now 8) }
{
    for number in 0..Kind::COUNT {
        push_member(
            text,
            width,
            number,
            kind_name(number),
            tally_at(tallies, number),
        )?;
    }
    Ok(())
}

// The word of the kind of a number.
fn kind_name(number: usize) -> &'static str
    requires { number < 8 }
    ensures { result.now ≡ get_or kind_names number [] }
{
    match number {
        0 => Kind::Scalars.name(),
        1 => Kind::Vectors.name(),
        2 => Kind::Memory.name(),
        3 => Kind::Masks.name(),
        4 => Kind::Jumps.name(),
        5 => Kind::Calls.name(),
        6 => Kind::Output.name(),
        _ => Kind::Asserts.name(),
    }
}

fn tally_at(tallies: &[Tally], number: usize) -> Tally
    ensures { result ≡ get_or tallies.now number nothing }
{
    if number < tallies.len() {
        tallies[number]
    } else {
        Tally::nothing()
    }
}

// A name and what it stands for.
fn push_member(
    text: &mut Vec<u8>,
    width: usize,
    number: usize,
    name: &str,
    tally: Tally,
) -> Result<(), AllocError>
    requires { width ≤ 64 }
    ensures { OnOk result (text.new.items ≡ text.old.items ++ member_text width number name.now tally) }
{
    push_comma(text, number)?;
    text.extend_from_slice(b"\"")?;
    text.extend_from_slice(name.as_bytes())?;
    text.extend_from_slice(b"\":{")?;
    push_tally(text, width, tally)?;
    text.extend_from_slice(b"}")
}

// The four numbers.
fn push_tally(text: &mut Vec<u8>, width: usize, tally: Tally) -> Result<(), AllocError>
    requires { width ≤ 64 }
    ensures { OnOk result (text.new.items ≡ text.old.items ++ tally_text width tally) }
{
    text.extend_from_slice(b"\"instructions\":")?;
    push_number(text, u128::from(tally.instructions))?;
    text.extend_from_slice(b",\"masked\":")?;
    push_number(text, u128::from(tally.masked))?;
    text.extend_from_slice(b",\"lanes_on\":")?;
    push_number(text, tally.lanes_on)?;
    text.extend_from_slice(b",\"lanes\":")?;
    push_number(text, tally.lanes(width))
}

/// A number in decimal.
pub(crate) fn push_number(text: &mut Vec<u8>, number: u128) -> Result<(), AllocError>
    ensures { OnOk result (text.new.items ≡ text.old.items ++ decimal number) }
{
    let mut buffer = Buffer::new();
    text.extend_from_slice(buffer.format(number).as_bytes())
}
