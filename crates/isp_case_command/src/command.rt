//! `ispx test`: the cases of a source are run at each gang.
ghost use Rattle.std.specs.Prelude.{◌≡◌, ◌≢◌, false, string_bytes, None, Some, IfErr, IfOk};
ghost use Rattle.isp_case_command.specs.Testing.{IsShown, IsUncompiled, IsUnread, NotTested, TestAnswered, Tested, TestsTexts, cases_file, gangs_of};

use crate::page::{Page, page_of};
use crate::stop::TestStop;
use crate::told::say;
use crate::tried::{gangs, try_gangs};
use isp_base::Gang;
use isp_case_files::{Case, read_cases, read_list};
use isp_engine::{FileFault, SourceFiles};
use isp_output::{Sink, SinkFault, write_all};
use ispx_command_line::TestRequest;
use std::alloc::{AllocError, Global};

/// Runs the cases of the file `SOURCE.tests` at each gang, or at the one that is asked for. Writes a line for each that does not hold, and one
/// that counts them, and answers the exit status; says on `err` what else went wrong.
pub fn test<F: SourceFiles, O: Sink, E: Sink>(
    alloc: Global,
    request: &TestRequest<'_>,
    files: &F,
    out: &mut O,
    err: &mut E,
) -> u8
    requires { O.has_failed out.old ≡ false }
    ensures { TestAnswered (F.holds files.now) request.now (O.written out.old) (O.written out.new) (O.has_failed out.new) result }
{
    match texts_of(alloc, request, files) {
        Ok(texts) => {
            let end = done(alloc, request, &texts, out);
            say(alloc, request.source, texts.source.as_str(), &end, err)
        }
        Err(stop) => say(alloc, request.source, "", &Err(stop), err),
    }
}

/// The text of a source, and that of its cases.
#[derive(Drop)]
struct Texts {
    source: String,
    cases: String,
}

fn texts_of<F: SourceFiles>(
    alloc: Global,
    request: &TestRequest<'_>,
    files: &F,
) -> Result<Texts, TestStop>
    ensures source { IfOk result (λ t. F.holds files.now request.now.source.now (Some (string_bytes t.source))) }
    ensures cases { IfOk result (λ t. F.holds files.now (cases_file request.now.source.now) (Some (string_bytes t.cases))) }
    ensures err { IfErr result (IsUnread (F.holds files.now) request.now.source.now) }
{
    let source = text_of(alloc, files, request.source, TestStop::NoSource)?;
    let name = cases_file(alloc, request.source)?;
    let cases = text_of(alloc, files, name.as_str(), TestStop::NoCases)?;
    Ok(Texts { source, cases })
}

// The text of a file, or why there is none.
fn text_of<F: SourceFiles>(
    alloc: Global,
    files: &F,
    name: &str,
    missing: TestStop,
) -> Result<String, TestStop>
    ensures ok { IfOk result (λ s. F.holds files.now name.now (Some (string_bytes s))) }
    ensures err { IfErr result (λ s. s ≢ TestStop.Memory → (s ≡ missing) × F.holds files.now name.now None) }
{
    match files.read(alloc, name) {
        Ok(text) => Ok(text),
        Err(FileFault::CannotRead) => Err(missing),
        Err(FileFault::Memory) => Err(TestStop::Memory),
    }
}

/// The name of the file with the cases of a source.
pub(crate) fn cases_file(alloc: Global, source: &str) -> Result<String, AllocError>
    ensures { IfOk result (λ s. string_bytes s ≡ cases_file source.now) }
{
    let mut name = String::from_str(alloc, source)?;
    name.push_str(".tests")?;
    Ok(name)
}

fn done<O: Sink>(
    alloc: Global,
    request: &TestRequest<'_>,
    texts: &Texts,
    out: &mut O,
) -> Result<(), TestStop>
    requires { O.has_failed out.old ≡ false }
    ensures { TestsTexts request.now (string_bytes texts.now.source) (string_bytes texts.now.cases) (O.written out.old) (O.written out.new) (O.has_failed out.new) result }
{
    let page = tested(alloc, request, texts.source.as_str(), texts.cases.as_str())?;
    match write_all(out, page.text.as_bytes()) {
        Ok(()) => page.end,
        Err(SinkFault) => Err(TestStop::NoOutput),
    }
}

// What is shown of the cases that a text has.
fn tested(
    alloc: Global,
    request: &TestRequest<'_>,
    text: &str,
    json: &str,
) -> Result<Page, TestStop>
    ensures ok { IfOk result (λ p. Tested request.now text.now json.now (string_bytes p.text) p.end) }
    ensures err { IfErr result (NotTested request.now text.now json.now) }
{
    let list = read_list(alloc, json)?;
    let cases = read_cases(alloc, &list)?;
    let page = tested_as_asked(alloc, request, text, cases.as_slice())?;
    Ok(page)
}

// At the gang that is asked for, or at each.
fn tested_as_asked(
    alloc: Global,
    request: &TestRequest<'_>,
    text: &str,
    cases: &[Case<'_>],
) -> Result<Page, TestStop>
    ensures ok { IfOk result (λ p. IsShown text.now (gangs_of request.now.gang) cases.now request.now.budget (string_bytes p.text) p.end) }
    ensures err { IfErr result (IsUncompiled (gangs_of request.now.gang) text.now) }
{
    let gangs = gangs(alloc, request.gang)?;
    let page = tested_at(alloc, text, gangs.as_slice(), cases, request.budget)?;
    Ok(page)
}

fn tested_at(
    alloc: Global,
    text: &str,
    gangs: &[Gang],
    cases: &[Case<'_>],
    budget: u64,
) -> Result<Page, TestStop>
    ensures ok { IfOk result (λ p. IsShown text.now gangs.now cases.now budget (string_bytes p.text) p.end) }
    ensures err { IfErr result (IsUncompiled gangs.now text.now) }
{
    let tried = try_gangs(alloc, text, gangs, cases, budget)?;
    let page = page_of(alloc, cases, gangs, tried.as_slice())?;
    Ok(page)
}
