//! The line on standard error.
ghost use Rattle.std.specs.Prelude.{◌≡◌, ◌++◌, ◌∷◌, [], false, flat_map};
ghost use Rattle.isp_asm.specs.Faults.{rule_text};
ghost use Rattle.isp_base.specs.Traps.{kind_text};
ghost use Rattle.isp_engine.specs.Commands.{exit_status};
ghost use Rattle.isp_engine.specs.Failures.{clash_line, failure_line, line_of};
ghost use Rattle.isp_engine.specs.declared.failure.Failure.TheVariants.{Code, NotIndependent, Source, Trapped, TurnsUsed};
ghost use Rattle.isp_runs.specs.declared.fault.CodeFault.TheVariants.{Code as BadCode, Text};
ghost use Rattle.isp_engine.specs.Told.{Told, Wrote};

use crate::failure::Failure;
use isp_asm::Rule;
use isp_base::{Trap, TrapKind};
use isp_independence::Dependence;
use isp_lex::Fault;
use isp_output::{Sink, SinkFault, write_all};
use isp_runs::CodeFault;
use itoa::Buffer;

// Writes pieces one after the other, up to the first fault.
fn write_pieces<W: Sink>(out: &mut W, pieces: &[&str]) -> Result<(), SinkFault>
    requires { W.has_failed out.old ≡ false }
    ensures { Wrote (flat_map (λ piece. piece.now) pieces.now) (W.written out.old) (W.written out.new)
        (W.has_failed out.new) result }
{
    for piece in pieces {
        write_all(out, piece.as_bytes())?;
    }
    Ok(())
}

/// Writes the line of a failure, as far as the sink takes it; nothing where it has failed before.
#[tactic(auto, using(crate::proofs::Told::told_none))]
pub fn tell_line<W: Sink>(failure: &Failure<'_>, out: &mut W)
    ensures { Told (failure_line failure.now) (W.written out.old) (W.written out.new) (W.has_failed out.new) }
{
    if !out.failed() {
        let _ = write_line(failure, out);
    }
}

/// Writes the line that says why the program ends so, where it does not end well, and answers the exit status.
pub fn tell_end<E: Sink>(end: Result<(), Failure<'_>>, err: &mut E) -> u8
    ensures status { result ≡ exit_status end.entry }
    ensures line { Told (line_of end.entry) (E.written err.old) (E.written err.new) (E.has_failed err.new) }
{
    match end {
        Ok(()) => 0,
        Err(failure) => {
            tell_line(&failure, err);
            failure.status()
        }
    }
}

// Writes the line of a failure, up to the first fault.
fn write_line<W: Sink>(failure: &Failure<'_>, out: &mut W) -> Result<(), SinkFault>
    requires { W.has_failed out.old ≡ false }
    ensures { Wrote (failure_line failure.now) (W.written out.old) (W.written out.new)
        (W.has_failed out.new) result }
{
    match failure {
        Failure::Source(fault) => write_source(*fault, out),
        Failure::Trapped(trap) => write_trap(*trap, out),
        Failure::BudgetUsed => write_pieces(out, &["isp: budget used\n"]),
        Failure::TurnsUsed(instance) => write_turns(*instance, out),
        Failure::Run(fault) => write_pieces(out, &["isp: ", fault.text(), "\n"]),
        Failure::CannotRead(name) => write_pieces(out, &["isp: cannot read ", *name, "\n"]),
        Failure::CannotWrite => write_pieces(out, &["isp: cannot write\n"]),
        Failure::Memory => write_pieces(out, &["isp: memory\n"]),
        Failure::Code(fault) => write_code(*fault, out),
        Failure::NotIndependent(dependence) => write_dependence(*dependence, out),
        Failure::NotApart { name, element } => write_clash(name.as_str(), *element, out),
    }
}

// `isp: 30 VaryingToUniform at 34..46`
fn write_source<W: Sink>(fault: Fault, out: &mut W) -> Result<(), SinkFault>
    requires { W.has_failed out.old ≡ false }
    ensures { Wrote (failure_line (Source fault)) (W.written out.old) (W.written out.new)
        (W.has_failed out.new) result }
{
    let (mut number, mut start, mut end) = (Buffer::new(), Buffer::new(), Buffer::new());
    let pieces = [
        "isp: ",
        number.format(fault.rule.number()),
        " ",
        fault.rule.name(),
        " at ",
        start.format(fault.span.start),
        "..",
        end.format(fault.span.end),
        "\n",
    ];
    write_pieces(out, &pieces)
}

// `isp: trap index at 79..83, instance 1`
fn write_trap<W: Sink>(trap: Trap, out: &mut W) -> Result<(), SinkFault>
    requires { W.has_failed out.old ≡ false }
    ensures { Wrote (failure_line (Trapped trap)) (W.written out.old) (W.written out.new)
        (W.has_failed out.new) result }
{
    let (mut start, mut end, mut instance) = (Buffer::new(), Buffer::new(), Buffer::new());
    let pieces = [
        "isp: trap ",
        kind_name(trap.kind),
        " at ",
        start.format(trap.place.start),
        "..",
        end.format(trap.place.end),
        ", instance ",
        instance.format(trap.instance),
        "\n",
    ];
    write_pieces(out, &pieces)
}

// `isp: turns used, instance 0`
fn write_turns<W: Sink>(instance: usize, out: &mut W) -> Result<(), SinkFault>
    requires { W.has_failed out.old ≡ false }
    ensures { Wrote (failure_line (TurnsUsed instance)) (W.written out.old) (W.written out.new)
        (W.has_failed out.new) result }
{
    let mut number = Buffer::new();
    let pieces = ["isp: turns used, instance ", number.format(instance), "\n"];
    write_pieces(out, &pieces)
}

// `isp: rule 4 at 105..108`
fn write_dependence<W: Sink>(dependence: Dependence, out: &mut W) -> Result<(), SinkFault>
    requires { W.has_failed out.old ≡ false }
    ensures { Wrote (failure_line (NotIndependent dependence)) (W.written out.old) (W.written out.new)
        (W.has_failed out.new) result }
{
    let (mut number, mut start, mut end) = (Buffer::new(), Buffer::new(), Buffer::new());
    let pieces = [
        "isp: rule ",
        number.format(dependence.rule.number()),
        " at ",
        start.format(dependence.span.start),
        "..",
        end.format(dependence.span.end),
        "\n",
    ];
    write_pieces(out, &pieces)
}

// `isp: not apart: NAME 3`
fn write_clash<W: Sink>(name: &str, element: usize, out: &mut W) -> Result<(), SinkFault>
    requires { W.has_failed out.old ≡ false }
    ensures { Wrote (clash_line name.now element) (W.written out.old) (W.written out.new)
        (W.has_failed out.new) result }
{
    let mut number = Buffer::new();
    let pieces = ["isp: not apart: ", name, " ", number.format(element), "\n"];
    write_pieces(out, &pieces)
}

// `isp: 60 BadLine at line 5`, `isp: 42 BadJump in function 0, instruction 0`
fn write_code<W: Sink>(fault: CodeFault, out: &mut W) -> Result<(), SinkFault>
    requires { W.has_failed out.old ≡ false }
    ensures { Wrote (failure_line (Code fault)) (W.written out.old) (W.written out.new)
        (W.has_failed out.new) result }
{
    match fault {
        CodeFault::Memory => write_pieces(out, &["isp: memory\n"]),
        CodeFault::Text(fault) => write_text_fault(fault, out),
        CodeFault::Code(fault) => write_code_fault(fault, out),
    }
}

fn write_text_fault<W: Sink>(fault: isp_asm::Fault, out: &mut W) -> Result<(), SinkFault>
    requires { W.has_failed out.old ≡ false }
    ensures { Wrote (failure_line (Code (Text fault))) (W.written out.old) (W.written out.new)
        (W.has_failed out.new) result }
{
    let mut line = Buffer::new();
    let pieces = [
        "isp: ",
        rule_name(fault.rule),
        " at line ",
        line.format(fault.line),
        "\n",
    ];
    write_pieces(out, &pieces)
}

fn write_code_fault<W: Sink>(fault: isp_verify::Fault, out: &mut W) -> Result<(), SinkFault>
    requires { W.has_failed out.old ≡ false }
    ensures { Wrote (failure_line (Code (BadCode fault))) (W.written out.old) (W.written out.new)
        (W.has_failed out.new) result }
{
    let (mut number, mut function, mut instruction) = (Buffer::new(), Buffer::new(), Buffer::new());
    let pieces = [
        "isp: ",
        number.format(fault.rule.number()),
        " ",
        fault.rule.name(),
        " in function ",
        function.format(fault.function),
        ", instruction ",
        instruction.format(fault.instruction),
        "\n",
    ];
    write_pieces(out, &pieces)
}

fn kind_name(kind: TrapKind) -> &'static str
    ensures { result.now ≡ kind_text kind }
{
    match kind {
        TrapKind::Divide => "divide",
        TrapKind::Index => "index",
        TrapKind::Assert => "assert",
        TrapKind::Depth => "depth",
    }
}

fn rule_name(rule: Rule) -> &'static str
    ensures { result.now ≡ rule_text rule }
{
    match rule {
        Rule::BadLine => "60 BadLine",
        Rule::BadOperand => "61 BadOperand",
        Rule::BadLabel => "62 BadLabel",
        Rule::NotCanonical => "63 NotCanonical",
    }
}
