//! What a call says of itself.
ghost use Rattle.std.specs.Prelude.{◌≡◌};
ghost use Rattle.isp_reports.specs.Refusals.{nothing, number_of_kind, number_of_rule, numbered, of_argument, placed, why_of, why_of_arguments, why_of_code, why_of_failure, why_of_trap};
ghost use Rattle.isp_reports.specs.Reports.{Done, Refuses};

use crate::line::{LINE, line_of, no_line};
use crate::refusal::Refusal;
use isp_asm::Rule;
use isp_base::{Span, Trap, TrapKind};
use isp_engine::{CodeFault, Failure, RunFault};
use isp_packed::PackedFault;

/// What a call says of itself.
#[derive(Clone, Copy)]
#[repr(C)]
pub struct Report {
    /// How many bytes the call wrote at the front of its room. With status 10, how many it wants.
    pub used: usize,
    /// What the entry returned: its bits, zero above the width. 0 where it returned nothing.
    pub result: u64,
    /// What is told by numbers.
    pub why: Why,
    /// The line of standard error, at most 127 bytes of it, and zeros after it. Nothing where the status is 0.
    pub line: [u8; LINE],
}

/// Why a status is not 0, in numbers. What a status does not tell is 0.
#[derive(Clone, Copy)]
#[repr(C)]
pub struct Why {
    /// The number of the fault (docs/FAULTS.md): 1 to 33 of a source, 40 to 63 of code, 50 and 72 to 76 of a run.
    pub number: u32,
    /// The kind of a trap: 1 divide, 2 index, 3 assert, 4 depth.
    pub trap: u32,
    /// The bytes of the source, from `begin` up to `end`, of a source that is refused and of a trap.
    pub begin: usize,
    pub end: usize,
    /// The instance of a trap.
    pub instance: usize,
    /// The line of code text that is refused, from 1.
    pub line: usize,
    /// The function and the instruction of code that is refused, from 0.
    pub function: usize,
    pub instruction: usize,
    /// The parameter and the element of arguments that are refused, from 0.
    pub parameter: usize,
    pub element: usize,
}

impl Why {
    fn none() -> Why
        ensures { result ≡ nothing }
    {
        Why {
            number: 0,
            trap: 0,
            begin: 0,
            end: 0,
            instance: 0,
            line: 0,
            function: 0,
            instruction: 0,
            parameter: 0,
            element: 0,
        }
    }

    fn numbered(number: u32) -> Why
        ensures { result ≡ numbered number }
    {
        Why {
            number,
            ..Why::none()
        }
    }

    fn at(number: u32, place: Span) -> Why
        ensures { result ≡ placed number place }
    {
        Why {
            begin: place.start,
            end: place.end,
            ..Why::numbered(number)
        }
    }

    fn of_argument(number: u32, parameter: usize, element: usize) -> Why
        ensures { result ≡ of_argument number parameter element }
    {
        Why {
            parameter,
            element,
            ..Why::numbered(number)
        }
    }
}

/// A call that ends well: so many bytes were written, and this was returned.
pub fn done(used: usize, returned: u64, report: &mut Report) -> u8
    ensures { Done used returned report.new result }
{
    *report = Report {
        used,
        result: returned,
        why: Why::none(),
        line: no_line(),
    };
    0
}

/// A call that is refused, or stopped after so many bytes; how it ends.
pub fn refuse(refusal: &Refusal<'_>, used: usize, report: &mut Report) -> u8
    ensures { Refuses refusal.now used report.new result }
{
    *report = Report {
        used,
        result: 0,
        why: why_of(refusal),
        line: line_of(refusal),
    };
    refusal.status()
}

fn why_of(refusal: &Refusal<'_>) -> Why
    ensures { result ≡ why_of refusal.now }
{
    match refusal {
        Refusal::NoGang | Refusal::NoModule(_) | Refusal::Short => Why::none(),
        Refusal::Failed(failure) => why_of_failure(failure),
        Refusal::Arguments(fault) => why_of_arguments(*fault),
    }
}

fn why_of_failure(failure: &Failure<'_>) -> Why
    ensures { result ≡ why_of_failure failure.now }
{
    match failure {
        Failure::Source(fault) => Why::at(u32::from(fault.rule.number()), fault.span),
        Failure::Trapped(trap) => why_of_trap(*trap),
        Failure::Run(RunFault::NoEntry) => Why::numbered(50),
        Failure::Code(fault) => why_of_code(*fault),
        _ => Why::none(),
    }
}

fn why_of_trap(trap: Trap) -> Why
    ensures { result ≡ why_of_trap trap }
{
    Why {
        trap: number_of_kind(trap.kind),
        instance: trap.instance,
        ..Why::at(0, trap.place)
    }
}

fn number_of_kind(kind: TrapKind) -> u32
    ensures { result ≡ number_of_kind kind }
{
    match kind {
        TrapKind::Divide => 1,
        TrapKind::Index => 2,
        TrapKind::Assert => 3,
        TrapKind::Depth => 4,
    }
}

fn why_of_code(fault: CodeFault) -> Why
    ensures { result ≡ why_of_code fault }
{
    match fault {
        CodeFault::Memory => Why::none(),
        CodeFault::Text(fault) => Why {
            line: fault.line,
            ..Why::numbered(number_of_rule(fault.rule))
        },
        CodeFault::Code(fault) => Why {
            function: fault.function,
            instruction: fault.instruction,
            ..Why::numbered(fault.rule.number())
        },
    }
}

fn number_of_rule(rule: Rule) -> u32
    ensures { result ≡ number_of_rule rule }
{
    match rule {
        Rule::BadLine => 60,
        Rule::BadOperand => 61,
        Rule::BadLabel => 62,
        Rule::NotCanonical => 63,
    }
}

fn why_of_arguments(fault: PackedFault) -> Why
    ensures { result ≡ why_of_arguments fault }
{
    match fault {
        PackedFault::Memory => Why::none(),
        PackedFault::Short { parameter } => Why::of_argument(72, parameter, 0),
        PackedFault::Long => Why::numbered(73),
        PackedFault::OutOfRange { parameter, element } => Why::of_argument(75, parameter, element),
        PackedFault::TooLong { parameter } => Why::of_argument(76, parameter, 0),
    }
}
