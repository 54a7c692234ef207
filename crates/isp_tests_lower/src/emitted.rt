//! An expression and an assignment are written, each as the code of a function. What each call asks and what the code does follows from
//! the clauses of the calls and from public laws.
ghost use Rattle.std.specs.Prelude.{◌≡◌, IfOk};
ghost use Rattle.isp_typed.specs.Views.{expr_of, function_of, program_of, simple_of};
ghost use Rattle.isp_tests_lower.specs.Runs.{AssignmentRuns, SumRuns};
ghost use Rattle.isp_tests_lower.specs.Trees.{IsFunction, assignment, sum, variables};

use isp_base::{Elem, Rate};
use isp_code::{Code, Instr};
use isp_emitter_laws::{finished_is_written, parts_stay, registers_grow, written_runs};
use isp_lower::{Emitter, Line, Site, next_is_behind};
use isp_lower_code::{asks_are_few, code_is_written, own_is_there};
use isp_rates::Checked;
use isp_registers::{MaskNumber, Slot};
use isp_typed::{TypedExpr, TypedFunction, TypedSimple};
use std::alloc::{AllocError, Global};

/// The lanes of mask 0, and slots after the three masks of the function.
const SITE: Site = Site {
    mask: MaskNumber { number: 0 },
    slot: Slot { number: 3 },
};

/// The code of a function in which `x + 1` is written, and a register is taken after it. Its first instructions give the value.
pub fn sum_code(
    alloc: Global,
    checked: &Checked,
    f: &TypedFunction,
    x: &TypedExpr,
) -> Result<Code, AllocError>
    requires function { IsFunction variables (function_of f.now) }
    requires tree { expr_of x.now ≡ sum }
    ensures { IfOk result (λ code. SumRuns (program_of checked.now) (function_of f.now) code) }
{
    asks_are_few();
    own_is_there();
    code_is_written();
    registers_grow();
    next_is_behind();
    parts_stay();
    finished_is_written();
    written_runs();
    let mut e = Emitter::new(alloc, checked);
    e.begin(f)?;
    e.expr(x, SITE)?;
    e.fresh(Rate::Uniform, Elem::I32)?;
    e.emit(Line::new(Instr::Return(None)))?;
    e.finish()
}

/// The same of `a[programIndex] = a[programIndex] * 2 + 1`: its instructions leave the state after the assignment.
pub fn assignment_code(
    alloc: Global,
    checked: &Checked,
    f: &TypedFunction,
    x: &TypedSimple,
) -> Result<Code, AllocError>
    requires function { IsFunction variables (function_of f.now) }
    requires tree { simple_of x.now ≡ assignment }
    ensures { IfOk result (λ code. AssignmentRuns (program_of checked.now) (function_of f.now) code) }
{
    asks_are_few();
    own_is_there();
    code_is_written();
    registers_grow();
    next_is_behind();
    parts_stay();
    finished_is_written();
    written_runs();
    let mut e = Emitter::new(alloc, checked);
    e.begin(f)?;
    e.store(x, SITE)?;
    e.fresh(Rate::Uniform, Elem::I32)?;
    e.emit(Line::new(Instr::Return(None)))?;
    e.finish()
}
