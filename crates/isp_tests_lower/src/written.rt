//! Two functions are written call by call. Each number is as worked out beforehand, and so is the text of the code, by hand
//! from the tables of docs/LOWERING.md. A call that is refused memory is made once more.
ghost use Rattle.std.specs.Prelude.{◌≡◌, ◌<◌, None, OnErr, OnOk};
ghost use Rattle.isp_base.specs.declared.types.Elem.TheVariants.{I64};
ghost use Rattle.isp_base.specs.declared.types.Rate.TheVariants.{Uniform};
ghost use Rattle.isp_code.specs.declared.instr.Instr.TheVariants as instr;
ghost use Rattle.isp_lower.specs.Drafts.{IsBegun, begun, draft_of, next_register, with_instr, with_place, with_register, with_text};
ghost use Rattle.isp_lower_code.specs.Header.{HeadingFits};
ghost use Rattle.isp_typed.specs.Views.{expr_of, function_of, simple_of};
ghost use Rattle.isp_tests_lower.specs.Stages.{HasCode, HasFirst, HasJump, IsNew, hi, place};
ghost use Rattle.isp_tests_lower.specs.Trees.{AreTrees};

use crate::trees::{Trees, all_trees, no_function};
use isp_asm::write;
use isp_base::{Elem, Rate, Span};
use isp_code::{Code, Instr};
use isp_lower::{Emitter, Line, Site};
use isp_rates::Checked;
use isp_registers::{MaskNumber, Slot};
use isp_tests_support::Hoard;
use isp_typed::TypedFunction;
use std::alloc::{AllocError, Global};
use std::test::Fail;

const PLACE: Span = Span { start: 3, end: 5 };

/// The lanes of mask 0, and slots after the three masks of the function.
const SITE: Site = Site {
    mask: MaskNumber { number: 0 },
    slot: Slot { number: 3 },
};

/// The calls that ask for memory, in their order, and none of them.
#[derive(Clone, Copy, PartialEq)]
pub(crate) enum Call {
    Begin,
    Place,
    Text,
    Emit,
    BeginAgain,
    Fresh,
    Expr,
    Store,
    Finish,
    None,
}

/// Which call gets so many bytes alone, and what came of the calls so far.
#[derive(Drop)]
pub(crate) struct Trial {
    pub call: Call,
    pub bytes: usize,
    /// A call was refused.
    pub refused: bool,
    /// A call gave another number than it should.
    pub wrong: bool,
}

impl Trial {
    pub(crate) fn new(call: Call, bytes: usize) -> Trial {
        Trial {
            call,
            bytes,
            refused: false,
            wrong: false,
        }
    }

    // Before a call.
    fn opens(&self, call: Call, hoard: &mut Hoard) -> Result<(), AllocError> {
        if self.call == call {
            hoard.beside(self.bytes)?;
        }
        Ok(())
    }

    // After a call, by whether it was refused.
    fn closes(&mut self, refused: bool, hoard: &mut Hoard) {
        hoard.ample();
        self.refused = self.refused || refused;
    }

    // Calls gave these numbers.
    fn sees(&mut self, given: &[usize], wanted: &[usize]) {
        self.wrong = self.wrong || given != wanted;
    }
}

fn begin(
    e: &mut Emitter,
    f: &TypedFunction,
    call: Call,
    trial: &mut Trial,
    hoard: &mut Hoard,
) -> Result<(), AllocError>
    requires { HeadingFits (function_of f.now) }
    ensures { OnOk result (draft_of e.new ≡ begun (function_of f.now) (draft_of e.old)) }
{
    trial.opens(call, hoard)?;
    let first = e.begin(f);
    trial.closes(first.is_err(), hoard);
    match first {
        Ok(()) => Ok(()),
        Err(_) => e.begin(f),
    }
}

fn add_place(e: &mut Emitter, trial: &mut Trial, hoard: &mut Hoard) -> Result<usize, AllocError>
    ensures { OnOk result (draft_of e.new ≡ with_place place (draft_of e.old)) }
{
    trial.opens(Call::Place, hoard)?;
    let first = e.place(PLACE);
    trial.closes(first.is_err(), hoard);
    match first {
        Ok(given) => Ok(given.number),
        Err(_) => Ok(e.place(PLACE)?.number),
    }
}

fn add_text(e: &mut Emitter, trial: &mut Trial, hoard: &mut Hoard) -> Result<usize, AllocError>
    ensures { OnOk result (draft_of e.new ≡ with_text hi (draft_of e.old)) }
{
    trial.opens(Call::Text, hoard)?;
    let first = e.text(b"hi");
    trial.closes(first.is_err(), hoard);
    match first {
        Ok(given) => Ok(given.number),
        Err(_) => Ok(e.text(b"hi")?.number),
    }
}

fn add_return(e: &mut Emitter, trial: &mut Trial, hoard: &mut Hoard) -> Result<usize, AllocError>
    requires { IsBegun (draft_of e.old) }
    ensures { OnOk result (draft_of e.new ≡ with_instr (instr.Return None) (draft_of e.old)) }
{
    trial.opens(Call::Emit, hoard)?;
    let first = e.emit(Line::new(Instr::Return(None)));
    trial.closes(first.is_err(), hoard);
    match first {
        Ok(at) => Ok(at),
        Err(_) => e.emit(Line::new(Instr::Return(None))),
    }
}

// The function has four scalar registers, so a fifth asks for memory.
fn add_register(e: &mut Emitter, trial: &mut Trial, hoard: &mut Hoard) -> Result<usize, AllocError>
    requires begun { IsBegun (draft_of e.old) }
    requires few { next_register Uniform (draft_of e.old) < 4294967296 }
    ensures { OnOk result (draft_of e.new ≡ with_register Uniform I64 (draft_of e.old)) }
{
    trial.opens(Call::Fresh, hoard)?;
    let first = e.fresh(Rate::Uniform, Elem::I64);
    trial.closes(first.is_err(), hoard);
    match first {
        Ok(given) => Ok(given.number as usize),
        Err(_) => Ok(e.fresh(Rate::Uniform, Elem::I64)?.number as usize),
    }
}

// The first function has a register more and a return; beside it stand a place and a text.
fn write_first(
    e: &mut Emitter,
    trees: &Trees,
    trial: &mut Trial,
    hoard: &mut Hoard,
) -> Result<(), AllocError>
    requires new { IsNew (draft_of e.old) }
    requires trees { AreTrees (function_of trees.now.first) (function_of trees.now.second) (expr_of trees.now.sum) (simple_of trees.now.assignment) }
    ensures { OnOk result (HasFirst (function_of trees.now.first) (draft_of e.new)) }
{
    begin(e, &trees.first, Call::Begin, trial, hoard)?;
    let place = add_place(e, trial, hoard)?;
    let text = add_text(e, trial, hoard)?;
    let register = e.fresh(Rate::Uniform, Elem::I64)?;
    let at = add_return(e, trial, hoard)?;
    trial.sees(&[place, text, register.number as usize, at], &[0, 0, 1, 0]);
    Ok(())
}

// The second has a register more, and a jump.
fn write_jump(
    e: &mut Emitter,
    trees: &Trees,
    trial: &mut Trial,
    hoard: &mut Hoard,
) -> Result<(), AllocError>
    requires first { HasFirst (function_of trees.now.first) (draft_of e.old) }
    requires trees { AreTrees (function_of trees.now.first) (function_of trees.now.second) (expr_of trees.now.sum) (simple_of trees.now.assignment) }
    ensures { OnOk result (HasJump (function_of trees.now.first) (function_of trees.now.second) (draft_of e.new)) }
{
    begin(e, &trees.second, Call::BeginAgain, trial, hoard)?;
    let register = add_register(e, trial, hoard)?;
    let at = e.emit(Line::new(Instr::Jump { target: 0 }))?;
    trial.sees(&[register, at], &[4, 0]);
    Ok(())
}

fn put_sum(e: &mut Emitter, trees: &Trees) -> Result<usize, AllocError>
    requires jump { HasJump (function_of trees.now.first) (function_of trees.now.second) (draft_of e.old) }
    requires trees { AreTrees (function_of trees.now.first) (function_of trees.now.second) (expr_of trees.now.sum) (simple_of trees.now.assignment) }
    ensures code { OnOk result (HasCode (function_of trees.now.first) (function_of trees.now.second) 20 (draft_of e.new)) }
    ensures refused { OnErr result (draft_of e.new ≡ draft_of e.old) }
{
    Ok(e.expr(&trees.sum, SITE)?.number as usize)
}

fn put_assignment(e: &mut Emitter, trees: &Trees) -> Result<(), AllocError>
    requires code { HasCode (function_of trees.now.first) (function_of trees.now.second) 20 (draft_of e.old) }
    requires trees { AreTrees (function_of trees.now.first) (function_of trees.now.second) (expr_of trees.now.sum) (simple_of trees.now.assignment) }
    ensures code { OnOk result (HasCode (function_of trees.now.first) (function_of trees.now.second) 40 (draft_of e.new)) }
    ensures refused { OnErr result (draft_of e.new ≡ draft_of e.old) }
{
    e.store(&trees.assignment, SITE)?;
    Ok(())
}

fn add_sum(
    e: &mut Emitter,
    trees: &Trees,
    trial: &mut Trial,
    hoard: &mut Hoard,
) -> Result<usize, AllocError>
    requires jump { HasJump (function_of trees.now.first) (function_of trees.now.second) (draft_of e.old) }
    requires trees { AreTrees (function_of trees.now.first) (function_of trees.now.second) (expr_of trees.now.sum) (simple_of trees.now.assignment) }
    ensures { OnOk result (HasCode (function_of trees.now.first) (function_of trees.now.second) 20 (draft_of e.new)) }
{
    trial.opens(Call::Expr, hoard)?;
    let first = put_sum(e, trees);
    trial.closes(first.is_err(), hoard);
    match first {
        Ok(register) => Ok(register),
        Err(_) => put_sum(e, trees),
    }
}

fn add_assignment(
    e: &mut Emitter,
    trees: &Trees,
    trial: &mut Trial,
    hoard: &mut Hoard,
) -> Result<(), AllocError>
    requires code { HasCode (function_of trees.now.first) (function_of trees.now.second) 20 (draft_of e.old) }
    requires trees { AreTrees (function_of trees.now.first) (function_of trees.now.second) (expr_of trees.now.sum) (simple_of trees.now.assignment) }
    ensures { OnOk result (HasCode (function_of trees.now.first) (function_of trees.now.second) 40 (draft_of e.new)) }
{
    trial.opens(Call::Store, hoard)?;
    let first = put_assignment(e, trees);
    trial.closes(first.is_err(), hoard);
    match first {
        Ok(()) => Ok(()),
        Err(_) => put_assignment(e, trees),
    }
}

// Both functions, but for the last return.
fn write_both(
    e: &mut Emitter,
    trees: &Trees,
    trial: &mut Trial,
    hoard: &mut Hoard,
) -> Result<(), AllocError>
    requires new { IsNew (draft_of e.old) }
    requires trees { AreTrees (function_of trees.now.first) (function_of trees.now.second) (expr_of trees.now.sum) (simple_of trees.now.assignment) }
    ensures { OnOk result (HasCode (function_of trees.now.first) (function_of trees.now.second) 40 (draft_of e.new)) }
{
    write_first(e, trees, trial, hoard)?;
    write_jump(e, trees, trial, hoard)?;
    let register = add_sum(e, trees, trial, hoard)?;
    trial.sees(&[register], &[5]);
    add_assignment(e, trees, trial, hoard)
}

// A return, to which the jump leads. No code where the last call is refused, which leaves no emitter.
fn finish(
    mut e: Emitter,
    trees: &Trees,
    trial: &mut Trial,
    hoard: &mut Hoard,
) -> Result<Option<Code>, AllocError>
    requires code { HasCode (function_of trees.now.first) (function_of trees.now.second) 40 (draft_of e) }
    requires trees { AreTrees (function_of trees.now.first) (function_of trees.now.second) (expr_of trees.now.sum) (simple_of trees.now.assignment) }
{
    let to = e.emit(Line::new(Instr::Return(None)))?;
    trial.sees(&[to], &[13]);
    e.patch(0, to);
    trial.opens(Call::Finish, hoard)?;
    let code = e.finish();
    trial.closes(code.is_err(), hoard);
    Ok(code.ok())
}

// The code of the two functions, if its last call is not refused.
fn written(
    alloc: Global,
    checked: &Checked,
    trial: &mut Trial,
    hoard: &mut Hoard,
) -> Result<Option<Code>, AllocError> {
    let trees = all_trees(alloc)?;
    let mut e = Emitter::new(alloc, checked);
    write_both(&mut e, &trees, trial, hoard)?;
    finish(e, &trees, trial, hoard)
}

/// The code of the two functions. Where its last call is refused, which leaves no emitter, a new one writes them once more.
pub(crate) fn two_functions(
    alloc: Global,
    checked: &Checked,
    trial: &mut Trial,
    hoard: &mut Hoard,
) -> Result<Option<Code>, AllocError> {
    match written(alloc, checked, trial, hoard)? {
        Some(code) => Ok(Some(code)),
        None => {
            trial.call = Call::None;
            written(alloc, checked, trial, hoard)
        }
    }
}

pub(crate) const TEXT: &str = "isp 1 gang 8
place 3 5
place 51 66
place 33 48
text 6869
func f export void
s i32 i64
m 3
ret -
end
func g export void
loc u i32 8
s i32 i32 i32 i32 i64 i32 i32 i64 i64 i32
v i64 i32 i32 i64 i32
m 3
jmp L13
const s6 1
add s5 s0 s6
const s7 0
const s8 0
vload v2 a0 s8 m0 p1
const s9 2
splat v4 s9 m0
mul v2 v2 v4 m0
const s9 1
splat v4 s9 m0
add v2 v2 v4 m0
vstore a0 s7 v2 m0 p2
ret -
end
";

#[test]
fn two_functions_by_hand(rt: HostRuntime) -> Result<(), Fail> {
    let alloc = rt.alloc();
    let checked = no_function(alloc)?;
    let mut hoard = Hoard::new(alloc)?;
    let mut trial = Trial::new(Call::None, 0);
    hoard.ample();
    let code = two_functions(alloc, &checked, &mut trial, &mut hoard)?;
    assert!(rt; !trial.wrong, "another number");
    let text = match code {
        Some(code) => write(alloc, &code)?,
        None => String::new(alloc),
    };
    assert_eq!(rt; text.as_str(), TEXT);
    Ok(())
}
