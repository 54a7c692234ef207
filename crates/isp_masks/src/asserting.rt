//! The code of `assert`.
ghost use Rattle.std.specs.Prelude.{◌≡◌, [], OnOk};
ghost use Rattle.isp_base.specs.declared.types.Rate.TheVariants.{Uniform, Varying};
ghost use Rattle.isp_typed.specs.Views.{expr_of};
ghost use Rattle.isp_lower.specs.Emitted.{Appends, Present};
ghost use Rattle.isp_lower.specs.Written.{Writes as Adds};
ghost use Rattle.isp_masks_code.specs.Asks.{assert_asks};
ghost use Rattle.isp_masks_code.specs.Asserts.{fail, fails_code};
ghost use Rattle.isp_masks.specs.Written.{assert_at};

use crate::looping::Test;
use isp_base::{Rate, Span};
use isp_code::{Instr, JumpTest};
use isp_lower::{Body, Line, Scope, Site, expr, mask, scalar, the_others, where_so};
use isp_registers::{MaskNumber, PlaceNumber, RegisterNumber};
use isp_typed::TypedExpr;
use std::alloc::AllocError;

/// A trap where a mask has a lane, at a place in the source.
fn fail(k: MaskNumber, place: PlaceNumber) -> Line
    ensures { result ≡ fail k.number place.number }
{
    let trap = Instr::Fail {
        mask: mask(k),
        place: 0,
    };
    Line::naming(trap, place.number)
}

/// The trap of all lanes, jumped over where the test is true.
fn fails_for_all(
    b: &mut Body,
    tested: RegisterNumber,
    place: PlaceNumber,
    site: Site,
) -> Result<(), AllocError>
    ensures { OnOk result (Appends b.old b.new (λ pc p. fails_code Uniform tested.number pc place.number site.mask.number site.slot.number) []) }
{
    let at = b.code.len();
    b.push(Instr::JumpIf {
        test: JumpTest::True,
        register: scalar(tested),
        target: 0,
    })?;
    b.add(fail(site.mask, place))?;
    b.land(at, JumpTest::True, scalar(tested));
    Ok(())
}

/// The trap of the lanes for which the test is false.
fn fails_for_some(
    b: &mut Body,
    tested: RegisterNumber,
    place: PlaceNumber,
    site: Site,
) -> Result<(), AllocError>
    ensures { OnOk result (Appends b.old b.new (λ pc p. fails_code Varying tested.number pc place.number site.mask.number site.slot.number) []) }
{
    let failing = site.slot.mask();
    b.push(where_so(failing, tested, site.mask))?;
    b.push(the_others(failing, site.mask, failing))?;
    b.add(fail(failing, place))?;
    Ok(())
}

/// The trap after a test, at a place in the source.
fn fails(b: &mut Body, test: Test, place: PlaceNumber, site: Site) -> Result<(), AllocError>
    ensures { OnOk result (Appends b.old b.new (λ pc p. fails_code test.rate test.register.number pc place.number site.mask.number site.slot.number) []) }
{
    match test.rate {
        Rate::Uniform => fails_for_all(b, test.register, place, site),
        Rate::Varying => fails_for_some(b, test.register, place, site),
    }
}

/// `assert`: its test, then the trap, which names the place of the call.
pub(crate) fn asserts(
    b: &mut Body,
    on: &Scope,
    test: &TypedExpr,
    call: Span,
    site: Site,
) -> Result<(), AllocError>
    requires { Present on.now (assert_asks (expr_of test.now) site.slot.number) }
    ensures { OnOk result (Adds b.old b.new (assert_at on.now (expr_of test.now) call site.mask.number site.slot.number)) }
{
    let tested = expr(b, on, test, site)?;
    let given = Test {
        rate: test.ty().rate,
        register: tested,
    };
    let place = b.place(call)?;
    fails(b, given, place, site)?;
    Ok(())
}
