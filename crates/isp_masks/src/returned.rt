//! The code of `return`.
ghost use Rattle.std.specs.Prelude.{option_map, OnOk};
ghost use Rattle.isp_typed.specs.Typed.{t_return};
ghost use Rattle.isp_typed.specs.Views.{expr_of};
ghost use Rattle.isp_lower.specs.Emitted.{Present};
ghost use Rattle.isp_masks_code.specs.Asks.{answer_asks, stmt_asks};
ghost use Rattle.isp_lower.specs.Written.{Writes as Adds};
ghost use Rattle.isp_masks.specs.Written.{Writes, answer_at, stmt_at};

use crate::masks::Spot;
use crate::sets::leave;
use isp_base::Span;
use isp_lower::{Body, Scope, Site, copy, expr, operand};
use isp_typed::TypedExpr;
use std::alloc::AllocError;

/// A value where results are.
fn answered(b: &mut Body, on: &Scope, x: &TypedExpr, site: Site) -> Result<(), AllocError>
    requires { Present on.now (answer_asks on.now.answer (expr_of x.now) site.slot.number) }
    ensures { OnOk result (Adds b.old b.new (answer_at on.now (expr_of x.now) site.mask.number site.slot.number)) }
{
    match on.answer {
        None => {
            expr(b, on, x, site)?;
            Ok(())
        }
        Some(ty) => {
            let from = operand(b, on, ty.rate, x, site)?;
            let to = on.result(ty);
            b.push(copy(ty.rate, to, from, site.mask))?;
            Ok(())
        }
    }
}

/// `return`: the value, if there is one, then the lanes leave.
pub(crate) fn returns(
    b: &mut Body,
    on: &Scope,
    keyword: Span,
    value: &Option<TypedExpr>,
    span: Span,
    spot: Spot,
) -> Result<(), AllocError>
    requires { Present on.now (stmt_asks on.now.answer (t_return keyword (option_map expr_of value.now) span) spot.slot.number) }
    ensures { OnOk result (Writes b.old b.new (stmt_at on.now (t_return keyword (option_map expr_of value.now) span) spot)) }
{
    match value {
        None => {
            leave(b, spot.masks.returned, spot.masks.on)?;
            Ok(())
        }
        Some(x) => {
            answered(b, on, x, spot.site())?;
            leave(b, spot.masks.returned, spot.masks.on)?;
            Ok(())
        }
    }
}
