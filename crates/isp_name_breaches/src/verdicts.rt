//! The fault that the checker answers at a node: its own, or the first of its parts.
ghost use Rattle.std.specs.Prelude.{◌≡◌, IfOk};
ghost use Rattle.isp_tree.specs.Tree.{listed};
ghost use Rattle.isp_tree.specs.Views.{arguments_of as read_arguments, expr_of as read_expr};
ghost use Rattle.isp_exprs.specs.Rules.{expr_typing, call_of_typing};
ghost use Rattle.isp_types.specs.Simple.{target_typing};
ghost use Rattle.isp_exprs.specs.reader.Lists.{fault_of};
ghost use Rattle.isp_types.specs.reader.Settings.{within};

use isp_base::Span;
use isp_exprs::{Scope, Setting, call, expr};
use isp_lex::Fault;
use isp_tree::{Argument, Expr, Word};
use isp_types::target;
use std::alloc::AllocError;

/// The fault of an expression.
pub fn expr_fault(setting: &Setting, scope: &Scope, x: &Expr) -> Result<Option<Fault>, AllocError>
    ensures { IfOk result (λ o. o ≡ fault_of (within setting.now expr_typing scope.now (read_expr x.now)).verdict) }
{
    match expr(setting, scope, x)? {
        Ok(_) => Ok(None),
        Err(fault) => Ok(Some(fault)),
    }
}

/// The fault of a call, which may be without a result.
pub fn call_fault(
    setting: &Setting,
    scope: &Scope,
    function: &Word,
    all: &[Argument],
    span: Span,
) -> Result<Option<Fault>, AllocError>
    ensures { IfOk result (λ o. o ≡ fault_of (within setting.now call_of_typing scope.now function.now (listed (read_arguments all.now)) span).verdict) }
{
    match call(setting, scope, function, all, span)? {
        Ok(_) => Ok(None),
        Err(fault) => Ok(Some(fault)),
    }
}

/// The fault of what is assigned.
pub fn target_fault(setting: &Setting, scope: &Scope, x: &Expr) -> Result<Option<Fault>, AllocError>
    ensures { IfOk result (λ o. o ≡ fault_of (within setting.now target_typing scope.now (read_expr x.now)).verdict) }
{
    match target(setting, scope, x)? {
        Ok(_) => Ok(None),
        Err(fault) => Ok(Some(fault)),
    }
}
