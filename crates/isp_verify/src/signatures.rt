//! The signatures of functions.
ghost use Rattle.std.specs.Prelude.{◌≡◌, map, IfOk};
ghost use Rattle.isp_code.specs.Entries.{is_array, parameter_of, result_of};
ghost use Rattle.isp_code.specs.Listing.{routine_of};
ghost use Rattle.isp_verify.specs.Signatures.{handed, signature_of};

use isp_base::{Elem, Parameter, Signature};
use isp_code::{Function, Param, ParamKind, Returns};
use std::alloc::{AllocError, Global};

fn is_array(kind: ParamKind) -> bool
    ensures { result ≡ is_array kind }
{
    matches!(kind, ParamKind::Array)
}

fn parameter_of(param: &Param) -> Result<Parameter, AllocError>
    ensures { IfOk result (λ p. p ≡ parameter_of param.now) }
{
    Ok(Parameter {
        name: param.name.copied()?,
        elem: param.elem,
        is_array: is_array(param.kind),
    })
}

fn parameters_of(alloc: Global, params: &[Param]) -> Result<Vec<Parameter>, AllocError>
    ensures { IfOk result (λ v. v.items ≡ map parameter_of params.now) }
{
    let mut all = Vec::new(alloc);
    for param in params {
        all.push(parameter_of(param)?)?;
    }
    Ok(all)
}

fn result_of(returns: Returns) -> Option<Elem>
    ensures { result ≡ result_of returns }
{
    match returns {
        Returns::Nothing => None,
        Returns::Scalar(elem) => Some(elem),
        Returns::Vector(elem) => Some(elem),
    }
}

fn signature_of(alloc: Global, function: &Function) -> Result<Signature, AllocError>
    ensures { IfOk result (λ s. handed s ≡ signature_of (routine_of function.now)) }
{
    Ok(Signature {
        params: parameters_of(alloc, &function.params)?,
        result: result_of(function.returns),
    })
}

/// The signature of each function.
pub(crate) fn signatures_of(
    alloc: Global,
    functions: &[Function],
) -> Result<Vec<Signature>, AllocError>
    ensures { IfOk result (λ v. map handed v.items ≡ map signature_of (map routine_of functions.now)) }
{
    let mut all = Vec::new(alloc);
    for function in functions {
        all.push(signature_of(alloc, function)?)?;
    }
    Ok(all)
}
