//! The types of scalar registers.
ghost use Rattle.std.specs.Prelude.{◌≡◌};
ghost use Rattle.isp_code.specs.Listing.{routine_of};
ghost use Rattle.isp_code.specs.Registers.{class_of, elem_of, same_class};
ghost use Rattle.isp_code.specs.declared.register.Class.TheVariants.{Scalar};

use isp_base::Elem;
use isp_code::{Function, ParamKind};

fn is_scalar(kind: ParamKind) -> bool
    ensures { result ≡ same_class (class_of kind) Scalar }
{
    matches!(kind, ParamKind::Scalar)
}

/// The type of a scalar register, `bool` where there is none: those that are parameters come first.
pub(crate) fn scalar_elem(function: &Function, number: u32) -> Elem
    ensures { result ≡ elem_of (routine_of function.now) (record { class = Scalar; number = number }) }
{
    let mut left = number as usize;
    for param in &function.params {
        if is_scalar(param.kind) {
            if left == 0 {
                return param.elem;
            }
            left -= 1;
        }
    }
    match function.scalars.get(left) {
        Some(elem) => *elem,
        None => Elem::Bool,
    }
}
