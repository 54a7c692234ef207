//! The function that a run begins with.
ghost use Rattle.std.specs.Prelude.{◌≡◌, ◌<◌, ◌↔◌, IsTrue, IfSome, None, length};
ghost use Rattle.isp_typed.specs.Views.{function_of, program_of};
ghost use Rattle.isp_entry.specs.Entered.{Begins, BeginsWith, Can, NoneBegins};

use isp_base::Bound;
use isp_typed::{Program, TypedFunction};

/// The number of the exported function of a name and a signature.
pub fn find_number(program: &Program, entry: &str, bound: &Bound) -> Option<usize>
    ensures some { IfSome result (Begins (program_of program.now) entry.now bound.now.arguments.items) }
    ensures there { IfSome result (λ f. f < length program.now.functions.items) }
    ensures none { result ≡ None → NoneBegins (program_of program.now) entry.now bound.now.arguments.items }
{
    for number in 0..program.functions.len() {
        if can_begin(&program.functions[number], entry, bound) {
            return Some(number);
        }
    }
    None
}

/// The exported function of a name and a signature.
pub fn find<'a>(program: &'a Program, entry: &str, bound: &Bound) -> Option<&'a TypedFunction>
    ensures some { IfSome result (λ f. BeginsWith (program_of program.now) entry.now bound.now.arguments.items (function_of f.now)) }
    ensures none { result ≡ None → NoneBegins (program_of program.now) entry.now bound.now.arguments.items }
{
    match find_number(program, entry, bound) {
        Some(number) => Some(&program.functions[number]),
        None => None,
    }
}

// Whether a run can begin with a function.
fn can_begin(function: &TypedFunction, entry: &str, bound: &Bound) -> bool
    ensures { IsTrue result ↔ Can (function_of function.now) entry.now bound.now.arguments.items }
{
    function.exported && function.name.is(entry) && bound.has_signature(&function.signature)
}
