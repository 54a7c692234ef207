//! What is renamed, and values that have no places.
ghost use Rattle.std.specs.Prelude.{◌≡◌, IsTrue};
ghost use Rattle.isp_alike.specs.Renamed.{is_function, is_variable};

use isp_base::Value;
use isp_known::Subject;
use isp_tree::{Form, Jump};
use isp_typed::{ArrayVariable, Holds, Library, Logic, Variable};

/// What is renamed, and its new name.
#[derive(Clone, Copy)]
pub struct Renaming<'a> {
    pub subject: Subject,
    pub name: &'a str,
}

impl Renaming<'_> {
    /// Whether a function is renamed.
    pub(crate) fn is_function(&self, number: usize) -> bool
        ensures { result ≡ is_function self.now.subject number }
    {
        match self.subject {
            Subject::Function { number: g } => g == number,
            Subject::Variable { .. } => false,
        }
    }

    /// Whether a variable of a function is renamed.
    pub(crate) fn is_variable(&self, function: usize, number: usize) -> bool
        ensures { result ≡ is_variable self.now.subject function number }
    {
        match self.subject {
            Subject::Function { .. } => false,
            Subject::Variable {
                function: g,
                number: j,
            } => g == function && j == number,
        }
    }
}

/// Whether two values are the same.
pub(crate) fn same_value(x: Value, y: Value) -> bool
    ensures { IsTrue result → x ≡ y }
{
    x.elem == y.elem && x.bits == y.bits
}

/// Whether two arrays are the same.
pub(crate) fn same_array(x: ArrayVariable, y: ArrayVariable) -> bool
    ensures { IsTrue result → x ≡ y }
{
    x.number == y.number && x.ty == y.ty && x.constant == y.constant
}

/// Whether two functions of the library are the same.
pub(crate) fn same_library(x: Library, y: Library) -> bool
    ensures { IsTrue result → x ≡ y }
{
    x as u8 == y as u8
}

/// Whether two logical operators are the same.
pub(crate) fn same_logic(x: Logic, y: Logic) -> bool
    ensures { IsTrue result → x ≡ y }
{
    x as u8 == y as u8
}

/// Whether two forms of a statement are the same.
pub(crate) fn same_form(x: Form, y: Form) -> bool
    ensures { IsTrue result → x ≡ y }
{
    x as u8 == y as u8
}

/// Whether two jumps are the same.
pub(crate) fn same_jump(x: Jump, y: Jump) -> bool
    ensures { IsTrue result → x ≡ y }
{
    x as u8 == y as u8
}

fn same_holds(x: Holds, y: Holds) -> bool
    ensures { IsTrue result → x ≡ y }
{
    match (x, y) {
        (Holds::Value(t), Holds::Value(u)) => t == u,
        (Holds::Given(d), Holds::Given(e)) => d == e,
        (Holds::Local(t, n), Holds::Local(u, m)) => t == u && n == m,
        _ => false,
    }
}

fn same_variable(x: Variable, y: Variable) -> bool
    ensures { IsTrue result → x ≡ y }
{
    x.constant == y.constant && same_holds(x.holds, y.holds)
}

/// Whether two functions have the same variables.
pub(crate) fn same_variables(xs: &[Variable], ys: &[Variable]) -> bool
    ensures { IsTrue result → xs.now ≡ ys.now }
{
    let mut rest = ys;
    for x in xs {
        let [y, more @ ..] = rest else {
            return false;
        };
        if !same_variable(*x, *y) {
            return false;
        }
        rest = more;
    }
    rest.is_empty()
}
