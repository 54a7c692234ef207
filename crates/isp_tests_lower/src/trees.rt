//! What is written: two functions, of which the second has an expression and an assignment.
ghost use Rattle.std.specs.Prelude.{◌≡◌, true, IfOk, string_bytes};
ghost use Rattle.isp_base.specs.declared.types.Rate.TheVariants.{Uniform};
ghost use Rattle.isp_code.specs.Writable.{name_fits};
ghost use Rattle.isp_typed.specs.Typed.{t_binary, t_place, t_variable};
ghost use Rattle.isp_typed.specs.Views.{expr_of, function_of, place_of, simple_of};
ghost use Rattle.isp_tests_lower.specs.Trees as tree;
ghost use Rattle.isp_tests_lower.specs.Trees.{AreTrees, IsFunction};

use isp_base::{BinOp, Elem, Gang, Name, Rate, Signature, Span, Ty, Value};
use isp_lex::SourceFault;
use isp_rates::{Checked, check};
use isp_typed::{
    ArrayVariable, Holds, Program, Typed, TypedBlock, TypedExpr, TypedFunction, TypedPlace,
    TypedSimple, Variable,
};
use std::alloc::{AllocError, Global};

const READ: Span = Span { start: 51, end: 66 };

const WRITTEN: Span = Span { start: 33, end: 48 };

// A program of a gang of 8, without functions.
pub(crate) fn no_function(alloc: Global) -> Result<Checked, SourceFault> {
    let program = Program {
        gang: Gang::W8,
        functions: Vec::new(alloc),
    };
    check(alloc, Typed::new(program))
}

// `int32`, one for the gang or one in each instance.
fn int(rate: Rate) -> Ty
    ensures { result ≡ tree.int rate }
{
    Ty {
        rate,
        elem: Elem::I32,
    }
}

// `uniform int x;`.
fn value() -> Variable
    ensures { result ≡ tree.value }
{
    Variable {
        holds: Holds::Value(int(Rate::Uniform)),
        constant: false,
    }
}

// `uniform int a[8]; uniform int x, y, z, w;`.
fn variables() -> [Variable; 5]
    ensures { result ≡ tree.variables }
{
    let array = Variable {
        holds: Holds::Local(int(Rate::Uniform), 8),
        constant: false,
    };
    [array, value(), value(), value(), value()]
}

// An exported function without parameters, that gives nothing back.
fn function(alloc: Global, name: &str, variables: &[Variable]) -> Result<TypedFunction, AllocError>
    requires { name_fits name.now ≡ true }
    ensures { IfOk result (λ f. IsFunction variables.now (function_of f)) }
{
    Ok(TypedFunction {
        name: Name::new(String::from_str(alloc, name)?),
        span: READ,
        exported: true,
        signature: Signature {
            params: Vec::new(alloc),
            result: None,
        },
        params: Vec::new(alloc),
        result: None,
        variables: Vec::from_slice(alloc, variables)?,
        body: TypedBlock {
            statements: Vec::new(alloc),
            span: READ,
        },
    })
}

fn number(bits: u64) -> TypedExpr
    ensures { expr_of result ≡ tree.number bits }
{
    TypedExpr::Constant {
        value: Value {
            elem: Elem::I32,
            bits,
        },
        span: READ,
    }
}

// `x`, the second variable.
fn variable() -> TypedExpr
    ensures { expr_of result ≡ t_place (t_variable 1 (tree.int Uniform) tree.read) }
{
    TypedExpr::Place(TypedPlace::Variable {
        number: 1,
        ty: int(Rate::Uniform),
        span: READ,
    })
}

// `a[programIndex]` of the first variable.
fn element(alloc: Global, span: Span) -> Result<TypedPlace, AllocError>
    ensures { IfOk result (λ z. place_of z ≡ tree.element span) }
{
    Ok(TypedPlace::Element {
        array: ArrayVariable {
            number: 0,
            ty: int(Rate::Uniform),
            constant: false,
        },
        index: Box::new(alloc, TypedExpr::ProgramIndex { span })?,
        ty: int(Rate::Varying),
        span,
    })
}

fn binary(
    alloc: Global,
    operator: BinOp,
    left: TypedExpr,
    right: TypedExpr,
    rate: Rate,
) -> Result<TypedExpr, AllocError>
    ensures { IfOk result (λ x. expr_of x ≡ t_binary operator (expr_of left) (expr_of right) (tree.int rate) tree.read) }
{
    Ok(TypedExpr::Binary {
        operator,
        left: Box::new(alloc, left)?,
        right: Box::new(alloc, right)?,
        ty: int(rate),
        span: READ,
    })
}

// `x + 1`.
fn sum(alloc: Global) -> Result<TypedExpr, AllocError>
    ensures { IfOk result (λ x. expr_of x ≡ tree.sum) }
{
    binary(alloc, BinOp::Add, variable(), number(1), Rate::Uniform)
}

// `a[programIndex] = a[programIndex] * 2 + 1`.
fn assignment(alloc: Global) -> Result<TypedSimple, AllocError>
    ensures { IfOk result (λ s. simple_of s ≡ tree.assignment) }
{
    let read = TypedExpr::Place(element(alloc, READ)?);
    let doubled = binary(alloc, BinOp::Mul, read, number(2), Rate::Varying)?;
    Ok(TypedSimple::Assign {
        target: element(alloc, WRITTEN)?,
        value: binary(alloc, BinOp::Add, doubled, number(1), Rate::Varying)?,
        span: WRITTEN,
    })
}

/// Two functions, and what is written in the second.
#[derive(Drop)]
pub(crate) struct Trees {
    pub first: TypedFunction,
    pub second: TypedFunction,
    pub sum: TypedExpr,
    pub assignment: TypedSimple,
}

pub(crate) fn all_trees(alloc: Global) -> Result<Trees, AllocError>
    ensures { IfOk result (λ t. AreTrees (function_of t.first) (function_of t.second) (expr_of t.sum) (simple_of t.assignment)) }
{
    Ok(Trees {
        first: function(alloc, "f", &[value()])?,
        second: function(alloc, "g", variables().as_slice())?,
        sum: sum(alloc)?,
        assignment: assignment(alloc)?,
    })
}
