//! What a routine's header says: its heading, and the types of its registers.
ghost use Rattle.std.specs.Prelude.{◌≡◌, ◌≤◌, ◌<◌, drop, length, map, IfOk};
ghost use Rattle.isp_code.specs.Registers.{class_of, param_elems, same_class};
ghost use Rattle.isp_typed.specs.Views.{function_of};
ghost use Rattle.isp_registers.specs.Growth.{row_of, rows_of};
ghost use Rattle.isp_lower_code.specs.Header.{AreSmall, HeadingFits, elem_held, heading_of, kind_of, local_of, locals_of, params_of, returns_of, scalars_behind, types_of, vectors_behind};
ghost use Rattle.isp_lower.specs.Headings.{heading_in};

use isp_base::{Elem, Name, Parameter, Rate, Ty};
use isp_code::{Class, Local, Param, ParamKind, Returns, Sharing};
use isp_registers::{RegisterRow, Registers};
use isp_typed::{Holds, TypedFunction, Variable};
use std::alloc::{AllocError, Global};

/// What a routine has besides its registers, its masks and its code.
#[derive(Drop)]
pub struct Heading {
    pub name: Name,
    pub exported: bool,
    pub returns: Returns,
    pub params: Vec<Param>,
    pub locals: Vec<Local>,
}

/// The types of a routine's registers after the parameters.
#[derive(Drop)]
pub struct Types {
    pub scalars: Vec<Elem>,
    pub vectors: Vec<Elem>,
}

/// How what a variable holds is passed.
fn kind_of(holds: Holds) -> ParamKind
    ensures { result ≡ kind_of holds }
{
    match holds {
        Holds::Value(ty) => match ty.rate {
            Rate::Uniform => ParamKind::Scalar,
            Rate::Varying => ParamKind::Vector,
        },
        Holds::Given(_) | Holds::Local(_, _) => ParamKind::Array,
    }
}

/// The type of what a variable holds, or of its elements.
fn elem_held(holds: Holds) -> Elem
    ensures { result ≡ elem_held holds }
{
    match holds {
        Holds::Value(ty) | Holds::Local(ty, _) => ty.elem,
        Holds::Given(elem) => elem,
    }
}

/// The parameters: the first variables, by their names.
fn params(
    alloc: Global,
    parameters: &[Parameter],
    variables: &[Variable],
) -> Result<Vec<Param>, AllocError>
    requires { length parameters.now ≤ length variables.now }
    ensures { IfOk result (λ ps. ps.items ≡ params_of parameters.now variables.now) }
{
    let mut params = Vec::new(alloc);
    for (place, parameter) in parameters.iter().enumerate() {
        let holds = variables[place].holds;
        params.push(Param {
            name: parameter.name.copied()?,
            kind: kind_of(holds),
            elem: elem_held(holds),
        })?;
    }
    Ok(params)
}

/// A local array.
fn local_of(ty: Ty, size: usize) -> Local
    requires { size < 4294967296 }
    ensures { result ≡ local_of ty size }
{
    Local {
        sharing: match ty.rate {
            Rate::Uniform => Sharing::Shared,
            Rate::Varying => Sharing::PerInstance,
        },
        elem: ty.elem,
        size: size as u32,
    }
}

/// The local arrays among variables, in their order.
fn locals(alloc: Global, variables: &[Variable]) -> Result<Vec<Local>, AllocError>
    requires { AreSmall variables.now }
    ensures { IfOk result (λ xs. xs.items ≡ locals_of variables.now) }
{
    let mut locals = Vec::new(alloc);
    for variable in variables.iter() {
        if let Holds::Local(ty, size) = variable.holds {
            locals.push(local_of(ty, size))?;
        }
    }
    Ok(locals)
}

/// What a function gives back.
fn returns_of(answer: Option<Ty>) -> Returns
    ensures { result ≡ returns_of answer }
{
    match answer {
        None => Returns::Nothing,
        Some(ty) => match ty.rate {
            Rate::Uniform => Returns::Scalar(ty.elem),
            Rate::Varying => Returns::Vector(ty.elem),
        },
    }
}

/// Whether a parameter is a register of a class.
fn is_of(kind: ParamKind, class: Class) -> bool
    ensures { result ≡ same_class (class_of kind) class }
{
    match kind {
        ParamKind::Scalar => matches!(class, Class::Scalar),
        ParamKind::Vector => matches!(class, Class::Vector),
        ParamKind::Array => matches!(class, Class::Array),
    }
}

/// How many parameters are registers of a class.
fn count_of(params: &[Param], class: Class) -> usize
    ensures { result ≡ length (param_elems class params.now) }
{
    let mut count = 0;
    for param in params.iter() {
        if is_of(param.kind, class) {
            count += 1;
        }
    }
    count
}

/// The types of registers, but for so many first ones.
fn types_behind(alloc: Global, rows: &[RegisterRow], count: usize) -> Result<Vec<Elem>, AllocError>
    ensures { IfOk result (λ ts. ts.items ≡ drop count (types_of (map row_of rows.now))) }
{
    let mut types = Vec::new(alloc);
    for (place, row) in rows.iter().enumerate() {
        if place >= count {
            types.push(row.elem)?;
        }
    }
    Ok(types)
}

/// The heading of a function.
pub fn heading_of(alloc: Global, f: &TypedFunction) -> Result<Heading, AllocError>
    requires { HeadingFits (function_of f.now) }
    ensures { IfOk result (λ h. heading_in h ≡ heading_of (function_of f.now)) }
{
    Ok(Heading {
        name: f.name.copied()?,
        exported: f.exported,
        returns: returns_of(f.result),
        params: params(alloc, f.signature.params.as_slice(), f.variables.as_slice())?,
        locals: locals(alloc, f.variables.as_slice())?,
    })
}

/// The types of registers, of which the parameters are the first of their classes.
pub fn types_of(alloc: Global, registers: &Registers, params: &[Param]) -> Result<Types, AllocError>
    ensures scalars { IfOk result (λ ts. ts.scalars.items ≡ scalars_behind params.now (rows_of registers.now)) }
    ensures vectors { IfOk result (λ ts. ts.vectors.items ≡ vectors_behind params.now (rows_of registers.now)) }
{
    let passed = count_of(params, Class::Scalar);
    let scalars = types_behind(alloc, registers.scalars.as_slice(), passed)?;
    let passed = count_of(params, Class::Vector);
    let vectors = types_behind(alloc, registers.vectors.as_slice(), passed)?;
    Ok(Types { scalars, vectors })
}
