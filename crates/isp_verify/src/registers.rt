//! The registers of a function, by class.
ghost use Rattle.std.specs.Prelude.{◌≡◌, ◌++◌, map, IfOk, OnOk};
ghost use Rattle.isp_code.specs.Listing.{routine_of};
ghost use Rattle.isp_code.specs.Registers.{table_of, param_elems, count_in, elem_in, class_of, same_class, local_elem};

use isp_base::Elem;
use isp_code::{Class, Function, Local, Param, ParamKind, Register};
use std::alloc::{AllocError, Global};
use std::marker::Model;

/// The element types of the registers of each class, the parameters first, and the number of masks.
#[derive(Drop)]
pub struct Registers {
    scalars: Vec<Elem>,
    vectors: Vec<Elem>,
    arrays: Vec<Elem>,
    passed: usize,
    masks: u32,
}

impl Model for Registers {
    ghost use Rattle.isp_code.specs.Registers.{Table};

    ghost Value = { Table };

    ghost view = { λ r. record { scalars = r.scalars.items; vectors = r.vectors.items; arrays = r.arrays.items; passed = r.passed; masks = r.masks } };
}

/// The class of the register that a parameter is.
pub(crate) fn class_of(kind: ParamKind) -> Class
    ensures { result ≡ class_of kind }
{
    match kind {
        ParamKind::Scalar => Class::Scalar,
        ParamKind::Vector => Class::Vector,
        ParamKind::Array => Class::Array,
    }
}

/// Whether two classes are one.
pub(crate) fn same_class(a: Class, b: Class) -> bool
    ensures { result ≡ same_class a b }
{
    a == b
}

// The types of the parameters of a class, in order.
fn param_elems(alloc: Global, class: Class, params: &[Param]) -> Result<Vec<Elem>, AllocError>
    ensures { IfOk result (λ v. v.items ≡ param_elems class params.now) }
{
    let mut elems = Vec::new(alloc);
    for param in params {
        if same_class(class_of(param.kind), class) {
            elems.push(param.elem)?;
        }
    }
    Ok(elems)
}

// The types of the local arrays after those of the parameters.
fn push_locals(arrays: &mut Vec<Elem>, locals: &[Local]) -> Result<(), AllocError>
    ensures { OnOk result (arrays.new.items ≡ arrays.old.items ++ map local_elem locals.now) }
{
    for local in locals {
        arrays.push(local.elem)?;
    }
    Ok(())
}

impl Registers {
    /// The registers of a function.
    pub(crate) fn new(alloc: Global, function: &Function) -> Result<Registers, AllocError>
        ensures { IfOk result (λ r. r ≡ table_of (routine_of function.now)) }
    {
        let mut scalars = param_elems(alloc, Class::Scalar, &function.params)?;
        scalars.extend_from_slice(&function.scalars)?;
        let mut vectors = param_elems(alloc, Class::Vector, &function.params)?;
        vectors.extend_from_slice(&function.vectors)?;
        let mut arrays = param_elems(alloc, Class::Array, &function.params)?;
        let passed = arrays.len();
        push_locals(&mut arrays, &function.locals)?;
        Ok(Registers {
            scalars,
            vectors,
            arrays,
            passed,
            masks: function.masks,
        })
    }

    /// The types of the scalar registers.
    pub fn scalars(&self) -> &[Elem]
        ensures { result.now ≡ self.now.scalars }
    {
        self.scalars.as_slice()
    }

    /// The types of the vector registers.
    pub fn vectors(&self) -> &[Elem]
        ensures { result.now ≡ self.now.vectors }
    {
        self.vectors.as_slice()
    }

    /// The types of the arrays.
    pub fn arrays(&self) -> &[Elem]
        ensures { result.now ≡ self.now.arrays }
    {
        self.arrays.as_slice()
    }

    /// How many arrays are parameters.
    pub fn passed(&self) -> usize
        ensures { result ≡ self.now.passed }
    {
        self.passed
    }

    /// How many mask registers there are.
    pub fn masks(&self) -> u32
        ensures { result ≡ self.now.masks }
    {
        self.masks
    }

    /// How many registers of a class there are.
    pub(crate) fn count(&self, class: Class) -> usize
        ensures { result ≡ count_in self.now class }
    {
        match class {
            Class::Scalar => self.scalars.len(),
            Class::Vector => self.vectors.len(),
            Class::Array => self.arrays.len(),
            Class::Mask => self.masks as usize,
        }
    }

    /// The element type of a register, `bool` where there is none.
    pub(crate) fn elem(&self, register: Register) -> Elem
        ensures { result ≡ elem_in self.now register }
    {
        let place = register.number as usize;
        let elem = match register.class {
            Class::Scalar => self.scalars.get(place),
            Class::Vector => self.vectors.get(place),
            Class::Array => self.arrays.get(place),
            Class::Mask => None,
        };
        match elem {
            Some(elem) => *elem,
            None => Elem::Bool,
        }
    }
}

/// The registers of each function.
pub(crate) fn registers_of(
    alloc: Global,
    functions: &[Function],
) -> Result<Vec<Registers>, AllocError>
    ensures { IfOk result (λ v. v.items ≡ map table_of (map routine_of functions.now)) }
{
    let mut all = Vec::new(alloc);
    for function in functions {
        all.push(Registers::new(alloc, function)?)?;
    }
    Ok(all)
}
