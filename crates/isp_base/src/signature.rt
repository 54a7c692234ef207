//! What an exported function takes and gives, and what is handed to it.
ghost use Rattle.std.specs.Prelude.{◌≡◌};

use crate::array::Array;
use crate::name::Name;
use crate::types::{Elem, Value};

/// One parameter of an exported function: a value, or an array by reference.
#[derive(Debug, Drop)]
pub struct Parameter {
    pub name: Name,
    pub elem: Elem,
    pub is_array: bool,
}

/// The parameters in their order, and the type of the result, if there is one.
#[derive(Debug, Drop)]
pub struct Signature {
    pub params: Vec<Parameter>,
    pub result: Option<Elem>,
}

/// What stands for one parameter.
#[derive(Debug, Drop)]
pub enum Argument {
    Value(Value),
    Array(Array),
}

/// One argument for each parameter.
#[derive(Debug, Drop)]
pub struct Bound {
    pub arguments: Vec<Argument>,
}

impl Argument {
    ghost use Rattle.isp_base.specs.Arguments.{IsShort};
    ghost use Rattle.isp_base.specs.Binding.{is_for};

    /// What every argument promises: an int64 can name each element of an array.
    pub fn told(&self)
        ensures { IsShort self.now }
    {
        if let Argument::Array(array) = self {
            array.told();
        }
    }

    /// Whether kind and element type are those of the parameter.
    pub fn is_for(&self, parameter: &Parameter) -> bool
        ensures { result ≡ is_for parameter.now self.now }
    {
        match self {
            Argument::Value(value) => !parameter.is_array && value.elem == parameter.elem,
            Argument::Array(array) => parameter.is_array && array.elem() == parameter.elem,
        }
    }
}

impl Bound {
    ghost use Rattle.isp_base.specs.Arguments.{AreShort};
    ghost use Rattle.isp_base.specs.Binding.{has_signature};

    /// What all bound arguments promise: an int64 can name each element of each array.
    pub fn told(&self)
        ensures { AreShort self.now.arguments.items }
    {
        for argument in &self.arguments {
            argument.told();
        }
    }

    /// Whether there is one argument for each parameter, in order, of its kind and element type.
    pub fn has_signature(&self, signature: &Signature) -> bool
        ensures { result ≡ has_signature signature.now.params.items self.now.arguments.items }
    {
        if self.arguments.len() != signature.params.len() {
            return false;
        }
        for (place, parameter) in signature.params.iter().enumerate() {
            if !self.arguments[place].is_for(parameter) {
                return false;
            }
        }
        true
    }
}
