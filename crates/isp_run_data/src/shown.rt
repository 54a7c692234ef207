//! The arrays that the answer shows.
ghost use Rattle.std.specs.Prelude.{◌≡◌, [], ◌∷◌, ◌++◌, map, IfOk, OnOk, if◌then◌else◌};
ghost use Rattle.isp_run_data.specs.Showing.{goes_to_file, is_hidden, name_in, shown};

use isp_base::{Array, Parameter, Signature};
use isp_run_words::read_output;
use isp_typed::{TypedFunction, Variable};
use std::alloc::{AllocError, Global};

/// Array parameters that are shown, and their arrays.
#[derive(Drop)]
pub struct Shown {
    pub signature: Signature,
    pub arrays: Vec<Array>,
}

/// The array parameters of a function that the answer shows, and their arrays, of the arrays of all in their order. `AllocError` where
/// memory is refused.
pub fn shown_of(
    alloc: Global,
    outputs: &[&str],
    function: &TypedFunction,
    arrays: Vec<Array>,
) -> Result<Shown, AllocError>
    ensures params { IfOk result (λ s. s.signature.params.items
        ≡ map (λ x. x.0) (shown outputs.now function.now.signature.params.items function.now.variables.items arrays.items)) }
    ensures arrays { IfOk result (λ s. s.arrays.items
        ≡ map (λ x. x.1) (shown outputs.now function.now.signature.params.items function.now.variables.items arrays.items)) }
{
    let mut shown = Shown::new(alloc);
    let mut variables = function.variables.as_slice();
    let mut left = arrays.into_iter();
    for parameter in &function.signature.params {
        let Some((variable, others)) = variables.split_first() else {
            break;
        };
        variables = others;
        if parameter.is_array {
            let Some(array) = left.next() else {
                break;
            };
            shown.offer(outputs, parameter, variable, array)?;
        }
    }
    Ok(shown)
}

impl Shown {
    fn new(alloc: Global) -> Shown
        ensures params { result.signature.params.items ≡ [] }
        ensures arrays { result.arrays.items ≡ [] }
    {
        Shown {
            signature: Signature {
                params: Vec::new(alloc),
                result: None,
            },
            arrays: Vec::new(alloc),
        }
    }

    // One more parameter and its array, where they are shown.
    fn offer(
        &mut self,
        outputs: &[&str],
        parameter: &Parameter,
        variable: &Variable,
        array: Array,
    ) -> Result<(), AllocError>
        ensures params { OnOk result (self.new.signature.params.items
            ≡ self.old.signature.params.items ++ (if is_hidden outputs.now parameter.now variable.now then [] else parameter.now ∷ [])) }
        ensures arrays { OnOk result (self.new.arrays.items
            ≡ self.old.arrays.items ++ (if is_hidden outputs.now parameter.now variable.now then [] else array ∷ [])) }
    {
        if is_hidden(outputs, parameter, variable) {
            return Ok(());
        }
        self.push(parameter, array)
    }

    // One more parameter, and its array.
    fn push(&mut self, parameter: &Parameter, array: Array) -> Result<(), AllocError>
        ensures params { OnOk result (self.new.signature.params.items ≡ self.old.signature.params.items ++ parameter.now ∷ []) }
        ensures arrays { OnOk result (self.new.arrays.items ≡ self.old.arrays.items ++ array ∷ []) }
    {
        self.signature.params.push(copied(parameter)?)?;
        self.arrays.push(array)?;
        Ok(())
    }
}

// Whether an array goes to a file, or is declared `const`.
fn is_hidden(outputs: &[&str], parameter: &Parameter, variable: &Variable) -> bool
    ensures { result ≡ is_hidden outputs.now parameter.now variable.now }
{
    variable.constant || goes_to_file(outputs, parameter.name.as_str())
}

fn goes_to_file(outputs: &[&str], name: &str) -> bool
    ensures { result ≡ goes_to_file outputs.now name.now }
{
    outputs.iter().any(|word| name_in(*word) == name)
}

// What stands before the first `=`.
#[tactic(auto, using(crate::proofs::Names::name_is, crate::proofs::Names::whole_is))]
fn name_in(word: &str) -> &str
    ensures { result.now ≡ name_in word.now }
{
    match read_output(word) {
        Some((name, _file, _format)) => name,
        None => word,
    }
}

fn copied(parameter: &Parameter) -> Result<Parameter, AllocError>
    ensures { IfOk result (λ p. p ≡ parameter.now) }
{
    Ok(Parameter {
        name: parameter.name.copied()?,
        elem: parameter.elem,
        is_array: parameter.is_array,
    })
}
