//! The running call: what its variables are, and what stays during it.

ghost use Rattle.std.specs.Prelude.{◌≡◌};
ghost use Rattle.isp_meaning.specs.State.{extent};
ghost use Rattle.isp_gang_values.specs.Growing.{values_of};
ghost use Rattle.isp_gang_run.specs.Seen.{answer_in, frame_seen, sizes_in};

use isp_base::{Rate, Ty};
use isp_gang_values::row::Lanes;
use isp_typed::{ArrayVariable, Holds, TypedFunction};

/// A call: its function (none where the run begins), the store that each of its array variables is, how
/// many elements each open store has, its variables, its own arrays, and what the last `return` gave.
#[derive(Drop)]
pub struct Activation<'a> {
    pub function: Option<&'a TypedFunction>,
    pub named: Vec<usize>,
    pub sizes: Vec<usize>,
    pub uniforms: Vec<u64>,
    pub varying: Vec<Lanes>,
    pub own: Vec<Vec<Lanes>>,
    pub result: u64,
    pub results: Lanes,
}

impl Activation<'_> {
    /// The store that an array variable is.
    pub fn store(&self, variable: usize) -> usize
        ensures { result ≡ (frame_seen self.now).named variable }
    {
        if variable < self.named.len() {
            self.named[variable]
        } else {
            self.sizes.len()
        }
    }

    /// How many elements an array has.
    pub fn extent(&self, array: ArrayVariable) -> usize
        ensures { result ≡ extent (frame_seen self.now) array }
    {
        match array.ty.rate {
            Rate::Uniform => self.size(self.store(array.number)),
            Rate::Varying => self.own_size(array.number),
        }
    }

    // How many elements a store has.
    fn size(&self, store: usize) -> usize
        ensures { result ≡ values_of self.now.sizes.items store }
    {
        if store < self.sizes.len() {
            self.sizes[store]
        } else {
            0
        }
    }

    // How many elements an array has of which each instance has its own.
    fn own_size(&self, variable: usize) -> usize
        ensures { result ≡ sizes_in self.now.function variable }
    {
        let Some(function) = self.function else {
            return 0;
        };
        match function.variables.get(variable) {
            Some(variable) => match variable.holds {
                Holds::Local(_, count) => count,
                Holds::Value(_) | Holds::Given(_) => 0,
            },
            None => 0,
        }
    }

    /// The type of the result.
    pub fn answer(&self) -> Option<Ty>
        ensures { result ≡ answer_in self.now.function }
    {
        match self.function {
            Some(function) => function.result,
            None => None,
        }
    }
}
