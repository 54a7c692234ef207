//! The forms of all instructions of some code.
ghost use Rattle.std.specs.Prelude.{◌≡◌, [], slice_index_or};
ghost use Rattle.isp_forms.specs.Tables.{lists_of};

use crate::form::Form;

/// The forms of the instructions of each function, in order; an instruction that has none here is kept.
#[derive(Drop)]
pub struct FormTable {
    pub functions: Vec<Vec<Form>>,
}

impl FormTable {
    /// Those of a function, by number.
    pub fn of(&self, function: usize) -> &[Form]
        ensures { result.now ≡ slice_index_or (lists_of self.now) function [] }
    {
        match self.functions.get(function) {
            Some(forms) => forms.as_slice(),
            None => &[],
        }
    }
}
