//! What the runs of the instances so far come to, taken together.
ghost use Rattle.std.specs.Prelude.{◌≡◌, ℕ, IfOk, OnOk};
ghost use Rattle.std.specs.List.{All};
ghost use Rattle.isp_base.specs.Arguments.{rows};
ghost use Rattle.isp_base.specs.Rows.{Fit};
ghost use Rattle.isp_solo_meaning.specs.Answers.{Answer};
ghost use Rattle.isp_solo.specs.Together.{Adds, AreTogether};

use crate::left::{copies, store_run};
use crate::touched::{Touched, join_run};
use isp_base::{Argument, Array};
use isp_solo_run::running::Run;
use std::alloc::{AllocError, Global};

/// How the elements were touched, the arrays that the runs leave, and what instance 0 gave.
#[derive(Drop)]
pub struct Together {
    pub touched: Vec<Touched>,
    pub arrays: Vec<Array>,
    pub given: u64,
}

impl Together {
    /// Before the first run.
    pub fn new(alloc: Global, arguments: &[Argument]) -> Result<Together, AllocError>
        ensures none { IfOk result (λ t. (run : ℕ → Answer ℕ) → AreTogether run (rows arguments.now) 0 t) }
        ensures fits { IfOk result (λ t. All (λ r. Fit r.elem r.bits) (rows arguments.now)) }
    {
        Ok(Together {
            touched: Vec::new(alloc),
            arrays: copies(alloc, arguments)?,
            given: 0,
        })
    }

    /// After the run of one more instance, which gave a value.
    pub fn add(
        &mut self,
        alloc: Global,
        run: &Run,
        instance: usize,
        value: u64,
    ) -> Result<(), AllocError>
        ensures { OnOk result (Adds run.now instance value self.old self.new) }
    {
        join_run(alloc, &mut self.touched, &run.arrays, instance)?;
        store_run(self.arrays.as_mut_slice(), &run.arrays);
        self.given = first_given(instance, value, self.given);
        Ok(())
    }
}

// What instance 0 gave.
fn first_given(instance: usize, value: u64, before: u64) -> u64
    ensures first { instance ≡ 0 → result ≡ value }
    ensures later { (instance ≡ 0 → ⊥) → result ≡ before }
{
    if instance == 0 { value } else { before }
}
