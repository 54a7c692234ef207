//! A register and a mask that only instructions name are not given: the numbers after them are.
ghost use Rattle.isp_typed.specs.Views.{function_of};
ghost use Rattle.isp_tests_lower.specs.Trees.{IsFunction, variables};

use crate::trees::{all_trees, no_function};
use isp_base::{Elem, Rate};
use isp_code::{Instr, MaskInstr, Register, ScalarInstr};
use isp_lower::{Emitter, Line};
use isp_typed::TypedFunction;
use std::alloc::AllocError;
use std::test::Fail;

// The function has scalars 0 to 3 and masks 0 to 2, and its instructions name scalar 7 and mask 5.
fn given_behind(e: &mut Emitter, f: &TypedFunction) -> Result<[usize; 2], AllocError>
    requires { IsFunction variables (function_of f.now) }
{
    e.begin(f)?;
    e.emit(Line::new(Instr::Scalar {
        result: Register::scalar(7),
        instr: ScalarInstr::Constant(0),
    }))?;
    e.emit(Line::new(Instr::Mask {
        result: Register::mask(5),
        instr: MaskInstr::Full,
    }))?;
    let register = e.fresh(Rate::Uniform, Elem::I32)?;
    let mask = e.fresh_mask();
    Ok([register.number as usize, mask.number as usize])
}

#[test]
fn behind_what_code_names(rt: HostRuntime) -> Result<(), Fail> {
    let alloc = rt.alloc();
    let checked = no_function(alloc)?;
    let trees = all_trees(alloc)?;
    let mut e = Emitter::new(alloc, &checked);
    assert_eq!(rt; given_behind(&mut e, &trees.second)?, [8, 6]);
    Ok(())
}
