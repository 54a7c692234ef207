//! The code of programs.
ghost use Rattle.std.specs.Prelude.{◌≡◌, ◌<◌, [], IfOk, OnOk};
ghost use Rattle.std.specs.List.{All};
ghost use Rattle.isp_lower.specs.Drafts.{TablesCanBeWritten, all_routines, draft_of};
ghost use Rattle.isp_rates.specs.Accepted.{IsAccepted};
ghost use Rattle.isp_tree.specs.Nodes.{nodes_of_all};
ghost use Rattle.isp_typed.specs.Nodes.{function_nodes};
ghost use Rattle.isp_typed.specs.Views.{functions_of, program_of};
ghost use Rattle.isp_masks.specs.Added.{AreLowered};
ghost use Rattle.isp_masks_code.specs.Lowered.{HasCode, IsFineFunction, IsSmall};

use crate::routine::function;
use isp_code::Code;
use isp_lower::Emitter;
use isp_rates::Checked;
use isp_typed::TypedFunction;
use std::alloc::{AllocError, Global};

/// Writes the routines of functions, in their order, and the places in the source and the texts that they name, of which there are none yet.
fn routines(e: &mut Emitter, functions: &[TypedFunction]) -> Result<(), AllocError>
    requires none { all_routines (draft_of e.old) ≡ [] }
    requires empty { (draft_of e.old).places ≡ [] }
    requires empty_texts { (draft_of e.old).texts ≡ [] }
    requires fine { All IsFineFunction (functions_of functions.now) }
    requires small { All IsSmall (functions_of functions.now) }
    requires few { nodes_of_all function_nodes (functions_of functions.now) < 16777216 }
    ensures gang { OnOk result ((draft_of e.new).gang ≡ (draft_of e.old).gang) }
    ensures tables { OnOk result (TablesCanBeWritten (draft_of e.new)) }
    ensures lowered { OnOk result (AreLowered (draft_of e.old).callees (functions_of functions.now) (all_routines (draft_of e.new)) (draft_of e.new).places (draft_of e.new).texts) }
{
    for f in functions.iter() {
        function(e, f)?;
    }
    Ok(())
}

/// The code of a checked program: a routine for each function, in their order, and the places in the source and the texts that they name.
pub(crate) fn program(alloc: Global, checked: &Checked) -> Result<Code, AllocError>
    ensures accepted { IsAccepted (program_of checked.now) }
    ensures code { IfOk result (λ code. HasCode (program_of checked.now) code) }
{
    let mut e = Emitter::new(alloc, checked);
    routines(&mut e, &checked.program().functions)?;
    e.finish()
}
