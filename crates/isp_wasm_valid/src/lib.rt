//! The modules of WebAssembly that code is are valid. No code is run here: a function carries a law in its contract.
#![tactic(auto)]

ghost use Rattle.isp_wasm_valid.specs.Modules.{ModulesValid};

use isp_verify::accepted_code_is_fine;
use isp_wasm::modules_valid;

/// The module of accepted code is valid by chapter 3 of the standard: each function's instructions by their types, one after the
/// other, and all sections.
pub fn modules_are_valid()
    ensures { ModulesValid }
{
    modules_valid();
    accepted_code_is_fine();
}
