//! What the calls come to one after the other. No code is run here: the function carries a law in its contract.
ghost use Rattle.isp_c_laws.specs.FromSource.{FromSource, FromSourceToC};
ghost use Rattle.isp_c_laws.specs.FromSourceToWasm.{FromSourceToWasm};

use isp_asm::text_laws;
use isp_headline::{bound_headline, module_headline};

/// The code text that `isp_compile` wrote, run by `isp_run` from bytes that hold arguments, does what the source means; and what
/// `isp_native` and `isp_wasm` make of it are the C file and the module of code that does so. A call in that module does so too.
pub fn from_source()
    ensures bytes { FromSource }
    ensures file { FromSourceToC }
    ensures module { FromSourceToWasm }
{
    text_laws();
    bound_headline();
    module_headline();
}
