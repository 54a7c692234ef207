//! What the contracts of `front`, `compile`, `execute`, `run_to`, `execute_bound`, `solo` and of the commands come to together. No code
//! is run here: each function carries a law in its contract.
ghost use Rattle.isp_headline.specs.BoundHeadline.{BoundHeadline};
ghost use Rattle.isp_headline.specs.FromSource.{ByExec, ByRun};
ghost use Rattle.isp_headline.specs.Headline.{Headline};
ghost use Rattle.isp_headline.specs.ModuleHeadline.{ModuleHeadline};
ghost use Rattle.isp_headline.specs.OneProgram.{NoneRefused, OneProgram};
ghost use Rattle.isp_headline.specs.SoloIsRun.{SoloIsRun};

use isp_asm::text_laws;
use isp_engine::SourceFiles;
use isp_wasm::kernels_agree;
use isp_wasm_valid::modules_are_valid;

/// A text is at most one program, and no program is refused.
pub fn one_program()
    ensures one { OneProgram }
    ensures accepted { NoneRefused }
{}

/// For every accepted program and arguments, the machine ends with some arrays, result and output, or traps with some arrays and
/// output, exactly when the gang's meaning does so, and otherwise goes on with the same output so far. Where the program is
/// independent and its instances, run alone, end and touch nothing that another writes, the machine ends with the arrays of its
/// instances run one by one.
pub fn headline()
    ensures { Headline }
{}

/// The same from arguments that are bound already, as bytes or by a caller.
pub fn bound_headline()
    ensures { BoundHeadline }
{}

/// The same of a call in the module of WebAssembly that the code is, which is valid: it returns or traps exactly when the gang's meaning ends
/// or traps, with its arrays, value and output, and otherwise goes on with the same output so far.
pub fn module_headline()
    ensures { ModuleHeadline }
{
    kernels_agree();
    modules_are_valid();
}

/// What `solo` answers is what each run answers that has a budget large enough.
pub fn solo_is_run()
    ensures { SoloIsRun }
{}

/// How `run` of a source ends, and what goes out: as is meant.
pub fn by_run<F: SourceFiles>(files: &F)
    ensures { ByRun (F.holds files.now) }
{}

/// The same of `exec`, where the file of the code holds what `asm` wrote of the source.
pub fn by_exec<F: SourceFiles, G: SourceFiles>(files: &F, later: &G)
    ensures { ByExec (F.holds files.now) (G.holds later.now) }
{
    text_laws();
}
