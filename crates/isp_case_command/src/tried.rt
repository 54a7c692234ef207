//! Cases, each run at each gang.
ghost use Rattle.std.specs.Prelude.{◌≡◌, ◌++◌, ℕ, List, map, All, IfErr, IfOk, OnOk};
ghost use Rattle.isp_runs.specs.Compilation.{IsCompilation};
ghost use Rattle.isp_case_command.specs.Testing.{AreTried, IsRefused, IsTried, IsUncompiled, beside, gangs_of, place_of};

use crate::stop::TestStop;
use crate::verdict::judge;
use isp_base::Gang;
use isp_case_files::{Case, Verdict};
use isp_engine::{Image, compile};
use isp_lex::SourceFault;
use std::alloc::{AllocError, Global};

/// A case that was run at a gang.
#[derive(Drop)]
pub(crate) struct Tried<'c, 'v> {
    pub(crate) gang: Gang,
    pub(crate) case: &'c Case<'v>,
    pub(crate) verdict: Verdict,
}

/// The code of a source for a gang.
#[derive(Drop)]
struct Kernel {
    gang: Gang,
    image: Image,
}

/// The gangs at which cases are run: the one that is asked for, or all.
pub(crate) fn gangs(alloc: Global, asked: Option<Gang>) -> Result<Vec<Gang>, AllocError>
    ensures { IfOk result (λ v. v.items ≡ gangs_of asked) }
{
    match asked {
        Some(gang) => Vec::from_slice(alloc, &[gang]),
        None => Vec::from_slice(alloc, &[Gang::W4, Gang::W8, Gang::W16, Gang::W32]),
    }
}

/// Runs each case of a source at each gang, the first gang first.
pub(crate) fn try_gangs<'c, 'v>(
    alloc: Global,
    text: &str,
    gangs: &[Gang],
    cases: &'c [Case<'v>],
    budget: u64,
) -> Result<Vec<Tried<'c, 'v>>, TestStop>
    ensures ok { IfOk result (λ v. AreTried text.now gangs.now cases.now budget v.items) }
    ensures err { IfErr result (IsUncompiled gangs.now text.now) }
{
    let mut tried = Vec::new(alloc);
    for gang in gangs {
        let kernel = kernel_of(alloc, text, *gang)?;
        try_cases(alloc, &kernel, cases, budget, &mut tried)?;
    }
    Ok(tried)
}

// The code of a source.
fn kernel_of(alloc: Global, text: &str, gang: Gang) -> Result<Kernel, TestStop>
    ensures gang { IfOk result (λ k. k.gang ≡ gang) }
    ensures image { IfOk result (λ k. IsCompilation gang text.now k.image) }
    ensures err { IfErr result (IsRefused gang text.now) }
{
    match compile(alloc, text, gang) {
        Ok(image) => Ok(Kernel { gang, image }),
        Err(SourceFault::Memory) => Err(TestStop::Memory),
        Err(SourceFault::Refused(fault)) => Err(TestStop::Source(fault)),
    }
}

// Runs each case at the gang of a kernel, and puts them after those that were tried before.
fn try_cases<'c, 'v>(
    alloc: Global,
    kernel: &Kernel,
    cases: &'c [Case<'v>],
    budget: u64,
    tried: &mut Vec<Tried<'c, 'v>>,
) -> Result<(), AllocError>
    ensures order { OnOk result (map place_of tried.new.items ≡ map place_of tried.old.items ++ map (beside kernel.now.gang) cases.now) }
    ensures tried { OnOk result ((text : List ℕ) → IsCompilation kernel.now.gang text kernel.now.image
        → All (IsTried text budget) tried.old.items → All (IsTried text budget) tried.new.items) }
{
    for case in cases {
        let one = try_case(alloc, kernel, case, budget)?;
        tried.push(one)?;
    }
    Ok(())
}

fn try_case<'c, 'v>(
    alloc: Global,
    kernel: &Kernel,
    case: &'c Case<'v>,
    budget: u64,
) -> Result<Tried<'c, 'v>, AllocError>
    ensures place { IfOk result (λ t. place_of t ≡ beside kernel.now.gang case.now) }
    ensures tried { IfOk result (λ t. (text : List ℕ) → IsCompilation kernel.now.gang text kernel.now.image → IsTried text budget t) }
{
    let verdict = judge(alloc, &kernel.image, case, budget)?;
    Ok(Tried {
        gang: kernel.gang,
        case,
        verdict,
    })
}
