//! Memory refused to the calls of an emitter, at each growth: the same call on the same emitter then gives its number, and
//! the finished code is the same. `finish` takes the emitter, so a new one writes and finishes the code in the same step.
use crate::trees::no_function;
use crate::written::{Call, TEXT, Trial, two_functions};
use isp_asm::write;
use isp_rates::Checked;
use isp_tests_support::{Hoard, Tried, sweep};
use std::alloc::Global;
use std::test::Fail;

// The two functions are written whole, and the call alone has so many bytes.
fn attempted(
    alloc: Global,
    checked: &Checked,
    call: Call,
    hoard: &mut Hoard,
    bytes: usize,
) -> Result<Tried, Fail> {
    let mut trial = Trial::new(call, bytes);
    let code = two_functions(alloc, checked, &mut trial, hoard)?;
    let right = match code {
        Some(code) => !trial.wrong && write(alloc, &code)?.as_str() == TEXT,
        None => false,
    };
    if trial.refused {
        Ok(Tried::failed(right))
    } else {
        Ok(Tried::answered(right))
    }
}

fn swept(alloc: Global, checked: &Checked, name: &str, call: Call) -> Result<(), Fail> {
    sweep(alloc, name, |hoard, bytes| {
        attempted(alloc, checked, call, hoard, bytes)
    })
}

const CALLS: [(&str, Call); 9] = [
    ("begin", Call::Begin),
    ("place", Call::Place),
    ("text", Call::Text),
    ("emit", Call::Emit),
    ("begin again", Call::BeginAgain),
    ("fresh", Call::Fresh),
    ("expr", Call::Expr),
    ("store", Call::Store),
    ("finish", Call::Finish),
];

#[test]
fn memory_refused(rt: HostRuntime) -> Result<(), Fail> {
    let alloc = rt.alloc();
    let checked = no_function(alloc)?;
    for &(name, call) in &CALLS {
        swept(alloc, &checked, name, call)?;
    }
    Ok(())
}
