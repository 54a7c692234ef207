//! What `ispx run` says on standard error.
ghost use Rattle.std.specs.Prelude.{◌≡◌};
ghost use Rattle.isp_run_stops.specs.Stopping.{end_status};

use crate::output::tell;
use isp_engine::{Sink, front};
use isp_lex::SourceFault;
use isp_rates::Checked;
use isp_run_stops::{Exports, RunStop, stop_text};
use isp_run_words::RunWords;
use std::alloc::{AllocError, Global};

/// Says why a run does not end well, and answers the exit status.
pub(crate) fn say<E: Sink>(
    alloc: Global,
    request: &RunWords<'_>,
    text: &str,
    end: &Result<(), RunStop<'_>>,
    err: &mut E,
) -> u8
    ensures { result ≡ end_status end.now }
{
    match end {
        Ok(()) => 0,
        Err(stop) => {
            tell(told(alloc, request, text, stop), err);
            stop.status()
        }
    }
}

fn told(
    alloc: Global,
    request: &RunWords<'_>,
    text: &str,
    stop: &RunStop<'_>,
) -> Result<String, AllocError> {
    if !matches!(stop, RunStop::NoEntry | RunStop::NotGiven { .. }) {
        return stop_text(alloc, request, text, &nothing(alloc), stop);
    }
    match front(alloc, text, request.gang) {
        Ok(checked) => {
            let exports = exports(alloc, &checked, request.entry)?;
            stop_text(alloc, request, text, &exports, stop)
        }
        Err(SourceFault::Memory) => Err(AllocError),
        Err(SourceFault::Refused(_fault)) => {
            stop_text(alloc, request, text, &nothing(alloc), stop)
        }
    }
}

fn nothing<'c>(alloc: Global) -> Exports<'c> {
    Exports {
        names: Vec::new(alloc),
        signature: None,
    }
}

fn exports<'c>(
    alloc: Global,
    checked: &'c Checked,
    entry: &str,
) -> Result<Exports<'c>, AllocError> {
    let mut names = Vec::new(alloc);
    for k in 0..checked.exports().len() {
        if let Some(name) = checked.export(k) {
            names.push(name)?;
        }
    }
    Ok(Exports {
        names,
        signature: checked.signature(entry),
    })
}
