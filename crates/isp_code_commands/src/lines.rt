//! The lines of a source in which the places of its code begin.
ghost use Rattle.std.specs.Prelude.{◌≡◌, suc, count_by, length, map, take, IfOk};
ghost use Rattle.std.specs.List.{range_with_len};
ghost use Rattle.isp_places.specs.Lines.{is_feed};
ghost use Rattle.isp_code_commands.specs.Lines.{AreByLines};

use isp_base::Span;
use isp_traces::Grouping;
use std::alloc::{AllocError, Global};

/// The places of code by the lines of its source in which they begin: group k has those of line k + 1.
pub(crate) fn by_lines(alloc: Global, text: &str, places: &[Span]) -> Result<Grouping, AllocError>
    ensures { IfOk result (AreByLines text.now places.now) }
{
    let feeds = feeds_before(alloc, text.as_bytes())?;
    let last = text.len();
    let mut of_places = Vec::new(alloc);
    for place in places {
        of_places.push(feeds[place.start.min(last)])?;
    }
    Ok(Grouping {
        of_places,
        count: feeds[last] + 1,
    })
}

// How many line feeds there are before each byte of a text, and in all of it.
fn feeds_before(alloc: Global, text: &[u8]) -> Result<Vec<usize>, AllocError>
    ensures { IfOk result (λ v. v.items ≡ map (λ k. count_by is_feed (take k text.now)) (range_with_len 0 (suc (length text.now)))) }
{
    let mut feeds = Vec::new(alloc);
    let mut count = 0;
    feeds.push(count)?;
    for byte in text {
        if *byte == b'\n' {
            count += 1;
        }
        feeds.push(count)?;
    }
    Ok(feeds)
}
