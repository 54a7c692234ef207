//! The texts that a request reads.
ghost use Rattle.std.specs.Prelude.{string_bytes, Some, IfOk, IfErr};
ghost use Rattle.isp_engine.specs.Stories.{UnreadOf};

use isp_engine::{Failure, SourceFiles, read_file};
use std::alloc::Global;

/// The texts of the files of a source and of arguments. 6: the first of them that cannot be read. 7: memory was refused.
pub fn read_both<'a, F: SourceFiles>(
    alloc: Global,
    source: &'a str,
    arguments: &'a str,
    files: &F,
) -> Result<(String, String), Failure<'a>>
    ensures source { IfOk result (λ t. F.holds files.now source.now (Some (string_bytes t.0))) }
    ensures json { IfOk result (λ t. F.holds files.now arguments.now (Some (string_bytes t.1))) }
    ensures err { IfErr result (UnreadOf (F.holds files.now) source.now arguments.now) }
{
    let text = read_file(alloc, files, source)?;
    let json = read_file(alloc, files, arguments)?;
    Ok((text, json))
}
