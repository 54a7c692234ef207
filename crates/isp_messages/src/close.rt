//! Names that are close to one that is not there.
use std::alloc::{AllocError, Global};
use strsim::levenshtein;

/// The first of the names to which the fewest edits lead from a word, at most a third of its length or one; none where all are farther.
pub fn closest<'a>(
    alloc: Global,
    word: &str,
    names: &[&'a str],
) -> Result<Option<&'a str>, AllocError> {
    let mut found = None;
    let mut least = word.len().max(3) / 3;
    for name in names {
        let edits = levenshtein(alloc, word, name)?;
        if edits < least || (edits == least && found.is_none()) {
            least = edits;
            found = Some(*name);
        }
    }
    Ok(found)
}
