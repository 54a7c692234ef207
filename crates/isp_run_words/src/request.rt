//! What the words of a run ask for.
use isp_base::Gang;

/// An entry of a source is run with what words give, for so many instructions at most where they name a number.
#[derive(Debug, Drop)]
pub struct RunWords<'a> {
    pub gang: Gang,
    /// Nothing where the run may take as many instructions as it needs.
    pub budget: Option<u64>,
    pub source: &'a str,
    pub entry: &'a str,
    /// `NAME=VALUE` each, or a file with all arguments.
    pub values: Vec<&'a str>,
    /// `NAME=FILE` each: an array, and the file that it is written to.
    pub outputs: Vec<&'a str>,
    /// What goes wrong is said as JSON.
    pub is_json: bool,
}
