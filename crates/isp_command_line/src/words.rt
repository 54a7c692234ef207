//! The command words, and what they ask for.
use clap::error::ErrorKind;
use clap::{Arg, ArgAction, ArgMatches, Command, Error, value_parser};
use isp_base::Gang;
use std::alloc::{AllocError, Global};

/// A source is compiled for a gang, and an entry run with arguments, for so many instructions at most.
#[derive(Clone, Copy, Debug)]
pub struct RunRequest<'a> {
    pub gang: Gang,
    pub budget: u64,
    pub source: &'a str,
    pub entry: &'a str,
    pub arguments: &'a str,
}

/// A source is compiled for a gang, and its code written.
#[derive(Clone, Copy, Debug)]
pub struct AsmRequest<'a> {
    pub gang: Gang,
    pub source: &'a str,
}

/// Code is read, and an entry run with arguments, for so many instructions at most.
#[derive(Clone, Copy, Debug)]
pub struct ExecRequest<'a> {
    pub budget: u64,
    pub code: &'a str,
    pub entry: &'a str,
    pub arguments: &'a str,
}

/// Each exported function of a source is tried for independence, for a gang.
#[derive(Clone, Copy, Debug)]
pub struct CheckRequest<'a> {
    pub gang: Gang,
    pub source: &'a str,
}

/// An entry of a source is run by each instance of a gang alone, in which a loop makes at most so many turns each time it
/// is entered.
#[derive(Clone, Copy, Debug)]
pub struct SoloRequest<'a> {
    pub gang: Gang,
    pub turns: u64,
    pub source: &'a str,
    pub entry: &'a str,
    pub arguments: &'a str,
}

/// What command words ask for. Sources, code and arguments are names of files.
#[derive(Clone, Copy, Debug)]
pub enum Request<'a> {
    Run(RunRequest<'a>),
    Check(CheckRequest<'a>),
    Solo(SoloRequest<'a>),
    Asm(AsmRequest<'a>),
    Exec(ExecRequest<'a>),
}

/// What the words ask for, or the text that the user is to see.
pub fn read_words<'a>(alloc: Global, words: &'a [String]) -> Result<Request<'a>, Error> {
    let matches = isp(alloc)?.try_get_matches_from(words)?;
    let chosen = match matches.subcommand() {
        Some((name, inner)) => chosen(name, inner),
        None => None,
    };
    match chosen {
        Some(request) => Ok(request),
        None => Err(misfit(alloc)?),
    }
}

// Each subcommand has a request, so this text is never shown.
fn misfit(alloc: Global) -> Result<Error, Error> {
    let mut command = isp(alloc)?;
    Ok(command.error(ErrorKind::InvalidSubcommand, "no such command")?)
}

fn chosen<'a>(name: &str, inner: &ArgMatches<'a>) -> Option<Request<'a>> {
    match name {
        "run" => Some(Request::Run(RunRequest {
            gang: gang_of(inner)?,
            budget: inner.get_one::<u64>("budget")?,
            source: inner.get_str("SOURCE")?,
            entry: inner.get_str("ENTRY")?,
            arguments: inner.get_str("ARGUMENTS")?,
        })),
        "check" => Some(Request::Check(CheckRequest {
            gang: gang_of(inner)?,
            source: inner.get_str("SOURCE")?,
        })),
        "solo" => Some(Request::Solo(SoloRequest {
            gang: gang_of(inner)?,
            turns: inner.get_one::<u64>("turns")?,
            source: inner.get_str("SOURCE")?,
            entry: inner.get_str("ENTRY")?,
            arguments: inner.get_str("ARGUMENTS")?,
        })),
        "asm" => Some(Request::Asm(AsmRequest {
            gang: gang_of(inner)?,
            source: inner.get_str("SOURCE")?,
        })),
        "exec" => Some(Request::Exec(ExecRequest {
            budget: inner.get_one::<u64>("budget")?,
            code: inner.get_str("CODE")?,
            entry: inner.get_str("ENTRY")?,
            arguments: inner.get_str("ARGUMENTS")?,
        })),
        _ => None,
    }
}

// `gang` lists the widths that may be given, and each has its gang.
fn gang_of(inner: &ArgMatches<'_>) -> Option<Gang> {
    Gang::of_width(inner.get_str("gang")?.parse::<usize>().ok()?)
}

/// What `isp --version` and `ispx --version` say after the name: the version, and the commit that these sources stand in but for
/// this line. `tools/release --stamp` writes it.
pub const VERSION: &str = "0.2.0 (3a1f7c4a)";

fn isp<'a>(alloc: Global) -> Result<Command<'a>, Error> {
    let named = Command::new(alloc, "isp")
        .bin_name("isp")?
        .version(VERSION)
        .about("Compiles kernels in the integer part of Intel ISPC, and runs them")
        .subcommand_required(true);
    let compiling = named.subcommand(run(alloc)?)?.subcommand(asm(alloc)?)?;
    let loading = compiling.subcommand(exec(alloc)?)?;
    let checking = loading.subcommand(check(alloc)?)?;
    Ok(checking.subcommand(solo(alloc)?)?)
}

fn run<'a>(alloc: Global) -> Result<Command<'a>, AllocError> {
    let options = Command::new(alloc, "run")
        .about("Compiles SOURCE, and runs ENTRY with ARGUMENTS")
        .arg(gang(alloc))?
        .arg(budget(alloc))?;
    with_files(alloc, options, source(alloc))
}

fn asm<'a>(alloc: Global) -> Result<Command<'a>, AllocError> {
    Command::new(alloc, "asm")
        .about("Compiles SOURCE, and writes its code")
        .arg(gang(alloc))?
        .arg(source(alloc))
}

fn check<'a>(alloc: Global) -> Result<Command<'a>, AllocError> {
    Command::new(alloc, "check")
        .about("Says of each exported function of SOURCE whether its instances are independent")
        .arg(gang(alloc))?
        .arg(source(alloc))
}

fn solo<'a>(alloc: Global) -> Result<Command<'a>, AllocError> {
    let options = Command::new(alloc, "solo")
        .about("Runs ENTRY of SOURCE with ARGUMENTS by each instance alone")
        .arg(gang(alloc))?
        .arg(turns(alloc))?;
    with_files(alloc, options, source(alloc))
}

fn exec<'a>(alloc: Global) -> Result<Command<'a>, AllocError> {
    let options = Command::new(alloc, "exec")
        .about("Reads CODE, and runs ENTRY with ARGUMENTS")
        .arg(budget(alloc))?;
    with_files(alloc, options, code(alloc))
}

// The three names that follow the options.
fn with_files<'a>(
    alloc: Global,
    options: Command<'a>,
    first: Arg<'a>,
) -> Result<Command<'a>, AllocError> {
    options
        .arg(first)?
        .arg(named(alloc, "ENTRY").help("Exported function to call"))?
        .arg(named(alloc, "ARGUMENTS").help("File with the function's arguments, a JSON object"))
}

fn source<'a>(alloc: Global) -> Arg<'a> {
    named(alloc, "SOURCE").help("File with the kernels, text in ISPC")
}

fn code<'a>(alloc: Global) -> Arg<'a> {
    named(alloc, "CODE").help("File with code, as `isp asm` writes it")
}

fn named<'a>(alloc: Global, name: &'a str) -> Arg<'a> {
    Arg::new(alloc, name).required(true).action(ArgAction::Set)
}

fn gang<'a>(alloc: Global) -> Arg<'a> {
    Arg::new(alloc, "gang")
        .long("gang")
        .value_name("G")
        .help("Instances that run together")
        .value_parser(["4", "8", "16", "32"].as_slice())
        .default_value("4")
}

fn turns<'a>(alloc: Global) -> Arg<'a> {
    Arg::new(alloc, "turns")
        .long("turns")
        .value_name("N")
        .help("Turns that a loop may make each time it is entered")
        .value_parser(value_parser!(u64))
        .default_value("1000000")
}

fn budget<'a>(alloc: Global) -> Arg<'a> {
    Arg::new(alloc, "budget")
        .long("budget")
        .value_name("B")
        .help("Instructions that may run")
        .value_parser(value_parser!(u64))
        .default_value("100000000")
}
