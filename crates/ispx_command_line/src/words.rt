//! The command words of `ispx`, and what they ask for.
use clap::error::ErrorKind;
use clap::{Arg, ArgAction, ArgMatches, Command, Error, value_parser};
use isp_base::Gang;
use isp_command_line::{RunRequest, VERSION};
use isp_run_words::RunWords;
use std::alloc::{AllocError, Global};

/// An entry that is run, and the name of the file with its arguments.
#[derive(Clone, Copy, Debug)]
pub struct Call<'a> {
    pub entry: &'a str,
    pub arguments: &'a str,
}

/// A source is checked for a gang: all that is wrong with it is shown, or where nothing is what is said of its exports and what is
/// slow, as JSON where that is wanted.
#[derive(Clone, Copy, Debug)]
pub struct CheckRequest<'a> {
    pub gang: Gang,
    pub source: &'a str,
    pub is_json: bool,
}

/// A source is checked, or an entry of it run, for a gang and so many instructions at most; and what goes wrong is explained.
#[derive(Clone, Copy, Debug)]
pub struct ExplainRequest<'a> {
    pub gang: Gang,
    pub budget: u64,
    pub source: &'a str,
    pub call: Option<Call<'a>>,
}

/// Code is written as a C file, or the prototypes of its exported functions: the code of a text, or where there is a gang that
/// of a source.
#[derive(Clone, Copy, Debug)]
pub struct CRequest<'a> {
    pub gang: Option<Gang>,
    pub is_header: bool,
    pub file: &'a str,
}

/// Code is written as a module of WebAssembly: the code of a text, or where there is a gang that of a source.
#[derive(Clone, Copy, Debug)]
pub struct WasmRequest<'a> {
    pub gang: Option<Gang>,
    pub file: &'a str,
}

/// The cases of a source are run, at a gang or where there is none at each, and each for so many instructions at most.
#[derive(Clone, Copy, Debug)]
pub struct TestRequest<'a> {
    pub gang: Option<Gang>,
    pub budget: u64,
    pub source: &'a str,
}

/// An entry of a source is run and its instructions are counted, and by lines of the source too where these are wanted.
#[derive(Clone, Copy, Debug)]
pub struct CountRequest<'a> {
    pub run: RunRequest<'a>,
    pub lines: bool,
}

/// An entry of a source is run, and `count` of its steps from number `from` on are shown; with the lanes that each wrote where
/// these are wanted.
#[derive(Clone, Copy, Debug)]
pub struct TraceRequest<'a> {
    pub run: RunRequest<'a>,
    pub from: u64,
    pub count: u64,
    pub lanes: bool,
}

/// An editor is served, and sources are judged for a gang.
#[derive(Clone, Copy, Debug)]
pub struct LspRequest {
    pub gang: Gang,
}

/// What command words ask for. Sources, code and arguments are names of files.
#[derive(Debug, Drop)]
pub enum Request<'a> {
    Run(RunWords<'a>),
    Test(TestRequest<'a>),
    Check(CheckRequest<'a>),
    Explain(ExplainRequest<'a>),
    Count(CountRequest<'a>),
    Trace(TraceRequest<'a>),
    C(CRequest<'a>),
    Wasm(WasmRequest<'a>),
    Lsp(LspRequest),
}

/// What the words ask for, or the text that the user is to see.
pub fn read_words<'a>(alloc: Global, words: &'a [String]) -> Result<Request<'a>, Error> {
    let matches = ispx(alloc)?.try_get_matches_from(words)?;
    let chosen = match matches.subcommand() {
        Some(("run", inner)) => words_of(alloc, inner)?.map(Request::Run),
        Some((name, inner)) => chosen(name, inner),
        None => None,
    };
    match chosen {
        Some(request) => Ok(request),
        None => Err(misfit(alloc)?),
    }
}

// Each subcommand has a request, so this text is never shown.
fn misfit(alloc: Global) -> Result<Error, Error> {
    let mut command = ispx(alloc)?;
    Ok(command.error(ErrorKind::InvalidSubcommand, "no such command")?)
}

fn chosen<'a>(name: &str, inner: &ArgMatches<'a>) -> Option<Request<'a>> {
    match name {
        "test" => Some(Request::Test(TestRequest {
            gang: gang_of(inner),
            budget: inner.get_one::<u64>("budget").unwrap_or(u64::MAX),
            source: inner.get_str("SOURCE")?,
        })),
        "check" => Some(Request::Check(CheckRequest {
            gang: gang_of(inner)?,
            source: inner.get_str("SOURCE")?,
            is_json: inner.get_flag("json"),
        })),
        "explain" => Some(Request::Explain(ExplainRequest {
            gang: gang_of(inner)?,
            budget: inner.get_one::<u64>("budget")?,
            source: inner.get_str("SOURCE")?,
            call: call_of(inner),
        })),
        "count" => Some(Request::Count(CountRequest {
            run: run_of(inner)?,
            lines: inner.get_flag("lines"),
        })),
        "trace" => trace_of(inner).map(Request::Trace),
        "c" => Some(Request::C(CRequest {
            gang: gang_of(inner),
            is_header: inner.get_flag("header"),
            file: inner.get_str("FILE")?,
        })),
        "wasm" => Some(Request::Wasm(WasmRequest {
            gang: gang_of(inner),
            file: inner.get_str("FILE")?,
        })),
        "lsp" => Some(Request::Lsp(LspRequest {
            gang: gang_of(inner)?,
        })),
        _ => None,
    }
}

fn trace_of<'a>(inner: &ArgMatches<'a>) -> Option<TraceRequest<'a>> {
    Some(TraceRequest {
        run: run_of(inner)?,
        from: inner.get_one::<u64>("from")?,
        count: inner.get_one::<u64>("count")?,
        lanes: inner.get_flag("lanes"),
    })
}

fn words_of<'a>(alloc: Global, inner: &ArgMatches<'a>) -> Result<Option<RunWords<'a>>, AllocError> {
    let values = list_of(alloc, inner, "NAME=VALUE")?;
    let outputs = list_of(alloc, inner, "out")?;
    let (Some(gang), Some(source), Some(entry)) = (
        gang_of(inner),
        inner.get_str("SOURCE"),
        inner.get_str("ENTRY"),
    ) else {
        return Ok(None);
    };
    Ok(Some(RunWords {
        gang,
        budget: inner.get_one::<u64>("budget"),
        source,
        entry,
        values,
        outputs,
        is_json: inner.get_flag("json"),
    }))
}

// The values of an argument, in their order.
fn list_of<'a>(
    alloc: Global,
    inner: &ArgMatches<'a>,
    name: &str,
) -> Result<Vec<&'a str>, AllocError> {
    let mut list = Vec::new(alloc);
    if let Some(values) = inner.get_strs(name) {
        for value in values {
            list.push(*value)?;
        }
    }
    Ok(list)
}

fn run_of<'a>(inner: &ArgMatches<'a>) -> Option<RunRequest<'a>> {
    Some(RunRequest {
        gang: gang_of(inner)?,
        budget: inner.get_one::<u64>("budget")?,
        source: inner.get_str("SOURCE")?,
        entry: inner.get_str("ENTRY")?,
        arguments: inner.get_str("ARGUMENTS")?,
    })
}

fn call_of<'a>(inner: &ArgMatches<'a>) -> Option<Call<'a>> {
    Some(Call {
        entry: inner.get_str("ENTRY")?,
        arguments: inner.get_str("ARGUMENTS")?,
    })
}

// `gang` lists the widths that may be given, and each has its gang.
fn gang_of(inner: &ArgMatches<'_>) -> Option<Gang> {
    Gang::of_width(inner.get_str("gang")?.parse::<usize>().ok()?)
}

fn ispx<'a>(alloc: Global) -> Result<Command<'a>, Error> {
    let named = Command::new(alloc, "ispx")
        .bin_name("ispx")?
        .version(VERSION)
        .about(
            "Runs and tests kernels, explains what is refused, shows what a run does, writes kernels as C and WebAssembly, and serves editors",
        )
        .subcommand_required(true);
    let shown = named
        .subcommand(run_words(alloc)?)?
        .subcommand(test(alloc)?)?
        .subcommand(check(alloc)?)?
        .subcommand(explain(alloc)?)?
        .subcommand(count(alloc)?)?
        .subcommand(trace(alloc)?)?;
    let written = shown.subcommand(c(alloc)?)?.subcommand(wasm(alloc)?)?;
    Ok(written.subcommand(lsp(alloc)?)?)
}

fn run_words<'a>(alloc: Global) -> Result<Command<'a>, AllocError> {
    Command::new(alloc, "run")
        .about("Runs ENTRY of SOURCE with values from the command line and from files")
        .arg(gang(alloc).default_value("16"))?
        .arg(free_budget(alloc))?
        .arg(output(alloc))?
        .arg(json(alloc))?
        .arg(
            named(alloc, "SOURCE")
                .required(true)
                .help("File with the kernels, text in ISPC"),
        )?
        .arg(
            named(alloc, "ENTRY")
                .required(true)
                .help("Exported function to call"),
        )?
        .arg(values(alloc))
}

fn test<'a>(alloc: Global) -> Result<Command<'a>, AllocError> {
    Command::new(alloc, "test")
        .about("Runs the cases of SOURCE.tests, and shows those that differ")
        .arg(gang(alloc).help("Instances that run together; each gang in turn unless given"))?
        .arg(free_budget(alloc))?
        .arg(
            named(alloc, "SOURCE")
                .required(true)
                .help("File with the kernels, text in ISPC"),
        )
}

fn check<'a>(alloc: Global) -> Result<Command<'a>, AllocError> {
    Command::new(alloc, "check")
        .about(
            "Shows all that is wrong with SOURCE, or else which exports are independent and what is slow",
        )
        .arg(gang(alloc).default_value("4"))?
        .arg(json(alloc).help("Writes each message as a line of JSON, for tools"))?
        .arg(
            named(alloc, "SOURCE")
                .required(true)
                .help("File with the kernels, text in ISPC"),
        )
}

fn json<'a>(alloc: Global) -> Arg<'a> {
    Arg::new(alloc, "json")
        .long("json")
        .help("Says what goes wrong as JSON, for tools")
        .action(ArgAction::SetTrue)
}

// The instructions that may run, where that is no number unless one is given.
fn free_budget<'a>(alloc: Global) -> Arg<'a> {
    number(alloc, "budget", "B").help("Instructions that may run; as many as it takes unless given")
}

fn output<'a>(alloc: Global) -> Arg<'a> {
    Arg::new(alloc, "out")
        .long("out")
        .value_name("NAME=FILE")
        .help("Writes an array to a file, by its ending: .json, .npy, .pgm or .ppm")
        .action(ArgAction::Append)
}

fn values<'a>(alloc: Global) -> Arg<'a> {
    Arg::new(alloc, "NAME=VALUE")
        .num_args(0..)
        .help("A number, true, false, [1,2,3], @FILE (.json, .npy, .pgm, .ppm), - or zeros(N*M)")
        .action(ArgAction::Append)
}

fn explain<'a>(alloc: Global) -> Result<Command<'a>, AllocError> {
    Command::new(alloc, "explain")
        .about("Does what `isp check` or `isp run` does, and explains what goes wrong")
        .arg(gang(alloc).default_value("4"))?
        .arg(budget(alloc))?
        .arg(
            named(alloc, "SOURCE")
                .required(true)
                .help("File with the kernels, text in ISPC"),
        )?
        .arg(
            named(alloc, "ENTRY")
                .requires_arg("ARGUMENTS")?
                .help("Exported function to call"),
        )?
        .arg(named(alloc, "ARGUMENTS").help("File with the function's arguments, a JSON object"))
}

fn count<'a>(alloc: Global) -> Result<Command<'a>, AllocError> {
    run(
        alloc,
        "count",
        "Does what `isp run` does, and counts the instructions and the lanes that they use",
    )?
    .arg(
        Arg::new(alloc, "lines")
            .long("lines")
            .help("The accesses, divisions, assertions and calls of each line, too")
            .action(ArgAction::SetTrue),
    )
}

fn trace<'a>(alloc: Global) -> Result<Command<'a>, AllocError> {
    run(
        alloc,
        "trace",
        "Runs a kernel, and shows each step with its masks",
    )?
    .arg(
        number(alloc, "from", "N")
            .help("Number of the first step that is shown")
            .default_value("0"),
    )?
    .arg(
        number(alloc, "count", "M")
            .help("Steps that are shown")
            .default_value("1000"),
    )?
    .arg(
        Arg::new(alloc, "lanes")
            .long("lanes")
            .help("The vector that each step wrote, too")
            .action(ArgAction::SetTrue),
    )
}

// A command that runs an entry, with the words of `isp run`.
fn run<'a>(alloc: Global, name: &'a str, about: &'a str) -> Result<Command<'a>, AllocError> {
    Command::new(alloc, name)
        .about(about)
        .arg(gang(alloc).default_value("4"))?
        .arg(budget(alloc))?
        .arg(
            named(alloc, "SOURCE")
                .required(true)
                .help("File with the kernels, text in ISPC"),
        )?
        .arg(
            named(alloc, "ENTRY")
                .required(true)
                .help("Exported function to call"),
        )?
        .arg(
            named(alloc, "ARGUMENTS")
                .required(true)
                .help("File with the function's arguments, a JSON object"),
        )
}

fn number<'a>(alloc: Global, name: &'a str, value: &'a str) -> Arg<'a> {
    Arg::new(alloc, name)
        .long(name)
        .value_name(value)
        .value_parser(value_parser!(u64))
}

fn c<'a>(alloc: Global) -> Result<Command<'a>, AllocError> {
    Command::new(alloc, "c")
        .about("Writes code as a C file")
        .arg(gang(alloc))?
        .arg(header(alloc))?
        .arg(code_file(alloc))
}

fn wasm<'a>(alloc: Global) -> Result<Command<'a>, AllocError> {
    Command::new(alloc, "wasm")
        .about("Writes code as a WebAssembly module")
        .arg(gang(alloc))?
        .arg(code_file(alloc))
}

fn lsp<'a>(alloc: Global) -> Result<Command<'a>, AllocError> {
    Command::new(alloc, "lsp")
        .about("Serves an editor over standard input and output, by the language server protocol")
        .arg(gang(alloc).default_value("16"))
}

// A file with code, or where there is a gang a source.
fn code_file<'a>(alloc: Global) -> Arg<'a> {
    named(alloc, "FILE").required(true).help(
        "File with code, as `isp asm` writes it, or with `--gang` with kernels",
    )
}

fn named<'a>(alloc: Global, name: &'a str) -> Arg<'a> {
    Arg::new(alloc, name).action(ArgAction::Set)
}

fn header<'a>(alloc: Global) -> Arg<'a> {
    Arg::new(alloc, "header")
        .long("header")
        .help("The prototypes of the exported functions alone")
        .action(ArgAction::SetTrue)
}

fn gang<'a>(alloc: Global) -> Arg<'a> {
    Arg::new(alloc, "gang")
        .long("gang")
        .value_name("G")
        .help("Instances that run together")
        .value_parser(["4", "8", "16", "32"].as_slice())
}

fn budget<'a>(alloc: Global) -> Arg<'a> {
    number(alloc, "budget", "B")
        .help("Instructions that may run")
        .default_value("100000000")
}
