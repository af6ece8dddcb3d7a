//! Parses the command line.

ghost use Rattle.std.specs.Prelude.{◌≡◌, List, [], IfOk, IfErr, map, codes, option_map, unwrap_or};
ghost use Rattle.clap.specs.Words.{Rule, all_of, app_of, found_of, rows_of, HasKind};
ghost use Rattle.fq_app_words.specs.Requests.{asking_of, names_of};
ghost use Rattle.fq_app_words.specs.Words.{default_rule, file_rule, flag_rule, number_rule, option_rule, option_rules, output_rules, steps_rule, trimming_app, pairs_app, interleaved_app, program_app, text_in, number_in, flag_in, inputs_in, asking_in, asked_of, words_fault, asked_pairs, IsArg, IsCommand, AreArgs, AskedFor};

use crate::help;
use crate::request::Request;
use clap::{Arg, ArgAction, ArgMatches, Command, Error};
use fq_pair::Inputs;
use std::alloc::{AllocError, Global};

/// The program's version.
pub const VERSION: &str = "2.0.0";

/// What the command line asks for.
#[derive(Drop)]
pub enum Asked<'a> {
    /// To print what becomes of the built-in pairs.
    Example,
    /// To trim pairs.
    Pairs(Request<'a>),
}

/// Parses the arguments, the first of which is the name of the program. An error is what `clap`
/// reports: help or the version that was asked for, what is wrong with the arguments, or that
/// memory was refused.
pub fn read_words<'a>(alloc: Global, words: &'a [&'a str]) -> Result<Asked<'a>, Error>
    ensures ok { IfOk result
        (λ asked. AskedFor (map (λ word. word.now) words.entry.now) (asked_pairs asked)) }
    ensures err { IfErr result (HasKind (words_fault (map (λ word. word.now) words.entry.now))) }
{
    let matches = command(alloc)?.try_get_matches_from(words)?;
    let Some((name, found)) = matches.subcommand() else {
        return Ok(Asked::Example);
    };
    Ok(asked_of(alloc, name, found)?)
}

// What the command with this name asks for.
fn asked_of<'a>(alloc: Global, name: &str, found: &ArgMatches<'a>) -> Result<Asked<'a>, AllocError>
    ensures { IfOk result
        (λ asked. asked_of name.now (rows_of (found_of found.now)) ≡ asked_pairs asked) }
{
    match inputs_of(name, found) {
        Some(inputs) => Ok(Asked::Pairs(request(alloc, found, inputs)?)),
        None => Ok(Asked::Example),
    }
}

// The inputs of a trimming command, or `None` if the command does not trim.
fn inputs_of<'a>(name: &str, found: &ArgMatches<'a>) -> Option<Inputs<'a>>
    ensures { option_map names_of result ≡ inputs_in name.now (rows_of (found_of found.now)) }
{
    match name {
        "PE" => Some(Inputs::Apart {
            forward: text_of(found, "F"),
            reverse: text_of(found, "R"),
        }),
        "IL" => Some(Inputs::Interleaved(text_of(found, "I"))),
        _ => None,
    }
}

// The commands of the program.
fn command<'a>(alloc: Global) -> Result<Command<'a>, AllocError>
    ensures { IfOk result (λ r. app_of r ≡ program_app) }
{
    Command::new(alloc, "fq_prog")
        .about(help::ABOUT)
        .after_help(help::START)
        .subcommand_required(true)
        .version(VERSION)
        .propagate_version(true)
        .subcommand(pairs_command(alloc)?)?
        .subcommand(interleaved_command(alloc)?)?
        .subcommand(
            Command::new(alloc, "EXAMPLE")
                .about(help::ABOUT_EXAMPLE)
                .after_help(help::EXAMPLE),
        )
}

// The command `PE`, which trims the pairs of two files.
fn pairs_command<'a>(alloc: Global) -> Result<Command<'a>, AllocError>
    ensures { IfOk result (IsCommand pairs_app) }
{
    let forward = file(alloc, "F", "Forward reads (FASTQ)");
    let reverse = file(alloc, "R", "Reverse reads (FASTQ), in the same order");
    let inputs = vec![in alloc; forward, reverse]?;
    trimming_command(alloc, "PE", help::ABOUT_PAIRS, help::PAIRS, inputs)
}

// The command `IL`, which trims the pairs of an interleaved file.
fn interleaved_command<'a>(alloc: Global) -> Result<Command<'a>, AllocError>
    ensures { IfOk result (IsCommand interleaved_app) }
{
    let both = file(
        alloc,
        "I",
        "Interleaved reads (FASTQ), a forward read before its reverse mate",
    );
    let inputs = vec![in alloc; both]?;
    trimming_command(
        alloc,
        "IL",
        help::ABOUT_INTERLEAVED,
        help::INTERLEAVED,
        inputs,
    )
}

// A command that trims the pairs of these inputs.
fn trimming_command<'a>(
    alloc: Global,
    name: &'a str,
    about: &'a str,
    more: &'a str,
    inputs: Vec<Arg<'a>>,
) -> Result<Command<'a>, AllocError>
    ensures { IfOk result (λ command. (rules : List Rule) → AreArgs rules inputs.entry.items
        → IsCommand (trimming_app name.entry.now rules) command) }
{
    let options = options(alloc)?;
    let outputs = outputs(alloc)?;
    let start = Command::new(alloc, name).about(about).after_help(more);
    let with_options = start.args(options)?;
    let with_inputs = with_options.args(inputs)?;
    with_inputs.args(outputs)
}

// The options of a trimming command.
fn options<'a>(alloc: Global) -> Result<Vec<Arg<'a>>, AllocError>
    ensures { IfOk result (λ options. AreArgs option_rules options.items) }
{
    let threads = number(alloc, "threads", "4", "Threads that trim, 1 to 64");
    let block = number(
        alloc,
        "block",
        "1024",
        "Pairs trimmed and written at a time,\n1 to 65536",
    );
    let depth = number(
        alloc,
        "depth",
        "4",
        "Blocks that may wait for each thread,\n1 to 64",
    );
    let chunk = number(
        alloc,
        "chunk",
        "65536",
        "Bytes read at a time, 1 to 1048576",
    );
    let encoding = encoding(alloc);
    let log = log(alloc);
    let unchecked = unchecked_names(alloc);
    let sync = sync(alloc);
    let report = report(alloc);
    let explain = explain(alloc);
    Ok(vec![in alloc;
        threads, block, depth, chunk, encoding, log, unchecked, sync, report, explain,
    ]?)
}

// The option `--encoding`: the encoding of the inputs.
fn encoding<'a>(alloc: Global) -> Arg<'a>
    ensures { IsArg (default_rule (codes "encoding") (codes "sanger")) result }
{
    Arg::new(alloc, "encoding")
        .long("encoding")
        .value_name("NAME")
        .default_value("sanger")
        .help(
            "What a quality byte is: sanger (score + 33),\nillumina13 (score + 64) or solexa (Solexa score + 64,\ncounted as the nearest Phred score)",
        )
}

// The option `--trimlog`: the file of the log.
fn log<'a>(alloc: Global) -> Arg<'a>
    ensures { IsArg (option_rule (codes "trimlog")) result }
{
    Arg::new(alloc, "trimlog")
        .long("trimlog")
        .value_name("FILE")
        .help(
            "Writes a line for each read: its name, the bases kept,\nthe bases removed at the start, the end of the kept\npart, and the bases removed at the end\n[default: no log]",
        )
}

// The flag `--no-name-check`.
fn unchecked_names<'a>(alloc: Global) -> Arg<'a>
    ensures { IsArg (flag_rule (codes "no-name-check")) result }
{
    Arg::new(alloc, "no-name-check")
        .long("no-name-check")
        .action(ArgAction::SetTrue)
        .help("Pairs mates whatever their names\n[default: names must match]")
}

// The flag `--sync`.
fn sync<'a>(alloc: Global) -> Arg<'a>
    ensures { IsArg (flag_rule (codes "sync")) result }
{
    Arg::new(alloc, "sync")
        .long("sync")
        .action(ArgAction::SetTrue)
        .help(
            "Waits until the outputs are on disk [default: only on\nnetwork file systems and some others]",
        )
}

// The option `--report`: the file of the report.
fn report<'a>(alloc: Global) -> Arg<'a>
    ensures { IsArg (option_rule (codes "report")) result }
{
    Arg::new(alloc, "report")
        .long("report")
        .value_name("FILE")
        .help("Writes counts of pairs, reads, bases and steps as JSON\n[default: no report]")
}

// The flag `--explain`.
fn explain<'a>(alloc: Global) -> Arg<'a>
    ensures { IsArg (flag_rule (codes "explain")) result }
{
    Arg::new(alloc, "explain")
        .long("explain")
        .action(ArgAction::SetTrue)
        .help("Gives the reason for an error in its line\n[default: no reason]")
}

// An option that takes a number.
fn number<'a>(alloc: Global, id: &'a str, default: &'a str, help: &'a str) -> Arg<'a>
    ensures { IsArg (number_rule id.entry.now default.entry.now) result }
{
    Arg::new(alloc, id)
        .long(id)
        .value_name("N")
        .value_parser(clap::value_parser!(u64))
        .default_value(default)
        .help(help)
}

// The arguments for the output files and the steps.
fn outputs<'a>(alloc: Global) -> Result<Vec<Arg<'a>>, AllocError>
    ensures { IfOk result (λ outputs. AreArgs output_rules outputs.items) }
{
    let forward_paired = file(alloc, "FP", "Output: forward reads whose mate survives too");
    let forward_unpaired = file(alloc, "FU", "Output: forward reads whose mate is dropped");
    let reverse_paired = file(alloc, "RP", "Output: reverse reads whose mate survives too");
    let reverse_unpaired = file(alloc, "RU", "Output: reverse reads whose mate is dropped");
    let steps = steps(alloc);
    Ok(vec![in alloc;
        forward_paired,
        forward_unpaired,
        reverse_paired,
        reverse_unpaired,
        steps,
    ]?)
}

// The argument for the steps.
fn steps<'a>(alloc: Global) -> Arg<'a>
    ensures { IsArg (steps_rule (codes "STEPS")) result }
{
    Arg::new(alloc, "STEPS")
        .num_args(0..)
        .help("1 to 64 steps, as LEADING:3 (see below)")
}

// A required argument that names a file.
fn file<'a>(alloc: Global, id: &'a str, help: &'a str) -> Arg<'a>
    ensures { IsArg (file_rule id.entry.now) result }
{
    Arg::new(alloc, id).required(true).help(help)
}

// The request that the parsed arguments make with these inputs.
fn request<'a>(
    alloc: Global,
    found: &ArgMatches<'a>,
    inputs: Inputs<'a>,
) -> Result<Request<'a>, AllocError>
    ensures { IfOk result (λ request. asking_of request
        ≡ asking_in (names_of inputs.entry) (rows_of (found_of found.now))) }
{
    let encoding = text_of(found, "encoding");
    let threads = number_of(found, "threads");
    let block = number_of(found, "block");
    let depth = number_of(found, "depth");
    let chunk = number_of(found, "chunk");
    let unchecked = flag_of(found, "no-name-check");
    let sync = flag_of(found, "sync");
    let explain = flag_of(found, "explain");
    let forward_paired = text_of(found, "FP");
    let forward_unpaired = text_of(found, "FU");
    let reverse_paired = text_of(found, "RP");
    let reverse_unpaired = text_of(found, "RU");
    let log = found.get_str("trimlog");
    let report = found.get_str("report");
    let steps = steps_of(alloc, found)?;
    Ok(Request {
        encoding,
        threads,
        block,
        depth,
        chunk,
        check_names: !unchecked,
        sync,
        explain,
        inputs,
        forward_paired,
        forward_unpaired,
        reverse_paired,
        reverse_unpaired,
        log,
        report,
        steps,
    })
}

// The arguments that name the steps.
fn steps_of<'a>(alloc: Global, found: &ArgMatches<'a>) -> Result<Vec<&'a str>, AllocError>
    ensures { IfOk result (λ words. map (λ word. word.now) words.items
        ≡ unwrap_or (all_of (codes "STEPS") (rows_of (found_of found.now))) []) }
{
    match found.get_strs("STEPS") {
        Some(words) => Vec::from_slice(alloc, words),
        None => Ok(Vec::new(alloc)),
    }
}

// The text of an argument that always has one: it is required, or it has a default.
fn text_of<'a>(found: &ArgMatches<'a>, id: &str) -> &'a str
    ensures { result.now ≡ text_in (rows_of (found_of found.now)) id.now }
{
    found.get_str(id).unwrap_or("")
}

// The number of an argument that always has one: it has a default, and `clap` refuses any other
// text.
fn number_of(found: &ArgMatches<'_>, id: &str) -> u64
    ensures { result ≡ number_in (rows_of (found_of found.now)) id.now }
{
    found.get_one::<u64>(id).unwrap_or(0)
}

// Whether a flag is given. `clap` writes it as `true` or `false`.
fn flag_of(found: &ArgMatches<'_>, id: &str) -> bool
    ensures { result ≡ flag_in (rows_of (found_of found.now)) id.now }
{
    found.get_one::<bool>(id).unwrap_or(false)
}
