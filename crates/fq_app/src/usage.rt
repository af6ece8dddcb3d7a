//! What is printed about arguments that don't parse, and help and the version.

ghost use Rattle.std.specs.Prelude.{◌≡◌, ℕ, List, IfOk};
ghost use Rattle.std.specs.String.{string_bytes};
ghost use Rattle.fq_text.specs.Written.{line};

use clap::Error;
use clap::error::ErrorKind;
use fq_text::OutOfMemory;
use std::alloc::{AllocError, Global};

// The commands, below an error about one that isn't there.
const COMMANDS: &str = "
Commands: PE (reads in two files), IL (in one interleaved file), EXAMPLE (a small run)
";

/// Returns the help, the version, or what is wrong with these arguments: one line or more, whatever
/// these are.
pub(crate) fn usage_lines(
    alloc: Global,
    error: &Error,
    words: &[&str],
) -> Result<String, OutOfMemory>
    ensures { IfOk result (λ text. (lines : List ℕ) × (string_bytes text ≡ line lines)) }
{
    let text = usage_text(alloc, error, words)?;
    let lines = text.strip_suffix('\n').unwrap_or(text.as_str());
    format!(in alloc; "{lines}\n")
}

// The text of an error about these arguments. A long option with one hyphen, as Trimmomatic and
// others write it, is answered with the option that is meant.
fn usage_text(alloc: Global, error: &Error, words: &[&str]) -> Result<String, AllocError> {
    if error.kind() == ErrorKind::UnknownArgument {
        for word in words {
            if let Some(meant) = meant_by(word) {
                return meant_text(alloc, word, meant);
            }
        }
    }
    if error.kind() == ErrorKind::InvalidSubcommand {
        return format!(in alloc; "{error}{COMMANDS}");
    }
    format!(in alloc; "{error}")
}

// That the word is no option, and what is meant by it.
fn meant_text(alloc: Global, word: &str, meant: &str) -> Result<String, AllocError> {
    format!(in alloc;
        "error: '{word}' is not an option; use '{meant}'\n\nFor more information, try '--help'.\n"
    )
}

// The option that is meant by a word with one hyphen.
fn meant_by(word: &str) -> Option<&'static str> {
    match word {
        "-phred33" => Some("--encoding sanger"),
        "-phred64" => Some("--encoding illumina13"),
        "-threads" => Some("--threads"),
        "-trimlog" | "-log" => Some("--trimlog"),
        "-report" => Some("--report"),
        "-encoding" => Some("--encoding"),
        "-block" => Some("--block"),
        "-depth" => Some("--depth"),
        "-chunk" => Some("--chunk"),
        "-sync" => Some("--sync"),
        "-explain" => Some("--explain"),
        "-version" => Some("--version"),
        "-help" => Some("--help"),
        _ => None,
    }
}
