//! Requests: what to trim, from which files and into which.

ghost use Rattle.std.specs.Prelude.{◌≡◌, option_map};
ghost use Rattle.fq_app_words.specs.Requests.{asking_of, same_name, output_name, input_name, is_input, report_is_input};

use fq_pair::{Inputs, Out, Side};

/// What to trim, as the command line gives it. The ranges of its numbers and the texts of its
/// encoding and steps are not checked yet.
#[derive(Drop)]
pub struct Request<'a> {
    /// The name of the encoding (`--encoding`).
    pub encoding: &'a str,
    /// The number of threads that trim (`--threads`).
    pub threads: u64,
    /// The number of pairs that are trimmed and written at a time (`--block`).
    pub block: u64,
    /// The number of blocks that can wait for each thread (`--depth`).
    pub depth: u64,
    /// The number of bytes that are read at a time (`--chunk`).
    pub chunk: u64,
    /// Whether the names of mates must match: not if `--no-name-check` is given.
    pub check_names: bool,
    /// Whether the run waits at its end until the outputs are on their disk, whatever disk that is
    /// (`--sync`).
    pub sync: bool,
    /// Whether a line on standard error says why (`--explain`).
    pub explain: bool,
    /// The input files.
    pub inputs: Inputs<'a>,
    /// The name of the output for forward reads whose mate also survives.
    pub forward_paired: &'a str,
    /// The name of the output for forward reads whose mate is dropped.
    pub forward_unpaired: &'a str,
    /// The name of the output for reverse reads whose mate also survives.
    pub reverse_paired: &'a str,
    /// The name of the output for reverse reads whose mate is dropped.
    pub reverse_unpaired: &'a str,
    /// The name of the log, if there is to be one (`--trimlog`).
    pub log: Option<&'a str>,
    /// The name of the report, if there is to be one (`--report`).
    pub report: Option<&'a str>,
    /// The arguments that name the steps.
    pub steps: Vec<&'a str>,
}

/// The first output, in the order of [`Out`], that has the name of an input.
pub fn same_name(request: &Request<'_>) -> Option<Out>
    ensures { result ≡ same_name (asking_of request.now) }
{
    if is_input(request, request.forward_paired) {
        return Some(Out::ForwardPaired);
    }
    if is_input(request, request.forward_unpaired) {
        return Some(Out::ForwardUnpaired);
    }
    if is_input(request, request.reverse_paired) {
        return Some(Out::ReversePaired);
    }
    if is_input(request, request.reverse_unpaired) {
        return Some(Out::ReverseUnpaired);
    }
    match request.log {
        Some(log) if is_input(request, log) => Some(Out::Log),
        _ => None,
    }
}

/// Whether the report has the name of an input.
pub fn report_is_input(request: &Request<'_>) -> bool
    ensures { result ≡ report_is_input (asking_of request.now) }
{
    matches!(request.report, Some(report) if is_input(request, report))
}

// Whether this is the name of an input.
fn is_input(request: &Request<'_>, name: &str) -> bool
    ensures { result ≡ is_input (asking_of request.now).inputs name.now }
{
    match request.inputs {
        Inputs::Apart { forward, reverse } => name == forward || name == reverse,
        Inputs::Interleaved(both) => name == both,
    }
}

impl Request<'_> {
    /// The name of an output. `None` for a log that is not written.
    pub fn output_name(&self, out: Out) -> Option<&str>
        ensures { option_map (λ name. name.now) result ≡ output_name (asking_of self.now) out }
    {
        match out {
            Out::ForwardPaired => Some(self.forward_paired),
            Out::ForwardUnpaired => Some(self.forward_unpaired),
            Out::ReversePaired => Some(self.reverse_paired),
            Out::ReverseUnpaired => Some(self.reverse_unpaired),
            Out::Log => self.log,
        }
    }

    /// The name of the file that holds the reads of a side.
    pub fn input_name(&self, side: Side) -> &str
        ensures { result.now ≡ input_name (asking_of self.now).inputs side }
    {
        match (self.inputs, side) {
            (Inputs::Apart { forward, .. }, Side::Forward) => forward,
            (Inputs::Apart { reverse, .. }, Side::Reverse) => reverse,
            (Inputs::Interleaved(both), _) => both,
        }
    }
}
