//! Why the system or the program refused a file.

ghost use Rattle.std.specs.Prelude.{◌≡◌, ◌++◌, IfOk, [], codes, decimal, map, slice_index_or};
ghost use Rattle.std.specs.String.{string_bytes};
ghost use Rattle.fq_app_words.specs.Requests.{names_of};
ghost use Rattle.fq_app_reasons.specs.Causes.{error_words, device_words, source_reason, leads_reason, target_reason};

use fq_app_words::Inputs;
use fq_files::Cause;
use fq_text::{OutOfMemory, SystemError};
use std::alloc::Global;

/// Why a file is refused that is an output.
pub(crate) const ALSO_OUTPUT: &str = "it is also an output";

/// The words for the errors of Linux, by their numbers from 0 on. They are those of the C library,
/// but for a directory, and for 0, which stands for no number. Two numbers are of no error.
pub(crate) const ERROR_WORDS: [&str; 134] = [
    "the system gave no reason",
    "Operation not permitted",
    "No such file or directory",
    "No such process",
    "Interrupted system call",
    "Input/output error",
    "No such device or address",
    "Argument list too long",
    "Exec format error",
    "Bad file descriptor",
    "No child processes",
    "Resource temporarily unavailable",
    "Cannot allocate memory",
    "Permission denied",
    "Bad address",
    "Block device required",
    "Device or resource busy",
    "File exists",
    "Invalid cross-device link",
    "No such device",
    "Not a directory",
    "it is a directory",
    "Invalid argument",
    "Too many open files in system",
    "Too many open files",
    "Inappropriate ioctl for device",
    "Text file busy",
    "File too large",
    "No space left on device",
    "Illegal seek",
    "Read-only file system",
    "Too many links",
    "Broken pipe",
    "Numerical argument out of domain",
    "Numerical result out of range",
    "Resource deadlock avoided",
    "File name too long",
    "No locks available",
    "Function not implemented",
    "Directory not empty",
    "Too many levels of symbolic links",
    "",
    "No message of desired type",
    "Identifier removed",
    "Channel number out of range",
    "Level 2 not synchronized",
    "Level 3 halted",
    "Level 3 reset",
    "Link number out of range",
    "Protocol driver not attached",
    "No CSI structure available",
    "Level 2 halted",
    "Invalid exchange",
    "Invalid request descriptor",
    "Exchange full",
    "No anode",
    "Invalid request code",
    "Invalid slot",
    "",
    "Bad font file format",
    "Device not a stream",
    "No data available",
    "Timer expired",
    "Out of streams resources",
    "Machine is not on the network",
    "Package not installed",
    "Object is remote",
    "Link has been severed",
    "Advertise error",
    "Srmount error",
    "Communication error on send",
    "Protocol error",
    "Multihop attempted",
    "RFS specific error",
    "Bad message",
    "Value too large for defined data type",
    "Name not unique on network",
    "File descriptor in bad state",
    "Remote address changed",
    "Can not access a needed shared library",
    "Accessing a corrupted shared library",
    ".lib section in a.out corrupted",
    "Attempting to link in too many shared libraries",
    "Cannot exec a shared library directly",
    "Invalid or incomplete multibyte or wide character",
    "Interrupted system call should be restarted",
    "Streams pipe error",
    "Too many users",
    "Socket operation on non-socket",
    "Destination address required",
    "Message too long",
    "Protocol wrong type for socket",
    "Protocol not available",
    "Protocol not supported",
    "Socket type not supported",
    "Operation not supported",
    "Protocol family not supported",
    "Address family not supported by protocol",
    "Address already in use",
    "Cannot assign requested address",
    "Network is down",
    "Network is unreachable",
    "Network dropped connection on reset",
    "Software caused connection abort",
    "Connection reset by peer",
    "No buffer space available",
    "Transport endpoint is already connected",
    "Transport endpoint is not connected",
    "Cannot send after transport endpoint shutdown",
    "Too many references: cannot splice",
    "Connection timed out",
    "Connection refused",
    "Host is down",
    "No route to host",
    "Operation already in progress",
    "Operation now in progress",
    "Stale file handle",
    "Structure needs cleaning",
    "Not a XENIX named type file",
    "No XENIX semaphores available",
    "Is a named type file",
    "Remote I/O error",
    "Disk quota exceeded",
    "No medium found",
    "Wrong medium type",
    "Operation canceled",
    "Required key not available",
    "Key has expired",
    "Key has been revoked",
    "Key was rejected by service",
    "Owner died",
    "State not recoverable",
    "Operation not possible due to RF-kill",
    "Memory page has hardware error",
];

/// Why a file is refused as an input.
pub(crate) fn source_reason(alloc: Global, cause: Cause) -> Result<String, OutOfMemory>
    ensures { IfOk result (λ text. string_bytes text ≡ source_reason cause) }
{
    match cause {
        Cause::System(error) => error_words(alloc, error),
        Cause::Input => String::from_str(alloc, "it is given twice"),
        Cause::Output => String::from_str(alloc, ALSO_OUTPUT),
    }
}

/// Why a file is refused as an output or as the report.
pub(crate) fn target_reason(
    alloc: Global,
    inputs: Inputs<'_>,
    cause: Cause,
) -> Result<String, OutOfMemory>
    ensures { IfOk result (λ text. string_bytes text
        ≡ target_reason (names_of inputs.entry) cause) }
{
    match cause {
        Cause::System(error) => error_words(alloc, error),
        Cause::Input => leads_reason(alloc, inputs),
        Cause::Output => String::from_str(alloc, ALSO_OUTPUT),
    }
}

// That an output leads to an input.
fn leads_reason(alloc: Global, inputs: Inputs<'_>) -> Result<String, OutOfMemory>
    ensures { IfOk result (λ text. string_bytes text
        ≡ leads_reason (names_of inputs.entry) (names_of inputs.entry).form) }
{
    match inputs {
        Inputs::Apart { forward, reverse } => leads_to_one(alloc, forward, reverse),
        Inputs::Interleaved(both) => leads_to(alloc, both),
    }
}

// That a file leads to one of two inputs.
fn leads_to_one(alloc: Global, forward: &str, reverse: &str) -> Result<String, OutOfMemory>
    ensures { IfOk result (λ text. string_bytes text ≡ codes "it leads to an input ("
        ++ forward.now ++ codes " or " ++ reverse.now ++ codes ")") }
{
    format!(in alloc; "it leads to an input ({forward} or {reverse})")
}

// That a file leads to the input.
fn leads_to(alloc: Global, both: &str) -> Result<String, OutOfMemory>
    ensures { IfOk result (λ text. string_bytes text
        ≡ codes "it leads to the input " ++ both.now) }
{
    format!(in alloc; "it leads to the input {both}")
}

/// The words for what a device says, or others if it says nothing.
pub(crate) fn device_words(
    alloc: Global,
    error: Option<SystemError>,
    others: &str,
) -> Result<String, OutOfMemory>
    ensures { IfOk result (λ text. string_bytes text ≡ device_words error others.now) }
{
    match error {
        Some(error) => error_words(alloc, error),
        None => String::from_str(alloc, others),
    }
}

// The words for an error, or its number if there are none.
fn error_words(alloc: Global, error: SystemError) -> Result<String, OutOfMemory>
    ensures { IfOk result (λ text. string_bytes text ≡ error_words error) }
{
    let words = word_at(&ERROR_WORDS, error.number as usize);
    if words.is_empty() {
        return numbered(alloc, error.number);
    }
    String::from_str(alloc, words)
}

// The text at this place, or an empty one if there is none.
fn word_at(words: &[&'static str], place: usize) -> &'static str
    ensures { result.now ≡ slice_index_or (map (λ word. word.now) words.now) place [] }
{
    match words.get(place) {
        Some(word) => word,
        None => "",
    }
}

// An error without words.
fn numbered(alloc: Global, number: u32) -> Result<String, OutOfMemory>
    ensures { IfOk result (λ text. string_bytes text
        ≡ codes "system error " ++ decimal number) }
{
    format!(in alloc; "system error {number}")
}
