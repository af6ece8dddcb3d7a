//! Reads and writes FASTQ text, from and to devices: feeds and outlets.
//!
//! A [`Source`] reads the records of a [`Feed`] one after the other. [`Source::advance`] lends a
//! record, and [`Source::next`] copies it. What it returns is what the grammar
//! (`specs/Grammar.antt`) finds at the front of the bytes that are left, however the feed cuts them
//! into read calls: a valid record, the first fault with the number of its record ([`TextFault`]),
//! or the end. A fault or the end is returned again by each further call.
//!
//! [`put_record`] appends a record to a text as four lines, and [`send`] writes a text to an
//! [`Outlet`]. A record reads back as it was written, unless its title ends in CR
//! ([`laws::read_back`]). [`Encoding`] says which score a quality byte has.
//!
//! Promises about bytes hold for devices whose bytes the proof knows, as those in memory
//! ([`ScriptFeed`], [`ScriptOutlet`]). Readers and writers of the standard library ([`FromRead`],
//! [`FromWrite`]) run the same code, but of them only lengths and failures are promised. Refused
//! memory is an error, [`OutOfMemory`], and never ends the program.
#![tactic(auto)]

mod adapters;
mod buffer;
mod encoding;
mod fault;
mod feed;
mod judge;
pub mod laws;
mod lines;
mod memory;
mod outlet;
mod parse;
mod record;
mod seen;
mod source;
mod unwrapped;
mod vectors;
mod view;
mod writing;

pub use adapters::{FromRead, FromWrite, write_to};
pub use encoding::{Encoding, from_score33};
pub use fault::TextFault;
pub use feed::{Feed, FeedFailed, ScriptFeed};
pub use memory::{MemoryRefused, OutOfMemory};
pub use outlet::{Outlet, OutletFailed, ScriptOutlet, Sent, send};
pub use record::FastqRecord;
pub use seen::{Look, Seen, SystemError};
pub use source::{NoSource, Source};
pub use view::{ReadView, is_lawful};
pub use writing::{append_record, put_record};
