//! The answers to a row, and their comparison with the expected ones.

use crate::row::Given;
use anyhow::Result;
use std::alloc::{AllocError, Global};
use std::fmt::Write;
use std::str;

/// Answers, each with its key.
#[derive(Drop)]
pub struct Answers {
    lines: Vec<(String, Vec<u8>)>,
    alloc: Global,
}

impl Answers {
    /// Makes an empty list of answers.
    pub fn new(alloc: Global) -> Answers {
        Answers {
            lines: Vec::new(alloc),
            alloc,
        }
    }

    /// Adds an answer.
    pub fn put(&mut self, key: &str, bytes: &[u8]) -> Result<(), AllocError> {
        let key = String::from_str(self.alloc, key)?;
        let bytes = Vec::from_slice(self.alloc, bytes)?;
        self.lines.push((key, bytes))?;
        Ok(())
    }

    /// Adds the answer `yes` or `no`.
    pub fn put_yes(&mut self, key: &str, yes: bool) -> Result<(), AllocError> {
        let said: &[u8] = if yes { b"yes" } else { b"no" };
        self.put(key, said)
    }

    // Returns the answer with this key.
    fn get(&self, key: &str) -> Option<&[u8]> {
        for (known, bytes) in self.lines.iter() {
            if known.as_str() == key {
                return Some(bytes.as_slice());
            }
        }
        None
    }
}

/// Compares the answers with the expected ones, of which there must be at least one. Returns what
/// differs, or an empty text.
pub fn compare(alloc: Global, given: &Given<'_>, answers: &Answers) -> Result<String> {
    let mut said = String::new(alloc);
    let mut wanted = 0u64;
    for (key, text) in given.lines() {
        if let Some(key) = key.strip_prefix("= ") {
            wanted = wanted.saturating_add(1);
            compare_one(&mut said, key, text, answers.get(key), false)?;
        } else if let Some(key) = key.strip_prefix("~ ") {
            wanted = wanted.saturating_add(1);
            compare_one(&mut said, key, text, answers.get(key), true)?;
        }
    }
    if wanted == 0 {
        write!(said, " nothing is wanted;")?;
    }
    Ok(said)
}

// Appends a note if an answer is missing, is not the expected one, or lacks the expected part.
fn compare_one(
    said: &mut String,
    key: &str,
    wanted: &[u8],
    answer: Option<&[u8]>,
    part: bool,
) -> Result<()> {
    let Some(came) = answer else {
        write!(said, " {key}: no answer;")?;
        return Ok(());
    };
    let fits = if part {
        shown(came).contains(shown(wanted))
    } else {
        came == wanted
    };
    if !fits {
        write!(
            said,
            " {key}: expected {:?}, came {:?};",
            shown(wanted),
            shown(came)
        )?;
    }
    Ok(())
}

// The bytes as text, or a note if they are not UTF-8.
fn shown(bytes: &[u8]) -> &str {
    str::from_utf8(bytes).unwrap_or("bytes that are no text")
}
