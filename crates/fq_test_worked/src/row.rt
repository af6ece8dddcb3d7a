//! A row: the lines of a block of text.
//!
//! A line that begins with `#` is a comment. Each other line is a key, `: ` and a text:
//!
//! - `let NAME: TEXT` gives a text a name, for all lines after it, those of further files too.
//! - `row: TEXT` begins a row, and says in plain words what it is about.
//! - `from: TEXT` says where the row comes from, such as a report or a real file. Nobody reads it.
//! - `each NAME: WORD WORD ..` runs the row once for each word, with that word as the text of the
//!   name. `each NAME/NAME: WORD/WORD ..` does so with several names at once. If there are several
//!   such lines, the row is run for each choice of a word of each line.
//! - `do: WORD` selects the function that computes the answers.
//! - `= KEY: TEXT` is an expected answer, and `~ KEY: TEXT` an expected part of one.
//! - Other lines are inputs of that function.
//!
//! `KEY / KEY: TEXT / TEXT` stands for several lines. A text may be a name that stands for the
//! texts of all keys.
//!
//! The lines of a block before its first `row:` are part of each of its rows. Rows with the same
//! keys may stand in a table. Its first line `| KEY | KEY |` has the keys, and each other one
//! `| TEXT | TEXT |` is a row, with these texts and the lines that are part of each row. A key
//! `<NAME>` gives the text that name, for its row. If no key is `row`, the line is its name. Spaces
//! around a text don't count.

use crate::names::{Names, decode, paired};
use anyhow::{Context, Result, bail};
use std::alloc::Global;
use std::fmt::Write;
use std::str;

/// A row as it is written in its file.
#[derive(Drop)]
pub struct Row<'a> {
    /// What the row is about.
    pub name: &'a str,
    // Names, and the words that they get in turn, separated by single spaces.
    sweeps: Vec<(&'a str, &'a str)>,
    // Names, and their texts.
    texts: Vec<(&'a str, &'a str)>,
    lines: Vec<(&'a str, &'a str)>,
}

impl<'a> Row<'a> {
    /// Returns how often the row is run.
    pub fn turns(&self) -> u64 {
        let mut turns = 1u64;
        for (_, words) in self.sweeps.iter() {
            turns = turns.saturating_mul(words.split(' ').count() as u64);
        }
        turns
    }

    /// Gives the names of the row their texts, and those of the sweeps their words in this turn,
    /// counted from 0. Returns these words, or `once` if there is no sweep.
    pub fn put_words(&self, alloc: Global, names: &mut Names<'a>, turn: u64) -> Result<String> {
        for (name, text) in self.texts.iter() {
            let text = decode(alloc, names, text)?;
            names.put(*name, text)?;
        }
        let mut said = String::new(alloc);
        let mut rest = turn;
        for (keys, words) in self.sweeps.iter() {
            let count = words.split(' ').count() as u64;
            if count == 0 {
                bail!("no words: {keys:?}");
            }
            if let Some(word) = words.split(' ').nth((rest % count) as usize) {
                names.put_parts(alloc, *keys, word)?;
                write!(said, "{}{word}", if said.is_empty() { "" } else { ", " })?;
            }
            rest /= count;
        }
        if said.is_empty() {
            said.push_str("once")?;
        }
        Ok(said)
    }

    // Returns a row of this name that begins with the lines of this one.
    fn named(&self, alloc: Global, name: &'a str) -> Result<Row<'a>> {
        Ok(Row {
            name,
            sweeps: Vec::from_slice(alloc, self.sweeps.as_slice())?,
            texts: Vec::new(alloc),
            lines: Vec::from_slice(alloc, self.lines.as_slice())?,
        })
    }

    // Returns this row with the texts of a line of a table under the table's keys.
    fn with_cells(&self, alloc: Global, keys: &'a str, case: &'a str) -> Result<Row<'a>> {
        let mut row = self.named(alloc, case)?;
        for (key, cell) in paired(alloc, within_bars(keys)?, within_bars(case)?, " | ")?.iter() {
            let (key, text) = (key.trim(), cell.trim());
            if key == "row" {
                row.name = text;
            } else if let Some((name, _)) = key.strip_prefix('<').and_then(|k| k.split_once('>')) {
                row.texts.push((name, text))?;
            } else {
                row.lines.push((key, text))?;
            }
        }
        Ok(row)
    }
}

/// Reads a block of lines: gives texts their names, and returns the rows.
pub fn read_block<'a>(
    alloc: Global,
    names: &mut Names<'a>,
    block: &'a str,
) -> Result<Vec<Row<'a>>> {
    let mut shared = Row {
        name: "",
        sweeps: Vec::new(alloc),
        texts: Vec::new(alloc),
        lines: Vec::new(alloc),
    };
    let mut rows = Vec::new(alloc);
    let mut table = Vec::new(alloc);
    for line in block.lines() {
        if line.starts_with('|') {
            table.push(line)?;
        } else if let Some(name) = line.strip_prefix("row: ") {
            rows.push(shared.named(alloc, name)?)?;
        } else if !line.is_empty() && !line.starts_with('#') {
            read_line(alloc, names, rows.last_mut().unwrap_or(&mut shared), line)?;
        }
    }
    put_cases(alloc, &mut rows, &shared, table.as_slice())?;
    if rows.is_empty() && !shared.lines.is_empty() {
        bail!("lines without a row: {block:?}");
    }
    Ok(rows)
}

// Appends the rows of a table, each of which begins with these lines.
fn put_cases<'a>(
    alloc: Global,
    rows: &mut Vec<Row<'a>>,
    shared: &Row<'a>,
    table: &[&'a str],
) -> Result<()> {
    if let Some((keys, cases)) = table.split_first() {
        for case in cases.iter() {
            rows.push(shared.with_cells(alloc, keys, case)?)?;
        }
    }
    Ok(())
}

// The cells of a line of a table.
fn within_bars(line: &str) -> Result<&str> {
    let inner = line
        .strip_prefix("| ")
        .and_then(|rest| rest.strip_suffix(" |"));
    inner.context(format_args!("no line of a table: {line:?}"))
}

// Reads a line that is not a comment.
fn read_line<'a>(
    alloc: Global,
    names: &mut Names<'a>,
    row: &mut Row<'a>,
    line: &'a str,
) -> Result<()> {
    let (key, text) = parts_of(line)?;
    if let Some(name) = key.strip_prefix("let ") {
        let text = decode(alloc, names, text)?;
        names.put(name, text)?;
    } else if let Some(name) = key.strip_prefix("each ") {
        row.sweeps.push((name, text))?;
    } else {
        row.lines.push((key, text))?;
    }
    Ok(())
}

// Splits a line into its key and its text.
fn parts_of(line: &str) -> Result<(&str, &str)> {
    if let Some(parts) = line.split_once(": ") {
        return Ok(parts);
    }
    match line.split_once(':') {
        Some((key, "")) => Ok((key, "")),
        _ => bail!("no key: {line:?}"),
    }
}

/// What a row says: the texts of its lines, decoded to bytes.
#[derive(Drop)]
pub struct Given<'a> {
    lines: Vec<(&'a str, Vec<u8>)>,
}

impl<'a> Given<'a> {
    /// Decodes the lines of a row.
    pub fn new(alloc: Global, names: &Names<'_>, row: &Row<'a>) -> Result<Given<'a>> {
        let mut lines = Vec::new(alloc);
        for (key, text) in row.lines.iter() {
            put_line(alloc, &mut lines, key, decode(alloc, names, text)?)?;
        }
        Ok(Given { lines })
    }

    /// Returns the keys and bytes of all lines.
    pub fn lines(&self) -> &[(&'a str, Vec<u8>)] {
        &self.lines
    }

    /// Returns the bytes of the first line with this key.
    pub fn find(&self, key: &str) -> Option<&[u8]> {
        for (known, text) in self.lines.iter() {
            if *known == key {
                return Some(text.as_slice());
            }
        }
        None
    }

    /// Returns the bytes of this key, or none if there is no such line.
    pub fn bytes(&self, key: &str) -> &[u8] {
        self.find(key).unwrap_or(&[])
    }

    /// Returns the text of this key, or an empty text if there is no such line.
    pub fn text(&self, key: &str) -> Result<&str> {
        Ok(str::from_utf8(self.bytes(key))?)
    }

    /// Returns the number of this key, or `absent` if there is no such line.
    pub fn number(&self, key: &str, absent: u64) -> Result<u64> {
        match self.find(key) {
            Some(bytes) => Ok(str::from_utf8(bytes)?.parse::<u64>().context("a number")?),
            None => Ok(absent),
        }
    }

    /// Refuses a row that has a line with another key. `do`, `from` and expected answers are always
    /// allowed.
    pub fn allow(&self, keys: &[&str]) -> Result<()> {
        for (key, _) in self.lines.iter() {
            if !is_allowed(keys, key) {
                bail!("nobody reads {key:?}");
            }
        }
        Ok(())
    }
}

// Appends a line, or one for each of its keys if it has several.
fn put_line<'a>(
    alloc: Global,
    lines: &mut Vec<(&'a str, Vec<u8>)>,
    keys: &'a str,
    text: Vec<u8>,
) -> Result<()> {
    if !keys.contains(" / ") {
        lines.push((keys, text))?;
        return Ok(());
    }
    for (key, part) in paired(alloc, keys, str::from_utf8(&text)?, " / ")?.iter() {
        lines.push((*key, Vec::from_slice(alloc, part.as_bytes())?))?;
    }
    Ok(())
}

// Whether a row may have a line with this key, if these keys are read.
fn is_allowed(keys: &[&str], key: &str) -> bool {
    if key == "do" || key == "from" || key.starts_with("= ") || key.starts_with("~ ") {
        return true;
    }
    for allowed in keys {
        if *allowed == key {
            return true;
        }
    }
    false
}
