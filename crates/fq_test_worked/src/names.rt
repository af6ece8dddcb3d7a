//! The texts of rows: how special bytes are written, and texts that have names.
//!
//! `\n`, `\r` and `\t` are LF, CR and a tab, and `\{92}` is the byte with that number, here a
//! backslash. `\<two>` is the text with the name `two`, `\(3 two)` is that text three times, and
//! `\[5 two]` its first five bytes. If a name is given in place of such a number, the text with
//! that name is the number, and `\[18+bytes two]` adds two of them.

use anyhow::{Context, Result, bail};
use std::alloc::Global;
use std::str;

/// Texts that have names. If two have one name, the later one counts.
#[derive(Drop)]
pub struct Names<'a> {
    texts: Vec<(&'a str, Vec<u8>)>,
}

impl<'a> Names<'a> {
    /// Makes an empty list of names.
    pub fn new(alloc: Global) -> Names<'a> {
        Names {
            texts: Vec::new(alloc),
        }
    }

    /// Gives a text a name.
    pub fn put(&mut self, name: &'a str, text: Vec<u8>) -> Result<()> {
        self.texts.push((name, text))?;
        Ok(())
    }

    /// Gives each of these names its part of a word. Names and parts are separated by `/`.
    pub fn put_parts(&mut self, alloc: Global, names: &'a str, word: &str) -> Result<()> {
        for (name, part) in paired(alloc, names, word, "/")?.iter() {
            self.put(*name, Vec::from_slice(alloc, part.as_bytes())?)?;
        }
        Ok(())
    }

    /// Returns how many names were given.
    pub fn count(&self) -> usize {
        self.texts.len()
    }

    /// Removes the names that were given after the first `count`.
    pub fn keep(&mut self, count: usize) {
        self.texts.truncate(count);
    }

    // Returns the text with this name.
    fn get(&self, name: &str) -> Result<&[u8]> {
        for (known, text) in self.texts.iter().rev() {
            if *known == name {
                return Ok(text.as_slice());
            }
        }
        bail!("no text has the name {name:?}")
    }

    // Reads a number, or takes the text with this name as the number, or adds two such.
    fn number(&self, word: &str) -> Result<usize> {
        match word.split_once('+') {
            Some((first, second)) => Ok(self.addend(first)?.saturating_add(self.addend(second)?)),
            None => self.addend(word),
        }
    }

    fn addend(&self, word: &str) -> Result<usize> {
        if let Ok(number) = word.parse::<usize>() {
            return Ok(number);
        }
        Ok(str::from_utf8(self.get(word)?)?.parse::<usize>()?)
    }
}

/// The parts of two texts between these marks, each of the first with one of the second. It is an
/// error if one text has more parts.
pub fn paired<'a, 'b>(
    alloc: Global,
    first: &'a str,
    second: &'b str,
    mark: &str,
) -> Result<Vec<(&'a str, &'b str)>> {
    if first.split(mark).count() != second.split(mark).count() {
        bail!("{second:?} has another number of parts than {first:?}");
    }
    Ok(first.split(mark).zip(second.split(mark)).collect(alloc)?)
}

/// Decodes a text of a row into bytes.
pub fn decode(alloc: Global, names: &Names<'_>, text: &str) -> Result<Vec<u8>> {
    let mut out = Vec::new(alloc);
    for (place, part) in text.split('\\').enumerate() {
        if place == 0 {
            out.extend_from_slice(part.as_bytes())?;
        } else {
            put_escaped(&mut out, names, part)?;
        }
    }
    Ok(out)
}

// Appends what a part after a backslash stands for, then the rest of the part.
fn put_escaped(out: &mut Vec<u8>, names: &Names<'_>, part: &str) -> Result<()> {
    let after = if let Some(after) = part.strip_prefix('n') {
        out.push(b'\n')?;
        after
    } else if let Some(after) = part.strip_prefix('r') {
        out.push(b'\r')?;
        after
    } else if let Some(after) = part.strip_prefix('t') {
        out.push(b'\t')?;
        after
    } else if let Some((byte, after)) = within(part, '{', '}') {
        out.push(byte.parse::<u8>()?)?;
        after
    } else if let Some((name, after)) = within(part, '<', '>') {
        out.extend_from_slice(names.get(name)?)?;
        after
    } else if let Some((said, after)) = within(part, '(', ')') {
        put_times(out, names, said)?;
        after
    } else if let Some((said, after)) = within(part, '[', ']') {
        put_front(out, names, said)?;
        after
    } else {
        bail!("nothing is written as a backslash and {part:?}")
    };
    out.extend_from_slice(after.as_bytes())?;
    Ok(())
}

// Splits off the text between these two characters at the start. Returns that text and the rest.
fn within(part: &str, open: char, close: char) -> Option<(&str, &str)> {
    part.strip_prefix(open)?.split_once(close)
}

// Appends the named text the given number of times.
fn put_times(out: &mut Vec<u8>, names: &Names<'_>, said: &str) -> Result<()> {
    let (times, name) = said.split_once(' ').context("a number and a name")?;
    let text = names.get(name)?;
    for _ in 0..names.number(times)? {
        out.extend_from_slice(text)?;
    }
    Ok(())
}

// Appends the given number of bytes from the start of the named text.
fn put_front(out: &mut Vec<u8>, names: &Names<'_>, said: &str) -> Result<()> {
    let (bytes, name) = said.split_once(' ').context("a number and a name")?;
    let front = names.get(name)?.get(..names.number(bytes)?);
    out.extend_from_slice(front.context("the text is too short")?)?;
    Ok(())
}
