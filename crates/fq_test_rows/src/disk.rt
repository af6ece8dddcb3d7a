//! `do: disk` calls the program on the files of a disk in memory.
//!
//! `call: WORD ..` gives the arguments, `file NAME: TEXT` a file that exists, and `link NAME: OF`
//! one more name of the file that `OF` leads to, also if it isn't there yet.
//!
//! Answers: those of `do: call`. What a file holds is read by each of its names.

use crate::call::{NAMES, put_call};
use anyhow::{Result, bail};
use fq_files::{Disk, DiskFiles, MemoryDisk};
use fq_test_worked::{Answers, Given};
use fq_text::{Feed, send};
use std::alloc::Global;
use std::sync::Wait;
use std::thread::Threads;

// Creates a file that holds this text.
fn create(disk: &mut MemoryDisk, name: &str, text: &[u8]) -> Result<()> {
    let Ok(file) = disk.open_write(name) else {
        bail!("{name} can't be created")
    };
    if disk.empty(&file).is_err() {
        bail!("{name} can't be emptied")
    }
    let mut writer = disk.writer(file, false);
    if send(&mut writer, text).is_err() {
        bail!("{name} can't be written")
    }
    disk.close(writer);
    Ok(())
}

// The disk of a row.
fn disk_of(alloc: Global, given: &Given<'_>) -> Result<MemoryDisk> {
    let mut disk = MemoryDisk::new(alloc);
    for name in NAMES {
        disk.reserve(name)?;
    }
    for (key, text) in given.lines() {
        if let Some(name) = key.strip_prefix("file ") {
            create(&mut disk, name, text)?;
        } else if let Some(name) = key.strip_prefix("link ") {
            disk.link(str::from_utf8(text)?, name)?;
        }
    }
    Ok(disk)
}

// Puts what the file of each name holds.
fn put_files(disk: &MemoryDisk, answers: &mut Answers) -> Result<()> {
    for name in NAMES {
        let Ok(file) = disk.open_read(name) else {
            answers.put(name, b"no file")?;
            continue;
        };
        let mut bytes = [0; 1024];
        let Ok(count) = disk.reader(file)?.read(&mut bytes) else {
            bail!("{name} can't be read")
        };
        answers.put(name, &bytes[..count])?;
    }
    Ok(())
}

/// Puts the answers to a `do: disk` row.
pub fn answer<R: Threads + Wait + Copy + Send + 'static>(
    rt: &R,
    alloc: Global,
    given: &Given<'_>,
    answers: &mut Answers,
) -> Result<()> {
    given.allow(&[
        "call", "file f", "file r", "file i", "link r", "link i", "link fp", "link fu",
    ])?;
    let words: Vec<&str> = given.text("call")?.split(' ').collect(alloc)?;
    let mut files = DiskFiles::new(alloc, disk_of(alloc, given)?);
    put_call(rt, alloc, &words, &mut files, 0, answers)?;
    put_files(&files.into_disk(), answers)
}
