//! Files by name: where a program's inputs come from and its outputs go, in memory or on a disk.
//!
//! [`Files`] opens a feed of a file ([`source`](Files::source)) and an outlet to one
//! ([`target`](Files::target)), and takes both back ([`source_done`](Files::source_done),
//! [`done`](Files::done)), saying why they failed. [`MemoryFiles`] are in memory, [`DiskFiles`] on
//! a [`Disk`], such as that of the system ([`SystemDisk`]). A file that is refused has a [`Cause`].
//!
//! Promised is what the bytes of a file are after each call, if the proof knows them, as it knows
//! those in memory, and those of each regular file of every disk that tells, whatever else is on
//! it. Several names may lead to one file. No call for a file, such as a pipe, changes the bytes of
//! another one. A file is refused only for a cause for which it may be, and an error is one that a
//! device of it may have. That the calls of the system do what [`Disk`] says is tested.
#![tactic(auto)]

mod device;
mod disk;
mod disk_files;
mod files;
mod memory;
mod memory_disk;
mod system;

pub use disk::{Closed, Disk, Facts, Kind, Opened, Written};
pub use disk_files::DiskFiles;
pub use files::{Cause, FileFault, Files};
pub use memory::{MemoryFiles, MemoryTarget};
pub use memory_disk::{MemoryDisk, MemoryFile};
pub use system::{SystemDisk, SystemFile, SystemTarget};
