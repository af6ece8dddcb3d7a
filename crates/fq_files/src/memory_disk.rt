//! A disk in memory.

use crate::disk::{Closed, Disk, Facts, Kind, Opened, Written};
use crate::memory::{FAILED, MISSING, MemoryTarget, NO_MEMORY};
use fq_text::{Feed, Look, OutOfMemory, ScriptFeed, Seen, SystemError};
use std::alloc::Global;
use std::collections::BTreeMap;

// An inode. It is there once its file is created.
#[derive(Drop)]
pub struct Node {
    bytes: Vec<u8>,
    is_there: bool,
}

/// A disk in memory, of regular files. Several names may lead to one inode, as hard links and
/// symbolic links do. A file can be created under the names that are reserved for it, and under no
/// other name, as in a directory that isn't there.
#[derive(Drop)]
pub struct MemoryDisk {
    // The node of each name.
    names: BTreeMap<String, usize>,
    nodes: Vec<Node>,
    alloc: Global,
}

/// An open file of a disk in memory.
#[derive(Drop)]
pub struct MemoryFile {
    node: usize,
}

impl Opened for MemoryFile {
    ghost inode = { λ file. file.node };
}

impl Written for MemoryTarget {
    ghost syncs = { λ target. target.syncs };
}

impl MemoryDisk {
    ghost use Rattle.std.specs.Prelude.{◌≡◌, ◌≢◌, ℕ, Some, None, List, false, IsSome, IsTrue, IfSome, OnOk, OnErr};
    ghost use Rattle.fq_files.specs.Disks.{KeepsInodes};
    ghost use Rattle.fq_files.specs.MemoryDisks.{disk_state_of};

    /// A disk that holds nothing.
    pub fn new(alloc: Global) -> MemoryDisk
        ensures { (name : List ℕ) → (disk_state_of result).inode_of name ≡ None }
    {
        MemoryDisk {
            names: BTreeMap::new(alloc),
            nodes: Vec::new(alloc),
            alloc,
        }
    }

    /// Reserves a name for a file that isn't there yet. If memory is refused, nothing changes.
    pub fn reserve(&mut self, name: &str) -> Result<(), OutOfMemory>
        ensures leads { OnOk result (IsSome ((disk_state_of self.new).inode_of name.now)) }
        ensures absent { OnOk result ((i : ℕ) → (disk_state_of self.new).inode_of name.now ≡ Some i
            → ((disk_state_of self.new).at i).is_there ≡ false) }
        ensures inodes { KeepsInodes (disk_state_of self.old) (disk_state_of self.new) }
        ensures others { (other : List ℕ) → other ≢ name.now
            → (disk_state_of self.new).inode_of other ≡ (disk_state_of self.old).inode_of other }
        ensures err { OnErr result ((disk_state_of self.new).inode_of
            ≡ (disk_state_of self.old).inode_of) }
    {
        let key = String::from_str(self.alloc, name)?;
        let node = self.nodes.len();
        self.nodes.push(Node {
            bytes: Vec::new(self.alloc),
            is_there: false,
        })?;
        self.names.insert(key, node)?;
        Ok(())
    }

    /// Makes one more name of what a name leads to. If memory is refused, nothing changes.
    pub fn link(&mut self, of: &str, name: &str) -> Result<(), OutOfMemory>
        ensures ok { OnOk result ((i : ℕ) → (disk_state_of self.old).inode_of of.now ≡ Some i
            → (disk_state_of self.new).inode_of name.now ≡ Some i) }
        ensures inodes { KeepsInodes (disk_state_of self.old) (disk_state_of self.new) }
        ensures others { (other : List ℕ) → other ≢ name.now
            → (disk_state_of self.new).inode_of other ≡ (disk_state_of self.old).inode_of other }
        ensures err { OnErr result ((disk_state_of self.new).inode_of
            ≡ (disk_state_of self.old).inode_of) }
    {
        if let Some(node) = self.names.get(of) {
            let node = *node;
            let key = String::from_str(self.alloc, name)?;
            self.names.insert(key, node)?;
        }
        Ok(())
    }

    // The node that a name leads to, if its file is there.
    fn node_of(&self, name: &str) -> Option<usize>
        ensures leads { IfSome result (λ node. (disk_state_of self.now).inode_of name.now
            ≡ Some node) }
        ensures there { IfSome result (λ node. IsTrue
            ((disk_state_of self.now).at node).is_there) }
        ensures none { result ≡ None → (i : ℕ)
            → (disk_state_of self.now).inode_of name.now ≡ Some i
            → ((disk_state_of self.now).at i).is_there ≡ false }
    {
        let node = *self.names.get(name)?;
        if node < self.nodes.len() && self.nodes[node].is_there {
            Some(node)
        } else {
            None
        }
    }
}

impl Disk for MemoryDisk {
    ghost use Rattle.std.specs.Prelude.{refl};
    ghost use Rattle.fq_files.specs.MemoryDisks.{disk_state_of};

    type File = MemoryFile;

    type Reader = ScriptFeed;

    type Writer = MemoryTarget;

    ghost state = { disk_state_of };

    ghost regular = { λ disk i plain there. refl };

    fn open_read(&self, name: &str) -> Result<MemoryFile, SystemError> {
        let node = self.node_of(name).ok_or(MISSING)?;
        Ok(MemoryFile { node })
    }

    #[tactic(auto, using(crate::proofs::NodeLemmas::inode_set_same, crate::proofs::NodeLemmas::inode_set_other, crate::proofs::NodeLemmas::inode_found))]
    fn open_write(&mut self, name: &str) -> Result<MemoryFile, SystemError> {
        let node = *self.names.get(name).ok_or(MISSING)?;
        if node >= self.nodes.len() {
            return Err(MISSING);
        }
        if !self.nodes[node].is_there {
            self.nodes[node] = Node {
                bytes: Vec::new(self.alloc),
                is_there: true,
            };
        }
        Ok(MemoryFile { node })
    }

    #[tactic(auto, using(crate::proofs::NodeLemmas::inode_found))]
    fn look(&self, file: &MemoryFile) -> Result<Facts, SystemError> {
        match self.nodes.get(file.node) {
            Some(node) => Ok(Facts {
                inode: file.node as u128,
                kind: Kind::Regular,
                length: node.bytes.len() as u64,
            }),
            None => Err(MISSING),
        }
    }

    #[tactic(auto, using(crate::proofs::NodeLemmas::inode_found, crate::proofs::NodeLemmas::there_within))]
    fn find(&self, name: &str) -> Option<Facts> {
        let node = self.node_of(name)?;
        Some(Facts {
            inode: node as u128,
            kind: Kind::Regular,
            length: self.nodes[node].bytes.len() as u64,
        })
    }

    #[tactic(auto, using(crate::proofs::NodeLemmas::inode_set_same, crate::proofs::NodeLemmas::inode_set_other, crate::proofs::NodeLemmas::inode_found))]
    fn empty(&mut self, file: &MemoryFile) -> Result<(), SystemError> {
        if file.node >= self.nodes.len() {
            return Err(MISSING);
        }
        self.nodes[file.node].bytes = Vec::new(self.alloc);
        Ok(())
    }

    #[tactic(auto, using(crate::proofs::NodeLemmas::inode_found, crate::proofs::NodeLemmas::inode_past))]
    fn reader(&self, file: MemoryFile) -> Result<ScriptFeed, OutOfMemory> {
        let bytes = match self.nodes.get(file.node) {
            Some(node) => node.bytes.as_slice(),
            None => &[],
        };
        ScriptFeed::new(self.alloc, bytes, usize::MAX, 0)
    }

    fn seen(&self, reader: ScriptFeed) -> Seen {
        let error = if reader.failures() > 0 {
            Some(FAILED)
        } else {
            None
        };
        Seen {
            error,
            look: Look::Unknown,
        }
    }

    fn writer(&self, file: MemoryFile, syncs: bool) -> MemoryTarget {
        MemoryTarget::new(self.alloc, file.node, syncs)
    }

    #[tactic(auto, using(crate::proofs::NodeLemmas::inode_set_same, crate::proofs::NodeLemmas::inode_set_other, crate::proofs::NodeLemmas::inode_found, crate::proofs::NodeLemmas::there_within))]
    fn close(&mut self, writer: MemoryTarget) -> Closed {
        let error = if writer.failures > 0 {
            Some(NO_MEMORY)
        } else {
            None
        };
        let is_flushed = writer.is_flushed;
        let node = writer.node;
        if node < self.nodes.len() {
            self.nodes[node].bytes = writer.into_bytes();
        }
        Closed { error, is_flushed }
    }
}
