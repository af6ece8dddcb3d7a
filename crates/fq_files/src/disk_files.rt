//! Files by name, over a disk.

ghost use Rattle.std.specs.Prelude.{◌≡◌, true};

use crate::device::major_of;
use crate::disk::{Disk, Facts, Kind, Opened, Written};
use crate::files::{Cause, FileFault, Files};
use fq_text::{Feed, OutOfMemory, Outlet, Seen, SystemError};
use std::alloc::Global;
use std::marker::Model;

// The number by which Linux says that a file is a directory (`EISDIR`).
const IS_DIRECTORY: SystemError = SystemError { number: 21 };

// The fault of a file that the system refused with this error.
fn refused(error: SystemError) -> FileFault
    ensures { result ≡ FileFault.Refused (Cause.System error) }
{
    FileFault::Refused(Cause::System(error))
}

/// The files of a disk, such as [`SystemDisk`](crate::SystemDisk). As [`Files`], the bytes of a
/// regular file are known to the proof if the disk tells, under each name that leads to it: the key
/// of a file is its inode. Those of directories, pipes and devices are not. What each call does is
/// also said by inode, of every disk that tells (`Tells`).
///
/// A file that was opened as an input is refused as an output, under any name, and is left
/// unchanged. A regular file that is already an input is refused as another input, and one that is
/// already an output is refused as another output. The system may refuse every file. A failure
/// counts for every file, and so does a target that was not flushed. A device may say each error.
#[derive(Drop)]
pub struct DiskFiles<D: Disk> {
    disk: D,
    // The inodes of the inputs.
    inputs: Vec<u128>,
    // Only regular files: several outputs may go to one pipe or to `/dev/null`.
    outputs: Vec<u128>,
    // Whether a flush waits for the disk on every device.
    syncs_always: bool,
    // Whether a device that was handed back has failed.
    has_failed: bool,
    // Whether a target was handed back that was not flushed.
    has_unflushed: bool,
}

impl<D: Disk> Model for DiskFiles<D> {
    ghost use Rattle.fq_files.specs.Disks.{Tells};
    ghost use Rattle.fq_files.specs.ByInode.{AreThere, DiskHolding};

    ghost Value = { DiskHolding D };

    ghost view = { λ files. record {
      disk = files.disk;
      inputs = files.inputs.items;
      outputs = files.outputs.items;
      syncs_always = files.syncs_always;
      has_failed = files.has_failed;
      has_unflushed = files.has_unflushed;
    } };

    // No file is removed.
    ghost invariant = { λ files. Tells (D.state files.disk)
        → AreThere (D.state files.disk) files.inputs.items };
}

impl<D: Disk> DiskFiles<D> {
    ghost use Rattle.std.specs.Prelude.{◌≡◌, ◌≢◌, ◌⊎◌, ◌<◌, ℕ, false, None, Some, Err, [], IfOk, OnOk, OnErr, IsTrue, IsErr};
    ghost use Rattle.fq_files.specs.Disks.{IsRegular, KeepsInodes, KeepsOthers, OnlyChanges, Tells};
    ghost use Rattle.fq_files.specs.States.{TellsWhy};
    ghost use Rattle.fq_files.specs.ByInode.{is_in, IsCause, IsSource, IsSynced, IsTarget, KeepsOrCreates, KeepsThese, KeepsUnnamed, Remain, Syncs};

    /// The files of this disk, none of them an input or an output.
    pub fn new(alloc: Global, disk: D) -> DiskFiles<D>
        ensures disk { result.disk ≡ disk }
        ensures inputs { result.inputs ≡ [] }
        ensures outputs { result.outputs ≡ [] }
    {
        DiskFiles {
            disk,
            inputs: Vec::new(alloc),
            outputs: Vec::new(alloc),
            syncs_always: false,
            has_failed: false,
            has_unflushed: false,
        }
    }

    /// The disk, whose files are no longer inputs or outputs.
    pub fn into_disk(self) -> D
        ensures { result ≡ self.disk }
    {
        self.disk
    }

    /// Keeps the regular file that this name leads to from becoming an output, since something else
    /// writes to it. Does nothing if the name leads to no regular file.
    pub fn keep(&mut self, name: &str) -> Result<(), OutOfMemory>
        ensures noted { OnOk result (Tells (D.state self.old.disk) → (i : ℕ)
            → (D.state self.old.disk).inode_of name.now ≡ Some i
            → IsTrue ((D.state self.old.disk).at i).is_there
            → IsRegular (D.state self.old.disk) i → IsTrue (is_in self.new.outputs i)) }
        ensures remain { Remain self.old.outputs self.new.outputs }
        ensures kept { self.new ≡ record self.old { outputs = self.new.outputs } }
    {
        if let Some(facts) = self.disk.find(name) {
            if facts.kind == Kind::Regular {
                self.outputs.push(facts.inode)?;
            }
        }
        Ok(())
    }

    /// Opens a feed of a file's bytes. No file changes. See [`Files::source`].
    pub fn open_source(&mut self, name: &str) -> Result<D::Reader, FileFault>
        ensures fresh { IfOk result (λ feed. (D.Reader.state feed).failures ≡ 0) }
        ensures given { IfOk result (λ feed. Tells (D.state self.old.disk)
            → IsSource (D.state self.old.disk) self.old.inputs self.new.inputs
            name.now (D.Reader.state feed)) }
        ensures twice { Tells (D.state self.old.disk) → (i : ℕ)
            → (D.state self.old.disk).inode_of name.now ≡ Some i
            → IsRegular (D.state self.old.disk) i
            → IsTrue (is_in self.old.inputs i) → IsErr result }
        ensures rightly { (cause : Cause) → result ≡ Err (FileFault.Refused cause)
            → Tells (D.state self.old.disk)
            → IsCause (D.state self.old.disk) self.old.inputs [] name.now cause }
        ensures err { OnErr result (self.new.inputs ≡ self.old.inputs) }
        ensures remain { Remain self.old.inputs self.new.inputs }
        ensures kept { self.new ≡ record self.old { inputs = self.new.inputs } }
    {
        let file = self.disk.open_read(name).map_err(refused)?;
        let facts = self.disk.look(&file).map_err(refused)?;
        self.may_read(facts)?;
        let reader = self.disk.reader(file)?;
        self.inputs.push(facts.inode).map_err(OutOfMemory::from)?;
        Ok(reader)
    }

    /// Hands a feed back. No file changes. See [`Files::source_done`].
    pub fn close_source(&mut self, feed: D::Reader) -> Seen
        ensures why { TellsWhy (D.Reader.state feed).failures result.error }
        ensures failed { 0 < (D.Reader.state feed).failures → IsTrue self.new.has_failed }
        ensures sound { (D.Reader.state feed).failures ≡ 0 → self.new ≡ self.old }
        ensures still { IsTrue self.old.has_failed → IsTrue self.new.has_failed }
        ensures kept { self.new ≡ record self.old { has_failed = self.new.has_failed } }
    {
        if feed.failures() > 0 {
            self.has_failed = true;
        }
        self.disk.seen(feed)
    }

    /// Whether this name leads to an input. Nothing changes. See [`Files::leads_to_input`].
    pub fn finds_input(&self, name: &str) -> bool
        ensures found { Tells (D.state self.now.disk) → (i : ℕ)
            → (D.state self.now.disk).inode_of name.now ≡ Some i
            → result ≡ is_in self.now.inputs i }
        ensures nothing { Tells (D.state self.now.disk)
            → (D.state self.now.disk).inode_of name.now ≡ None → result ≡ false }
    {
        match self.disk.find(name) {
            Some(facts) => self.is_input(facts.inode),
            None => false,
        }
    }

    /// Opens an outlet to a file, which is created, or emptied if it exists. See [`Files::target`].
    pub fn open_target(&mut self, name: &str) -> Result<D::Writer, FileFault>
        ensures fresh { IfOk result (λ outlet. (D.Writer.state outlet).failures ≡ 0) }
        ensures given { IfOk result (λ outlet. Tells (D.state self.old.disk)
            → IsTarget (D.state self.old.disk) (D.state self.new.disk) self.old.inputs
            self.old.outputs self.new.outputs name.now (D.Writer.state outlet)) }
        ensures synced { IfOk result (λ outlet. Tells (D.state self.old.disk) → (i : ℕ)
            → (D.state self.old.disk).inode_of name.now ≡ Some i
            → IsSynced (D.state self.new.disk) self.old.syncs_always i
            (D.Writer.syncs outlet)) }
        ensures input { Tells (D.state self.old.disk) → (i : ℕ)
            → (D.state self.old.disk).inode_of name.now ≡ Some i
            → IsTrue (is_in self.old.inputs i) → IsErr result }
        ensures output { Tells (D.state self.old.disk) → (i : ℕ)
            → (D.state self.old.disk).inode_of name.now ≡ Some i
            → IsTrue (is_in self.old.outputs i) → IsErr result }
        ensures rightly { (cause : Cause) → result ≡ Err (FileFault.Refused cause)
            → Tells (D.state self.old.disk) → IsCause (D.state self.old.disk)
            self.old.inputs self.old.outputs name.now cause }
        ensures inputs { Tells (D.state self.old.disk) → KeepsThese self.old.inputs
            (D.state self.old.disk) (D.state self.new.disk) }
        ensures outputs { Tells (D.state self.old.disk) → KeepsThese self.old.outputs
            (D.state self.old.disk) (D.state self.new.disk) }
        ensures others { Tells (D.state self.old.disk)
            → KeepsUnnamed (D.state self.old.disk) (D.state self.new.disk) name.now }
        ensures inodes { OnlyChanges (D.state self.old.disk) (D.state self.new.disk) }
        ensures spared { OnErr result (Tells (D.state self.old.disk)
            → KeepsOrCreates (D.state self.old.disk) (D.state self.new.disk)) }
        ensures remain { Remain self.old.outputs self.new.outputs }
        ensures kept { self.new ≡ record self.old {
          disk = self.new.disk;
          outputs = self.new.outputs;
        } }
    {
        // The file is opened with its bytes, and emptied only once it is known to be neither an
        // input nor another output.
        let file = self.disk.open_write(name).map_err(refused)?;
        let facts = self.disk.look(&file).map_err(refused)?;
        self.may_write(facts)?;
        let is_regular = facts.kind == Kind::Regular;
        if is_regular {
            self.outputs.push(facts.inode).map_err(OutOfMemory::from)?;
            // An empty file isn't truncated: ext4 would begin to write it to the disk as soon as it
            // is closed.
            if facts.length > 0 {
                self.disk.empty(&file).map_err(refused)?;
            }
        }
        Ok(
            self.disk
                .writer(file, is_regular && self.syncs(facts.inode)),
        )
    }

    /// Hands an outlet back: its file holds what it has taken. See [`Files::done`].
    pub fn close_target(&mut self, target: D::Writer) -> Option<SystemError>
        ensures stored { Tells (D.state self.old.disk) → (i : ℕ)
            → (D.Writer.state target).file ≡ Some i
            → IsTrue ((D.state self.old.disk).at i).is_there
            → (D.state self.new.disk).at i ≡ record ((D.state self.old.disk).at i) {
              bytes = (D.Writer.state target).taken;
            } }
        ensures others { (i : ℕ) → (D.Writer.state target).file ≡ Some i
            → KeepsOthers (D.state self.old.disk) (D.state self.new.disk) i }
        ensures idle { (D.Writer.state target).file ≡ None
            → KeepsInodes (D.state self.old.disk) (D.state self.new.disk) }
        ensures inodes { OnlyChanges (D.state self.old.disk) (D.state self.new.disk) }
        ensures why { TellsWhy (D.Writer.state target).failures result }
        ensures rightly { (error : SystemError) → result ≡ Some error → (i : ℕ)
            → (D.Writer.state target).file ≡ Some i
            → IsTrue ((D.state self.old.disk).fails i error) }
        ensures failed { 0 < (D.Writer.state target).failures → IsTrue self.new.has_failed }
        ensures sound { (D.Writer.state target).failures ≡ 0
            → self.new.has_failed ≡ self.old.has_failed }
        ensures still { IsTrue self.old.has_failed → IsTrue self.new.has_failed }
        ensures unflushed { (D.Writer.state target).is_flushed ≡ false
            → IsTrue self.new.has_unflushed }
        ensures flushed { IsTrue (D.Writer.state target).is_flushed
            → self.new.has_unflushed ≡ self.old.has_unflushed }
        ensures stays { IsTrue self.old.has_unflushed → IsTrue self.new.has_unflushed }
        ensures kept { self.new ≡ record self.old {
          disk = self.new.disk;
          has_failed = self.new.has_failed;
          has_unflushed = self.new.has_unflushed;
        } }
    {
        if target.failures() > 0 {
            self.has_failed = true;
        }
        let closed = self.disk.close(target);
        if !closed.is_flushed {
            self.has_unflushed = true;
        }
        closed.error
    }

    // Whether this inode is an input.
    fn is_input(&self, inode: u128) -> bool
        ensures { result ≡ is_in self.now.inputs inode }
    {
        self.inputs.iter().any(|input| *input == inode)
    }

    // Whether this inode is already an output.
    fn is_output(&self, inode: u128) -> bool
        ensures { result ≡ is_in self.now.outputs inode }
    {
        self.outputs.iter().any(|output| *output == inode)
    }

    // Whether a flush of a regular file waits for the disk. If the file's device has no block
    // device of its own, the system may report an error late.
    fn syncs(&self, inode: u128) -> bool
        ensures { Syncs self.now.syncs_always inode result }
    {
        self.syncs_always || major_of((inode / (1 << 64)) as u64) == 0
    }

    // Refuses what may not be an input.
    fn may_read(&self, facts: Facts) -> Result<(), FileFault>
        ensures input { result ≡ Err (FileFault.Refused Cause.Input)
            → IsTrue (is_in self.now.inputs facts.inode) }
        ensures output { result ≢ Err (FileFault.Refused Cause.Output) }
        ensures system { (error : SystemError)
            → result ≡ Err (FileFault.Refused (Cause.System error))
            → facts.kind ≡ Kind.Directory }
        ensures unread { OnOk result (facts.kind ≡ Kind.Regular
            → is_in self.now.inputs facts.inode ≡ false) }
    {
        match facts.kind {
            Kind::Directory => Err(refused(IS_DIRECTORY)),
            Kind::Regular => {
                if self.is_input(facts.inode) {
                    Err(FileFault::Refused(Cause::Input))
                } else {
                    Ok(())
                }
            }
            Kind::Device => Ok(()),
        }
    }

    // Refuses what may not be an output.
    fn may_write(&self, facts: Facts) -> Result<(), FileFault>
        ensures input { result ≡ Err (FileFault.Refused Cause.Input)
            → IsTrue (is_in self.now.inputs facts.inode) }
        ensures output { result ≡ Err (FileFault.Refused Cause.Output)
            → IsTrue (is_in self.now.outputs facts.inode) }
        ensures by { OnErr result ((result ≡ Err (FileFault.Refused Cause.Input))
            ⊎ (result ≡ Err (FileFault.Refused Cause.Output))) }
        ensures unread { OnOk result (is_in self.now.inputs facts.inode ≡ false) }
        ensures unwritten { OnOk result (is_in self.now.outputs facts.inode ≡ false) }
    {
        if self.is_input(facts.inode) {
            return Err(FileFault::Refused(Cause::Input));
        }
        if self.is_output(facts.inode) {
            return Err(FileFault::Refused(Cause::Output));
        }
        Ok(())
    }
}

impl<D: Disk> Files for DiskFiles<D>
where
    D::Reader: Send,
{
    ghost use Rattle.fq_files.specs.ByKey.{files_state_of};

    type In = D::Reader;

    type Target = D::Writer;

    ghost state = { λ files.
        files_state_of (D.state files.disk) files.inputs files.has_failed files.has_unflushed };

    fn source(&mut self, name: &str) -> Result<D::Reader, FileFault> {
        self.open_source(name)
    }

    fn source_done(&mut self, _name: &str, feed: D::Reader) -> Seen {
        self.close_source(feed)
    }

    fn leads_to_input(&self, name: &str) -> bool {
        self.finds_input(name)
    }

    fn sync_always(&mut self)
        ensures { self.new ≡ record self.old { syncs_always = true } }
    {
        self.syncs_always = true;
    }

    fn target(&mut self, name: &str) -> Result<D::Writer, FileFault> {
        self.open_target(name)
    }

    fn done(&mut self, _name: &str, target: D::Writer) -> Option<SystemError> {
        self.close_target(target)
    }
}
