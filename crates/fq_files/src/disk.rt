//! A disk as a program calls it.

ghost use Rattle.std.specs.Prelude.{◌≡◌, ◌⊎◌, ◌<◌, ℕ, Bool, Some, None, Err, [], false, IfOk, IfSome, OnOk, OnErr, IsTrue};
ghost use Rattle.fq_files.specs.Disks.{DiskState, IsCreated, IsFacts, IsFactsOf, IsRegular, KeepsInodes, KeepsOthers, OnlyChanges, Tells};
ghost use Rattle.fq_files.specs.States.{TellsWhy};

use fq_text::{Feed, OutOfMemory, Outlet, Seen, SystemError};

/// What kind of file an inode is.
#[derive(Clone, Copy, Debug, PartialEq, Eq)]
pub enum Kind {
    /// A regular file: it holds bytes.
    Regular,
    /// A directory.
    Directory,
    /// A pipe, a terminal or another device.
    Device,
}

/// What the system says of a file.
#[derive(Clone, Copy, Debug)]
pub struct Facts {
    /// Its inode: the number of its device times 2^64, and its number there.
    pub inode: u128,
    /// What kind of file it is.
    pub kind: Kind,
    /// How many bytes it holds, if it is regular.
    pub length: u64,
}

/// What is known of a writer once it is closed.
#[derive(Clone, Copy, Debug)]
pub struct Closed {
    /// Why its last failed call failed, if one failed.
    pub error: Option<SystemError>,
    /// Whether the last of its writes and flushes was a flush that succeeded.
    pub is_flushed: bool,
}

/// A file that is open: it is one inode, whatever its name.
pub trait Opened {
    /// The inode.
    ghost inode: { Self → ℕ };
}

/// What writes an open file.
pub trait Written {
    /// Whether a flush waits until the bytes are on stable storage.
    ghost syncs: { Self → Bool };
}

/// A disk: names that lead to inodes, through links too, and what each inode holds.
///
/// Each clause says by inode what changes. A disk that doesn't tell (`Tells`) promises nothing of
/// names and bytes. The bytes of an inode are those that it holds while nothing writes to it:
/// contracts don't see them change before [`close`](Disk::close). So read no file between the first
/// write to it and that call. No write to a pipe or a device changes a regular file.
pub trait Disk {
    /// A file that was opened, and of which nothing was read or written yet.
    type File: Opened + Drop;

    /// What reads a file.
    type Reader: Feed + Drop + 'static;

    /// What writes a file.
    type Writer: Outlet + Written + Drop;

    /// The disk as contracts see it.
    ghost state: { Self → DiskState };

    /// Opens a file to be read. Nothing changes.
    fn open_read(&self, name: &str) -> Result<Self::File, SystemError>
        ensures leads { IfOk result (λ file. Tells (state self.now)
            → (state self.now).inode_of name.now ≡ Some (Self.File.inode file)) }
        ensures there { IfOk result (λ file. Tells (state self.now)
            → IsTrue ((state self.now).at (Self.File.inode file)).is_there) }
        ensures rightly { (error : SystemError) → result ≡ Err error
            → IsTrue ((state self.now).refuses name.now error) };

    /// Opens a file to be written, and creates it if there is none. It keeps its bytes.
    fn open_write(&mut self, name: &str) -> Result<Self::File, SystemError>
        ensures kept { OnlyChanges (state self.old) (state self.new) }
        ensures leads { IfOk result (λ file. Tells (state self.old)
            → (state self.new).inode_of name.now ≡ Some (Self.File.inode file)) }
        ensures there { IfOk result (λ file. Tells (state self.old)
            → IsTrue ((state self.new).at (Self.File.inode file)).is_there) }
        ensures made { IfOk result (λ file. Tells (state self.old)
            → KeepsInodes (state self.old) (state self.new)
            ⊎ IsCreated (state self.old) (state self.new) (Self.File.inode file)) }
        ensures others { IfOk result (λ file. Tells (state self.old)
            → KeepsOthers (state self.old) (state self.new) (Self.File.inode file)) }
        ensures err { OnErr result (KeepsInodes (state self.old) (state self.new)) }
        ensures rightly { (error : SystemError) → result ≡ Err error
            → IsTrue ((state self.old).refuses name.now error) };

    /// What the system says of an open file (`fstat`). Nothing changes.
    fn look(&self, file: &Self::File) -> Result<Facts, SystemError>
        ensures facts { IfOk result (λ facts. Tells (state self.now)
            → IsFacts (state self.now) (Self.File.inode file.now) facts) }
        ensures rightly { (error : SystemError) → result ≡ Err error
            → IsTrue ((state self.now).fails (Self.File.inode file.now) error) };

    /// What the system says of the file that a name leads to, links followed (`stat`). Nothing
    /// changes.
    fn find(&self, name: &str) -> Option<Facts>
        ensures facts { IfSome result (λ facts. Tells (state self.now)
            → IsFactsOf (state self.now) name.now facts) }
        ensures nothing { result ≡ None → Tells (state self.now) → (i : ℕ)
            → (state self.now).inode_of name.now ≡ Some i
            → ((state self.now).at i).is_there ≡ false };

    /// Empties a regular file (`ftruncate`).
    fn empty(&mut self, file: &Self::File) -> Result<(), SystemError>
        ensures kept { OnlyChanges (state self.old) (state self.new) }
        ensures ok { OnOk result (Tells (state self.old)
            → (state self.new).at (Self.File.inode file.now)
            ≡ record ((state self.old).at (Self.File.inode file.now)) { bytes = [] }) }
        ensures others { KeepsOthers (state self.old) (state self.new)
            (Self.File.inode file.now) }
        ensures err { OnErr result (KeepsInodes (state self.old) (state self.new)) }
        ensures rightly { (error : SystemError) → result ≡ Err error
            → IsTrue ((state self.old).fails (Self.File.inode file.now) error) };

    /// The reader of an open file. Nothing changes.
    fn reader(&self, file: Self::File) -> Result<Self::Reader, OutOfMemory>
        ensures fresh { IfOk result (λ reader. (Self.Reader.state reader).failures ≡ 0) }
        ensures telling { IfOk result (λ reader. Tells (state self.now)
            → IsRegular (state self.now) (Self.File.inode file)
            → IsTrue (Self.Reader.state reader).tells) }
        ensures given { IfOk result (λ reader. Tells (state self.now)
            → IsRegular (state self.now) (Self.File.inode file)
            → (Self.Reader.state reader).to_come
            ≡ ((state self.now).at (Self.File.inode file)).bytes) };

    /// What a reader can say after it was used. Nothing changes.
    fn seen(&self, reader: Self::Reader) -> Seen
        ensures why { TellsWhy (Self.Reader.state reader).failures result.error };

    /// The writer of an open file, which is empty if it is regular. It tells no other inode's
    /// number. If it `syncs`, a flush waits until its bytes are on stable storage. Nothing changes.
    fn writer(&self, file: Self::File, syncs: bool) -> Self::Writer
        requires empty { Tells (state self.now)
            → IsRegular (state self.now) (Self.File.inode file)
            → ((state self.now).at (Self.File.inode file)).bytes ≡ [] }
        ensures fresh { (Self.Writer.state result).failures ≡ 0 }
        ensures telling { Tells (state self.now)
            → IsRegular (state self.now) (Self.File.inode file)
            → (Self.Writer.state result).file ≡ Some (Self.File.inode file) }
        ensures nothing { Tells (state self.now)
            → IsRegular (state self.now) (Self.File.inode file)
            → (Self.Writer.state result).taken ≡ [] }
        ensures own { Tells (state self.now) → (i : ℕ)
            → (Self.Writer.state result).file ≡ Some i → i ≡ Self.File.inode file }
        ensures syncs { Self.Writer.syncs result ≡ syncs };

    /// Closes a writer. The inode whose number it tells, if that is there, holds what it has taken.
    /// A writer that tells none changes no inode.
    fn close(&mut self, writer: Self::Writer) -> Closed
        ensures kept { OnlyChanges (state self.old) (state self.new) }
        ensures stored { Tells (state self.old) → (i : ℕ)
            → (Self.Writer.state writer).file ≡ Some i
            → IsTrue ((state self.old).at i).is_there
            → (state self.new).at i ≡ record ((state self.old).at i) {
              bytes = (Self.Writer.state writer).taken;
            } }
        ensures others { (i : ℕ) → (Self.Writer.state writer).file ≡ Some i
            → KeepsOthers (state self.old) (state self.new) i }
        ensures idle { (Self.Writer.state writer).file ≡ None
            → KeepsInodes (state self.old) (state self.new) }
        ensures why { TellsWhy (Self.Writer.state writer).failures result.error }
        ensures rightly { (error : SystemError) → result.error ≡ Some error → (i : ℕ)
            → (Self.Writer.state writer).file ≡ Some i
            → IsTrue ((state self.old).fails i error) }
        ensures flushed { result.is_flushed ≡ (Self.Writer.state writer).is_flushed };

    /// An inode that the disk calls plain is a regular file, if it is there.
    ghost regular: { (disk : Self) (i : ℕ) → IsTrue ((state disk).is_plain i)
        → IsTrue ((state disk).at i).is_there → IsRegular (state disk) i };
}
