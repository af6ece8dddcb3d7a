//! Files by name.

ghost use Rattle.std.specs.Prelude.{◌≡◌, ◌≢◌, ◌<◌, ◌⊎◌, ℕ, List, false, Some, Err, [], IsTrue, IsSome, IfOk, OnOk, OnErr};
ghost use Rattle.fq_text.specs.Looks.{look_of};
ghost use Rattle.fq_files.specs.Holding.{KeepsOthers};
ghost use Rattle.fq_files.specs.States.{FilesState, KeepsFailed, MayRefuse, MayRefuseInput, MaySay, TellsWhy, OnlyOpens, OnlyFails, OnlyWrites, OnlyStores, StillHeld};

use fq_text::{Feed, MemoryRefused, OutOfMemory, Outlet, Seen, SystemError};
use thiserror::Error;

/// Why a file is refused.
#[derive(Clone, Copy, Debug, PartialEq, Eq)]
pub enum Cause {
    /// The system refused it: there is no such file, or it can't be opened or created.
    System(SystemError),
    /// It is already an input.
    Input,
    /// It is already an output.
    Output,
}

/// Why a file can't be read or written.
#[derive(Clone, Copy, Debug, PartialEq, Eq, Error)]
pub enum FileFault {
    /// The file was refused.
    #[error("the file was refused")]
    Refused(Cause),
    /// Memory was refused.
    #[error("out of memory")]
    OutOfMemory(MemoryRefused),
}

impl From<OutOfMemory> for FileFault {
    ghost use Rattle.std.specs.Prelude.{◌≡◌};
    ghost use Rattle.fq_text.specs.declared.memory.MemoryRefused.{MemoryRefused};
    ghost use Rattle.fq_files.specs.declared.files.FileFault.TheVariants.{OutOfMemory};

    ghost from_gives = { λ _ e. (refused : MemoryRefused) × (e ≡ OutOfMemory refused) };

    fn from(e: OutOfMemory) -> FileFault {
        FileFault::OutOfMemory(MemoryRefused::from(e))
    }
}

/// Files by name: feeds of files that exist, and outlets of files that are created.
///
/// Whether the bytes of a file are known to the proof is said by file, and never changes. In memory
/// all are ([`MemoryFiles`](crate::MemoryFiles)), and on a disk that tells them those of regular
/// files ([`DiskFiles`](crate::DiskFiles)). The contracts speak of the bytes of a file, and of
/// whether it is held, only if its bytes are known, and no such file is removed. No call changes
/// the bytes of another file than its own, also if those of its own are not known, as those of a
/// pipe.
///
/// The contracts also say which names may be refused, which lead to an input, for which names a
/// device has failed, which errors it may then say, and for which a target was not flushed. A
/// device is a feed or an outlet; its failures are known once it is handed back, by
/// [`source_done`](Files::source_done) or [`done`](Files::done).
pub trait Files {
    /// The feed that a file is read from.
    type In: Feed + Send + Drop + 'static;

    /// The outlet that a file is written to.
    type Target: Outlet + Drop;

    /// The files as contracts see them.
    ghost state: { Self → FilesState };

    /// Opens a feed of the file's bytes, which has not failed. No file changes. If the bytes are
    /// known to the proof, a name is refused only if it is not held, if its file is an input
    /// already, or for a cause for which that may be refused although it is there.
    fn source(&mut self, name: &str) -> Result<Self::In, FileFault>
        ensures fresh { IfOk result (λ feed. (Self.In.state feed).failures ≡ 0) }
        ensures telling { IfOk result (λ feed.
            IsTrue ((state self.old).tells ((state self.old).leads name.now))
            → IsTrue (Self.In.state feed).tells) }
        ensures given { IfOk result (λ feed.
            IsTrue ((state self.old).tells ((state self.old).leads name.now))
            → (state self.old).bytes ((state self.old).leads name.now)
            ≡ Some (Self.In.state feed).to_come) }
        ensures refused { (cause : Cause) → result ≡ Err (FileFault.Refused cause)
            → MayRefuseInput (state self.old)
            (IsTrue ((state self.old).is_open ((state self.old).leads name.now)))
            ((state self.old).leads name.now) cause }
        ensures kept { OnlyOpens (state self.old) (state self.new) }
        ensures opened { OnOk result (IsTrue
            ((state self.new).is_open ((state self.old).leads name.now))) }
        ensures unopened { OnErr result (state self.new ≡ state self.old) }
        ensures remains { (other : List ℕ) → IsTrue ((state self.old).is_open other)
            → IsTrue ((state self.new).is_open other) }
        ensures linked { (other : List ℕ) → other ≢ (state self.old).leads name.now
            → IsTrue ((state self.new).is_open other)
            → MayRefuse (state self.old) other Cause.Input };

    /// Hands a feed back: if it failed, a device of this name has failed. Returns why if it failed,
    /// and what the file looks like, as far as that is known. No file changes.
    fn source_done(&mut self, name: &str, feed: Self::In) -> Seen
        ensures kept { OnlyFails (state self.old) (state self.new) }
        ensures why { TellsWhy (Self.In.state feed).failures result.error }
        ensures says { MaySay (state self.old).may_say
            (Some ((state self.old).leads name.now)) result.error }
        ensures look { IsTrue (state self.old).looks → (bytes : List ℕ)
            → (state self.old).bytes ((state self.old).leads name.now) ≡ Some bytes
            → result.look ≡ look_of bytes }
        ensures failed { 0 < (Self.In.state feed).failures
            → IsTrue ((state self.new).has_failed ((state self.old).leads name.now)) }
        ensures sound { (Self.In.state feed).failures ≡ 0 → state self.new ≡ state self.old }
        ensures still { KeepsFailed (state self.old) (state self.new) };

    /// Whether this name leads to a file that was opened as an input, also under another name (such
    /// as a link). Nothing changes.
    ///
    /// Ask for each name before the first [`target`](Files::target), which empties what it opens.
    fn leads_to_input(&self, name: &str) -> bool
        ensures no_other { IsTrue result
            → IsTrue ((state self.now).is_open ((state self.now).leads name.now)) }
        ensures found { IsTrue ((state self.now).tells ((state self.now).leads name.now))
            → IsTrue ((state self.now).is_open ((state self.now).leads name.now))
            → IsTrue result };

    /// From now on a flush of each new target waits until its bytes are on stable storage. Files
    /// without a disk, such as those in memory, have nothing to wait for. No file changes.
    ///
    /// Call it before the first [`target`](Files::target): targets that exist already flush as
    /// before.
    fn sync_always(&mut self)
        ensures { state self.new ≡ state self.old }
    {}

    /// Opens an outlet to the file, which is created, or emptied if it exists. The outlet has taken
    /// nothing, and has not failed. If the file is refused, it holds what it held before, or
    /// nothing. A name is refused only because its file is an input, or for a cause for which that
    /// may be refused, whether it is there or not.
    fn target(&mut self, name: &str) -> Result<Self::Target, FileFault>
        ensures fresh { IfOk result (λ target. (Self.Target.state target).failures ≡ 0) }
        ensures telling { IfOk result (λ target.
            IsTrue ((state self.old).tells ((state self.old).leads name.now))
            → IsSome (Self.Target.state target).file) }
        ensures nothing { IfOk result (λ target.
            IsTrue ((state self.old).tells ((state self.old).leads name.now))
            → (Self.Target.state target).taken ≡ []) }
        ensures emptied { OnOk result
            (IsTrue ((state self.old).tells ((state self.old).leads name.now))
            → (state self.new).bytes ((state self.old).leads name.now) ≡ Some []) }
        ensures written { IfOk result (λ target. IsTrue ((state self.old).writes
            (Self.Target.state target).file ((state self.old).leads name.now))) }
        ensures refused { OnErr result
            (IsTrue ((state self.old).tells ((state self.old).leads name.now))
            → ((state self.new).bytes ((state self.old).leads name.now)
            ≡ (state self.old).bytes ((state self.old).leads name.now))
            ⊎ ((state self.new).bytes ((state self.old).leads name.now) ≡ Some [])) }
        ensures held { StillHeld (state self.old) (state self.new) }
        ensures others { KeepsOthers (state self.old).bytes
            (state self.new).bytes ((state self.old).leads name.now) }
        ensures kept { OnlyWrites (state self.old) (state self.new) }
        ensures rightly { (cause : Cause) → result ≡ Err (FileFault.Refused cause)
            → MayRefuse (state self.old) ((state self.old).leads name.now) cause };

    /// Hands an outlet back: the file, if the name is held, as it is once
    /// [`target`](Files::target) has returned `Ok` for it, holds what the outlet has taken, and if
    /// the outlet failed, a device of this name has failed. Returns why if it failed.
    fn done(&mut self, name: &str, target: Self::Target) -> Option<SystemError>
        ensures stored { IsTrue ((state self.old).tells ((state self.old).leads name.now))
            → IsTrue ((state self.old).writes
            (Self.Target.state target).file ((state self.old).leads name.now))
            → IsSome ((state self.old).bytes ((state self.old).leads name.now))
            → (state self.new).bytes ((state self.old).leads name.now)
            ≡ Some (Self.Target.state target).taken }
        ensures held { StillHeld (state self.old) (state self.new) }
        ensures others { IsTrue ((state self.old).writes
            (Self.Target.state target).file ((state self.old).leads name.now))
            → KeepsOthers (state self.old).bytes
            (state self.new).bytes ((state self.old).leads name.now) }
        ensures kept { OnlyStores (state self.old) (state self.new) }
        ensures why { TellsWhy (Self.Target.state target).failures result }
        ensures says { MaySay (state self.old).may_say
            (Some ((state self.old).leads name.now)) result }
        ensures failed { 0 < (Self.Target.state target).failures
            → IsTrue ((state self.new).has_failed ((state self.old).leads name.now)) }
        ensures sound { (Self.Target.state target).failures ≡ 0
            → (state self.new).has_failed ≡ (state self.old).has_failed }
        ensures still { KeepsFailed (state self.old) (state self.new) }
        ensures unflushed { (Self.Target.state target).is_flushed ≡ false
            → IsTrue ((state self.new).is_unflushed ((state self.old).leads name.now)) }
        ensures flushed { IsTrue (Self.Target.state target).is_flushed
            → (state self.new).is_unflushed ≡ (state self.old).is_unflushed }
        ensures stays { (other : List ℕ) → IsTrue ((state self.old).is_unflushed other)
            → IsTrue ((state self.new).is_unflushed other) };
}
