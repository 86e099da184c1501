//! Where files are read and written.
ghost use Rattle.std.specs.Prelude.{◌≡◌, ℕ, Bool, List, Option, IfOk, IfSome, OnErr, OnOk, true};
ghost use Rattle.wormweekly_commands.specs.Folders.{MadeFile, Makes};

use metric_base::Text;
use std::alloc::{AllocError, Global};

/// Why a file was not read.
#[derive(Clone, Copy, Debug, PartialEq, Eq, Drop)]
pub enum Unread {
    /// There is no such file.
    Missing,
    /// It is a directory.
    Directory,
    /// The permission to read it is denied.
    Denied,
    /// It is longer than an input may be.
    TooLong,
    /// It cannot be read for another cause, or is longer than an input may be and does not say how long.
    Unreadable,
    /// It is no UTF-8.
    NotText,
    /// It is a catalogue whose values are too many in full.
    TooLarge,
    /// Out of memory.
    Memory,
}

impl Unread {
    /// Why the file was not read, in words.
    pub fn words(self) -> &'static str {
        match self {
            Unread::Missing => "there is no such file",
            Unread::Directory => "it is a directory",
            Unread::Denied => "the permission to read it is denied",
            Unread::TooLong => "it has more than 67108864 bytes",
            Unread::Unreadable => "it cannot be read, or has more than 67108864 bytes",
            Unread::NotText => "it is not UTF-8",
            Unread::TooLarge => {
                "in full it has more than 8388608 bytes of values, with 16 more for each"
            }
            Unread::Memory => "out of memory",
        }
    }
}

impl From<AllocError> for Unread {
    ghost use Rattle.std.specs.Prelude.{◌≡◌};
    ghost use Rattle.wormweekly_commands.specs.declared.folder.Unread.TheVariants.{Memory};

    ghost from_gives = { λ _ fault. fault ≡ Memory };

    fn from(_refused: AllocError) -> Unread {
        Unread::Memory
    }
}

/// Why a file was not made.
#[derive(Clone, Copy, Debug, PartialEq, Eq, Drop)]
pub enum Unwritten {
    /// There is no such directory.
    Missing,
    /// It is a directory.
    Directory,
    /// The permission to make it is denied.
    Denied,
    /// There is no space for it.
    Full,
    /// Its name is too long.
    LongName,
    /// It cannot be written for another cause.
    Unwritable,
}

impl Unwritten {
    /// Why the file was not made, in words.
    pub fn words(self) -> &'static str {
        match self {
            Unwritten::Missing => "there is no such directory",
            Unwritten::Directory => "it is a directory",
            Unwritten::Denied => "the permission to write it is denied",
            Unwritten::Full => "no space is left for it",
            Unwritten::LongName => "its name is too long",
            Unwritten::Unwritable => "it cannot be written",
        }
    }
}

/// Where files are read by their paths, and written.
///
/// Contracts see the text that is under a path, where the folder knows it, whether two paths lead to one file, where it
/// knows that, and the files that were made, in order, where it knows these.
pub trait Folder {
    ghost held: { Self → List ℕ → Option (List ℕ) };

    ghost same: { Self → List ℕ → List ℕ → Option Bool };

    ghost made: { Self → Option (List MadeFile) };

    /// The text of the file at a path.
    fn read(&self, alloc: Global, path: &str) -> Result<Text, Unread>
        ensures { IfOk result (λ read.
            IfSome (held self.now path.now) (λ known. read ≡ known)) };

    /// Whether two paths lead to one file, as a path and itself do.
    fn is_same(&self, path: &str, other: &str) -> bool
        ensures known { IfSome (same self.now path.now other.now) (λ known. result ≡ known) }
        ensures own { path.now ≡ other.now → result ≡ true };

    /// Makes a file of this text at a path, in place of one that is there, as a whole or not at all.
    fn write(&mut self, path: &str, text: &[u8]) -> Result<(), Unwritten>
        ensures ok { OnOk result (Makes (made self.old) (made self.new) path.now text.now) }
        ensures err { OnErr result (made self.new ≡ made self.old) };
}
