//! Files on a disk.
use crate::progress::Progress;
use metric_base::Text;
use metric_command_lines::is_standard;
use metric_io::{ReadFault, StdSource, read_all};
use std::alloc::{AllocError, Global};
use std::fs::{self, File, Metadata, OpenOptions, TryLockError};
use std::io::{Error, ErrorKind, Read, Write};
use std::os::unix::fs::{MetadataExt, fchown};
use std::os::unix::io::AsFd;
use wormweekly_commands::{Folder, Unread, Unwritten};

// The file that standard input is, which says why it is not read.
const STANDARD_INPUT: &str = "/dev/stdin";

// The longest input, in bytes.
const MOST_BYTES: u64 = 67_108_864;

// How many names are tried for a file that is written beside the one that it replaces.
const MOST_NAMES: u32 = 1_000;

// Under so many of these names what an ended run has left is looked for: a run takes the first that is free.
const MOST_LEFT: u32 = 16;

/// The files of the machine, and standard input as the file at `-`.
#[derive(Clone, Copy)]
pub struct Disk<'a> {
    pub rt: &'a HostRuntime,
    /// Where it is shown which file is read.
    pub progress: &'a Progress<'a>,
}

impl Folder for Disk<'_> {
    ghost use Rattle.std.specs.Prelude.{None};

    ghost held = { λ _ _. None };

    ghost same = { λ _ _ _. None };

    ghost made = { λ _. None };

    fn read(&self, alloc: Global, path: &str) -> Result<Text, Unread> {
        if is_standard(path) {
            return self.text_in(alloc, STANDARD_INPUT, self.rt.stdin());
        }
        self.progress.reads();
        let answer = self.text_at(alloc, path);
        self.progress.works();
        answer
    }

    fn is_same(&self, path: &str, other: &str) -> bool {
        path == other || !is_standard(other) && self.lead_to_one(path, other)
    }

    fn write(&mut self, path: &str, text: &[u8]) -> Result<(), Unwritten> {
        let written = match fs::metadata(self.rt, path) {
            Ok(found) if found.is_file() => self.write_over(path, text, found),
            // A terminal, a pipe or a directory: nothing can stand in its place.
            Ok(_) => fs::write(self.rt, path, text),
            Err(error) if error.kind() == ErrorKind::NotFound => self.write_new(path, text),
            Err(error) => Err(error),
        };
        match written {
            Ok(()) => Ok(()),
            Err(error) => Err(unwritten(error.kind())),
        }
    }
}

impl Disk<'_> {
    // The text of the file at a path.
    fn text_at(&self, alloc: Global, path: &str) -> Result<Text, Unread> {
        match fs::open(self.rt, path) {
            Ok(file) => self.text_in(alloc, path, file),
            Err(error) => Err(unread(error.kind())),
        }
    }

    // The text of an open file.
    fn text_in<R: Read + Drop>(&self, alloc: Global, path: &str, file: R) -> Result<Text, Unread> {
        let mut source = StdSource::new(file);
        match read_all(alloc, &mut source) {
            Ok(bytes) => match String::from_utf8(bytes) {
                Ok(text) => Ok(Text::from_string(text)),
                Err(_) => Err(Unread::NotText),
            },
            Err(ReadFault::Read) => Err(self.cause_of(path)),
            Err(ReadFault::Memory) => Err(Unread::Memory),
        }
    }

    // Why a file that could be opened is not read.
    fn cause_of(&self, path: &str) -> Unread {
        match fs::metadata(self.rt, path) {
            Ok(found) if found.is_dir() => Unread::Directory,
            Ok(found) if found.len() > MOST_BYTES => Unread::TooLong,
            _ => Unread::Unreadable,
        }
    }

    // Whether two paths that are there lead to one file.
    fn lead_to_one(&self, path: &str, other: &str) -> bool {
        match (
            fs::canonicalize(self.rt, path),
            fs::canonicalize(self.rt, other),
        ) {
            (Ok(one), Ok(two)) => one.as_path() == two.as_path(),
            _ => false,
        }
    }

    // Puts a file in the place of one that is there and may be written, with its owner and its mode, and of none of the
    // links that lead to it.
    fn write_over(&self, path: &str, text: &[u8], old: Metadata) -> Result<(), Error> {
        let found = fs::canonicalize(self.rt, path)?;
        let _writable = OpenOptions::new()
            .write(true)
            .open(self.rt, found.as_str())?;
        self.replace(found.as_str(), text, Some(old))
    }

    // Makes a file that is not there; a link to none is followed.
    fn write_new(&self, path: &str, text: &[u8]) -> Result<(), Error> {
        if fs::symlink_metadata(self.rt, path).is_ok() {
            fs::write(self.rt, path, text)
        } else {
            self.replace(path, text, None)
        }
    }

    // Writes a file beside a path, and puts it there once it is whole. What ended runs have left beside it is removed.
    fn replace(&self, path: &str, text: &[u8], old: Option<Metadata>) -> Result<(), Error> {
        for number in 0..MOST_LEFT {
            self.remove_left(self.beside(path, number)?.as_str());
        }
        for number in 0..MOST_NAMES {
            let beside = self.beside(path, number)?;
            match File::create_new(self.rt, beside.as_str()) {
                Ok(mut file) => {
                    if self.is_held(&file, beside.as_str()) {
                        let made = fill(&mut file, text, old);
                        return self.put_there(made, beside.as_str(), path);
                    }
                }
                Err(error) if error.kind() == ErrorKind::AlreadyExists => {}
                Err(error) => return Err(error),
            }
        }
        Err(Error::from(ErrorKind::AlreadyExists))
    }

    // Removes a file beside a path that no run holds, since the one that made it was ended.
    fn remove_left(&self, beside: &str) {
        if let Ok(found) = fs::symlink_metadata(self.rt, beside)
            && found.is_file()
            && let Ok(file) = fs::open(self.rt, beside)
            && file.try_lock().is_ok()
            && self.is_at(&file, beside)
        {
            let _removed = fs::remove_file(self.rt, beside);
        }
    }

    // Whether a new file is still at its path once this run holds it. Where the disk knows no locks, nobody holds any.
    fn is_held(&self, file: &File, path: &str) -> bool {
        match file.try_lock() {
            Err(TryLockError::WouldBlock) => false,
            _ => self.is_at(file, path),
        }
    }

    fn is_at(&self, file: &File, path: &str) -> bool {
        match (file.metadata(), fs::symlink_metadata(self.rt, path)) {
            (Ok(own), Ok(found)) => own.ino() == found.ino() && own.dev() == found.dev(),
            _ => false,
        }
    }

    // The path of a file in the folder of a path, whose name is short however long that path is.
    fn beside(&self, path: &str, number: u32) -> Result<String, AllocError> {
        match path.rsplit_once('/') {
            Some((folder, _)) => {
                format!(in self.rt.alloc(); "{folder}/.wormweekly.{number}.new")
            }
            None => format!(in self.rt.alloc(); ".wormweekly.{number}.new"),
        }
    }

    // Moves a file that is made to a path, or removes it.
    fn put_there(&self, made: Result<(), Error>, beside: &str, path: &str) -> Result<(), Error> {
        let moved = match made {
            Ok(()) => fs::rename(self.rt, beside, path),
            Err(error) => Err(error),
        };
        if moved.is_err() {
            let _removed = fs::remove_file(self.rt, beside);
        }
        moved
    }
}

// Writes a new file to the disk, with the mode of an old one from the first byte on, and its owner where that may be.
fn fill(file: &mut File, text: &[u8], old: Option<Metadata>) -> Result<(), Error> {
    if let Some(old) = old {
        let _owned = fchown(file.as_fd(), Some(old.uid()), Some(old.gid()));
        file.set_permissions(old.permissions())?;
    }
    file.write_all(text)?;
    file.sync_all()
}

// Why a file is not read that cannot be opened.
fn unread(kind: ErrorKind) -> Unread {
    match kind {
        ErrorKind::NotFound | ErrorKind::NotADirectory => Unread::Missing,
        ErrorKind::PermissionDenied => Unread::Denied,
        ErrorKind::IsADirectory => Unread::Directory,
        _ => Unread::Unreadable,
    }
}

// Why a file is not written.
fn unwritten(kind: ErrorKind) -> Unwritten {
    match kind {
        ErrorKind::NotFound | ErrorKind::NotADirectory => Unwritten::Missing,
        ErrorKind::IsADirectory => Unwritten::Directory,
        ErrorKind::PermissionDenied | ErrorKind::ReadOnlyFilesystem => Unwritten::Denied,
        ErrorKind::StorageFull | ErrorKind::QuotaExceeded | ErrorKind::FileTooLarge => {
            Unwritten::Full
        }
        ErrorKind::InvalidFilename => Unwritten::LongName,
        _ => Unwritten::Unwritable,
    }
}
