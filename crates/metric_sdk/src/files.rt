//! Files that exporters write.
use metric_export::OpenSink;
use metric_io::{Broken, StdSink};
use metric_outlets::Pages;
use std::alloc::{AllocError, Global};
use std::fs::{self, File, OpenFile};
use std::io::{self, Read, Seek, SeekFrom, Write};
use std::rt::Files;

/// A file of lines that is added to, and made where there is none: what a
/// [`ReopeningExporter`](crate::ReopeningExporter) opens at first, after a write that failed, and after the file was
/// rotated. A line that was cut is ended, so that the next one is whole.
#[derive(Drop)]
pub struct AddedFile<'a, R> {
    /// The runtime.
    pub rt: &'a R,
    /// The path of the file.
    pub path: &'a str,
}

impl<R: Files> OpenSink<StdSink<R::File>> for AddedFile<'_, R> {
    ghost opens = { λ _ _ _. Unit {0} };

    fn open(&mut self) -> Result<StdSink<R::File>, Broken> {
        let mut options = File::options();
        options.read(true).append(true).create(true);
        match options.open(self.rt, self.path).and_then(with_last_line) {
            Ok(file) => Ok(StdSink::new(file)),
            Err(_) => Err(Broken),
        }
    }
}

// A file whose last line is ended.
fn with_last_line<F: Read + Seek + Write + Drop>(file: F) -> io::Result<F> {
    let (mut file, mut last) = (file, [b'\n']);
    if file.seek(SeekFrom::End(0))? > 0 {
        file.seek(SeekFrom::End(-1))?;
        file.read_exact(&mut last)?;
    }
    if last != [b'\n'] {
        file.write_all(b"\n")?;
    }
    Ok(file)
}

/// A file that is replaced as a whole: a page is written beside it, to its path with `.new`, and moved there, so that
/// who reads never sees a part of one.
#[derive(Drop)]
pub struct PageFile<'a, R> {
    rt: &'a R,
    path: &'a str,
    beside: String,
}

impl<'a, R: Files> PageFile<'a, R> {
    /// The file of this path. Fails only when out of memory.
    pub fn new(rt: &'a R, alloc: Global, path: &'a str) -> Result<PageFile<'a, R>, AllocError> {
        let beside = [path, ".new"].concat(alloc)?;
        Ok(PageFile { rt, path, beside })
    }

    fn write(&self, page: &[u8]) -> io::Result<()> {
        let mut options = File::options();
        options.write(true).create(true).truncate(true);
        let mut file = options.open(self.rt, self.beside.as_str())?;
        file.write_all(page)?;
        file.sync_all()?;
        fs::rename(self.rt, self.beside.as_str(), self.path)
    }
}

impl<R: Files> Pages for PageFile<'_, R> {
    ghost replaces = { λ _ _ _ _. Unit {0} };

    fn replace(&mut self, page: &[u8]) -> Result<(), Broken> {
        match self.write(page) {
            Ok(()) => Ok(()),
            Err(_) => Err(Broken),
        }
    }
}
