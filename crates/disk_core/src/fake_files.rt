//! A file system with one file in one folder, for tests. It takes and gives one byte at a time, keeps apart what was
//! synced, and answers one call by an error of the test's choice.
ghost use Rattle.std.specs.Prelude.{IsErr};

use std::alloc::Allocator;
use std::cell::Cell;
use std::fs::{Files, Metadata, OpenFile, OpenOptions};
use std::io;
use std::io::{Error, ErrorKind, Read, Seek, SeekFrom, Write};
use std::os::unix::fs::FileExt;
use std::rc::Rc;

/// How many bytes the file may have.
pub(crate) const ROOM: usize = 16;

/// What became of the file.
#[derive(Drop)]
pub(crate) struct FakeDisk {
    pub(crate) bytes: [Cell<u8>; ROOM],
    pub(crate) length: Cell<usize>,
    pub(crate) exists: Cell<bool>,
    /// Whether it may be written.
    pub(crate) writable: Cell<bool>,
    /// Bytes that were written and not synced since.
    pub(crate) unsynced: Cell<u32>,
    pub(crate) file_syncs: Cell<u32>,
    pub(crate) folder_syncs: Cell<u32>,
    pub(crate) calls: Cell<u32>,
    /// Which call fails, counted from 1, how often in a row, and how.
    pub(crate) failing: Cell<u32>,
    pub(crate) times: Cell<u32>,
    pub(crate) kind: Cell<ErrorKind>,
}

impl FakeDisk {
    pub(crate) fn new(exists: bool) -> FakeDisk {
        FakeDisk {
            bytes: [
                Cell::new(0),
                Cell::new(0),
                Cell::new(0),
                Cell::new(0),
                Cell::new(0),
                Cell::new(0),
                Cell::new(0),
                Cell::new(0),
                Cell::new(0),
                Cell::new(0),
                Cell::new(0),
                Cell::new(0),
                Cell::new(0),
                Cell::new(0),
                Cell::new(0),
                Cell::new(0),
            ],
            length: Cell::new(0),
            exists: Cell::new(exists),
            writable: Cell::new(true),
            unsynced: Cell::new(0),
            file_syncs: Cell::new(0),
            folder_syncs: Cell::new(0),
            calls: Cell::new(0),
            failing: Cell::new(0),
            times: Cell::new(1),
            kind: Cell::new(ErrorKind::Other),
        }
    }

    /// The call with that number fails so, and those behind it, so many in all.
    pub(crate) fn fail(&self, call: u32, times: u32, kind: ErrorKind) {
        self.failing.set(call);
        self.times.set(times);
        self.kind.set(kind);
    }

    fn call(&self) -> io::Result<()> {
        let number = self.calls.get().saturating_add(1);
        self.calls.set(number);
        let first = self.failing.get();
        if first != 0 && first <= number && number - first < self.times.get() {
            return Err(Error::from(self.kind.get()));
        }
        Ok(())
    }
}

/// The file system over it.
#[derive(Drop)]
pub(crate) struct FakeFiles {
    pub(crate) disk: Rc<FakeDisk>,
}

/// The file, or its folder.
#[derive(Drop)]
pub(crate) struct FakeFile {
    disk: Rc<FakeDisk>,
    is_folder: bool,
    is_writable: bool,
}

fn unsupported<T>() -> io::Result<T>
    ensures { IsErr result }
{
    Err(Error::from(ErrorKind::Unsupported))
}

impl Files for FakeFiles {
    type File = FakeFile;

    type Dir = FakeFile;

    fn open_file(&self, how: &OpenOptions, path: &str) -> io::Result<FakeFile> {
        self.disk.call()?;
        how.check()?;
        let is_folder = path == "folder";
        if how.asks_write() && (is_folder || !self.disk.writable.get()) {
            return Err(Error::from(ErrorKind::PermissionDenied));
        }
        if !is_folder && !self.disk.exists.get() {
            if !how.asks_create() {
                return Err(Error::from(ErrorKind::NotFound));
            }
            self.disk.exists.set(true);
        }
        Ok(FakeFile {
            disk: self
                .disk
                .clone()
                .map_err(|_| Error::from(ErrorKind::OutOfMemory))?,
            is_folder,
            is_writable: how.asks_write(),
        })
    }

    fn open_dir(&self, _path: &str) -> io::Result<FakeFile> {
        unsupported()
    }

    fn metadata(&self, _path: &str) -> io::Result<Metadata> {
        unsupported()
    }

    fn symlink_metadata(&self, _path: &str) -> io::Result<Metadata> {
        unsupported()
    }

    fn copy(&self, _from: &str, _to: &str) -> io::Result<u64> {
        unsupported()
    }

    fn rename(&self, _from: &str, _to: &str) -> io::Result<()> {
        unsupported()
    }

    fn remove_file(&self, _path: &str) -> io::Result<()> {
        unsupported()
    }

    fn create_dir(&self, _path: &str) -> io::Result<()> {
        unsupported()
    }

    fn remove_dir(&self, _path: &str) -> io::Result<()> {
        unsupported()
    }

    fn remove_dir_all<B: Allocator>(&self, _alloc: B, _path: &str) -> io::Result<()> {
        unsupported()
    }
}

impl OpenFile for FakeFile {
    fn metadata(&self) -> io::Result<Metadata> {
        unsupported()
    }

    fn set_len(&self, _size: u64) -> io::Result<()> {
        unsupported()
    }

    fn sync_all(&self) -> io::Result<()> {
        self.disk.call()?;
        if self.is_folder {
            let count = self.disk.folder_syncs.get();
            self.disk.folder_syncs.set(count.saturating_add(1));
        }
        Ok(())
    }

    fn sync_data(&self) -> io::Result<()> {
        self.disk.call()?;
        let count = self.disk.file_syncs.get();
        self.disk.file_syncs.set(count.saturating_add(1));
        self.disk.unsynced.set(0);
        Ok(())
    }
}

impl FileExt for FakeFile {
    fn read_at(&self, buf: &mut [u8], offset: u64) -> io::Result<usize> {
        self.disk.call()?;
        let at = offset as usize;
        let Some(first) = buf.first_mut() else {
            return Ok(0);
        };
        match self.disk.bytes.get(at) {
            Some(byte) if at < self.disk.length.get() => {
                *first = byte.get();
                Ok(1)
            }
            _ => Ok(0),
        }
    }

    fn write_at(&self, buf: &[u8], offset: u64) -> io::Result<usize> {
        self.disk.call()?;
        if !self.is_writable {
            return Err(Error::from(ErrorKind::PermissionDenied));
        }
        let at = offset as usize;
        let (Some(byte), Some(first)) = (self.disk.bytes.get(at), buf.first()) else {
            return Ok(0);
        };
        byte.set(*first);
        let length = self.disk.length.get().max(at.saturating_add(1));
        self.disk.length.set(length);
        self.disk
            .unsynced
            .set(self.disk.unsynced.get().saturating_add(1));
        Ok(1)
    }
}

impl Read for FakeFile {
    fn read(&mut self, _buf: &mut [u8]) -> io::Result<usize> {
        unsupported()
    }
}

impl Write for FakeFile {
    fn write(&mut self, _buf: &[u8]) -> io::Result<usize> {
        unsupported()
    }

    fn flush(&mut self) -> io::Result<()> {
        unsupported()
    }
}

impl Seek for FakeFile {
    fn seek(&mut self, _to: SeekFrom) -> io::Result<u64> {
        unsupported()
    }
}
