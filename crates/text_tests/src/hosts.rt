//! The files of a host: of this one, and of one whose files give few bytes at a time, or fail in mid-stream.
use crate::asserting::assert_same;
use std::alloc::{Allocator, Global};
use std::fs::{Metadata, OpenFile, OpenOptions};
use std::io::{ErrorKind, Read, Seek, SeekFrom, Write};
use std::{io, rt};
use tool_io::{Files, Got, ReadFail, RealFiles};

// A file with so many bytes left, of which a read gives at most `step`, and which fails after `good` reads.
#[derive(Clone, Copy)]
struct OpenedFile {
    left: usize,
    step: usize,
    good: usize,
}

fn refused<T>() -> io::Result<T> {
    Err(io::Error::from(ErrorKind::Unsupported))
}

impl Read for OpenedFile {
    fn read(&mut self, buf: &mut [u8]) -> io::Result<usize> {
        if self.good == 0 {
            return Err(io::Error::from(ErrorKind::Other));
        }
        self.good -= 1;
        let given = buf.len().min(self.step).min(self.left);
        self.left -= given;
        Ok(given)
    }
}

impl Write for OpenedFile {
    fn write(&mut self, _buf: &[u8]) -> io::Result<usize> {
        Err(io::Error::from(ErrorKind::Unsupported))
    }

    fn flush(&mut self) -> io::Result<()> {
        refused()
    }
}

impl Seek for OpenedFile {
    fn seek(&mut self, _to: SeekFrom) -> io::Result<u64> {
        refused()
    }
}

impl OpenFile for OpenedFile {
    fn metadata(&self) -> io::Result<Metadata> {
        refused()
    }

    fn set_len(&self, _size: u64) -> io::Result<()> {
        refused()
    }

    fn sync_all(&self) -> io::Result<()> {
        refused()
    }

    fn sync_data(&self) -> io::Result<()> {
        refused()
    }
}

// A host that has this file under every name, and does nothing but open it.
#[derive(Drop)]
struct Host {
    file: OpenedFile,
}

impl rt::Files for Host {
    type File = OpenedFile;

    type Dir = OpenedFile;

    fn open_file(&self, _how: &OpenOptions, _path: &str) -> io::Result<OpenedFile> {
        Ok(self.file)
    }

    fn open_dir(&self, _path: &str) -> io::Result<OpenedFile> {
        refused()
    }

    fn metadata(&self, _path: &str) -> io::Result<Metadata> {
        refused()
    }

    fn symlink_metadata(&self, _path: &str) -> io::Result<Metadata> {
        refused()
    }

    fn copy(&self, _from: &str, _to: &str) -> io::Result<u64> {
        refused()
    }

    fn rename(&self, _from: &str, _to: &str) -> io::Result<()> {
        refused()
    }

    fn remove_file(&self, _path: &str) -> io::Result<()> {
        refused()
    }

    fn create_dir(&self, _path: &str) -> io::Result<()> {
        refused()
    }

    fn remove_dir(&self, _path: &str) -> io::Result<()> {
        refused()
    }

    fn remove_dir_all<B: Allocator>(&self, _alloc: B, _path: &str) -> io::Result<()> {
        refused()
    }
}

// How many bytes a read gave, or none where there are too many.
fn count_of(answer: Result<Got, ReadFail>) -> Result<Option<usize>, ReadFail> {
    match answer {
        Ok(Got::Bytes(content)) => Ok(Some(content.as_slice().len())),
        Ok(Got::TooLong) => Ok(None),
        Err(fail) => Err(fail),
    }
}

fn read<R: rt::Files>(
    host: &R,
    alloc: Global,
    name: &str,
    max: usize,
) -> Result<Option<usize>, ReadFail> {
    let mut files = RealFiles::new(host);
    count_of(files.read(alloc, name, max))
}

// The length, bytes a read, reads before a fault, the limit, and the answer.
const READS: [(usize, usize, usize, usize, Result<Option<usize>, ReadFail>); 11] = [
    (0, 1, 9, 0, Ok(Some(0))),
    (3, 1, 9, 3, Ok(Some(3))),
    (4, 1, 9, 3, Ok(None)),
    (4096, 9999, 9, 4096, Ok(Some(4096))),
    (4097, 9999, 9, 4096, Ok(None)),
    (4097, 9999, 9, 4097, Ok(Some(4097))),
    (9000, 700, 99, 9000, Ok(Some(9000))),
    (9001, 700, 99, 9000, Ok(None)),
    (9, 3, 0, 9, Err(ReadFail::Failed)),
    (9, 3, 2, 9, Err(ReadFail::Failed)),
    (9, 3, 3, 9, Err(ReadFail::Failed)),
];

#[test]
fn files_of_few_bytes_at_a_time(rt: HostRuntime) {
    for &(left, step, good, max, wanted) in &READS {
        let host = Host {
            file: OpenedFile { left, step, good },
        };
        let answer = read(&host, rt.alloc(), "name", max);
        assert_same(
            &rt,
            &(left, step, good, answer),
            &(left, step, good, wanted),
        );
    }
}

// Two devices that every host of this program has: one is empty, the other never ends; and a name that no host has.
const DEVICES: [(&str, Result<Option<usize>, ReadFail>); 3] = [
    ("/dev/null", Ok(Some(0))),
    ("/dev/zero", Ok(None)),
    ("/dev/null/none", Err(ReadFail::Failed)),
];

#[test]
fn files_of_this_host(rt: HostRuntime) {
    for &(name, wanted) in &DEVICES {
        let answer = read(&rt, rt.alloc(), name, 5000);
        assert_same(&rt, &(name, answer), &(name, wanted));
    }
}
