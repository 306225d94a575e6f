//! The files in memory, with a read that fails, and those that never fail.
use crate::asserting::assert_same;
use std::alloc::Global;
use std::test::Fail;
use tool_io::{Content, Files, Got, MemFile, MemFiles, NeverFails, ReadFail};

fn file(alloc: Global, name: &str, bytes: &str) -> Result<MemFile, Fail> {
    Ok(MemFile {
        name: Content::new(name.as_bytes().to_vec(alloc)?),
        bytes: Content::new(bytes.as_bytes().to_vec(alloc)?),
    })
}

// Two files: a with three bytes, b with none.
fn two_files(alloc: Global) -> Result<Vec<MemFile>, Fail> {
    let mut files = Vec::new(alloc);
    files.push(file(alloc, "a", "abc")?)?;
    files.push(file(alloc, "b", "")?)?;
    Ok(files)
}

// What a read gave, as a text.
fn text_of(answer: &Result<Got, ReadFail>) -> &[u8] {
    match answer {
        Ok(Got::Bytes(content)) => content.as_slice(),
        Ok(Got::TooLong) => b"too long",
        Err(ReadFail::Failed) => b"failed",
        Err(ReadFail::NoMemory) => b"no memory",
    }
}

// The name, the most bytes that are wanted, and what is told; the second read of a file that there is fails.
const READS: [(&str, usize, &str); 6] = [
    ("a", 3, "abc"),
    ("a", 3, "failed"),
    ("a", 2, "too long"),
    ("b", 0, ""),
    ("c", 9, "failed"),
    ("a", 9, "abc"),
];

// Reads of files that never fail: the name, the most bytes, and what comes of it.
const NEVER: [(&str, usize, &str); 3] = [("a", 3, "abc"), ("a", 2, "too long"), ("c", 0, "")];

#[test]
fn files_in_memory(rt: HostRuntime) -> Result<(), Fail> {
    let alloc = rt.alloc();
    let mut fails = Vec::new(alloc);
    fails.push(2)?;
    let mut files = MemFiles::new(alloc, two_files(alloc)?, fails)?;
    for &(name, max, wanted) in &READS {
        let answer = files.read(alloc, name, max);
        assert_same(
            &rt,
            &(name, max, text_of(&answer)),
            &(name, max, wanted.as_bytes()),
        );
    }
    let mut never = NeverFails::new(two_files(alloc)?);
    for &(name, max, wanted) in &NEVER {
        let answer = never.read(alloc, name, max);
        assert_same(
            &rt,
            &(name, max, text_of(&answer)),
            &(name, max, wanted.as_bytes()),
        );
    }
    Ok(())
}
