//! A shelf over real files, which tells nothing of what they hold.
ghost use Rattle.std.specs.Prelude.{◌≡◌, ◌≢◌, ◌^◌, ◌≤◌, ◌<◌, [], None, Some, Ok, Err, take, length, OnOk, OnErr, IfOk, IfSome};
ghost use Rattle.cq_io.specs.Fetching.{Fetches, FitsLimit};
ghost use Rattle.cq_io.specs.FileShelf.{fault_count};
ghost use Rattle.cq_io.specs.Pieces.{ReadsPiece};

use crate::{FetchFault, Shelf, Size};
use std::fs;
use std::io::{ErrorKind, Read};
use std::rt::Files;

/// A shelf over the files that a runtime opens by their paths. It tells nothing of what they hold.
/// An open that finds no such file is `Size::Missing`; every other error of the runtime is a fault.
/// Of a file it reads at most one byte more than the limit.
#[derive(Drop)]
pub struct FileShelf<'a, R> {
    rt: &'a R,
    faults: u64,
}

impl<'a, R: Files> FileShelf<'a, R> {
    /// A shelf over the runtime's files, whose count of faults is 0.
    pub fn new(rt: &'a R) -> FileShelf<'a, R>
        ensures { fault_count result ≡ 0 }
    {
        FileShelf { rt, faults: 0 }
    }

    // Opens the file and reads it.
    fn read(&self, name: &str, limit: u64, into: &mut Vec<u8>) -> Result<Size, FetchFault>
        requires empty { into.old.items ≡ [] }
        requires limit_fits { limit < 2 ^ 32 }
        ensures { FitsLimit result limit into.new.items }
    {
        match fs::open(self.rt, name) {
            Ok(mut file) => read_whole(&mut file, limit, into),
            Err(error) => unopened(error.kind()),
        }
    }
}

impl<R: Files> Shelf for FileShelf<'_, R> {
    ghost holds = { λ _. None };

    ghost faults = { fault_count };

    ghost failing = { λ _. None };

    fn fetch(&mut self, name: &str, limit: u64, into: &mut Vec<u8>) -> Result<Size, FetchFault> {
        let result = self.read(name, limit, into);
        if matches!(result, Err(FetchFault::Failed)) {
            self.faults = self.faults.saturating_add(1);
        }
        result
    }
}

// What is answered of a file that was not opened: it is missing only where the runtime found none.
fn unopened(kind: ErrorKind) -> Result<Size, FetchFault>
    ensures missing { kind ≡ ErrorKind.NotFound → result ≡ Ok Size.Missing }
    ensures failed { kind ≢ ErrorKind.NotFound → result ≡ Err FetchFault.Failed }
{
    match kind {
        ErrorKind::NotFound => Ok(Size::Missing),
        _ => Err(FetchFault::Failed),
    }
}

// Reads a file to its end where it has at most `limit` bytes.
fn read_whole<F: Read>(file: &mut F, limit: u64, into: &mut Vec<u8>) -> Result<Size, FetchFault>
    requires empty { into.old.items ≡ [] }
    requires limit_fits { limit < 2 ^ 32 }

    // Where the file tells its bytes, as one in memory does.
    ensures exact { IfSome (F.remaining file.old)
        (λ bytes. IfOk result (λ size. Fetches (Some bytes) limit size into.new.items)) }
    ensures fits { FitsLimit result limit into.new.items }
{
    let result = read_first(file, limit as usize + 1, into);
    if result.is_ok() && into.len() as u64 <= limit {
        return Ok(Size::Whole);
    }
    into.clear();
    result?;
    Ok(Size::Longer)
}

// Reads the first `most` bytes, or all where there are fewer.
fn read_first<F: Read>(file: &mut F, most: usize, into: &mut Vec<u8>) -> Result<(), FetchFault>
    requires { into.old.items ≡ [] }
    ensures exact { IfSome (F.remaining file.old)
        (λ bytes. OnOk result (into.new.items ≡ take most bytes)) }
    ensures most { length into.new.items ≤ most }
{
    while into.len() < most {
        let count = read_piece(file, most - into.len(), into)?;
        if count == 0 {
            return Ok(());
        }
    }
    Ok(())
}

// Reads at most `most` bytes more, and none only at the file's end.
fn read_piece<F: Read>(file: &mut F, most: usize, into: &mut Vec<u8>) -> Result<usize, FetchFault>
    requires { 0 < most }
    ensures piece { IfOk result (ReadsPiece (F.remaining file.old) (F.remaining file.new)
        into.old.items into.new.items most) }
    ensures unchanged { OnErr result (into.new.items ≡ into.old.items) }
{
    let mut buffer = [0u8; 4096];
    let wanted = most.min(buffer.len());
    let part = &mut buffer[..wanted];
    match file.read(part) {
        Ok(count) => {
            into.extend_from_slice(&part[..count])?;
            Ok(count)
        }
        Err(_) => Err(FetchFault::Failed),
    }
}
