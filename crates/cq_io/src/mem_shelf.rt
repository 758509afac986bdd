//! A shelf in memory, seen as its files and the numbers of the calls that fail.
ghost use Rattle.std.specs.Prelude.{◌≡◌, ◌^◌, ◌<◌, ◌↔◌, ◌++◌, ◌∷◌, [], Some, IfOk, OnOk, OnErr, IsErrOf, Contains, option_copied};
ghost use Rattle.cq_io.specs.Faults.{TellsFault, one_more, faults_after};
ghost use Rattle.cq_io.specs.Fetching.{has_failed, Fetches, FitsLimit};
ghost use Rattle.cq_io.specs.MemShelf.{bytes_under, failing_of, place_of, Puts};
ghost use Rattle.cq_io.specs.Failing.{fails_next, after_fetch};
ghost use Rattle.std.specs.Str.{bytes_eq};

use crate::{FetchFault, Shelf, Size};
use cq_terms::NoMemory;
use std::alloc::Global;
use std::marker::Model;

// A file, seen as its name's bytes and its own.
#[derive(Drop)]
struct NamedFile {
    name: String,
    bytes: Vec<u8>,
}

impl Model for NamedFile {
    ghost use Rattle.std.specs.Prelude.{List, ℕ, string_bytes};

    ghost Value = { List ℕ × List ℕ };

    ghost view = { λ file. (string_bytes file.name, file.bytes.items) };
}

impl NamedFile {
    fn new(alloc: Global, name: &str, bytes: &[u8]) -> Result<NamedFile, NoMemory>
        ensures { IfOk result (λ file. file ≡ (name.now, bytes.now)) }
    {
        Ok(NamedFile {
            name: String::from_str(alloc, name)?,
            bytes: Vec::from_slice(alloc, bytes)?,
        })
    }

    fn has_name(&self, name: &str) -> bool
        ensures { result ≡ bytes_eq self.now.0 name.now }
    {
        self.name.as_str() == name
    }

    fn bytes(&self) -> &[u8]
        ensures { result.now ≡ self.now.1 }
    {
        self.bytes.as_slice()
    }
}

/// A shelf in memory, which tells what it holds and can be told to fail. A fetch fails exactly
/// where its number is on the list of `fail_at`: the first has number 0, and the number stays at
/// 2^64 - 1 once it is reached.
#[derive(Drop)]
pub struct MemShelf {
    files: Vec<NamedFile>,
    failing: Vec<u64>,
    next_call: u64,
    faults: u64,
}

impl Model for MemShelf {
    ghost use Rattle.cq_io.specs.MemShelf.{ShelfState};

    ghost Value = { ShelfState };

    ghost view = { λ a. record {
      files = a.files.items;
      failing = a.failing.items;
      next_call = a.next_call;
      faults = a.faults;
    } };
}

impl MemShelf {
    /// A shelf that holds no file and never fails, and whose count of faults is 0.
    pub fn new(alloc: Global) -> MemShelf
        ensures { result ≡ record { files = []; failing = []; next_call = 0; faults = 0 } }
    {
        MemShelf {
            files: Vec::new(alloc),
            failing: Vec::new(alloc),
            next_call: 0,
            faults: 0,
        }
    }

    /// Puts these bytes under `name`, in place of those that were there. `NoMemory` comes where
    /// memory runs out.
    pub fn put(&mut self, name: &str, bytes: &[u8]) -> Result<(), NoMemory>
        ensures exact { OnOk result (Puts self.old.files self.new.files name.now bytes.now) }
        ensures nothing_else { OnOk result (self.new ≡ record self.old { files = self.new.files }) }
        ensures unchanged { OnErr result (self.new ≡ self.old) }
    {
        let file = NamedFile::new(*self.files.allocator(), name, bytes)?;
        match place_of(self.files.as_slice(), name) {
            Some(place) => self.files[place] = file,
            None => self.files.push(file)?,
        }
        Ok(())
    }

    /// Makes the fetch with the number `call` fail. `NoMemory` comes where memory runs out.
    pub fn fail_at(&mut self, call: u64) -> Result<(), NoMemory>
        ensures exact { OnOk result (self.new ≡
            record self.old { failing = self.old.failing ++ call ∷ [] }) }
        ensures unchanged { OnErr result (self.new ≡ self.old) }
    {
        self.failing.push(call)?;
        Ok(())
    }
}

// The place of the first file with this name.
fn place_of(files: &[NamedFile], name: &str) -> Option<usize>
    ensures { result ≡ place_of files.now name.now }
{
    files.iter().position(|file| file.has_name(name))
}

// The bytes of the first file with this name.
fn bytes_under<'a>(files: &'a [NamedFile], name: &str) -> Option<&'a [u8]>
    ensures { option_copied result ≡ bytes_under files.now name.now }
{
    let place = place_of(files, name)?;
    Some(files[place].bytes())
}

// Copies a file's bytes, where there is a file and it has at most `limit` bytes.
fn copy_whole(file: Option<&[u8]>, limit: u64, into: &mut Vec<u8>) -> Result<Size, NoMemory>
    requires { into.old.items ≡ [] }
    ensures exact { IfOk result
        (λ size. Fetches (option_copied file.entry) limit size into.new.items) }
    ensures unchanged { OnErr result (into.new.items ≡ []) }
{
    let Some(bytes) = file else {
        return Ok(Size::Missing);
    };
    if bytes.len() as u64 > limit {
        return Ok(Size::Longer);
    }
    into.extend_from_slice(bytes)?;
    Ok(Size::Whole)
}

impl Shelf for MemShelf {
    ghost holds = { λ shelf. Some (bytes_under shelf.files) };

    ghost faults = { λ shelf. shelf.faults };

    ghost failing = { λ shelf. Some (failing_of shelf) };

    fn fetch(&mut self, name: &str, limit: u64, into: &mut Vec<u8>) -> Result<Size, FetchFault>
        requires empty { into.old.items ≡ [] }
        requires limit_fits { limit < 2 ^ 32 }

        ensures exact { IfOk result (λ size.
            Fetches (bytes_under self.old.files name.now) limit size into.new.items) }
        ensures fits { FitsLimit result limit into.new.items }
        ensures fault { TellsFault self.old.faults self.new.faults (has_failed result) }

        ensures told { has_failed result ≡ fails_next (failing_of self.old) }
        ensures fails { IsErrOf result FetchFault.Failed
            ↔ Contains self.old.failing self.old.next_call }
        ensures nothing_else { self.new ≡ record self.old {
          next_call = one_more self.old.next_call;
          faults = faults_after self.old.faults (has_failed result);
        } }
    {
        let call = self.next_call;
        self.next_call = call.saturating_add(1);
        if self.failing.contains(&call) {
            self.faults = self.faults.saturating_add(1);
            return Err(FetchFault::Failed);
        }
        let file = bytes_under(self.files.as_slice(), name);
        Ok(copy_whole(file, limit, into)?)
    }
}
