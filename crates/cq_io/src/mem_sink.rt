//! A sink in memory, seen as its bytes, its room and when it fails.
ghost use Rattle.std.specs.Prelude.{◌≡◌, ◌+◌, ◌++◌, max, false, [], length, Some, OnOk, OnErr, is_err};
ghost use Rattle.cq_io.specs.Faults.{TellsFault, faults_after};
ghost use Rattle.cq_io.specs.Writing.{appended, AppendsPart};
ghost use Rattle.cq_io.specs.MemSink.{is_refused, is_spent_after, accepted, count_up_to, OnlyWrites};

use crate::{Failed, Sink};
use cq_terms::NoMemory;
use std::alloc::Global;
use std::marker::Model;

/// A sink in memory, which tells its bytes and can be told to fail. It fails in three cases alone.
///
/// - A write beyond the room appends nothing and fails.
/// - Another write that would bring the sink past `fail_after` bytes appends up to that number
///   and fails.
/// - Each call after a write of the second case appends nothing and fails.
#[derive(Drop)]
pub struct MemSink {
    bytes: Vec<u8>,
    room: usize,
    fail_after: Option<u64>,
    is_spent: bool,
    faults: u64,
}

impl Model for MemSink {
    ghost use Rattle.std.specs.Prelude.{◌≤◌, length, vec_capacity};
    ghost use Rattle.cq_io.specs.MemSink.{SinkState, Reaches};

    ghost Value = { SinkState };

    ghost view = { λ a. record {
      bytes = a.bytes.items;
      room = a.room;
      fail_after = a.fail_after;
      is_spent = a.is_spent;
      faults = a.faults;
    } };

    ghost invariant = { λ a.
        Reaches (length a.bytes.items) a.room (vec_capacity a.bytes) a.fail_after };
}

impl MemSink {
    /// An empty sink with no room, whose count of faults is 0. Without a `fail_after` it fails
    /// only where the room is too small.
    pub fn new(alloc: Global, fail_after: Option<u64>) -> MemSink
        ensures { result ≡ record {
          bytes = [];
          room = 0;
          fail_after = fail_after;
          is_spent = false;
          faults = 0;
        } }
    {
        MemSink {
            bytes: Vec::new(alloc),
            room: 0,
            fail_after,
            is_spent: false,
            faults: 0,
        }
    }

    /// The bytes written so far.
    pub fn written(&self) -> &[u8]
        ensures { result.now ≡ self.now.bytes }
    {
        self.bytes.as_slice()
    }

    /// Makes room for at least `bytes` bytes more than are written. It never lowers the room.
    /// `NoMemory` comes where memory runs out.
    pub fn reserve(&mut self, bytes: usize) -> Result<(), NoMemory>
        ensures exact { OnOk result (self.new ≡
            record self.old { room = max self.old.room (length self.old.bytes + bytes) }) }
        ensures unchanged { OnErr result (self.new ≡ self.old) }
    {
        self.bytes.reserve(bytes)?;
        self.room = self.room.max(self.bytes.len() + bytes);
        Ok(())
    }

    // How many of `count` bytes more come before the failure.
    fn count_before_failure(&self, count: usize) -> usize
        ensures { result ≡ count_up_to self.now.fail_after (length self.now.bytes) count }
    {
        match self.fail_after {
            None => count,
            Some(most) => (most - self.bytes.len() as u64).min(count as u64) as usize,
        }
    }
}

impl Sink for MemSink {
    ghost written = { λ sink. Some sink.bytes };

    ghost faults = { λ sink. sink.faults };

    fn write_all(&mut self, bytes: &[u8]) -> Result<(), Failed>
        ensures exact { OnOk result
            (Some self.new.bytes ≡ appended (Some self.old.bytes) bytes.now) }
        ensures part { OnErr result
            (AppendsPart (Some self.old.bytes) (Some self.new.bytes) bytes.now) }
        ensures fault { TellsFault self.old.faults self.new.faults (is_err result) }

        ensures fails { is_err result ≡ is_refused self.old bytes.now }
        ensures written { self.new.bytes ≡ self.old.bytes ++ accepted self.old bytes.now }
        ensures spent { self.new.is_spent ≡ is_spent_after self.old bytes.now }
        ensures nothing_else { OnlyWrites self.old self.new (is_err result) }
    {
        if self.is_spent || bytes.len() > self.room - self.bytes.len() {
            self.faults = self.faults.saturating_add(1);
            return Err(Failed);
        }
        let count = self.count_before_failure(bytes.len());
        self.bytes.extend_from_slice(&bytes[..count]).unwrap();
        if count < bytes.len() {
            self.is_spent = true;
            self.faults = self.faults.saturating_add(1);
            return Err(Failed);
        }
        Ok(())
    }

    fn flush(&mut self) -> Result<(), Failed>
        ensures same_bytes { Some self.new.bytes ≡ Some self.old.bytes }
        ensures fault { TellsFault self.old.faults self.new.faults (is_err result) }

        ensures fails { is_err result ≡ self.old.is_spent }
        ensures nothing_else { self.new ≡
            record self.old { faults = faults_after self.old.faults (is_err result) } }
    {
        if self.is_spent {
            self.faults = self.faults.saturating_add(1);
            return Err(Failed);
        }
        Ok(())
    }
}
