ghost use Rattle.std.specs.Prelude.{◌≡◌, ◌≤◌, ◌+◌, ◌++◌, ◌∷◌, [], Some, Option, ℕ, List, length, take, nat_le};
ghost use Rattle.std.specs.Prelude.{if◌then◌else◌, OnOk, OnErr, IfOk, is_ok, vec_len, vec_capacity};
ghost use Rattle.std.specs.Option.{option_map_or};
ghost use Rattle.std.specs.Io.KnownBytes.{Appends};
ghost use Rattle.orca_base.specs.Causes.{Rose};
ghost use Rattle.orca_io.specs.Sink.{TakesPrefix};
ghost use Rattle.orca_io.specs.MemSink.{taken_at, part_of, succeeds, after_put};

use crate::count::next_count;
use crate::{Sink, SinkError};
use std::alloc::{AllocError, Global};
use std::marker::Model;

/// A sink in memory with room for so many bytes. Calls of `put` are counted from 0. Where a piece, or the part of it
/// that a call named to fail is to take, is past the room, nothing of it is taken.
#[derive(Debug, Drop)]
pub struct MemSink {
    bytes: Vec<u8>,
    room: usize,
    calls: u64,
    // The calls named to fail, each with the number of bytes that it takes.
    failing: Vec<(u64, u64)>,
    faults: u64,
}

impl Model for MemSink {
    ghost use Rattle.std.specs.Prelude.{◌≤◌, vec_len, vec_capacity};
    ghost use Rattle.orca_io.specs.MemSink.{SinkState};

    ghost Value = { SinkState };

    ghost view = { λ s. record {
      taken = s.bytes.items;
      room = s.room;
      calls = s.calls;
      failing = s.failing.items;
      faults = s.faults;
    } };

    ghost invariant = { λ s. (s.room ≤ vec_capacity s.bytes) × (vec_len s.bytes ≤ s.room) };
}

impl MemSink {
    pub fn with_room(alloc: Global, bytes: u64) -> Result<MemSink, AllocError>
        ensures { IfOk result (λ sink. sink ≡ record {
          taken = [];
          room = bytes;
          calls = 0;
          failing = [];
          faults = 0;
        }) }
    {
        let room = bytes as usize;
        Ok(MemSink {
            bytes: Vec::with_capacity(alloc, room)?,
            room,
            calls: 0,
            failing: Vec::new(alloc),
            faults: 0,
        })
    }

    /// Lets the call with this number fail, after it took the first `taken` bytes of its piece, or all of a shorter
    /// one. Of a call that is named twice the first naming counts.
    pub fn fail_at(&mut self, call: u64, taken: u64) -> Result<(), AllocError>
        ensures ok { OnOk result
            (self.new ≡ record self.old { failing = self.old.failing ++ (call, taken) ∷ [] }) }
        ensures err { OnErr result (self.new ≡ self.old) }
    {
        self.failing.push((call, taken))?;
        Ok(())
    }

    pub fn taken(&self) -> &[u8]
        ensures { result.now ≡ self.now.taken }
    {
        &self.bytes
    }
}

impl Sink for MemSink {
    ghost taken = { λ s. Some s.taken };

    ghost faults = { λ s. s.faults };

    fn put(&mut self, bytes: &[u8]) -> Result<(), SinkError>
        ensures ok { OnOk result (Appends (Some self.old.taken) (Some self.new.taken) bytes.now) }

        ensures failed { OnErr result (Rose self.old.faults self.new.faults) }
        ensures err { OnErr result (TakesPrefix (Some self.old.taken) (Some self.new.taken) bytes.now) }

        ensures later { self.old.faults ≤ self.new.faults }

        ensures answer { is_ok result ≡ succeeds self.old bytes.now }
        ensures after { self.new ≡ after_put self.old bytes.now }
    {
        let failing = first_named(&self.failing, self.calls);
        self.calls = next_count(self.calls);
        let part = first_bytes(bytes, failing);
        if add_within(&mut self.bytes, self.room, part) && failing.is_none() {
            return Ok(());
        }
        self.faults = next_count(self.faults);
        Err(SinkError::Failed)
    }
}

fn first_named(failing: &[(u64, u64)], call: u64) -> Option<u64>
    ensures { result ≡ taken_at failing.now call }
{
    failing
        .iter()
        .find(|named| named.0 == call)
        .map(|named| named.1)
}

fn first_bytes(bytes: &[u8], count: Option<u64>) -> &[u8]
    ensures { result.now ≡ option_map_or (λ n. take n bytes.now) count bytes.now }
{
    match count {
        Some(count) if count < bytes.len() as u64 => &bytes[..count as usize],
        _ => bytes,
    }
}

// Adds the part where it fits, and says whether it did.
fn add_within(bytes: &mut Vec<u8>, room: usize, part: &[u8]) -> bool
    requires kept { room ≤ vec_capacity bytes.old }
    requires within { vec_len bytes.old ≤ room }
    ensures fits { result ≡ nat_le (vec_len bytes.old + length part.now) room }
    ensures added { bytes.new.items ≡ (if result then bytes.old.items ++ part.now else bytes.old.items) }
    ensures kept { room ≤ vec_capacity bytes.new }
    ensures within { vec_len bytes.new ≤ room }
{
    part.len() <= room - bytes.len() && bytes.extend_from_slice(part).is_ok()
}
