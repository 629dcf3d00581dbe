// A source and a sink in memory, whose calls can be made to fail.
ghost use Rattle.std.specs.Prelude.{◌≡◌, ◌≤◌, ◌<◌, ◌+◌, ◌-◌, ◌↔◌, ◌⊎◌, Some, [], length, vec_len, vec_capacity, min, IfOk, IsErr, Contains};

use crate::{Failed, FakeError, Sink, Source};
use std::alloc::Global;

/// A source that gives bytes from memory, and whose calls can be made to fail.
#[derive(Drop)]
pub struct MemSource {
    bytes: Vec<u8>,
    at: usize,
    chunk: usize,
    fails: Vec<u64>,
    call: u64,
    faults: u64,
    ghost in_range: { at ≤ vec_len bytes },
    ghost some_chunk: { 1 ≤ chunk },
}

impl MemSource {
    ghost use Rattle.ww_base.specs.Fakes.{bytes_left, source_call, source_fails, source_chunk, source_faults};

    /// Makes a source of these bytes. It gives at most `chunk` bytes a call, and fails the calls
    /// whose numbers, counted from 0, are in `fails`.
    pub fn new(alloc: Global, bytes: &[u8], chunk: usize, fails: &[u64]) -> Result<Self, FakeError>
        requires { 1 ≤ chunk }
        ensures bytes { IfOk result (λ s. bytes_left s ≡ bytes.now) }
        ensures fails { IfOk result (λ s. source_fails s ≡ fails.now) }
        ensures chunk { IfOk result (λ s. source_chunk s ≡ chunk) }
        ensures first { IfOk result (λ s. source_call s ≡ 0) }
        ensures none { IfOk result (λ s. source_faults s ≡ 0) }
    {
        Ok(MemSource {
            bytes: bytes.to_vec(alloc)?,
            at: 0,
            chunk,
            fails: fails.to_vec(alloc)?,
            call: 0,
            faults: 0,
        })
    }

    /// Returns how often the source has failed. The count stays at the greatest u64.
    pub fn faults(&self) -> u64
        ensures { result ≡ source_faults self.now }
    {
        self.faults
    }
}

impl Source for MemSource {
    ghost use Rattle.std.specs.Io.{ReadsAtMost};
    ghost use Rattle.std.specs.Io.KnownBytes.{ReadConsumes};
    ghost use Rattle.ww_base.specs.Faults.{HasCause};
    ghost use Rattle.ww_base.specs.Fakes.{bytes_left, source_call, source_fails, source_chunk, source_faults, next_count};

    ghost left = { λ s. Some (bytes_left s) };

    ghost faults = { λ s. source_faults s };

    fn read(&mut self, buf: &mut [u8]) -> Result<usize, Failed>
        ensures bound { ReadsAtMost result buf.new }
        ensures bytes { ReadConsumes (Some (bytes_left self.old))
            (Some (bytes_left self.new)) result buf.new }
        ensures cause { HasCause (source_faults self.old) (source_faults self.new) result }
        ensures fails { IsErr result ↔ Contains (source_fails self.old) (source_call self.old) }
        ensures count { IfOk result (λ n.
            n
            ≡ min (length (bytes_left self.old)) (
            min (source_chunk self.old) (length buf.new)
            )
            ) }
        ensures call { source_call self.new ≡ next_count (source_call self.old) }
        ensures fails_stay { source_fails self.new ≡ source_fails self.old }
        ensures chunk { source_chunk self.new ≡ source_chunk self.old }
    {
        let number = self.call;
        self.call = number.saturating_add(1);
        if self.fails.contains(&number) {
            self.faults = self.faults.saturating_add(1);
            return Err(Failed);
        }
        let left = self.bytes.len() - self.at;
        let count = left.min(self.chunk).min(buf.len());
        buf[..count].copy_from_slice(&self.bytes[self.at..self.at + count]);
        self.at += count;
        Ok(count)
    }
}

/// A sink that keeps bytes in memory, and whose calls can be made to fail.
#[derive(Drop)]
pub struct MemSink {
    held: Vec<u8>,
    room: usize,
    chunk: usize,
    fails: Vec<u64>,
    call: u64,
    faults: u64,
    ghost in_room: { vec_len held ≤ room },
    ghost reserved: { room ≤ vec_capacity held },
    ghost some_chunk: { 1 ≤ chunk },
}

impl MemSink {
    ghost use Rattle.ww_base.specs.Fakes.{held_of, sink_call, sink_fails, sink_chunk, sink_room, sink_faults};

    /// Makes a sink that reserves `room` bytes and takes at most `chunk` bytes a call. It fails the
    /// calls whose numbers, counted from 0, are in `fails`, and, once it holds `room` bytes, each
    /// call on a piece that is not empty.
    pub fn new(alloc: Global, room: usize, chunk: usize, fails: &[u64]) -> Result<Self, FakeError>
        requires { 1 ≤ chunk }
        ensures empty { IfOk result (λ s. held_of s ≡ []) }
        ensures fails { IfOk result (λ s. sink_fails s ≡ fails.now) }
        ensures chunk { IfOk result (λ s. sink_chunk s ≡ chunk) }
        ensures room { IfOk result (λ s. sink_room s ≡ room) }
        ensures first { IfOk result (λ s. sink_call s ≡ 0) }
        ensures none { IfOk result (λ s. sink_faults s ≡ 0) }
    {
        let held = Vec::with_capacity(alloc, room)?;
        Ok(MemSink {
            held,
            room,
            chunk,
            fails: fails.to_vec(alloc)?,
            call: 0,
            faults: 0,
        })
    }

    /// Returns how often the sink has failed. The count stays at the greatest u64.
    pub fn faults(&self) -> u64
        ensures { result ≡ sink_faults self.now }
    {
        self.faults
    }

    /// Returns the bytes taken so far.
    pub fn held(&self) -> &[u8]
        ensures { result.now ≡ held_of self.now }
    {
        &self.held
    }
}

impl Sink for MemSink {
    ghost use Rattle.std.specs.Io.{WritesAtMost};
    ghost use Rattle.std.specs.Io.KnownBytes.{WriteAppends};
    ghost use Rattle.ww_base.specs.Faults.{HasCause};
    ghost use Rattle.ww_base.specs.Fakes.{held_of, sink_call, sink_fails, sink_chunk, sink_room, sink_faults, next_count};

    ghost written = { λ s. Some (held_of s) };

    ghost faults = { λ s. sink_faults s };

    // The bytes fit into what `new` reserved: no memory is taken.
    fn write(&mut self, piece: &[u8]) -> Result<usize, Failed>
        ensures bound { WritesAtMost result piece.now }
        ensures some { IfOk result (λ n. 0 < length piece.now → 0 < n) }
        ensures bytes { WriteAppends (Some (held_of self.old))
            (Some (held_of self.new)) result piece.now }
        ensures cause { HasCause (sink_faults self.old) (sink_faults self.new) result }
        ensures fails { IsErr result ↔ (Contains (sink_fails self.old) (sink_call self.old)
            ⊎ ((0 < length piece.now) × (length (held_of self.old) ≡ sink_room self.old))) }
        ensures count { IfOk result (λ n. n ≡ min (length piece.now)
            (min (sink_chunk self.old) (sink_room self.old - length (held_of self.old)))) }
        ensures call { sink_call self.new ≡ next_count (sink_call self.old) }
        ensures fails_stay { sink_fails self.new ≡ sink_fails self.old }
        ensures chunk { sink_chunk self.new ≡ sink_chunk self.old }
        ensures room { sink_room self.new ≡ sink_room self.old }
    {
        let number = self.call;
        self.call = number.saturating_add(1);
        let free = self.room - self.held.len();
        if self.fails.contains(&number) {
            self.faults = self.faults.saturating_add(1);
            return Err(Failed);
        }
        if free == 0 && !piece.is_empty() {
            self.faults = self.faults.saturating_add(1);
            return Err(Failed);
        }
        let count = piece.len().min(self.chunk).min(free);
        self.held.extend_from_slice(&piece[..count]).unwrap();
        Ok(count)
    }
}
