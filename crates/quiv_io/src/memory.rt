// Sources and sinks in memory that fail at chosen calls, for tests.
ghost use Rattle.std.specs.Prelude.{◌≡◌, ◌<◌, ◌≤◌, ◌↔◌, ◌-◌, [], min, length, take, drop, Some, IfOk, OnOk, OnErr, IsOk, IsErr, Contains};
ghost use Rattle.quiv_io.specs.Counts.{Rose, counted};
ghost use Rattle.quiv_io.specs.Bytes.{Gives, IsAtEnd, Takes};

use super::streams::{Failed, Sink, Source};
use std::alloc::{AllocError, Global};
use std::marker::Model;

/// A source that has all its bytes in memory, gives them in pieces and fails at chosen calls.
#[derive(Debug, Drop)]
pub struct MemorySource {
    bytes: Vec<u8>,
    at: usize,
    piece: usize,
    calls: u64,
    failing: Vec<u64>,
    faults: u64,
}

impl Model for MemorySource {
    ghost use Rattle.std.specs.Prelude.{◌≤◌, drop, length};
    ghost use Rattle.quiv_io.specs.Views.{SourceView};

    ghost Value = { SourceView };

    ghost view = { λ s. record { left = drop s.at s.bytes.items; piece = s.piece; calls = s.calls; failing = s.failing.items; faults = s.faults } };

    ghost invariant = { λ s. (s.at ≤ length s.bytes.items) × (1 ≤ s.piece) };
}

impl MemorySource {
    /// A source of these bytes that gives at most `piece` of them in one call and fails at the calls whose numbers,
    /// counted from 1, stand in `failing`.
    pub fn new(bytes: Vec<u8>, piece: usize, failing: Vec<u64>) -> MemorySource
        requires { 1 ≤ piece }
        ensures { result ≡ record { left = bytes.items; piece = piece; calls = 0; failing = failing.items; faults = 0 } }
    {
        MemorySource {
            bytes,
            at: 0,
            piece,
            calls: 0,
            failing,
            faults: 0,
        }
    }
}

impl Source for MemorySource {
    ghost left = { λ s. Some s.left };

    ghost faults = { λ s. s.faults };

    fn read(&mut self, into: &mut [u8]) -> Result<usize, Failed>
        ensures count { self.old.faults ≤ self.new.faults }
        ensures failed { OnErr result (Rose self.old.faults self.new.faults) }
        ensures unread { OnErr result (Some self.new.left ≡ Some self.old.left) }
        ensures within { IfOk result (λ n. n ≤ length into.new) }
        ensures given { IfOk result (λ n. Gives (Some self.old.left) (take n into.new) (Some self.new.left)) }
        ensures end { IfOk result (λ n. n ≡ 0 → 0 < length into.new → IsAtEnd (Some self.new.left)) }

        // It fails at the chosen calls and at no other, and gives what there is, the buffer holds and a piece may have.
        ensures calls { self.new.calls ≡ counted self.old.calls 1 }
        ensures fails { IsErr result ↔ Contains self.old.failing self.new.calls }
        ensures faults { OnErr result (self.new.faults ≡ counted self.old.faults 1) }
        ensures no_fault { OnOk result (self.new.faults ≡ self.old.faults) }
        ensures piece { IfOk result (λ n. n ≡ min (min (length into.new) self.old.piece) (length self.old.left)) }
        ensures settings { (self.new.piece ≡ self.old.piece) × (self.new.failing ≡ self.old.failing) }
    {
        self.calls = self.calls.saturating_add(1);
        if self.failing.contains(&self.calls) {
            self.faults = self.faults.saturating_add(1);
            return Err(Failed);
        }
        let rest = &self.bytes[self.at..];
        let n = into.len().min(self.piece).min(rest.len());
        into[..n].copy_from_slice(&rest[..n]);
        self.at += n;
        Ok(n)
    }
}

/// A sink that keeps all its bytes in memory, takes them in pieces, and fails at chosen calls and where it is full.
#[derive(Debug, Drop)]
pub struct MemorySink {
    bytes: Vec<u8>,
    room: usize,
    piece: usize,
    calls: u64,
    failing: Vec<u64>,
    faults: u64,
}

impl Model for MemorySink {
    ghost use Rattle.std.specs.Prelude.{◌≤◌, length, vec_capacity};
    ghost use Rattle.quiv_io.specs.Views.{SinkView};

    ghost Value = { SinkView };

    ghost view = { λ s. record { bytes = s.bytes.items; room = s.room; piece = s.piece; calls = s.calls; failing = s.failing.items; faults = s.faults } };

    ghost invariant = { λ s. (length s.bytes.items ≤ s.room) × (s.room ≤ vec_capacity s.bytes) × (1 ≤ s.piece) };
}

impl MemorySink {
    /// A sink with room for `room` bytes that takes at most `piece` of them in one call and fails at the calls whose
    /// numbers, counted from 1, stand in `failing`, and where it has no room for any byte of a piece.
    pub fn new(
        alloc: Global,
        room: usize,
        piece: usize,
        failing: Vec<u64>,
    ) -> Result<MemorySink, AllocError>
        requires { 1 ≤ piece }
        ensures { IfOk result (λ s. s ≡ record { bytes = []; room = room; piece = piece; calls = 0; failing = failing.items; faults = 0 }) }
    {
        Ok(MemorySink {
            bytes: Vec::with_capacity(alloc, room)?,
            room,
            piece,
            calls: 0,
            failing,
            faults: 0,
        })
    }

    /// The bytes taken.
    pub fn bytes(&self) -> &[u8]
        ensures { result.now ≡ self.now.bytes }
    {
        self.bytes.as_slice()
    }
}

impl Sink for MemorySink {
    ghost taken = { λ s. Some s.bytes };

    ghost faults = { λ s. s.faults };

    fn write(&mut self, from: &[u8]) -> Result<usize, Failed>
        ensures count { self.old.faults ≤ self.new.faults }
        ensures failed { OnErr result (Rose self.old.faults self.new.faults) }
        ensures untaken { OnErr result (Some self.new.bytes ≡ Some self.old.bytes) }
        ensures within { IfOk result (λ n. n ≤ length from.now) }
        ensures some { IfOk result (λ n. 0 < length from.now → 0 < n) }
        ensures appended { IfOk result (λ n. Takes (Some self.old.bytes) (take n from.now) (Some self.new.bytes)) }

        // It fails at the chosen calls and where it is full, and at no other.
        ensures calls { self.new.calls ≡ counted self.old.calls 1 }
        ensures succeeds { IsOk result ↔ (¬ (Contains self.old.failing self.new.calls) × (0 < length from.now → length self.old.bytes < self.old.room)) }
        ensures faults { OnErr result (self.new.faults ≡ counted self.old.faults 1) }
        ensures no_fault { OnOk result (self.new.faults ≡ self.old.faults) }
        ensures piece { IfOk result (λ n. n ≡ min (min (length from.now) self.old.piece) (self.old.room - length self.old.bytes)) }
        ensures settings { (self.new.room ≡ self.old.room) × (self.new.piece ≡ self.old.piece) × (self.new.failing ≡ self.old.failing) }
    {
        self.calls = self.calls.saturating_add(1);
        let left = self.room - self.bytes.len();
        if self.failing.contains(&self.calls) || (left == 0 && !from.is_empty()) {
            self.faults = self.faults.saturating_add(1);
            return Err(Failed);
        }
        let n = from.len().min(self.piece).min(left);
        self.bytes.extend_from_slice(&from[..n]).unwrap();
        Ok(n)
    }
}
