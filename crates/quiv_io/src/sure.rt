// A source and a sink in memory that never fail.
ghost use Rattle.std.specs.Prelude.{◌≡◌, ◌+◌, ◌-◌, ◌<◌, ◌≤◌, ◌++◌, [], min, length, take, Some, IfOk, IsOkAnd, OnErr};
ghost use Rattle.quiv_io.specs.Counts.{Rose, counted};
ghost use Rattle.quiv_io.specs.Bytes.{Gives, IsAtEnd, Takes};
ghost use Rattle.quiv_io.specs.Views.{told};

use super::streams::{Failed, Sink, Source};
use std::alloc::{AllocError, Global};
use std::marker::Model;

/// A source that has all its bytes in memory and gives as many as a buffer holds.
#[derive(Debug, Drop)]
pub struct SureSource {
    bytes: Vec<u8>,
    at: usize,
}

impl Model for SureSource {
    ghost use Rattle.std.specs.Prelude.{ℕ, List, ◌≤◌, drop, length};

    ghost Value = { List ℕ };

    ghost view = { λ s. drop s.at s.bytes.items };

    ghost invariant = { λ s. s.at ≤ length s.bytes.items };
}

impl SureSource {
    /// A source of these bytes.
    pub fn new(bytes: Vec<u8>) -> SureSource
        ensures { result ≡ bytes.items }
    {
        SureSource { bytes, at: 0 }
    }
}

impl Source for SureSource {
    ghost left = { λ s. Some s };

    ghost faults = { λ _. 0 };

    fn read(&mut self, into: &mut [u8]) -> Result<usize, Failed>
        ensures failed { OnErr result (Rose 0 0) }
        ensures unread { OnErr result (Some self.new ≡ Some self.old) }
        ensures within { IfOk result (λ n. n ≤ length into.new) }
        ensures given { IfOk result (λ n. Gives (Some self.old) (take n into.new) (Some self.new)) }
        ensures end { IfOk result (λ n. n ≡ 0 → 0 < length into.new → IsAtEnd (Some self.new)) }

        ensures sure { IsOkAnd result (λ n. n ≡ min (length into.new) (length self.old)) }
    {
        let rest = &self.bytes[self.at..];
        let n = into.len().min(rest.len());
        into[..n].copy_from_slice(&rest[..n]);
        self.at += n;
        Ok(n)
    }
}

/// A sink that takes every byte and keeps as many as it has room for.
#[derive(Debug, Drop)]
pub struct SureSink {
    bytes: Vec<u8>,
    room: usize,
    lost: u64,
}

impl Model for SureSink {
    ghost use Rattle.std.specs.Prelude.{◌≤◌, length, vec_capacity};
    ghost use Rattle.quiv_io.specs.Views.{SureSinkView};

    ghost Value = { SureSinkView };

    ghost view = { λ s. record { bytes = s.bytes.items; room = s.room; lost = s.lost } };

    ghost invariant = { λ s. (length s.bytes.items ≤ s.room) × (s.room ≤ vec_capacity s.bytes) };
}

impl SureSink {
    /// A sink with room for `room` bytes.
    pub fn new(alloc: Global, room: usize) -> Result<SureSink, AllocError>
        ensures { IfOk result (λ s. s ≡ record { bytes = []; room = room; lost = 0 }) }
    {
        Ok(SureSink {
            bytes: Vec::with_capacity(alloc, room)?,
            room,
            lost: 0,
        })
    }

    /// The bytes taken and kept.
    pub fn bytes(&self) -> &[u8]
        ensures { result.now ≡ self.now.bytes }
    {
        self.bytes.as_slice()
    }
}

impl Sink for SureSink {
    ghost taken = { told };

    ghost faults = { λ _. 0 };

    fn write(&mut self, from: &[u8]) -> Result<usize, Failed>
        ensures failed { OnErr result (Rose 0 0) }
        ensures untaken { OnErr result (told self.new ≡ told self.old) }
        ensures within { IfOk result (λ n. n ≤ length from.now) }
        ensures some { IfOk result (λ n. 0 < length from.now → 0 < n) }
        ensures appended { IfOk result (λ n. Takes (told self.old) (take n from.now) (told self.new)) }

        // It takes all, keeps what it has room for, and counts the rest.
        ensures sure { IsOkAnd result (λ n. n ≡ length from.now) }
        ensures kept { self.new.bytes ≡ self.old.bytes ++ take (self.old.room - length self.old.bytes) from.now }
        ensures lost { self.new.lost ≡ counted self.old.lost (length from.now - (self.old.room - length self.old.bytes)) }
        ensures room { self.new.room ≡ self.old.room }
    {
        let kept = from.len().min(self.room - self.bytes.len());
        self.bytes.extend_from_slice(&from[..kept]).unwrap();
        self.lost = self.lost.saturating_add((from.len() - kept) as u64);
        Ok(from.len())
    }
}
