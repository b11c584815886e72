//! Memory that a caller lends.
ghost use Rattle.std.specs.Prelude.{◌≡◌, ◌*◌, ℕ, IfOk, replicate};

use std::alloc::{AllocError, Global};

/// Two vectors to work in, for calls that take no memory of their own.
#[derive(Drop)]
pub struct Scratch {
    pub numbers: Vec<u32>,
    pub bytes: Vec<u8>,
}

impl Scratch {
    /// A scratch whose vectors hold as many zeros as are asked for.
    pub fn reserve(alloc: Global, numbers: u64, bytes: u64) -> Result<Scratch, AllocError>
        ensures numbers { IfOk result (λ s. s.numbers.items ≡ replicate numbers 0) }
        ensures bytes { IfOk result (λ s. s.bytes.items ≡ replicate bytes 0) }
    {
        Ok(Scratch {
            numbers: vec![in alloc; 0u32; numbers as usize]?,
            bytes: vec![in alloc; 0u8; bytes as usize]?,
        })
    }
}
