//! A sink in memory.
ghost use Rattle.std.specs.Prelude.{◌≡◌, ◌<◌, ◌≤◌, nat_lt, Some, [], IfOk, is_ok, if◌then◌else◌, length, vec_capacity};
ghost use Rattle.cvc_io.specs.Bytes.{TakesSome, Writes};
ghost use Rattle.cvc_io.specs.Causes.{HasCause, bump};

use crate::{Sink, WriteFailed};
use cvc_base::NoMemory;
use std::alloc::Global;

/// A sink that keeps what it takes, and takes what still fits in its room. Its memory is taken when it is made.
#[derive(Drop)]
pub struct MemSink {
    taken: Vec<u8>,
    room: usize,
    faults: u64,
    ghost fits: { length taken.items ≤ room },
    ghost reserved: { room ≤ vec_capacity taken },
}

impl MemSink {
    ghost use Rattle.cvc_io.specs.MemSink.{taken_of, room_of, faults_of};

    /// An empty sink with room for so many bytes.
    pub fn new(alloc: Global, room: usize) -> Result<MemSink, NoMemory>
        ensures taken { IfOk result (λ sink. taken_of sink ≡ []) }
        ensures room { IfOk result (λ sink. room_of sink ≡ room) }
        ensures faults { IfOk result (λ sink. faults_of sink ≡ 0) }
    {
        Ok(MemSink {
            taken: Vec::with_capacity(alloc, room)?,
            room,
            faults: 0,
        })
    }

    /// All bytes that it took.
    pub fn bytes(&self) -> &[u8]
        ensures { result.now ≡ taken_of self.now }
    {
        self.taken.as_slice()
    }
}

impl Sink for MemSink {
    ghost use Rattle.cvc_io.specs.MemSink.{taken_of, room_of, faults_of, fitting};

    ghost written = { λ s. Some (taken_of s) };

    ghost faults = { faults_of };

    fn write(&mut self, piece: &[u8]) -> Result<usize, WriteFailed>
        requires { 0 < length piece.now }
        ensures bound { TakesSome result piece.now }
        ensures bytes { Writes (Some (taken_of self.old)) (Some (taken_of self.new)) result piece.now }
        ensures cause { HasCause (faults_of self.old) (faults_of self.new) result }
        // It takes what still fits, and fails exactly where nothing does.
        ensures whole { IfOk result (λ n. n ≡ fitting (room_of self.old) (taken_of self.old) piece.now) }
        ensures fails { is_ok result ≡ nat_lt 0 (fitting (room_of self.old) (taken_of self.old) piece.now) }
        ensures count { faults_of self.new ≡ (if is_ok result then faults_of self.old else bump (faults_of self.old)) }
        ensures room { room_of self.new ≡ room_of self.old }
    {
        let fits = piece.len().min(self.room - self.taken.len());
        if fits == 0 || self.taken.extend_from_slice(&piece[..fits]).is_err() {
            self.faults = self.faults.saturating_add(1);
            return Err(WriteFailed);
        }
        Ok(fits)
    }
}
