//! A device in memory.
ghost use Rattle.std.specs.Prelude.{◌≡◌, ◌≤◌, ◌<◌, ◌+◌, ◌-◌, ◌++◌, length, take, drop, replicate, IfOk, IsErr, IsOk};
ghost use Rattle.std.specs.Prelude.{OnOk, OnErr, vec_capacity};
ghost use Rattle.verity_io.specs.Counting.{CountsFailure};
ghost use Rattle.verity_io.specs.Growing.{room_of};
ghost use Rattle.verity_io.specs.Reading.{ReadsAt};
ghost use Rattle.verity_io.specs.Writing.{most_bytes, put, Spoiled};

use crate::device::Device;
use crate::failed::{Failed, count_failure};
use std::alloc::AllocError;

/// Bytes in memory, which grow by their vector's allocator. If a write ends past the vector's capacity and there is no
/// memory to grow, it fails and leaves them.
#[derive(Drop)]
pub struct MemoryDevice {
    bytes: Vec<u8>,
    failures: u64,
}

impl MemoryDevice {
    /// A device that holds these bytes.
    pub fn new(bytes: Vec<u8>) -> Self
        ensures told { ⟦<MemoryDevice as Device>⟧.tells result }
        ensures content { ⟦<MemoryDevice as Device>⟧.content result ≡ bytes.items }
        ensures failures { ⟦<MemoryDevice as Device>⟧.failures result ≡ 0 }
        ensures room { room_of result ≡ vec_capacity bytes }
    {
        MemoryDevice { bytes, failures: 0 }
    }

    /// All its bytes.
    pub fn bytes(&self) -> &[u8]
        ensures { result.now ≡ ⟦<MemoryDevice as Device>⟧.content self.now }
    {
        &self.bytes
    }
}

/// A read never fails. A write fails only if the bytes have to grow past the vector's capacity, and leaves them then.
/// The capacity never becomes smaller.
impl Device for MemoryDevice {
    ghost tells = { λ _. Unit {0} };

    ghost content = { λ d. d.bytes.items };

    ghost failures = { λ d. d.failures };

    fn read_at(&mut self, at: u64, buf: &mut [u8]) -> Result<usize, Failed>
        ensures all { IsOk result }
        ensures bound { IfOk result (λ k. k ≤ length buf.new) }
        ensures told { ⟦<MemoryDevice as Device>⟧.tells self.old → ⟦<MemoryDevice as Device>⟧.tells self.new }
        ensures same { ⟦<MemoryDevice as Device>⟧.tells self.old →
            ⟦<MemoryDevice as Device>⟧.content self.new ≡ ⟦<MemoryDevice as Device>⟧.content self.old }
        ensures bytes { ⟦<MemoryDevice as Device>⟧.tells self.old →
            ReadsAt result at (⟦<MemoryDevice as Device>⟧.content self.old) buf.new }
        ensures count { CountsFailure (⟦<MemoryDevice as Device>⟧.failures self.old)
            (⟦<MemoryDevice as Device>⟧.failures self.new) result }
    {
        let at = at as usize;
        if at >= self.bytes.len() {
            return Ok(0);
        }
        let count = buf.len().min(self.bytes.len() - at);
        buf[..count].copy_from_slice(&self.bytes[at..at + count]);
        Ok(count)
    }

    fn write_at(&mut self, at: u64, bytes: &[u8]) -> Result<(), Failed>
        requires { at + length bytes.now ≤ most_bytes }
        ensures grows { IsErr result → length (⟦<MemoryDevice as Device>⟧.content self.old) < at + length bytes.now }
        ensures full { IsErr result → room_of self.old < at + length bytes.now }
        ensures room { room_of self.old ≤ room_of self.new }
        ensures left { OnErr result
            (⟦<MemoryDevice as Device>⟧.content self.new ≡ ⟦<MemoryDevice as Device>⟧.content self.old) }
        ensures told { ⟦<MemoryDevice as Device>⟧.tells self.old → ⟦<MemoryDevice as Device>⟧.tells self.new }
        ensures ok { ⟦<MemoryDevice as Device>⟧.tells self.old →
            OnOk result (⟦<MemoryDevice as Device>⟧.content self.new
            ≡ put (⟦<MemoryDevice as Device>⟧.content self.old) at bytes.now) }
        ensures failed { ⟦<MemoryDevice as Device>⟧.tells self.old → OnErr result
            (Spoiled (⟦<MemoryDevice as Device>⟧.content self.old) at (length bytes.now)
            (⟦<MemoryDevice as Device>⟧.content self.new)) }
        ensures count { CountsFailure (⟦<MemoryDevice as Device>⟧.failures self.old)
            (⟦<MemoryDevice as Device>⟧.failures self.new) result }
    {
        let outcome = put_at(&mut self.bytes, at as usize, bytes);
        count_failure(&mut self.failures, outcome)
    }
}

fn put_at(bytes: &mut Vec<u8>, at: usize, others: &[u8]) -> Result<(), Failed>
    requires { at + length others.now ≤ most_bytes }
    ensures ok { OnOk result (bytes.new.items ≡ put bytes.old.items at others.now) }
    ensures err { OnErr result (bytes.new.items ≡ bytes.old.items) }
    ensures grows { IsErr result → length bytes.old.items < at + length others.now }
    ensures full { IsErr result → vec_capacity bytes.old < at + length others.now }
    ensures room { vec_capacity bytes.old ≤ vec_capacity bytes.new }
{
    match fill_up(bytes, at + others.len()) {
        Ok(()) => {
            overwrite(bytes, at, others);
            Ok(())
        }
        Err(_) => Err(Failed),
    }
}

// Appends zeros up to at least a length.
fn fill_up(bytes: &mut Vec<u8>, len: usize) -> Result<(), AllocError>
    ensures ok { OnOk result (bytes.new.items ≡ bytes.old.items ++ replicate (len - length bytes.old.items) 0) }
    ensures err { OnErr result (bytes.new.items ≡ bytes.old.items) }
    ensures grows { IsErr result → length bytes.old.items < len }
    ensures full { IsErr result → vec_capacity bytes.old < len }
    ensures room { vec_capacity bytes.old ≤ vec_capacity bytes.new }
{
    if bytes.len() < len {
        bytes.resize(len, 0)?;
    }
    Ok(())
}

fn overwrite(bytes: &mut Vec<u8>, at: usize, others: &[u8])
    requires { at + length others.now ≤ length bytes.old.items }
    ensures bytes { bytes.new.items
        ≡ take at bytes.old.items ++ others.now ++ drop (at + length others.now) bytes.old.items }
    ensures room { vec_capacity bytes.new ≡ vec_capacity bytes.old }
{
    bytes[at..at + others.len()].copy_from_slice(others);
}
