//! A block of bytes that is written field by field.
ghost use Rattle.std.specs.Prelude.{◌≡◌, ◌≤◌, ◌+◌, [], ◌++◌, length, replicate};
ghost use Rattle.byteorder.specs.Endian.{little_bytes};
ghost use Rattle.verity_hash.specs.Hashing.{with_zeros};

use byteorder::{ByteOrder, LittleEndian};
use std::marker::Model;

/// The first fields of a block of `N` bytes, which contracts see as the bytes appended so far. The rest of the block is
/// zeros.
#[derive(Drop)]
pub(crate) struct FieldWriter<const N: usize> {
    bytes: [u8; N],
    at: usize,
}

impl<const N: usize> Model for FieldWriter<N> {
    ghost use Rattle.std.specs.Prelude.{ℕ, List, take};
    ghost use Rattle.verity_hash.specs.Hashing.{IsPadded};

    ghost Value = { List ℕ };

    ghost view = { λ fields. take fields.at fields.bytes };

    ghost invariant = { λ fields. IsPadded N fields.bytes fields.at };
}

impl<const N: usize> FieldWriter<N> {
    pub(crate) fn new() -> Self
        ensures { result ≡ [] }
    {
        FieldWriter {
            bytes: [0; N],
            at: 0,
        }
    }

    /// Appends bytes to the fields.
    pub(crate) fn append(&mut self, bytes: &[u8])
        requires { length self.old + length bytes.now ≤ N }
        ensures bytes { self.new ≡ self.old ++ bytes.now }
        ensures longer { length self.new ≡ length self.old + length bytes.now }
    {
        let end = self.at + bytes.len();
        let block = &mut self.bytes[..];
        block[self.at..end].copy_from_slice(bytes);
        self.at = end;
    }

    /// Appends `count` zeros.
    pub(crate) fn append_zeros(&mut self, count: usize)
        requires { length self.old + count ≤ N }
        ensures bytes { self.new ≡ self.old ++ replicate count 0 }
        ensures longer { length self.new ≡ length self.old + count }
    {
        self.at += count;
    }

    /// Appends bytes, and zeros up to a field's width.
    pub(crate) fn append_with_zeros(&mut self, width: usize, bytes: &[u8])
        requires fits { length bytes.now ≤ width }
        requires room { length self.old + width ≤ N }
        ensures bytes { self.new ≡ self.old ++ with_zeros width bytes.now }
        ensures longer { length self.new ≡ length self.old + width }
    {
        self.append(bytes);
        self.append_zeros(width - bytes.len());
    }

    pub(crate) fn append_u16(&mut self, number: u16)
        requires { length self.old + 2 ≤ N }
        ensures bytes { self.new ≡ self.old ++ little_bytes 2 number }
        ensures longer { length self.new ≡ length self.old + 2 }
    {
        let mut bytes = [0; 2];
        LittleEndian::write_u16(&mut bytes, number);
        self.append(&bytes);
    }

    pub(crate) fn append_u32(&mut self, number: u32)
        requires { length self.old + 4 ≤ N }
        ensures bytes { self.new ≡ self.old ++ little_bytes 4 number }
        ensures longer { length self.new ≡ length self.old + 4 }
    {
        let mut bytes = [0; 4];
        LittleEndian::write_u32(&mut bytes, number);
        self.append(&bytes);
    }

    pub(crate) fn append_u64(&mut self, number: u64)
        requires { length self.old + 8 ≤ N }
        ensures bytes { self.new ≡ self.old ++ little_bytes 8 number }
        ensures longer { length self.new ≡ length self.old + 8 }
    {
        let mut bytes = [0; 8];
        LittleEndian::write_u64(&mut bytes, number);
        self.append(&bytes);
    }

    /// The fields alone.
    pub(crate) fn as_bytes(&self) -> &[u8]
        ensures { result.now ≡ self.now }
    {
        &self.bytes[..self.at]
    }

    /// The whole block: the fields, and zeros.
    pub(crate) fn finish(self) -> [u8; N]
        ensures { result ≡ with_zeros N self.entry }
    {
        self.bytes
    }
}
