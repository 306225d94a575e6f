//! Memory by bytes, and its accesses.
ghost use Rattle.std.specs.Prelude.{◌≡◌, ◌<◌, ◌≤◌, ◌+◌, ◌-◌, ◌%◌, ◌^◌, length, IfOk, IsTrue, Option, Result};
ghost use Rattle.rv_types.specs.Memory.{Ram, zeros, in_ram, access_fault, load_fault, store_fault, with_bytes};
ghost use Rattle.byte_ram.specs.Access.{get_of, put_of, byte_of};

use crate::bytes::{half_at, paste, put_byte, put_half, put_word, word_at};
use rv_types::{Cause, NoMemory, Width};
use std::alloc::Global;
use std::marker::Model;

/// Memory, seen as the address of its first byte, its bytes, and whether an access may have any address. Base and size
/// are multiples of 16, it has at least one byte, and none past the address 2^32 - 1.
#[derive(Drop)]
pub struct Ram {
    base: u32,
    bytes: Vec<u8>,
    misaligned: bool,
}

impl Model for Ram {
    ghost use Rattle.std.specs.Prelude.{◌≡◌, ◌≤◌, ◌<◌, ◌+◌, ◌%◌, ◌^◌, vec_len};
    ghost use Rattle.rv_types.specs.Memory.{Ram};

    ghost Value = { Ram };

    ghost view = { λ r. record { base = r.base; bytes = r.bytes.items; misaligned = r.misaligned } };

    ghost invariant = { λ r. (r.base + vec_len r.bytes ≤ 2 ^ 32) × (0 < vec_len r.bytes) × (vec_len r.bytes < 2 ^ 32)
        × (r.base % 16 ≡ 0) × (vec_len r.bytes % 16 ≡ 0) };
}

impl Ram {
    /// Memory with all bytes 0, in which an access may have any address, or only a multiple of its width. The one error
    /// is want of memory.
    #[tactic(auto, unfolding(rv_types::specs::Memory::zeros))]
    pub fn new(alloc: Global, base: u32, size: u32, misaligned: bool) -> Result<Ram, NoMemory>
        requires base16 { base % 16 ≡ 0 }
        requires size16 { size % 16 ≡ 0 }
        requires some { 0 < size }
        requires end { base + size ≤ 2 ^ 32 }
        ensures { IfOk result (λ r. r ≡ record { base = base; bytes = zeros size; misaligned = misaligned }) }
    {
        let bytes = vec![in alloc; 0u8; size as usize]?;
        Ok(Ram {
            base,
            bytes,
            misaligned,
        })
    }

    /// The address of the first byte.
    pub fn base(&self) -> u32
        ensures value { result ≡ self.now.base }
        ensures aligned { result % 16 ≡ 0 }
        ensures end { result + length self.now.bytes ≤ 2 ^ 32 }
    {
        self.base
    }

    /// The number of bytes of memory.
    pub fn size(&self) -> u32
        ensures value { result ≡ length self.now.bytes }
        ensures aligned { result % 16 ≡ 0 }
        ensures some { 0 < result }
        ensures end { self.now.base + result ≤ 2 ^ 32 }
    {
        self.bytes.len() as u32
    }

    /// Whether an access may have any address.
    pub fn misaligned(&self) -> bool
        ensures { result ≡ self.now.misaligned }
    {
        self.misaligned
    }

    /// The bytes of memory, from the base on.
    pub fn bytes(&self) -> &[u8]
        ensures { result.now ≡ self.now.bytes }
    {
        self.bytes.as_slice()
    }

    /// The byte at an address, None exactly outside. Kept for who looks at a memory from outside, byte by byte.
    pub fn byte(&self, addr: u32) -> Option<u8>
        ensures { result ≡ byte_of self.now addr }
    {
        if addr < self.base {
            return None;
        }
        self.bytes.get((addr - self.base) as usize).copied()
    }

    /// Whether the bytes from an address on all lie in memory.
    pub fn holds(&self, addr: u32, size: u32) -> bool
        ensures { result ≡ in_ram self.now addr size }
    {
        addr >= self.base && addr as u64 + size as u64 <= self.base as u64 + self.bytes.len() as u64
    }

    /// The number at an address, zero-extended, the lowest byte first. Errors: cause 4 exactly where the address has to
    /// be a multiple of the width and isn't, else cause 5 exactly where a byte is outside.
    pub fn get(&self, addr: u32, width: Width) -> Result<u32, Cause>
        ensures { result ≡ get_of self.now addr width }
    {
        match width {
            Width::B => self.get_byte(addr),
            Width::H => self.get_half(addr),
            Width::W => self.get_word(addr),
        }
    }

    // The fault of an access of so many bytes: misaligned where memory refuses that, or else outside.
    fn fault(&self, addr: u32, size: u32, misaligned: Cause, outside: Cause) -> Option<Cause>
        requires { 0 < size }
        ensures { result ≡ access_fault misaligned outside self.now addr size }
    {
        if !self.misaligned && addr % size != 0 {
            return Some(misaligned);
        }
        if !self.holds(addr, size) {
            return Some(outside);
        }
        None
    }

    /// The fault of a load of so many bytes, None exactly where there is none: cause 4 where the address has to be a
    /// multiple of the size and isn't, else cause 5 where a byte is outside.
    pub fn load_fault(&self, addr: u32, size: u32) -> Option<Cause>
        requires { 0 < size }
        ensures { result ≡ load_fault self.now addr size }
    {
        self.fault(addr, size, Cause::load_misaligned(), Cause::load_outside())
    }

    /// The fault of a store of so many bytes, None exactly where there is none: cause 6 where the address has to be a
    /// multiple of the size and isn't, else cause 7 where a byte is outside.
    pub fn store_fault(&self, addr: u32, size: u32) -> Option<Cause>
        requires { 0 < size }
        ensures { result ≡ store_fault self.now addr size }
    {
        self.fault(
            addr,
            size,
            Cause::store_misaligned(),
            Cause::store_outside(),
        )
    }

    fn get_byte(&self, addr: u32) -> Result<u32, Cause>
        ensures { result ≡ get_of self.now addr Width.B }
    {
        match self.load_fault(addr, 1) {
            Some(cause) => Err(cause),
            None => Ok(u32::from(self.bytes[(addr - self.base) as usize])),
        }
    }

    fn get_half(&self, addr: u32) -> Result<u32, Cause>
        ensures { result ≡ get_of self.now addr Width.H }
    {
        match self.load_fault(addr, 2) {
            Some(cause) => Err(cause),
            None => Ok(half_at(self.bytes.as_slice(), (addr - self.base) as usize) as u32),
        }
    }

    fn get_word(&self, addr: u32) -> Result<u32, Cause>
        ensures { result ≡ get_of self.now addr Width.W }
    {
        match self.load_fault(addr, 4) {
            Some(cause) => Err(cause),
            None => Ok(word_at(self.bytes.as_slice(), (addr - self.base) as usize)),
        }
    }

    /// Writes the number's lowest bytes at an address, the lowest first, and changes no other. Errors: cause 6 exactly
    /// where the address has to be a multiple of the width and isn't, else cause 7 exactly where a byte is outside;
    /// nothing is changed then.
    pub fn put(&mut self, addr: u32, width: Width, value: u32) -> Result<(), Cause>
        ensures { (self.new, result) ≡ put_of self.old addr width value }
    {
        match width {
            Width::B => self.write_byte(addr, value),
            Width::H => self.write_half(addr, value),
            Width::W => self.write_word(addr, value),
        }
    }

    fn write_byte(&mut self, addr: u32, value: u32) -> Result<(), Cause>
        ensures { (self.new, result) ≡ put_of self.old addr Width.B value }
    {
        if let Some(cause) = self.store_fault(addr, 1) {
            return Err(cause);
        }
        put_byte(
            self.bytes.as_mut_slice(),
            (addr - self.base) as usize,
            value,
        );
        Ok(())
    }

    fn write_half(&mut self, addr: u32, value: u32) -> Result<(), Cause>
        ensures { (self.new, result) ≡ put_of self.old addr Width.H value }
    {
        if let Some(cause) = self.store_fault(addr, 2) {
            return Err(cause);
        }
        put_half(
            self.bytes.as_mut_slice(),
            (addr - self.base) as usize,
            value,
        );
        Ok(())
    }

    fn write_word(&mut self, addr: u32, value: u32) -> Result<(), Cause>
        ensures { (self.new, result) ≡ put_of self.old addr Width.W value }
    {
        if let Some(cause) = self.store_fault(addr, 4) {
            return Err(cause);
        }
        put_word(
            self.bytes.as_mut_slice(),
            (addr - self.base) as usize,
            value,
        );
        Ok(())
    }

    /// Writes these bytes from an address on, and changes no other.
    pub fn place(&mut self, addr: u32, new: &[u8])
        requires { IsTrue (in_ram self.old addr (length new.now)) }
        ensures { self.new ≡ with_bytes self.old addr new.now }
    {
        let at = (addr - self.base) as usize;
        paste(self.bytes.as_mut_slice(), at, new);
    }

    /// Memory with the same base, bytes and rule for addresses. The one error is want of memory.
    pub fn copy(&self, alloc: Global) -> Result<Ram, NoMemory>
        ensures { IfOk result (λ r. r ≡ self.now) }
    {
        let bytes = self.bytes.as_slice().to_vec(alloc)?;
        Ok(Ram {
            base: self.base,
            bytes,
            misaligned: self.misaligned,
        })
    }
}
