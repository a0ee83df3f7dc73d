//! A reader of bytes from the front, field by field.

ghost use Rattle.std.specs.Prelude.{◌≡◌, ◌≤◌, if◌then◌else◌, false, nat_lt, IfOk, OnOk, OnErr, length};
ghost use Rattle.mm_format.specs.Formats.{text, byte, u16, u32, u64, test, literal, Parsed};
ghost use Rattle.mm_format.specs.Reading.{GivesAlone, ReadsAlone};

use std::alloc::{AllocError, AllocFailed};

/// A kind of fault of some format. Each format has one for a field that is not whole.
pub trait FaultKind: Copy {
    ghost use Rattle.std.specs.Prelude.{◌≡◌, ℕ};

    /// The number of a kind of fault.
    ghost number: { Self → ℕ };

    /// The kind for a field that is not whole.
    fn short() -> Self
        ensures { number result ≡ 1 };
}

/// Why nothing was read: a fault at an offset, or memory ran out.
#[derive(Clone, Copy)]
pub enum ReadError<K> {
    Fault { fault: K, offset: u64 },
    NoMemory,
}

impl<K> From<AllocError> for ReadError<K> {
    ghost use Rattle.mm_format.specs.declared.reader.ReadError.TheVariants.{NoMemory};

    ghost from_gives = { λ _ e. e ≡ NoMemory };

    fn from(_: AllocError) -> ReadError<K> {
        ReadError::NoMemory
    }
}

impl<K, T: Drop> From<AllocFailed<T>> for ReadError<K> {
    ghost use Rattle.mm_format.specs.declared.reader.ReadError.TheVariants.{NoMemory};

    ghost from_gives = { λ _ e. e ≡ NoMemory };

    fn from(_: AllocFailed<T>) -> ReadError<K> {
        ReadError::NoMemory
    }
}

/// The bytes of a file, and where the next field begins.
#[derive(Drop)]
pub struct Reader<'a> {
    pub bytes: &'a [u8],
    pub at: usize,
}

impl<'a> Reader<'a> {
    /// The bytes of a field of this size.
    pub fn raw<K: FaultKind>(&mut self, size: usize) -> Result<&'a [u8], ReadError<K>>
        ensures read { ReadsAlone K.number (λ xs. xs.now) (text size).read self.old self.new result }
        ensures stays { OnErr result (self.new.at ≡ self.old.at) }
        ensures long { IfOk result (λ xs. length xs.now ≡ size) }
    {
        match self.at.checked_add(size) {
            Some(end) if end <= self.bytes.len() => {
                let field = &self.bytes[self.at..end];
                self.at = end;
                Ok(field)
            }
            _ => Err(failed(K::short(), self.bytes.len())),
        }
    }

    /// The number of one byte.
    #[tactic(auto, using(crate::proofs::Raw::byte_got, crate::proofs::Raw::byte_bad))]
    pub fn u8<K: FaultKind>(&mut self) -> Result<u8, ReadError<K>>
        ensures read { ReadsAlone K.number (λ n. n) byte.read self.old self.new result }
        ensures stays { OnErr result (self.new.at ≡ self.old.at) }
    {
        let field = self.raw(1)?;
        Ok(field[0])
    }

    /// The number of two bytes.
    #[tactic(auto, using(crate::proofs::Raw::u16_got, crate::proofs::Raw::u16_bad))]
    pub fn u16<K: FaultKind>(&mut self) -> Result<u16, ReadError<K>>
        ensures read { ReadsAlone K.number (λ n. n) u16.read self.old self.new result }
        ensures stays { OnErr result (self.new.at ≡ self.old.at) }
    {
        let field = self.raw(2)?;
        Ok(u16::from_be_bytes([field[0], field[1]]))
    }

    /// The number of four bytes.
    #[tactic(auto, using(crate::proofs::Raw::u32_got, crate::proofs::Raw::u32_bad))]
    pub fn u32<K: FaultKind>(&mut self) -> Result<u32, ReadError<K>>
        ensures read { ReadsAlone K.number (λ n. n) u32.read self.old self.new result }
        ensures stays { OnErr result (self.new.at ≡ self.old.at) }
    {
        let field = self.raw(4)?;
        Ok(u32::from_be_bytes([field[0], field[1], field[2], field[3]]))
    }

    /// The number of eight bytes.
    #[tactic(auto, using(crate::proofs::Raw::u64_got, crate::proofs::Raw::u64_bad))]
    pub fn u64<K: FaultKind>(&mut self) -> Result<u64, ReadError<K>>
        ensures read { ReadsAlone K.number (λ n. n) u64.read self.old self.new result }
        ensures stays { OnErr result (self.new.at ≡ self.old.at) }
    {
        let field = self.raw(8)?;
        Ok(u64::from_be_bytes([
            field[0], field[1], field[2], field[3], field[4], field[5], field[6], field[7],
        ]))
    }

    /// The number of one byte. If it is above `most`, the fault is `kind`, at the number's place.
    pub fn u8_up_to<K: FaultKind>(&mut self, most: u8, kind: K) -> Result<u8, ReadError<K>>
        ensures read { ReadsAlone K.number (λ n. n)
            (test byte (K.number kind) (nat_lt most)).read self.old self.new result }
        ensures few { IfOk result (λ n. n ≤ most) }
    {
        let at = self.at;
        let value = self.u8()?;
        refuse_if(value > most, kind, at)?;
        Ok(value)
    }

    /// The number of two bytes. If it is above `most`, the fault is `kind`, at the number's place.
    pub fn u16_up_to<K: FaultKind>(&mut self, most: u16, kind: K) -> Result<u16, ReadError<K>>
        ensures read { ReadsAlone K.number (λ n. n)
            (test u16 (K.number kind) (nat_lt most)).read self.old self.new result }
        ensures few { IfOk result (λ n. n ≤ most) }
    {
        let at = self.at;
        let value = self.u16()?;
        refuse_if(value > most, kind, at)?;
        Ok(value)
    }

    /// The number of four bytes. If it is above `most`, the fault is `kind`, at the number's place.
    pub fn u32_up_to<K: FaultKind>(&mut self, most: u32, kind: K) -> Result<u32, ReadError<K>>
        ensures read { ReadsAlone K.number (λ n. n)
            (test u32 (K.number kind) (nat_lt most)).read self.old self.new result }
        ensures few { IfOk result (λ n. n ≤ most) }
    {
        let at = self.at;
        let value = self.u32()?;
        refuse_if(value > most, kind, at)?;
        Ok(value)
    }

    /// The number of eight bytes. If it is above `most`, the fault is `kind`, at the number's place.
    pub fn u64_up_to<K: FaultKind>(&mut self, most: u64, kind: K) -> Result<u64, ReadError<K>>
        ensures read { ReadsAlone K.number (λ n. n)
            (test u64 (K.number kind) (nat_lt most)).read self.old self.new result }
        ensures few { IfOk result (λ n. n ≤ most) }
    {
        let at = self.at;
        let value = self.u64()?;
        refuse_if(value > most, kind, at)?;
        Ok(value)
    }

    /// Reads bytes that have to be these. If they are others, the fault is `kind`, at their place.
    pub fn literal<K: FaultKind>(&mut self, wanted: &[u8], kind: K) -> Result<(), ReadError<K>>
        ensures read { ReadsAlone K.number (λ _. wanted.now)
            (literal wanted.now (K.number kind)).read self.old self.new result }
    {
        let at = self.at;
        let found = self.raw(wanted.len())?;
        refuse_if(found != wanted, kind, at)
    }
}

/// The error of a fault at an offset.
pub fn failed<K>(fault: K, at: usize) -> ReadError<K>
    ensures { result ≡ ReadError.Fault fault at }
{
    ReadError::Fault {
        fault,
        offset: at as u64,
    }
}

/// Fails with this fault if `wrong`.
pub fn refuse_if<K: FaultKind>(wrong: bool, kind: K, at: usize) -> Result<(), ReadError<K>>
    ensures fault { GivesAlone K.number (λ _. false)
        (if wrong then Parsed.Bad (K.number kind) at else Parsed.Got false 0) 0 result }
    ensures right { OnOk result (wrong ≡ false) }
{
    if wrong {
        return Err(failed(kind, at));
    }
    Ok(())
}
