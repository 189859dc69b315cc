//! Reads the fields of a snapshot, one after another, from the front of bytes.

ghost use Rattle.std.specs.Prelude.{◌≡◌};
ghost use Rattle.std.specs.Int.{w16, w32, w64};
ghost use Rattle.dcsctp_snapshot_bytes.specs.Fields.{number_of_width, leading_signed, leading_flag, leading_payload, leading_optional};
ghost use Rattle.dcsctp_snapshot_bytes.specs.Gives.{ReadsValue};
ghost use Rattle.dcsctp_snapshot_bytes.specs.declared.reader.ReadError.TheVariants.{OutOfMemory};

use std::alloc::{AllocError, AllocFailed};

/// Why nothing was read.
#[derive(Clone, Copy, Debug)]
pub(crate) enum ReadError {
    /// The bytes aren't a snapshot.
    Malformed,

    /// An allocation failed.
    OutOfMemory,
}

impl From<AllocError> for ReadError {
    ghost from_gives = { λ _ error. error ≡ OutOfMemory };

    fn from(_refused: AllocError) -> ReadError {
        ReadError::OutOfMemory
    }
}

impl<T: Drop> From<AllocFailed<T>> for ReadError {
    ghost from_gives = { λ _ error. error ≡ OutOfMemory };

    fn from(_refused: AllocFailed<T>) -> ReadError {
        ReadError::OutOfMemory
    }
}

/// Bytes that are read from the front.
#[derive(Drop)]
pub(crate) struct Reader<'a> {
    /// What isn't read yet.
    pub(crate) rest: &'a [u8],
}

impl<'a> Reader<'a> {
    /// A number of two bytes.
    #[tactic(auto, unfolding(crate::specs::Fields::number_of_width))]
    pub(crate) fn u16(&mut self) -> Result<u16, ReadError>
        ensures { ReadsValue (λ number. number) (number_of_width w16) self.old.rest.now result
            self.new.rest.now }
    {
        if self.rest.len() < 2 {
            return Err(ReadError::Malformed);
        }
        let (front, rest) = self.rest.split_at(2);
        self.rest = rest;
        Ok(u16::from_be_bytes([front[0], front[1]]))
    }

    /// A number of four bytes.
    #[tactic(auto, unfolding(crate::specs::Fields::number_of_width))]
    pub(crate) fn u32(&mut self) -> Result<u32, ReadError>
        ensures { ReadsValue (λ number. number) (number_of_width w32) self.old.rest.now result
            self.new.rest.now }
    {
        if self.rest.len() < 4 {
            return Err(ReadError::Malformed);
        }
        let (front, rest) = self.rest.split_at(4);
        self.rest = rest;
        Ok(u32::from_be_bytes([front[0], front[1], front[2], front[3]]))
    }

    /// A number of eight bytes.
    #[tactic(auto, unfolding(crate::specs::Fields::number_of_width))]
    pub(crate) fn u64(&mut self) -> Result<u64, ReadError>
        ensures { ReadsValue (λ number. number) (number_of_width w64) self.old.rest.now result
            self.new.rest.now }
    {
        if self.rest.len() < 8 {
            return Err(ReadError::Malformed);
        }
        let (front, rest) = self.rest.split_at(8);
        self.rest = rest;
        Ok(u64::from_be_bytes([
            front[0], front[1], front[2], front[3], front[4], front[5], front[6], front[7],
        ]))
    }

    /// A number of four bytes with a sign.
    #[tactic(auto, unfolding(crate::specs::Fields::leading_signed))]
    pub(crate) fn i32(&mut self) -> Result<i32, ReadError>
        ensures { ReadsValue (λ number. number) leading_signed self.old.rest.now result
            self.new.rest.now }
    {
        Ok(self.u32()?.cast_signed())
    }

    /// A byte, 0 or 1.
    #[tactic(auto, unfolding(crate::specs::Fields::leading_flag))]
    pub(crate) fn flag(&mut self) -> Result<bool, ReadError>
        ensures { ReadsValue (λ flag. flag) leading_flag self.old.rest.now result
            self.new.rest.now }
    {
        match self.rest {
            [0, rest @ ..] => {
                self.rest = rest;
                Ok(false)
            }
            [1, rest @ ..] => {
                self.rest = rest;
                Ok(true)
            }
            _ => Err(ReadError::Malformed),
        }
    }

    /// A count, and that many bytes.
    #[tactic(auto, unfolding(crate::specs::Fields::leading_payload))]
    pub(crate) fn payload(&mut self) -> Result<&'a [u8], ReadError>
        ensures { ReadsValue (λ bytes. bytes.now) leading_payload self.old.rest.now result
            self.new.rest.now }
    {
        let count = self.u64()? as usize;
        if self.rest.len() < count {
            return Err(ReadError::Malformed);
        }
        let (bytes, rest) = self.rest.split_at(count);
        self.rest = rest;
        Ok(bytes)
    }

    /// A number of two bytes after a flag.
    #[tactic(auto, unfolding(crate::specs::Fields::leading_optional))]
    pub(crate) fn optional_u16(&mut self) -> Result<Option<u16>, ReadError>
        ensures { ReadsValue (λ value. value) (leading_optional (number_of_width w16))
            self.old.rest.now result self.new.rest.now }
    {
        if self.flag()? {
            Ok(Some(self.u16()?))
        } else {
            Ok(None)
        }
    }

    /// A number of four bytes after a flag.
    #[tactic(auto, unfolding(crate::specs::Fields::leading_optional))]
    pub(crate) fn optional_u32(&mut self) -> Result<Option<u32>, ReadError>
        ensures { ReadsValue (λ value. value) (leading_optional (number_of_width w32))
            self.old.rest.now result self.new.rest.now }
    {
        if self.flag()? {
            Ok(Some(self.u32()?))
        } else {
            Ok(None)
        }
    }

    /// A number of four bytes with a sign, after a flag.
    #[tactic(auto, unfolding(crate::specs::Fields::leading_optional))]
    pub(crate) fn optional_i32(&mut self) -> Result<Option<i32>, ReadError>
        ensures { ReadsValue (λ value. value) (leading_optional leading_signed) self.old.rest.now
            result self.new.rest.now }
    {
        if self.flag()? {
            Ok(Some(self.i32()?))
        } else {
            Ok(None)
        }
    }
}
