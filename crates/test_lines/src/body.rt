//! Reads numbers out of the body of a record.
ghost use Rattle.std.specs.Prelude.{◌≡◌, ◌<◌, ◌↔◌, IsErr, OnOk, drop, length};

use crate::Width;
use std::io;

/// The bytes of a record's body that are not read yet.
#[derive(Drop)]
pub struct Body<'a> {
    pub rest: &'a [u8],
}

/// The fault of a body that ends too early.
fn cut() -> io::Error {
    io::Error::from(io::ErrorKind::UnexpectedEof)
}

impl Body<'_> {
    /// The next number, whose highest byte comes first.
    pub fn number(&mut self, width: Width) -> io::Result<u64>
        ensures cut { IsErr result ↔ length self.old.rest.now < width }
        ensures rest { OnOk result (self.new.rest.now ≡ drop width self.old.rest.now) }
    {
        let Some((bytes, rest)) = self.rest.split_at_checked(width) else {
            return Err(cut());
        };
        self.rest = rest;
        let mut number = 0u64;
        for byte in bytes {
            number = number.wrapping_mul(256).wrapping_add(u64::from(*byte));
        }
        Ok(number)
    }
}
