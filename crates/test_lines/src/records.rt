//! Cuts bytes into whole records.
ghost use Rattle.std.specs.Prelude.{◌<◌, IfSome, length};

use crate::body::Body;

/// The whole records at the front of bytes, each as its tag and its body. What is left behind them
/// stays.
#[derive(Drop)]
pub struct Records<'a> {
    pub rest: &'a [u8],
}

/// The tag, the body and what follows of the first record, if it is whole.
fn split_record(bytes: &[u8]) -> Option<(&str, &[u8], &[u8])>
    ensures { IfSome result (λ parts. length parts.2.now < length bytes.now) }
{
    let (tag, rest) = bytes.split_at_checked(4)?;
    let (length, rest) = rest.split_at_checked(4)?;
    let length = Body { rest: length }.number(4).ok()?;
    let (body, rest) = rest.split_at_checked(length as usize)?;
    Some((str::from_utf8(tag).ok()?, body, rest))
}

impl<'a> Iterator for Records<'a> {
    ghost use Rattle.std.specs.Iterator.{at_most};

    type Item = (&'a str, &'a [u8]);

    ghost remaining = { λ s. at_most (length s.rest.now) };

    fn next(&mut self) -> Option<(&'a str, &'a [u8])> {
        let (tag, body, rest) = split_record(self.rest)?;
        self.rest = rest;
        Some((tag, body))
    }
}
