//! The bytes that came before. They exist only in proofs: at run time a `Past` is nothing.
ghost use Rattle.std.specs.Prelude.{◌≡◌, ◌++◌, List, ℕ, []};
ghost use base.Fml.{ftrue};

use std::marker::Model;

#[derive(Drop)]
pub(crate) struct Past {
    ghost bytes: { List ℕ },
}

impl Model for Past {
    ghost also_owns = { λ _. ftrue };
}

// A piece of bytes.
#[derive(Clone, Copy, Drop)]
pub(crate) struct Piece<'a> {
    pub(crate) bytes: &'a [u8],
}

impl Past {
    pub(crate) fn new() -> Past
        ensures { result.bytes ≡ [] }
    {
        Past {}
    }

    #[inline(always)]
    pub(crate) fn with(&self, _piece: &Piece<'_>) -> Past
        ensures { result.bytes ≡ self.now.bytes ++ _piece.now.bytes.now }
    {
        Past {}
    }
}
