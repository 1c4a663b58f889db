//! The number of a sender in a type, for proofs alone.
ghost use Rattle.std.specs.Prelude.{ℕ};

use std::marker::Brand;

/// The number of the sender that is made next, for proofs alone. What a split of a pass leaves is a
/// function of what the pass knows, so a number that is known only at run time has to stand in a type.
pub trait SenderNumber {
    ghost number: { ℕ };
}

impl SenderNumber for Brand {
    ghost number = { 0 };
}
