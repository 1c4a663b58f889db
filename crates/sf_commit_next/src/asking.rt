//! The tokens that may have something to commit yet in a vsync, the lowest first.
ghost use Rattle.std.specs.List.Sorted.{IsStrictlySortedBy};
ghost use Rattle.std.specs.Ordering.{nat_cmp};
ghost use Rattle.std.specs.Prelude.{◌≡◌, [], ◌∷◌, OnOk};
ghost use Rattle.sf_commit_next.specs.Asking.{TakesLowest};

use sf_base::{NoMemory, TokenId};
use std::alloc::Global;
use std::marker::Model;

/// The tokens whose first transactions may commit yet in a vsync, by their numbers, which rise.
#[derive(Drop)]
pub struct Asking {
    // From the highest.
    tokens: Vec<u32>,
}

impl Model for Asking {
    ghost use Rattle.std.specs.List.Sorted.{IsStrictlySortedBy};
    ghost use Rattle.std.specs.Ordering.{nat_cmp};
    ghost use Rattle.std.specs.Prelude.{ℕ, List, reverse};

    ghost Value = { List ℕ };

    ghost view = { λ a. reverse a.tokens.items };

    ghost invariant = { λ a. IsStrictlySortedBy nat_cmp (reverse a.tokens.items) };
}

impl Asking {
    /// No token.
    pub fn new(alloc: Global) -> Asking
        ensures { result ≡ [] }
    {
        Asking {
            tokens: Vec::new(alloc),
        }
    }

    /// States that the numbers of the tokens rise, and does nothing.
    pub fn rises(&self)
        ensures { IsStrictlySortedBy nat_cmp self.now }
    {
        let _tokens = &self.tokens;
    }

    /// A token has to be asked, too, which is lower than all others.
    pub fn add_lowest(&mut self, token: TokenId) -> Result<(), NoMemory>
        requires { IsStrictlySortedBy nat_cmp (token.0 ∷ self.old) }
        ensures { OnOk result (self.new ≡ token.0 ∷ self.old) }
    {
        self.tokens.push(token.0)?;
        Ok(())
    }

    /// Takes the lowest token out, if there is one.
    pub fn take_lowest(&mut self) -> Option<TokenId>
        ensures { TakesLowest self.old self.new result }
    {
        let number = self.tokens.pop()?;
        Some(TokenId(number))
    }
}
