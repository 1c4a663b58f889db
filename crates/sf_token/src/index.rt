//! Which transactions are pending for which token, by their numbers, so that the first of a token
//! is found without a look at the others.
ghost use Rattle.std.specs.Prelude.{◌≡◌, ◌<◌, ◌++◌, ◌∷◌, [], ℕ, None, OnErr, OnOk, IfOk, drop, map, option_copied};
ghost use Rattle.std.specs.BTreeMap.{IsOrdered, keys};
ghost use Rattle.std.specs.Option.{option_and_then, option_map};
ghost use Rattle.std.specs.Ordering.{nat_cmp};
ghost use Rattle.sf_token.specs.Index.{Becomes, HasRoomAt, first_in, numbers_in, queue_of, queue_with};

use sf_base::{NoMemory, TokenId};
use std::alloc::Global;
use std::collections::{BTreeMap, VecDeque};

// The numbers of pending transactions by token, each token's in the order of arrival.
pub struct Index {
    alloc: Global,
    pub queues: BTreeMap<u32, VecDeque<u32>>,
}

/// The tokens of these numbers, rising.
fn listed<V>(alloc: Global, queues: &BTreeMap<u32, V>) -> Result<Vec<TokenId>, NoMemory>
    ensures tokens { IfOk result (λ tokens. tokens.items ≡ map (λ n. record { 0 = n }) (keys queues.now)) }
    ensures rising { IfOk result (λ _. IsOrdered nat_cmp queues.now) }
{
    let tokens = queues.keys().map(|number| TokenId(*number)).collect(alloc)?;
    Ok(tokens)
}

impl Index {
    /// No token has a queue.
    pub fn new(alloc: Global) -> Index
        ensures { (token : ℕ) → queue_of result.queues token ≡ None }
    {
        Index {
            alloc,
            queues: BTreeMap::new(alloc),
        }
    }

    /// The first number of a token.
    pub fn first(&self, token: TokenId) -> Option<u32>
        ensures { result ≡ first_in (queue_of self.now.queues token.0) }
    {
        let queue = self.queues.get(&token.0)?;
        queue.front().copied()
    }

    /// The tokens that have a queue, rising.
    pub fn tokens(&self) -> Result<Vec<TokenId>, NoMemory>
        ensures tokens { IfOk result (λ tokens. tokens.items ≡ map (λ n. record { 0 = n }) (keys self.now.queues)) }
        ensures rising { IfOk result (λ _. IsOrdered nat_cmp self.now.queues) }
    {
        listed(self.alloc, &self.queues)
    }

    /// Takes memory for one number more of a token. One that had no queue has an empty one then.
    pub fn reserve(&mut self, token: TokenId) -> Result<(), NoMemory>
        ensures room { OnOk result (HasRoomAt self.new.queues token.0) }
        ensures ok { OnOk result (Becomes (queue_of self.old.queues) (queue_of self.new.queues) token.0
            (Some (numbers_in (queue_of self.old.queues token.0)))) }
        ensures err { OnErr result ((t : ℕ) → queue_of self.new.queues t ≡ queue_of self.old.queues t) }
    {
        if let Some(queue) = self.queues.get_mut(&token.0) {
            queue.reserve(1)?;
            return Ok(());
        }
        let queue = VecDeque::with_capacity(self.alloc, 1)?;
        self.queues.insert(token.0, queue)?;
        Ok(())
    }

    /// A number goes to the end of a token's queue, which has room for it.
    pub fn push(&mut self, token: TokenId, number: u32)
        requires { HasRoomAt self.old.queues token.0 }
        ensures { Becomes (queue_of self.old.queues) (queue_of self.new.queues) token.0
            (Some (numbers_in (queue_of self.old.queues token.0) ++ number ∷ [])) }
    {
        match self.queues.get_mut(&token.0) {
            Some(queue) => queue.push_back_reserved(number),
            None => unreachable!(),
        }
    }

    /// The first number of a token goes, and its queue with its last number.
    pub fn pop(&mut self, token: TokenId) -> Option<u32>
        ensures gone { result ≡ first_in (queue_of self.old.queues token.0) }
        ensures left { Becomes (queue_of self.old.queues) (queue_of self.new.queues) token.0
            (queue_with (drop 1 (numbers_in (queue_of self.old.queues token.0)))) }
    {
        let number = self.take_first(token);
        self.close(token);
        number
    }

    /// The first number of a token goes.
    fn take_first(&mut self, token: TokenId) -> Option<u32>
        ensures gone { result ≡ first_in (queue_of self.old.queues token.0) }
        ensures left { Becomes (queue_of self.old.queues) (queue_of self.new.queues) token.0
            (option_map (λ numbers. drop 1 numbers) (queue_of self.old.queues token.0)) }
    {
        match self.queues.get_mut(&token.0) {
            Some(queue) => queue.pop_front(),
            None => None,
        }
    }

    /// A queue without numbers goes.
    pub fn close(&mut self, token: TokenId)
        ensures { Becomes (queue_of self.old.queues) (queue_of self.new.queues) token.0
            (queue_with (numbers_in (queue_of self.old.queues token.0))) }
    {
        let is_empty = match self.queues.get(&token.0) {
            Some(queue) => queue.is_empty(),
            None => false,
        };
        if is_empty {
            self.queues.remove(&token.0);
        }
    }
}

impl Drop for Index {
    fn drop(self) {
        let Index {
            alloc: _,
            queues: _,
        } = self;
    }
}
