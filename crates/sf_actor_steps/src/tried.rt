//! What a try of a step came to inside an actor, and the reply that it makes of it.
ghost use Rattle.std.specs.Prelude.{◌≡◌, ◌<◌, [], vec_capacity, vec_len};
ghost use Rattle.sf_actor_steps.specs.inner.Coming.{is_done, reply_told};

use sf_actor::Reply;
use sf_base::{Items, QStatus};

/// What a try of a step came to.
#[derive(Drop)]
pub enum Tried {
    /// It was answered by the actor itself: 0, or the number of the test that refused it.
    Own(u32),
    /// It was answered by the call that it made on a queue.
    Called(QStatus, Items<u64>),
    /// It sent a transaction, whose arrival has this number.
    Sent(u32),
    /// It is not done yet, and nothing changed.
    NotYet,
}

impl Tried {
    /// Whether the step is done.
    pub fn is_done(&self) -> bool
        ensures { result ≡ is_done self.now }
    {
        !matches!(self, Tried::NotYet)
    }
}

/// The reply of an actor to a step. There is room for one value.
pub fn reply_to(actor: u32, step: u32, tried: Tried, mut room: Vec<u64>) -> Reply
    requires empty { room.items ≡ [] }
    requires reserved { vec_len room < vec_capacity room }
    ensures { result ≡ reply_told actor step tried }
{
    let (status, values) = match tried {
        Tried::Own(status) => (status, Items::new(room)),
        Tried::Called(status, values) => (status.number(), values),
        Tried::Sent(number) => {
            room.push_reserved(u64::from(number));
            (0, Items::new(room))
        }
        Tried::NotYet => (0, Items::new(room)),
    };
    Reply {
        actor,
        step,
        status,
        values,
    }
}
