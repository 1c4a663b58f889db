//! A queue's limits, mode, producer and counters.
ghost use Rattle.std.specs.Prelude.{◌≡◌, ◌<◌, ◌≤◌, ◌^◌};

use sf_base::ActorId;

/// A queue's settings and counters.
#[derive(Clone, Copy)]
pub struct Settings {
    /// The default size of a buffer, in pixels.
    pub width: u32,
    pub height: u32,
    /// How many buffers the consumer may hold before it acquires one more.
    pub max_acquired: u32,
    /// How many buffers the producer may hold.
    pub max_dequeued: u32,
    /// Whether a new frame takes the place of one that waits.
    pub asynchronous: bool,
    /// The connected producer.
    pub connected: Option<ActorId>,
    /// Whether the consumer has given the queue up, for good.
    pub abandoned: bool,
    /// Whether something was queued since the producer connected.
    pub queued: bool,
    /// How many frames were queued.
    pub frames: u64,
    /// How many buffers were made or attached.
    pub buffers: u64,
}

impl Settings {
    ghost use Rattle.sf_slots.specs.Told.{usable};

    /// How many slots may be used under these limits and this mode.
    pub fn usable(&self) -> u32
        requires { usable self.now < 2 ^ 32 }
        ensures { result ≡ usable self.now }
    {
        self.max_acquired + self.max_dequeued + u32::from(self.asynchronous)
    }
}
