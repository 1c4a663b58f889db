//! What a line of a case asks for: a call, and the words after its name.
use sf_base::{ActorId, Fence, Rect, SlotId};
use std::alloc::Global;
use std::str::SplitWhitespace;
use test_words::{actor, fence, named, number32, number64, present_time, rect, slot};

/// What a line asks for.
#[derive(Clone, Copy)]
pub enum Call {
    Connect,
    Disconnect,
    MaxDequeued,
    Async,
    Dequeue,
    /// A dequeue that may wait.
    DequeueWait,
    Request,
    Queue,
    /// What is allowed asks for the refusal first, and then makes the call that can't be refused.
    QueueAllowed,
    Cancel,
    CancelAllowed,
    Detach,
    DetachAllowed,
    Attach,
    MaxAcquired,
    Abandon,
    Acquire,
    Release,
    DetachRead,
    AttachRead,
    /// Draws a picture in a lease, or one that is owed.
    Draw,
    /// Reads the first pixel of a frame.
    Read,
    /// A timeline is seen at a value from now on.
    See,
    /// A vsync of the compositor shows a frame.
    Show,
    /// The compositor lends its pixels.
    Lend,
    /// They are given back.
    Give,
    /// Prints what is known of the queue.
    State,
}

/// What a word, or the next few, say of a call.
#[derive(Clone, Copy)]
pub enum Part {
    Actor,
    Place,
    Slot,
    /// The number of a buffer or of a frame, a time that is expected, or a timeline's value.
    Number,
    /// A limit, or the number of a timeline.
    Count,
    Picture,
    Size,
    Time,
    Crop,
    Fence,
    Right,
}

/// All that a line may say of a call. What a call has no word for is 0.
#[derive(Drop)]
pub struct Said {
    pub by: ActorId,
    /// Where the token lies that a call brings, and where the token comes that it gets; for a call
    /// without either it is no place.
    pub place: usize,
    pub slot: SlotId,
    pub number: u64,
    pub count: u32,
    pub picture: u32,
    pub width: u32,
    pub height: u32,
    pub time: Option<u64>,
    pub crop: Rect,
    pub fence: Fence,
    pub right: u64,
}

/// A call, and what stands after its name.
type Form = (Call, &'static [Part]);

/// The words of a call on a buffer in a slot, by the actor to which it is lent.
const ON_LENT: &[Part] = &[Part::Actor, Part::Slot, Part::Number];

/// The words of a call that takes back a buffer that nothing was queued in.
const CANCEL: &[Part] = &[
    Part::Actor,
    Part::Slot,
    Part::Number,
    Part::Fence,
    Part::Right,
];

/// The words of a call that queues a frame.
const QUEUE: &[Part] = &[
    Part::Actor,
    Part::Slot,
    Part::Number,
    Part::Picture,
    Part::Size,
    Part::Time,
    Part::Crop,
    Part::Fence,
    Part::Right,
];

/// The calls of a case whose rights are numbers.
const WITH_NUMBERS: &[(&str, Form)] = &[
    ("connect", (Call::Connect, &[Part::Actor])),
    ("disconnect", (Call::Disconnect, &[Part::Actor])),
    ("maxdequeued", (Call::MaxDequeued, &[Part::Count])),
    ("async", (Call::Async, &[Part::Count])),
    (
        "dequeue",
        (Call::Dequeue, &[Part::Actor, Part::Size, Part::Right]),
    ),
    ("request", (Call::Request, ON_LENT)),
    ("queue", (Call::Queue, QUEUE)),
    ("queue-allowed", (Call::QueueAllowed, QUEUE)),
    ("cancel", (Call::Cancel, CANCEL)),
    ("cancel-allowed", (Call::CancelAllowed, CANCEL)),
    ("detach", (Call::Detach, ON_LENT)),
    ("detach-allowed", (Call::DetachAllowed, ON_LENT)),
    ("attach", (Call::Attach, &[Part::Actor, Part::Size])),
    ("maxacquired", (Call::MaxAcquired, &[Part::Count])),
    ("abandon", (Call::Abandon, &[])),
    ("acquire", (Call::Acquire, &[Part::Number])),
    (
        "release",
        (
            Call::Release,
            &[Part::Slot, Part::Number, Part::Fence, Part::Right],
        ),
    ),
    (
        "detachread",
        (Call::DetachRead, &[Part::Slot, Part::Number]),
    ),
    ("attachread", (Call::AttachRead, &[Part::Size])),
    ("state", (Call::State, &[])),
];

/// The calls of a case whose rights are turns.
const WITH_TURNS: &[(&str, Form)] = &[
    ("connect", (Call::Connect, &[])),
    ("disconnect", (Call::Disconnect, &[])),
    ("maxdequeued", (Call::MaxDequeued, &[Part::Count])),
    ("async", (Call::Async, &[Part::Count])),
    ("dequeue", (Call::Dequeue, &[Part::Place, Part::Size])),
    (
        "dequeuewait",
        (Call::DequeueWait, &[Part::Place, Part::Size]),
    ),
    ("request", (Call::Request, &[Part::Place])),
    (
        "queue",
        (
            Call::Queue,
            &[
                Part::Place,
                Part::Picture,
                Part::Size,
                Part::Time,
                Part::Crop,
                Part::Fence,
            ],
        ),
    ),
    ("cancel", (Call::Cancel, &[Part::Place, Part::Fence])),
    ("detach", (Call::Detach, &[Part::Place])),
    ("attach", (Call::Attach, &[Part::Place])),
    ("maxacquired", (Call::MaxAcquired, &[Part::Count])),
    ("abandon", (Call::Abandon, &[])),
    ("acquire", (Call::Acquire, &[Part::Place, Part::Number])),
    ("release", (Call::Release, &[Part::Place, Part::Fence])),
    ("detachread", (Call::DetachRead, &[Part::Place])),
    ("attachread", (Call::AttachRead, &[Part::Place])),
    (
        "draw",
        (Call::Draw, &[Part::Place, Part::Picture, Part::Size]),
    ),
    ("read", (Call::Read, &[Part::Place])),
    ("see", (Call::See, &[Part::Count, Part::Number])),
    ("show", (Call::Show, &[Part::Place])),
    ("lend", (Call::Lend, &[])),
    ("give", (Call::Give, &[])),
];

/// The next word, as the place of a letter: `a` to `h`.
fn place(words: &mut SplitWhitespace<'_>) -> Option<usize> {
    "abcdefgh".find(words.next()?)
}

impl Said {
    /// What says nothing.
    fn nothing() -> Said {
        Said {
            by: ActorId(0),
            place: usize::MAX,
            slot: SlotId(0),
            number: 0,
            count: 0,
            picture: 0,
            width: 0,
            height: 0,
            time: None,
            crop: Rect {
                x: 0,
                y: 0,
                width: 0,
                height: 0,
            },
            fence: Fence::none(),
            right: 0,
        }
    }

    /// Reads the words of one part.
    fn read(&mut self, alloc: Global, part: Part, words: &mut SplitWhitespace<'_>) -> Option<()> {
        match part {
            Part::Actor => put(&mut self.by, actor(words)),
            Part::Place => put(&mut self.place, place(words)),
            Part::Slot => put(&mut self.slot, slot(words)),
            Part::Number => put(&mut self.number, number64(words)),
            Part::Count => put(&mut self.count, number32(words)),
            Part::Picture => put(&mut self.picture, number32(words)),
            Part::Size => {
                put(&mut self.width, number32(words))?;
                put(&mut self.height, number32(words))
            }
            Part::Time => put(&mut self.time, present_time(words)),
            Part::Crop => put(&mut self.crop, rect(words)),
            Part::Fence => put(&mut self.fence, fence(alloc, words)),
            Part::Right => put(&mut self.right, number64(words)),
        }
    }
}

/// Puts what was read in its place, if it was.
fn put<T: Drop>(place: &mut T, read: Option<T>) -> Option<()> {
    *place = read?;
    Some(())
}

/// What the rights of a case are.
#[derive(Clone, Copy)]
pub enum Rights {
    Numbers,
    Turns,
}

/// The call that these words ask for, and what they say of it.
pub fn read(
    alloc: Global,
    rights: Rights,
    words: &mut SplitWhitespace<'_>,
) -> Option<(Call, Said)> {
    let forms = match rights {
        Rights::Numbers => WITH_NUMBERS,
        Rights::Turns => WITH_TURNS,
    };
    let (call, parts) = named(forms, words.next()?)?;
    Some((call, said_of(alloc, parts, words)?))
}

/// What these words say of a call, part by part.
fn said_of(alloc: Global, parts: &[Part], words: &mut SplitWhitespace<'_>) -> Option<Said> {
    let mut said = Said::nothing();
    for part in parts {
        said.read(alloc, *part, words)?;
    }
    Some(said)
}
