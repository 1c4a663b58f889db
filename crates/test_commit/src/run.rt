//! A case of vsyncs: does what each of its lines says, and prints what that answers.
ghost use Rattle.std.specs.Prelude.{IfSome, ◌<◌};
ghost use Rattle.test_commit.specs.inner.Plain.{IsPlain};

use crate::compositor::Compositor;
use crate::form::{Change, FORMS, Find, Form, Observe, Tell};
use crate::line::Line;
use crate::told::{
    tell_arrivals, tell_found, tell_layers, tell_looks, tell_pixels, tell_reads, tell_taken,
    tell_tokens, tell_vsync,
};
use sf_base::{ActorId, Fence, LayerId, QueueId, Rect, Seen, TokenId};
use sf_commit::Vsync;
use sf_layer::{Kind, Op, Parent, Shown};
use sf_ready::{Facts, hold_of};
use sf_token::{Arrivals, ArriveCall, ArriveReply, Arrived, TokenQueues};
use sf_txn::{BufferOp, Transaction};
use std::alloc::{AllocError, Global};
use std::mem;
use std::str::SplitWhitespace;
use std::sync::Wait;
use test_leases::{Ends, Page, Writes};
use test_words::{actor, layer, named, number32, number64, point, point_fence, token};

// All of a page.
const PIXEL: Rect = Rect {
    x: 0,
    y: 0,
    width: 1,
    height: 1,
};

/// What the lines of a case made.
#[derive(Drop)]
pub struct Run {
    alloc: Global,
    // The case's name.
    name: String,
    // The transaction that is sent next.
    next: Transaction<Page>,
    // What a hold is decided from, besides the transaction.
    facts: Facts,
    seen: Seen,
    eye: Writes,
    line: Line,
    queues: TokenQueues<Page>,
    compositor: Compositor,
}

impl Run {
    /// Nothing was sent or committed, no write ended, and all timelines are at 0.
    pub fn new(alloc: Global, name: &str) -> Option<Run> {
        Some(Run {
            alloc,
            name: String::from_str(alloc, name).ok()?,
            next: Transaction::new(alloc),
            facts: Facts::new(alloc),
            seen: Seen { values: [0; 64] },
            eye: Writes {
                count: 0,
                ends: Ends::new(),
            },
            line: Line::new(alloc)?,
            queues: TokenQueues::new(alloc).ok()?,
            compositor: Compositor::new(alloc)?,
        })
    }

    /// Does what a line says, and returns what it answers; None where that can't be done.
    pub fn follow<W: Wait>(&mut self, rt: &W, line: &str, told: &mut String) -> Option<()> {
        let words = &mut line.split_whitespace();
        match named(FORMS, words.next()?)? {
            Form::Send => self.send(rt, words, told),
            Form::Take => queue(rt, &mut self.line, &mut self.queues, words, told),
            Form::Vsync => self.vsync(rt, words, told),
            Form::Tell(what) => self.tell(what, words, told),
            form => self.follow_alone(form, words),
        }
    }

    /// The same of a line that makes no call under the lock and answers nothing.
    fn follow_alone(&mut self, form: Form, words: &mut SplitWhitespace<'_>) -> Option<()> {
        match form {
            Form::Case => self.begin(words),
            Form::Page => show(self.alloc, &mut self.next, words),
            Form::Behind => show_behind(self.alloc, &mut self.next, words),
            Form::Lend => self.compositor.lend(),
            Form::Observe(what) => self.observe(what, words),
            Form::Change(what) => change(&mut self.next, &mut self.facts, what, words),
            _ => None,
        }
    }

    /// The same of a line that answers something.
    fn tell(
        &mut self,
        what: Tell,
        words: &mut SplitWhitespace<'_>,
        told: &mut String,
    ) -> Option<()> {
        match what {
            Tell::Ask => self.ask(words, told),
            Tell::Arrivals => reopen(self.alloc, &mut self.line, told),
            Tell::Give => give(self.alloc, &mut self.compositor, &mut self.eye, told),
            Tell::Look => look(&mut self.queues, &mut self.eye, words, told),
            Tell::Tokens => tell_tokens(told, &self.queues.tokens().ok()?).ok(),
            Tell::Find(what) => find(&mut self.queues, what, words, told),
        }
    }

    /// A case of the next name begins.
    fn begin(&mut self, words: &mut SplitWhitespace<'_>) -> Option<()> {
        *self = Run::new(self.alloc, words.next()?)?;
        Some(())
    }

    /// A time, what was observed, or what the decision of a hold is given, of no layer.
    fn observe(&mut self, what: Observe, words: &mut SplitWhitespace<'_>) -> Option<()> {
        match what {
            Observe::Desire => self.next.desire(number64(words)?),
            Observe::Writes => self.eye.count = number32(words)?,
            Observe::BeginVsync => self.facts.begin_vsync(),
            Observe::ClearPressed => self.facts.clear_pressed(),
            Observe::Seen => {
                let (timeline, value) = point(words)?;
                self.seen.values[timeline.0 as usize - 1] = value;
            }
        }
        Some(())
    }

    /// What holds the next transaction; None where its buffers have more marks or fewer.
    fn ask(&mut self, words: &mut SplitWhitespace<'_>, told: &mut String) -> Option<()> {
        let expected = number64(words)?;
        let drawn = marks(self.alloc, words)?;
        if drawn.len() != self.next.buffers().len() {
            return None;
        }
        let name = self.name.as_str();
        match hold_of(&self.next, &drawn, &self.facts, &self.seen, expected) {
            Some(hold) => writeln!(told, "{name} at {expected}: {} {hold:?}", hold.number()).ok(),
            None => writeln!(told, "{name} at {expected}: ready").ok(),
        }
    }

    /// The next transaction arrives.
    fn send<W: Wait>(
        &mut self,
        rt: &W,
        words: &mut SplitWhitespace<'_>,
        told: &mut String,
    ) -> Option<()> {
        let actor = actor(words)?;
        let step = number32(words)?;
        let token = token(words)?;
        let mut txn = mem::replace(&mut self.next, Transaction::new(self.alloc));
        txn.address(token);
        match self.line.call(rt, actor, ArriveCall::Send(step, txn))? {
            ArriveReply::Number(number) => writeln!(told, "sent: number {number}").ok(),
            reply => {
                drop(reply);
                None
            }
        }
    }

    /// A vsync that takes what arrived, and what it did.
    fn vsync<W: Wait>(
        &mut self,
        rt: &W,
        words: &mut SplitWhitespace<'_>,
        told: &mut String,
    ) -> Option<()> {
        let expected = number64(words)?;
        arrive(rt, &mut self.line, &mut self.compositor)?;
        let vsync = self
            .compositor
            .vsync(self.alloc, &mut self.eye, &self.seen, expected)?;
        writeln!(told, "vsync for {expected}").ok()?;
        tell_made(told, &self.compositor, &vsync).ok()?;
        tell_reads(told, self.alloc, &mut self.eye.ends).ok()
    }
}

/// The next transaction shows a frame of queue 1.
fn show(
    alloc: Global,
    next: &mut Transaction<Page>,
    words: &mut SplitWhitespace<'_>,
) -> Option<()> {
    let page = shown_page(words)?;
    show_page(alloc, next, page, Fence::none())
}

/// The same behind an acquire fence.
fn show_behind(
    alloc: Global,
    next: &mut Transaction<Page>,
    words: &mut SplitWhitespace<'_>,
) -> Option<()> {
    let page = shown_page(words)?;
    show_page(alloc, next, page, point_fence(alloc, words)?)
}

/// The next transaction shows a page on a layer.
fn show_page(
    alloc: Global,
    next: &mut Transaction<Page>,
    page: ShownPage,
    fence: Fence,
) -> Option<()> {
    let lease = Page::new(alloc, page.number).ok()?;
    let buffer = BufferOp {
        layer: page.layer,
        shown: Shown {
            queue: QueueId(1),
            frame: page.frame,
            picture: page.number,
            crop: PIXEL,
        },
        fence,
        lease,
    };
    match next.set_buffer(buffer) {
        Ok(_) => Some(()),
        Err(_) => None,
    }
}

/// The next transaction, or what the decision of a hold is given, changes for a layer.
fn change(
    next: &mut Transaction<Page>,
    facts: &mut Facts,
    what: Change,
    words: &mut SplitWhitespace<'_>,
) -> Option<()> {
    let layer = layer(words)?;
    match what {
        Change::Barrier => next.add_barrier(layer, number64(words)?).ok(),
        Change::Frame => facts.add_frame(layer, number64(words)?).ok(),
        Change::Fresh => facts.add_fresh(layer).ok(),
        Change::Pressed => facts.add_pressed(layer).ok(),
        _ => next.set(layer, operation(what)?).ok(),
    }
}

/// What arrived is taken by an actor's pass.
fn take<W: Wait>(rt: &W, line: &mut Line, actor: ActorId) -> Option<Vec<Arrived<Page>>> {
    match line.call(rt, actor, ArriveCall::Take)? {
        ArriveReply::Batch(batch) => Some(batch.list),
        reply => {
            drop(reply);
            None
        }
    }
}

/// What arrived goes into the queues, if its numbers rise.
fn queue<W: Wait>(
    rt: &W,
    line: &mut Line,
    queues: &mut TokenQueues<Page>,
    words: &mut SplitWhitespace<'_>,
    told: &mut String,
) -> Option<()> {
    let list = take(rt, line, actor(words)?)?;
    tell_taken(told, &list).ok()?;
    for arrived in list {
        if queues.last() >= arrived.number {
            return None;
        }
        queues.push(arrived).ok()?;
    }
    Some(())
}

/// What arrived is sent to the compositor.
fn arrive<W: Wait>(rt: &W, line: &mut Line, compositor: &mut Compositor) -> Option<()> {
    for arrived in take(rt, line, ActorId(1))? {
        compositor.send(arrived)?;
    }
    Some(())
}

/// All that arrived, out of the lock; then it is under a lock again.
fn reopen(alloc: Global, line: &mut Line, told: &mut String) -> Option<()> {
    let other = Line::new(alloc)?;
    let arrivals = mem::replace(line, other).close();
    tell_arrivals(told, arrivals.entries()).ok()?;
    *line = Line::open(alloc, arrivals)?;
    Some(())
}

/// What an eye that knows of so many ended writes sees of the pages in the queues.
fn look(
    queues: &mut TokenQueues<Page>,
    eye: &mut Writes,
    words: &mut SplitWhitespace<'_>,
    told: &mut String,
) -> Option<()> {
    eye.count = number32(words)?;
    let looks = queues.look(eye).ok()?;
    tell_looks(told, &looks).ok()
}

/// What is found in the queues.
fn find(
    queues: &mut TokenQueues<Page>,
    what: Find,
    words: &mut SplitWhitespace<'_>,
    told: &mut String,
) -> Option<()> {
    let number = number32(words)?;
    let found = found(queues, what, number);
    tell_found(told, what, number, found).ok()
}

/// What a vsync did, and what is shown then.
fn tell_made(
    told: &mut String,
    compositor: &Compositor,
    vsync: &Vsync<Page>,
) -> Result<(), AllocError> {
    tell_vsync(told, vsync)?;
    match compositor.contents() {
        Some(contents) => tell_layers(told, vsync, contents),
        None => told.push_str("  the pixels are lent\n"),
    }
}

/// The pixels are given back, and what they show then.
fn give(
    alloc: Global,
    compositor: &mut Compositor,
    eye: &mut Writes,
    told: &mut String,
) -> Option<()> {
    compositor.give_back(eye)?;
    told.push_str("given back\n").ok()?;
    tell_pixels(told, compositor.contents()?).ok()?;
    tell_reads(told, alloc, &mut eye.ends).ok()
}

/// The operation that changes a layer so.
fn operation(what: Change) -> Option<Op>
    ensures { IfSome result IsPlain }
{
    match what {
        Change::Create => Some(Op::Create(Kind::Buffer, Parent::Root)),
        Change::Destroy => Some(Op::Destroy),
        Change::Press => Some(Op::Backpressure(true)),
        Change::Calm => Some(Op::Backpressure(false)),
        _ => None,
    }
}

/// A page that a line shows on a layer, as a frame of queue 1.
#[derive(Clone, Copy)]
struct ShownPage {
    layer: LayerId,
    frame: u64,
    number: u32,
    ghost some: { 0 < layer.0 },
}

/// The layer, the frame and the page that a line says.
fn shown_page(words: &mut SplitWhitespace<'_>) -> Option<ShownPage> {
    Some(ShownPage {
        layer: layer(words)?,
        frame: number64(words)?,
        number: number32(words)?,
    })
}

/// The marks of buffers: whether the write of each has ended.
fn marks(alloc: Global, words: &mut SplitWhitespace<'_>) -> Option<Vec<bool>> {
    let mut marks = Vec::new(alloc);
    for word in words {
        marks.push(word == "drawn").ok()?;
    }
    Some(marks)
}

/// The number of a token's first transaction in the queues, or the token of the one of a number.
fn found(queues: &mut TokenQueues<Page>, find: Find, number: u32) -> Option<u32> {
    match find {
        Find::Head => Some(queues.head(TokenId(number))?.number),
        Find::Pop => Some(queues.pop(TokenId(number))?.number),
        Find::Number => Some(queues.get(number)?.txn.token().0),
    }
}
