//! The choice of a step's form: from what a script says to the function that does it.
use crate::asking::Move;
use crate::bindings::Bindings;
use crate::drawing::{is_below, look, signal};
use crate::producing::{DequeueInput, QueueInput};
use crate::refusal::picture_of;
use crate::tried::Tried;
use sf_actor::{Desk, Picture, Step, TableName, TokensOf};
use sf_base::NoMemory;

impl<B: TableName> Bindings<B> {
    ghost use Rattle.std.specs.Prelude.{◌≡◌, ◌≤◌, true, IfOk};
    ghost use Rattle.sf_actor.specs.Scripts.{picture_at};
    ghost use Rattle.sf_actor_steps.specs.Acting.{Acts, MayAct, Signals, Waits};
    ghost use Rattle.sf_actor.specs.sf_script_scene.Named.{KnowsPicture};

    /// Raises a timeline.
    fn signal<D: Desk<TokensOf<B>>>(&mut self, desk: &mut D, timeline: u32, value: u64) -> Tried
        requires low { 1 ≤ timeline }
        requires high { timeline ≤ 64 }
        ensures signals { Signals timeline value self.old self.new (D.view desk.old) (D.view desk.new) result }
        ensures home { D.home desk.new ≡ D.home desk.old }
    {
        signal(desk, timeline, value);
        Tried::Own(0)
    }

    /// Waits until a timeline has reached a value.
    fn wait<D: Desk<TokensOf<B>>>(&mut self, desk: &mut D, timeline: u32, value: u64) -> Tried
        requires low { 1 ≤ timeline }
        requires high { timeline ≤ 64 }
        ensures waits { Waits (D.home desk.old) timeline value self.old self.new (D.view desk.old) (D.view desk.new) result }
        ensures home { D.home desk.new ≡ D.home desk.old }
    {
        if is_below(&look(desk), timeline, value) {
            Tried::NotYet
        } else {
            Tried::Own(0)
        }
    }

    /// Does a step that none of its own tests refuses.
    pub fn act<D: Desk<TokensOf<B>>>(
        &mut self,
        desk: &mut D,
        pictures: &[Picture],
        step_number: u32,
        step: &Step,
    ) -> Result<Tried, NoMemory>
        requires served { (D.home desk.old).serves self.old.by.0 ≡ true }
        requires known { KnowsPicture pictures.now step.now }
        requires may { MayAct (picture_at pictures.now) B.table (D.home desk.old) step.now self.old }
        ensures acts { IfOk result (Acts (picture_at pictures.now) (D.home desk.old) self.old.by.0 step_number step.now self.old self.new (D.view desk.old) (D.view desk.new)) }
        ensures home { D.home desk.new ≡ D.home desk.old }
    {
        match step {
            Step::Connect(queue) => self.connect(desk, step_number, *queue),
            Step::Disconnect(queue) => self.disconnect(desk, step_number, *queue),
            Step::MaxDequeued(queue, n) => self.limit_dequeued(desk, step_number, *queue, *n),
            Step::Async(queue, on) => self.set_async(desk, step_number, *queue, *on),
            Step::Dequeue(queue, name, size) => {
                let input = DequeueInput {
                    size: *size,
                    wait: false,
                };
                self.dequeue(desk, step_number, *queue, *name, input)
            }
            Step::DequeueWait(queue, name, size) => {
                let input = DequeueInput {
                    size: *size,
                    wait: true,
                };
                self.dequeue(desk, step_number, *queue, *name, input)
            }
            Step::Request(name) => self.request(desk, step_number, *name),
            Step::Draw(name, picture) => self.draw(desk, *name, picture_of(pictures, *picture)),
            Step::Queue(name, picture, time, crop, points) => {
                let input = QueueInput {
                    picture: picture_of(pictures, *picture),
                    time: *time,
                    crop: *crop,
                    points,
                };
                self.queue(desk, step_number, *name, input)
            }
            Step::Cancel(name, points) => self.cancel(desk, step_number, *name, points),
            Step::PDetach(from, to) => {
                let names = Move {
                    from: *from,
                    to: *to,
                };
                self.detach(desk, step_number, names, false)
            }
            Step::PAttach(queue, from, to) => {
                let names = Move {
                    from: *from,
                    to: *to,
                };
                self.attach(desk, step_number, *queue, names, false)
            }
            Step::MaxAcquired(queue, n) => self.limit_acquired(desk, step_number, *queue, *n),
            Step::Abandon(queue) => self.abandon(desk, step_number, *queue),
            Step::Acquire(queue, name, at) => self.acquire(desk, step_number, *queue, *name, *at),
            Step::Release(name, points) => self.release(desk, step_number, *name, points),
            Step::CDetach(from, to) => {
                let names = Move {
                    from: *from,
                    to: *to,
                };
                self.detach(desk, step_number, names, true)
            }
            Step::CAttach(queue, from, to) => {
                let names = Move {
                    from: *from,
                    to: *to,
                };
                self.attach(desk, step_number, *queue, names, true)
            }
            Step::Signal(timeline, value) => Ok(self.signal(desk, *timeline, *value)),
            Step::Wait(timeline, value) => Ok(self.wait(desk, *timeline, *value)),
            Step::Tx(number) => Ok(self.begin(*number)),
            Step::Desire(number, time) => Ok(self.desire(*number, *time)),
            Step::Buffer(number, layer, name) => self.show(
                desk,
                step_number,
                *number,
                *layer,
                *name,
            ),
            Step::Barrier(number, layer, frame) => self.wait_for(*number, *layer, *frame),
            Step::Merge(number, other) => self.merge(desk, step_number, *number, *other),
            Step::Apply(number, token) => self.send(desk, step_number, *number, *token),
            Step::Set(number, layer, change) => self.set(*number, *layer, *change),
        }
    }
}
