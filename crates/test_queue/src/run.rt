//! What the callers of a case with turns do.
ghost use Rattle.std.specs.Prelude.{IfOk};
ghost use Rattle.sf_surface.specs.Marks.{PermitFits};

use crate::answer::Answer;
use crate::bringing::{bare, bringing, grey};
use crate::call::{Call, Said};
use crate::compositor::Compositor;
use crate::desk::{Caller, Desk, Steps};
use crate::tools::{Left, Tools};
use sf_base::Seen;
use sf_surface::{Gives, QCall};
use sf_turns::TableName;
use std::alloc::Global;
use std::mem;
use std::sync::Wait;

/// What the callers of a case have.
#[derive(Drop)]
pub struct Run<B: TableName> {
    pub alloc: Global,
    pub desk: Desk<B>,
    pub steps: Steps,
    /// The tokens that the callers hold, each in its place.
    pub tokens: Vec<Gives<B>>,
    pub tools: Tools<B>,
    pub compositor: Compositor<B>,
    pub seen: Seen,
}

/// Takes the token of a place out.
fn take<B: TableName>(tokens: &mut [Gives<B>], place: usize) -> Gives<B> {
    match tokens.get_mut(place) {
        Some(token) => mem::replace(token, Gives::Nothing),
        None => Gives::Nothing,
    }
}

/// Keeps the token that is left, if there is one.
fn keep<B: TableName>(tokens: &mut [Gives<B>], place: usize, left: Left<B>) -> Answer {
    let (token, answer) = left;
    if matches!(&token, Gives::Nothing) || place >= tokens.len() {
        drop(token);
    } else {
        drop(mem::replace(&mut tokens[place], token));
    }
    answer
}

/// The call of a line, with the token or the permit that it brings.
fn call_of<B: TableName>(
    alloc: Global,
    tools: &mut Tools<B>,
    tokens: &mut [Gives<B>],
    call: Call,
    said: Said,
) -> Result<QCall<B>, Left<B>>
    ensures { IfOk result (λ call. PermitFits B.table call) }
{
    if matches!(call, Call::Dequeue | Call::DequeueWait) {
        let Some(permit) = tools.permit() else {
            return Err((Gives::Nothing, Answer::Plain("no permit")));
        };
        return Ok(QCall::Dequeue {
            width: said.width,
            height: said.height,
            wait: matches!(call, Call::DequeueWait),
            permit,
        });
    }
    match bare(call, &said) {
        Some(call) => Ok(call),
        None => bringing(alloc, take(tokens, said.place), call, said),
    }
}

/// Draws in a lease, or what is owed.
fn draw<B: TableName>(
    alloc: Global,
    tools: &mut Tools<B>,
    token: Gives<B>,
    said: &Said,
    seen: &Seen,
) -> Left<B> {
    match grey(alloc, said) {
        Ok(picture) => tools.draw(alloc, token, &picture, seen),
        Err(_) => (token, Answer::Plain("out of memory")),
    }
}

/// The timeline is seen at this value from now on, where it is one of the 64.
fn see(seen: &mut Seen, said: &Said) -> Answer {
    let place = (said.count as usize).wrapping_sub(1);
    match seen.values.get_mut(place) {
        Some(seen) => {
            *seen = said.number;
            Answer::Plain("seen")
        }
        None => Answer::Plain("no timeline"),
    }
}

impl<B: TableName> Run<B> {
    /// Makes a call of a caller's step.
    fn call<W: Wait>(&mut self, rt: &W, by: (Caller, u32), call: Call, said: Said) -> Left<B> {
        let (caller, step) = by;
        match call_of(self.alloc, &mut self.tools, &mut self.tokens, call, said) {
            Ok(call) => {
                let made = self.desk.call(rt, caller, (step, call));
                self.tools.settle(made)
            }
            Err(left) => left,
        }
    }

    /// Does what a line asks for, as the caller's next step.
    pub fn act<W: Wait>(&mut self, rt: &W, by: Caller, call: Call, said: Said) -> Answer {
        let step = self.steps.next(by);
        let place = said.place;
        let left = match call {
            Call::Draw => {
                let token = take(&mut self.tokens, place);
                draw(self.alloc, &mut self.tools, token, &said, &self.seen)
            }
            Call::Read => {
                let token = take(&mut self.tokens, place);
                self.tools.read(self.alloc, token)
            }
            Call::Show => {
                let token = take(&mut self.tokens, place);
                self.compositor.show(token, &self.seen)
            }
            Call::See => (Gives::Nothing, see(&mut self.seen, &said)),
            Call::Lend => (Gives::Nothing, self.compositor.lend()),
            Call::Give => (Gives::Nothing, self.compositor.give_back()),
            call => self.call(rt, (by, step), call, said),
        };
        keep(&mut self.tokens, place, left)
    }
}
