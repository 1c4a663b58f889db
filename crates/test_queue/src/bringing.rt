//! The calls of a queue whose rights are turns.
ghost use Rattle.std.specs.Prelude.{IfOk, IfSome};
ghost use Rattle.sf_surface.specs.Marks.{PermitFits};

use crate::answer::Answer;
use crate::call::{Call, Said};
use crate::tools::Left;
use sf_base::{Format, Items, NoMemory, Rect, Rgba};
use sf_picture::{Fill, Picture};
use sf_surface::{Gives, QCall, WriteLease};
use sf_turns::TableName;
use std::alloc::Global;

/// A grey picture, the darker the lower its number.
pub fn grey(alloc: Global, said: &Said) -> Result<Picture, NoMemory> {
    let level = (said.picture % 256) as u8;
    let fill = Fill {
        rect: Rect {
            x: 0,
            y: 0,
            width: said.width,
            height: said.height,
        },
        colour: Rgba {
            r: level,
            g: level,
            b: level,
            a: 255,
        },
    };
    let mut fills = Vec::with_capacity(alloc, 1)?;
    fills.push(fill)?;
    Ok(Picture {
        number: said.picture,
        width: said.width,
        height: said.height,
        fills: Items::new(fills),
        format: Format::Rgba,
    })
}

/// A call that brings no token.
pub fn bare<B: TableName>(call: Call, said: &Said) -> Option<QCall<B>>
    ensures { IfSome result (λ call. PermitFits B.table call) }
{
    match call {
        Call::Connect => Some(QCall::Connect),
        Call::Disconnect => Some(QCall::Disconnect),
        Call::MaxDequeued => Some(QCall::MaxDequeued(said.count)),
        Call::Async => Some(QCall::Async(said.count == 1)),
        Call::MaxAcquired => Some(QCall::MaxAcquired(said.count)),
        Call::Abandon => Some(QCall::Abandon),
        Call::Acquire => Some(QCall::Acquire(said.number)),
        _ => None,
    }
}

/// The answer where a place holds another token than the call wants, which stays there.
fn unfit<B: TableName>(token: Gives<B>) -> Left<B> {
    (token, Answer::Plain("no such token"))
}

/// A call on a lease.
fn on_lease<B: TableName>(
    alloc: Global,
    lease: WriteLease<B>,
    call: Call,
    said: Said,
) -> Result<QCall<B>, Left<B>>
    ensures { IfOk result (λ call. PermitFits B.table call) }
{
    match call {
        Call::Request => Ok(QCall::Request(lease)),
        Call::Queue => match grey(alloc, &said) {
            Ok(picture) => Ok(QCall::Queue {
                lease,
                picture,
                time: said.time,
                crop: said.crop,
                fence: said.fence,
            }),
            Err(NoMemory) => Err((Gives::Write(lease), Answer::Plain("out of memory"))),
        },
        Call::Cancel => Ok(QCall::Cancel(lease, said.fence)),
        Call::Detach => Ok(QCall::Detach(lease)),
        _ => Err(unfit(Gives::Write(lease))),
    }
}

/// The call that brings this token.
pub fn bringing<B: TableName>(
    alloc: Global,
    token: Gives<B>,
    call: Call,
    said: Said,
) -> Result<QCall<B>, Left<B>>
    ensures { IfOk result (λ call. PermitFits B.table call) }
{
    match (token, call) {
        (Gives::Write(lease), _) => on_lease(alloc, lease, call, said),
        (Gives::Read(lease), Call::Release) => Ok(QCall::Release(lease, said.fence)),
        (Gives::Read(lease), Call::DetachRead) => Ok(QCall::DetachRead(lease)),
        (Gives::Free(loose), Call::Attach) => Ok(QCall::Attach(loose)),
        (Gives::Free(loose), Call::AttachRead) => Ok(QCall::AttachRead(loose)),
        (token, _) => Err(unfit(token)),
    }
}
