//! Replies to calls, each with the tokens that it gives or gives back.
ghost use Rattle.std.specs.Prelude.{◌≡◌, [], None};
ghost use Rattle.sf_surface.specs.declared.call.Gives.TheVariants as gives;
ghost use Rattle.sf_surface.specs.Hands.{done_reply, plain_reply, refused_reply};

use crate::call::{Gives, QCall, QReply};
use crate::values::Room;
use sf_base::{Items, QStatus};
use sf_turns::TableName;

/// The reply to a call that is refused: it gives back what the call brought.
pub(crate) fn refused<B: TableName>(cause: QStatus, call: QCall<B>, room: Room) -> QReply<B>
    ensures { result ≡ refused_reply cause call }
{
    let (gives, spare) = match call {
        QCall::Connect => (Gives::Nothing, None),
        QCall::Disconnect => (Gives::Nothing, None),
        QCall::MaxDequeued(_n) => (Gives::Nothing, None),
        QCall::Async(_on) => (Gives::Nothing, None),
        QCall::Dequeue {
            width: _width,
            height: _height,
            wait: _wait,
            permit,
        } => (Gives::Nothing, Some(permit)),
        QCall::Request(lease) => (Gives::Write(lease), None),
        QCall::Queue {
            lease,
            picture: _picture,
            time: _time,
            crop: _crop,
            fence: _fence,
        } => (Gives::Write(lease), None),
        QCall::Cancel(lease, _fence) => (Gives::Write(lease), None),
        QCall::Detach(lease) => (Gives::Write(lease), None),
        QCall::Attach(loose) => (Gives::Free(loose), None),
        QCall::MaxAcquired(_n) => (Gives::Nothing, None),
        QCall::Abandon => (Gives::Nothing, None),
        QCall::Acquire(_expected) => (Gives::Nothing, None),
        QCall::Release(lease, _fence) => (Gives::Read(lease), None),
        QCall::DetachRead(lease) => (Gives::Read(lease), None),
        QCall::AttachRead(loose) => (Gives::Free(loose), None),
    };
    QReply {
        status: cause,
        values: room.none(),
        gives,
        ends: None,
        spare,
    }
}

/// The reply to a call that is done, which ends no drawing and spares no permit.
pub(crate) fn gives<B: TableName>(values: Items<u64>, gives: Gives<B>) -> QReply<B>
    ensures { result ≡ done_reply values gives None None }
{
    QReply {
        status: QStatus::Ok,
        values,
        gives,
        ends: None,
        spare: None,
    }
}

/// The reply to a call that gives nothing.
pub(crate) fn answer<B: TableName>(
    done: Result<(), QStatus>,
    call: QCall<B>,
    room: Room,
) -> QReply<B>
    ensures { result ≡ plain_reply done call }
{
    match done {
        Ok(()) => {
            drop(call);
            gives(room.none(), Gives::Nothing)
        }
        Err(cause) => refused(cause, call, room),
    }
}
