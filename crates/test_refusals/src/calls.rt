//! Calls of objects under a lock.
ghost use Rattle.std.specs.Prelude.{◌≡◌, IfOk};
ghost use Rattle.sf_calls.specs.Calling.{IfFaultNotYet, Made, Waited};
ghost use Rattle.sf_calls.specs.Passes.{Fits, HasMark};

use sf_calls::{CallFault, CallLock, Object, Pass};
use std::sync::Wait;

/// A call under a lock is answered by the object there, and "not yet" by a turn of its own.
pub fn call_is_answered<O: Object, W: Wait>(
    pass: &mut Pass<O>,
    lock: &CallLock<O>,
    rt: &W,
    call: O::Call,
) -> Result<O::Reply, CallFault<O::Call>>
    requires own { pass.old.table ≡ lock.now }
    requires fits { Fits O.call_fits pass.old call }
    ensures done { IfOk result (λ reply. (m : O.Mark) → HasMark pass.old m
        → Made O.answers m pass.old (O.plain_call call) (O.plain_reply reply) pass.new × O.reply_fits m reply) }
    ensures not_yet { IfFaultNotYet result (λ back. (back ≡ call)
        × ((m : O.Mark) → HasMark pass.old m → Waited O.answers m pass.old (O.plain_call call) pass.new)) }
{
    pass.call(lock, rt, call)
}
