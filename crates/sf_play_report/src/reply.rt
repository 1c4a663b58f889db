//! The record of a reply, from what an actor's step answered.
ghost use Rattle.std.specs.Prelude.{◌≡◌, IfOk};
ghost use Rattle.law_played.specs.sf_record.declared.record.Record.TheVariants as rec;
ghost use Rattle.law_played.specs.Replies.{reply_shown};

use law_played::{Record, Reply, ReplyRecord};
use sf_base::{Items, NoMemory};
use std::alloc::Global;

/// The record of a reply.
pub fn reply_record(alloc: Global, told: &Reply) -> Result<Record, NoMemory>
    ensures { IfOk result (λ written. written ≡ rec.Repl (reply_shown told.now)) }
{
    let mut values = Vec::new(alloc);
    values.extend_from_slice(told.values.as_slice())?;
    Ok(Record::Repl(ReplyRecord {
        actor: told.actor,
        step: told.step,
        status: told.status,
        values: Items::new(values),
    }))
}
