//! The records that end a run, from what the compositor and the queues kept: arrivals, histories,
//! and what is held.
ghost use Rattle.std.specs.Prelude.{◌≡◌, IfOk, map};
ghost use Rattle.law_played.specs.sf_record.declared.record.Record.TheVariants as rec;
ghost use Rattle.law_played.specs.Progress.{held_shown};
ghost use Rattle.law_played.specs.Telling.{arrival_recorded, call_recorded};
ghost use Rattle.sf_play_report.specs.Closings.{history_of};

use law_played::{
    ArrivalEntry, ArrvEntry, HeldEntry, HistEntry, HistoryEntry, Hold, QueueHistory, QueueObject,
    Record, TableName,
};
use sf_base::{Items, NoMemory};
use std::alloc::Global;

fn arrival_of(entry: &ArrvEntry) -> ArrivalEntry
    ensures { result ≡ arrival_recorded entry.now }
{
    ArrivalEntry {
        actor: entry.actor.0,
        step: entry.step,
        token: entry.token.0,
    }
}

/// The record of what arrived.
pub fn arrivals_record(alloc: Global, entries: &[ArrvEntry]) -> Result<Record, NoMemory>
    ensures { IfOk result (λ written. written ≡ rec.Arrv (map arrival_recorded entries.now)) }
{
    let mut list = Vec::new(alloc);
    for entry in entries {
        list.push(arrival_of(entry))?;
    }
    Ok(Record::Arrv(Items::new(list)))
}

fn call_of(entry: &HistEntry) -> HistoryEntry
    ensures { result ≡ call_recorded entry.now }
{
    HistoryEntry {
        caller: entry.caller,
        step: entry.step,
        kind: entry.kind,
        status: entry.status,
        slot: entry.slot,
        frame: entry.frame,
    }
}

fn calls_of(alloc: Global, entries: &[HistEntry]) -> Result<Vec<HistoryEntry>, NoMemory>
    ensures { IfOk result (λ list. list.items ≡ map call_recorded entries.now) }
{
    let mut list = Vec::new(alloc);
    for entry in entries {
        list.push(call_of(entry))?;
    }
    Ok(list)
}

/// The record of the calls on a queue.
pub fn history_record<B: TableName>(
    alloc: Global,
    object: &QueueObject<B>,
) -> Result<Record, NoMemory>
    ensures { IfOk result (λ written. written ≡ rec.Hist (history_of object.now)) }
{
    let entries = Items::new(calls_of(alloc, object.entries())?);
    Ok(Record::Hist(QueueHistory {
        queue: object.queue().0,
        entries,
    }))
}

/// What waits and why, as two numbers: a time, a timeline and its value, or a queue or layer and a
/// frame.
fn held_of(entry: &(u32, Hold)) -> HeldEntry
    ensures { result ≡ held_shown entry.now }
{
    let (arrival, hold) = *entry;
    let (a, b) = match hold {
        Hold::Behind => (0, 0),
        Hold::Time(desired) => (desired, 0),
        Hold::Fence(timeline, value) => (u64::from(timeline.0), value),
        Hold::Undrawn(queue, frame) => (u64::from(queue.0), frame),
        Hold::Barrier(layer, frame) => (u64::from(layer.0), frame),
        Hold::Pressure(layer) => (u64::from(layer.0), 0),
    };
    HeldEntry {
        arrival,
        hold: hold.number(),
        a,
        b,
    }
}

/// The record of what is held, by the numbers of arrivals.
pub fn held_record(alloc: Global, held: &[(u32, Hold)]) -> Result<Record, NoMemory>
    ensures { IfOk result (λ written. written ≡ rec.Hold (map held_shown held.now)) }
{
    let mut list = Vec::new(alloc);
    for entry in held {
        list.push(held_of(entry))?;
    }
    Ok(Record::Hold(Items::new(list)))
}
