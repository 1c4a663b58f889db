//! What calls answered and what vsyncs did, as lines of text.
use crate::form::Find;
use sf_base::{Fence, TimelineId, TokenId};
use sf_commit::{Commit, Release, Vsync};
use sf_picture::Painted;
use sf_ready::Hold;
use sf_token::{Arrived, ArrvEntry, Looks};
use std::alloc::{AllocError, Global};
use test_leases::{Ends, Page};

/// What was taken: each transaction's number, and whose it is, of which step and for which token.
pub fn tell_taken(told: &mut String, list: &[Arrived<Page>]) -> Result<(), AllocError> {
    write!(told, "taken:")?;
    for arrived in list {
        let (number, actor, step) = (arrived.number, arrived.actor.0, arrived.step);
        let token = arrived.txn.token().0;
        write!(told, " {number} of {actor}.{step} for {token},")?;
    }
    writeln!(told)
}

/// All that arrived, in order.
pub fn tell_arrivals(told: &mut String, entries: &[ArrvEntry]) -> Result<(), AllocError> {
    write!(told, "arrived:")?;
    for entry in entries {
        let (actor, step, token) = (entry.actor.0, entry.step, entry.token.0);
        write!(told, " {actor}.{step} for {token},")?;
    }
    writeln!(told)
}

/// The tokens with something pending.
pub fn tell_tokens(told: &mut String, tokens: &[TokenId]) -> Result<(), AllocError> {
    write!(told, "tokens:")?;
    for token in tokens {
        write!(told, " {}", token.0)?;
    }
    writeln!(told)
}

/// What one look at each buffer of a transaction showed.
fn tell_look(told: &mut String, look: &Looks) -> Result<(), AllocError> {
    write!(told, " {}", look.number)?;
    for is_drawn in look.drawn.as_slice() {
        told.push_str(if *is_drawn { " drawn" } else { " owed" })?;
    }
    told.push_str(",")
}

/// What one look at each buffer of what is pending showed.
pub fn tell_looks(told: &mut String, looks: &[Looks]) -> Result<(), AllocError> {
    write!(told, "looked:")?;
    for look in looks {
        tell_look(told, look)?;
    }
    writeln!(told)
}

/// A commit: its number and token, and why it was rejected, if it was.
fn tell_commit(told: &mut String, commit: &Commit) -> Result<(), AllocError> {
    let (number, cause, op) = (commit.number, commit.cause, commit.op);
    write!(told, "  commit {number} of token {}", commit.token.0)?;
    if cause > 0 {
        write!(told, ", rejected: cause {cause} at {op}")?;
    }
    for (layer, shown) in commit.buffers.as_slice() {
        write!(told, ", layer {} frame {}", layer.0, shown.frame)?;
    }
    writeln!(told)
}

/// The points of a fence.
fn tell_fence(told: &mut String, fence: &Fence) -> Result<(), AllocError> {
    for timeline in 1..65 {
        let value = fence.value(TimelineId(timeline));
        if value > 0 {
            write!(told, ", after {value} of timeline {timeline}")?;
        }
    }
    writeln!(told)
}

/// A frame that goes back, with its page.
fn tell_release(told: &mut String, release: &Release<Page>) -> Result<(), AllocError> {
    let (queue, frame) = (release.queue.0, release.frame);
    let (page, turn) = (release.lease.number(), release.lease.turn());
    write!(
        told,
        "  release queue {queue} frame {frame}: page {page}, turn {turn}"
    )?;
    tell_fence(told, &release.fence)
}

/// What is held, and by what.
fn tell_held(told: &mut String, held: &[(u32, Hold)]) -> Result<(), AllocError> {
    for (number, hold) in held {
        writeln!(told, "  held {number}: {} {hold:?}", hold.number())?;
    }
    Ok(())
}

/// What a vsync did: its commits, what goes back, and what is held.
pub fn tell_vsync(told: &mut String, vsync: &Vsync<Page>) -> Result<(), AllocError> {
    for commit in vsync.commits.as_slice() {
        tell_commit(told, commit)?;
    }
    for release in vsync.releases.as_slice() {
        tell_release(told, release)?;
    }
    tell_held(told, vsync.held.as_slice())
}

/// What was found in the queues.
pub fn tell_found(
    told: &mut String,
    find: Find,
    number: u32,
    found: Option<u32>,
) -> Result<(), AllocError> {
    let (of, what) = match find {
        Find::Number => ("number", "token"),
        _ => ("token", "number"),
    };
    match found {
        Some(found) => writeln!(told, "{of} {number}: {what} {found}"),
        None => writeln!(told, "{of} {number}: nothing"),
    }
}

/// What a drawn layer shows.
fn tell_layer(told: &mut String, layer: u32, shown: Option<&Painted>) -> Result<(), AllocError> {
    match shown {
        Some(painted) => {
            let number = painted.picture().number;
            writeln!(told, "  layer {layer} shows {number}")
        }
        None => writeln!(told, "  layer {layer} shows nothing"),
    }
}

/// The picture that each drawn layer shows: that of its place in the contents.
pub fn tell_layers(
    told: &mut String,
    vsync: &Vsync<Page>,
    contents: &[Painted],
) -> Result<(), AllocError> {
    let drawn = vsync.view.drawn.as_slice();
    for (one, source) in drawn.iter().zip(vsync.sources.as_slice()) {
        tell_layer(told, one.layer.0, contents.get(*source as usize))?;
    }
    Ok(())
}

/// The pictures that pixels show.
pub fn tell_pixels(told: &mut String, contents: &[Painted]) -> Result<(), AllocError> {
    for painted in contents {
        writeln!(told, "  pixels of {}", painted.picture().number)?;
    }
    Ok(())
}

/// The reads that ended, in their order.
fn reads(alloc: Global, ends: &mut Ends) -> Result<Vec<(u32, u64)>, AllocError> {
    let mut reads = Vec::new(alloc);
    while let Some(end) = ends.take_last() {
        reads.push(end)?;
    }
    reads.reverse();
    Ok(reads)
}

/// The reads that ended, in their order.
pub fn tell_reads(told: &mut String, alloc: Global, ends: &mut Ends) -> Result<(), AllocError> {
    for (page, turn) in reads(alloc, ends)?.as_slice() {
        writeln!(told, "  read of page {page}, turn {turn}, ended")?;
    }
    Ok(())
}
