//! What a thread is started with and what it brings back, or the actor that stays where no thread
//! could be started.
use crate::seated_actor::{Back, SeatedActor};
use sf_live_seats::Locks;
use sf_picture::Picture;
use sf_turns::TableName;
use std::snapshot::Snapshot;
use std::thread::{Promise, PromisedHandle};

/// What a thread brings back: the seated actor that it went with, after tries of its steps.
#[derive(Drop)]
pub(crate) struct Brings<'a, B: TableName> {
    pub(crate) locks: &'a Locks<B>,
    pub(crate) pictures: &'a [Picture],
    pub(crate) sent: Snapshot<SeatedActor<B>>,
}

impl<'a, B: TableName> Promise<Back<B>> for Brings<'a, B> {
    ghost use Rattle.sf_live_threads.specs.Backs.{IfWhole};

    ghost kept_by = { λ promise back. IfWhole B.table promise.locks.now promise.pictures.now promise.sent.value back };
}

/// A seated actor in a thread of its own or, where none could be started, here.
#[derive(Drop)]
pub(crate) enum Task<'a, B: TableName> {
    Away(PromisedHandle<Back<B>, Brings<'a, B>>),
    Here(Back<B>),
}
