//! The handler that decides in the vsyncs of a live run, while it lends nothing.
ghost use Rattle.std.specs.Prelude.{◌≡◌, None};

use sf_live_threads::{Handler, ReadLease, TableName};

/// What decides in the vsyncs of a compositor. It lends nothing, so that it may end at any time.
pub struct Decider<B: TableName> {
    pub handler: Handler<ReadLease<B>>,
    ghost unlent: { handler.lent ≡ None },
}

impl<B: TableName> Decider<B> {
    /// What decides.
    pub fn into_handler(self) -> Handler<ReadLease<B>>
        ensures { result ≡ self.handler }
    {
        let Decider { handler } = self;
        handler
    }
}

impl<B: TableName> Drop for Decider<B> {
    fn drop(self) {
        let Decider { handler } = self;
        handler.finish();
    }
}
