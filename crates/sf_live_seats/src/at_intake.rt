//! What a caller has where transactions arrive without a lock: a sender, the inbox of the first
//! caller, or nothing where there is no intake.
use crate::inbox::Inbox;
use crate::outbox::Outbox;
use sf_turns::TableName;

/// What a caller has at an intake: nothing, where there is none and its transactions go through its pass
/// at the arrivals; a sender; or, as the first caller, what it takes with, until all that was sent is
/// among the arrivals.
pub enum AtIntake<B: TableName> {
    Nothing,
    Sends(Outbox<B>),
    Takes(Inbox<B>),
    Finished,
}

impl<B: TableName> Drop for AtIntake<B> {
    fn drop(self) {
        match self {
            AtIntake::Nothing => {}
            AtIntake::Sends(_) => {}
            AtIntake::Takes(_) => {}
            AtIntake::Finished => {}
        }
    }
}
