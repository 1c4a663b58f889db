//! What the looks at a pending transaction's buffers showed.
use sf_base::Items;

/// What one look at each buffer of a pending transaction showed, in the order of its buffers:
/// whether the write had ended.
pub struct Looks {
    /// The transaction's number in the order of arrival.
    pub number: u32,
    pub drawn: Items<bool>,
}

impl Drop for Looks {
    fn drop(self) {
        let Looks {
            number: _,
            drawn: _,
        } = self;
    }
}
