//! The plain types that every crate of the compositor speaks of: ids, rectangles, pixels and
//! their blending, the formats of buffers, pixels in bytes, fences and what was observed of
//! timelines, the statuses of a queue's calls, the error out of memory, and lists in public structs.
//! Nothing here takes memory but the push of such a list, and the points of fences.
#![tactic(auto)]

mod bytes;
mod fences;
mod format;
mod geometry;
mod ids;
mod items;
mod memory;
mod pixel;
mod status;

pub use bytes::{get_pixel, put_pixel};
pub use fences::{Fence, Seen};
pub use format::{Format, seen_as};
pub use geometry::{Rect, clipped, is_within};
pub use ids::{ActorId, LayerId, NO_SLOT, QueueId, SlotId, TimelineId, TokenId};
pub use items::Items;
pub use memory::NoMemory;
pub use pixel::{Rgba, mul, over};
pub use status::QStatus;
