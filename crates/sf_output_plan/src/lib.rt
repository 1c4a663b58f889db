//! What a vsync shows of a layer tree: its frame, the frames of further displays, captures of
//! layers, and hits, each frame and capture as a view of layers.
#![tactic(auto)]

mod plan;
mod viewing;

pub use plan::{CapturePlan, DisplayPlan, HitPlan, Plan};
pub use viewing::{ViewsDue, views_due};
