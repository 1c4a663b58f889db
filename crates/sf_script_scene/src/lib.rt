//! Scenes: what a script spells. A scene has the display, what is declared (timelines, queues,
//! pictures, further displays, captures, hits, mirrors), each actor's steps, and the order in which
//! actors and vsyncs are picked. Its type keeps the ranges and the limits of a script, and that
//! what is named is declared. A run depends on its scene alone.
#![tactic(auto)]

mod ask;
mod build;
mod change;
mod declarations;
mod limits;
mod points;
mod scene;
mod step;

pub use change::Change;
pub use declarations::{CaptureDecl, DisplayDecl, HitDecl, Pick, QueueDecl};
pub use limits::{most_actors, most_layers};
pub use points::Points;
pub use scene::Scene;
pub use sf_picture;
pub use step::{ActorScript, Step};
