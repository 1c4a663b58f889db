//! What displays show: each frame is composed over the one before it. Only where the new view differs
//! from the last one is anything painted, and of most layers only what shows of them.
#![tactic(auto)]

mod engine;
mod screen;
mod screens;
mod workers;

pub use engine::Engine;
pub use screen::Screen;
pub use screens::Screens;
pub use sf_compose::{Painted, Pixels, View, painted_at_most};
pub use workers::Workers;
