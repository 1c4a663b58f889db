//! A law of the generated load: whatever its number, its text is the script of a scene.
//! So a run of it never ends with a fault of its script.
#![tactic(auto)]

ghost use Rattle.std.specs.List.{concat};
ghost use Rattle.sf_script_generate.specs.Generator.{lines_of};
ghost use Rattle.law_generated.specs.Scenes.{IsScene};

/// The text of each number is a scene: reading it gives one of version 1, and no fault.
pub fn text_is_scene(number: u64)
    ensures { IsScene (concat (lines_of number)) }
{}

pub use sf_script::{LONGEST_SCRIPT, ParseFault, ScriptFault, parse};
pub use sf_script_generate::generate;
