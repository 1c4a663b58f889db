//! The scene that a run plays: that of the script which the options ask for.
ghost use Rattle.std.specs.Prelude.{◌≡◌, true, IfOk, IsErrOf, Ok, Err};
ghost use Rattle.sf_io.specs.Causes.{Rose};
ghost use Rattle.law_generated.specs.sf_script.declared.fault.ScriptFault.{ScriptFault};
ghost use Rattle.sf_app.specs.Statuses.{Spells, at_no_place};
ghost use Rattle.sf_app.specs.Words.{is_gen};
ghost use Rattle.sf_app.specs.declared.scene.SceneFault.TheVariants.{ReadFailed, Script};

use crate::words::script_asked;
use law_generated::{ParseFault, ScriptFault, parse};
use sf_app_options::Options;
use sf_io::{ReadFault, Source};
use sf_script_scene::Scene;
use std::alloc::Global;

/// Why there is no scene to play.
#[derive(Clone, Copy)]
pub enum SceneFault {
    /// The source failed.
    ReadFailed,
    /// The script is no scene.
    Script(ScriptFault),
    /// Out of memory.
    NoMemory,
}

/// The fault of this cause, which has no place.
fn at_no_place(cause: u32) -> ScriptFault
    ensures { result ≡ at_no_place cause }
{
    ScriptFault {
        line: 0,
        word: 0,
        cause,
    }
}

/// The scene of the script that the options ask for.
pub fn scene_asked<S: Source>(
    alloc: Global,
    options: Options,
    source: &mut S,
) -> Result<Scene, SceneFault>
    ensures scene { IfOk result (λ scene. Spells options (S.left source.old) (S.left source.new) (Ok scene)) }
    ensures fault { (fault : ScriptFault) → IsErrOf result (Script fault) → Spells options (S.left source.old) (S.left source.new) (Err fault) }
    ensures failed { IsErrOf result ReadFailed → Rose (S.faults source.old) (S.faults source.new) }
    ensures unread { is_gen options.run ≡ true → source.new ≡ source.old }
{
    let script = match script_asked(alloc, options, source) {
        Ok(script) => script,
        Err(ReadFault::Failed) => return Err(SceneFault::ReadFailed),
        Err(ReadFault::NoMemory) => return Err(SceneFault::NoMemory),
        Err(ReadFault::TooLong) => return Err(SceneFault::Script(at_no_place(9))),
    };
    match parse(alloc, &script) {
        Ok(scene) => Ok(scene),
        Err(ParseFault::Script(fault)) => Err(SceneFault::Script(fault)),
        Err(ParseFault::NoMemory) => Err(SceneFault::NoMemory),
    }
}
