//! Laws about whole runs, called for their clauses alone: a scene has one play, and histories show
//! calls of known callers alone.
ghost use Rattle.std.specs.Prelude.{◌≡◌, List};
ghost use Rattle.sf_script_scene.specs.Scene.{SceneValue};
ghost use Rattle.sf_record_sums.specs.sf_record.declared.record.Record.{Record};
ghost use Rattle.sf_live.specs.law_played.Ends.{ArePlayRecords};
ghost use Rattle.sf_app.specs.Callers.{CallersAreKnown};

/// The law that a scene has one play: its records are determined by the scene alone.
pub fn one_play()
    ensures { (scene : SceneValue) (first second : List Record) → ArePlayRecords scene first → ArePlayRecords scene second → first ≡ second }
{}

/// The law that the histories of a played run show calls of the compositor and of the scene's actors
/// alone, with `--intake queue` and without: where the scene has no actor, nobody but the compositor
/// calls.
pub fn callers_are_known()
    ensures { CallersAreKnown }
{}
