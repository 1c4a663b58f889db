//! A law of scripts: with a 2 for the 1 in its first line a script of version 1 spells the same scene
//! in version 2.
#![tactic(auto)]

ghost use Rattle.std.specs.Prelude.{◌≡◌, Ok};
ghost use Rattle.sf_script_words.specs.Text.{Text};
ghost use Rattle.sf_script_scene.specs.Scene.{SceneValue};
ghost use Rattle.sf_script.specs.Script.{script_of};
ghost use Rattle.law_script.specs.Second.{DifferInVersion, in_version_2};

/// A script that spells a scene of version 1 spells the same scene in version 2, once the 1 in its
/// first line that is not skipped is a 2.
pub fn a_script_may_be_of_version_2()
    ensures { (one two : Text) (scene : SceneValue) → DifferInVersion one two → script_of one ≡ Ok scene → script_of two ≡ Ok (in_version_2 scene) }
{}
