//! A law of the two versions of scenes: where a scene of version 1 keeps within the layers that
//! version 1 has room for, it is played alike in version 2.
#![tactic(auto)]

ghost use Rattle.law_versions.specs.Versions.{ArePlayedAlike};

/// A scene of version 1, of which no commit is rejected for too many layers, has the same records
/// in version 2, except for the version in the first one.
pub fn versions_are_played_alike()
    ensures { ArePlayedAlike }
{}
