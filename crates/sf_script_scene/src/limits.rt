//! The limits that the two versions of scripts set.
ghost use Rattle.std.specs.Prelude.{◌≡◌};
ghost use Rattle.sf_script_scene.specs.Limits.{most_actors, most_layers};

/// The greatest number of an actor in a scene of this version.
pub fn most_actors(version: u32) -> u32
    ensures { result ≡ most_actors version }
{
    if version == 2 { 64 } else { 16 }
}

/// How many layers there can be in the tree of a scene of this version.
pub fn most_layers(version: u32) -> u32
    ensures { result ≡ most_layers version }
{
    if version == 2 { 1024 } else { 256 }
}
