//! Laws about the play of a scene: it goes on, it ends, and it has one list of records.
ghost use Rattle.std.specs.Prelude.{◌≡◌, ◌≤◌, ◌⊎◌, List};
ghost use Rattle.sf_script_scene.specs.Limits.{IsWithinLimits};
ghost use Rattle.sf_script_scene.specs.Scene.{SceneValue};
ghost use Rattle.sf_record.specs.declared.record.Record.{Record as RecordValue};
ghost use Rattle.law_played.specs.Commits.{IsPrefix};
ghost use Rattle.law_played.specs.Ends.{ArePlayRecords, BeginWith, Ends, HasRecords, records_so_far};
ghost use Rattle.law_played.specs.Plays.{Comes, GoesOnTo, IsBegun, IsOver, Playing};

/// A play of a scene that is not over goes on: each transition can be taken.
pub fn a_play_goes_on()
    ensures { (scene : SceneValue) (playing : Playing) → IsOver scene playing ⊎ ((next : Playing) × GoesOnTo scene playing next) }
{}

/// A play of a scene within limits comes to its end, from wherever it stands.
pub fn a_play_ends()
    ensures { (scene : SceneValue) (playing : Playing) → IsWithinLimits scene → Ends scene playing }
{}

/// A play that has begun has records, which begin with those of what it showed so far; and what a play
/// showed stands in front of what it shows later.
pub fn a_play_has_records()
    ensures has { (scene : SceneValue) (playing : Playing) → IsWithinLimits scene → IsBegun scene playing → HasRecords scene playing }
    ensures go_on { (scene : SceneValue) (playing next : Playing) → Comes scene playing next
        → IsPrefix (records_so_far scene playing.events) (records_so_far scene next.events) }
{}

/// A scene has a play, as soon as its vsyncs are 1 to 1,000 milliseconds apart.
pub fn a_scene_has_a_play()
    ensures { (scene : SceneValue) → 1000000 ≤ scene.period → scene.period ≤ 1000000000 → (records : List RecordValue) × ArePlayRecords scene records }
{}

/// The play of a scene has no other records; and what any begun play of it showed so far stands in front of them.
pub fn play_records_are_one()
    ensures one { (scene : SceneValue) (records others : List RecordValue) → ArePlayRecords scene records → ArePlayRecords scene others → records ≡ others }
    ensures begin { (scene : SceneValue) (playing : Playing) (records : List RecordValue) → IsBegun scene playing → ArePlayRecords scene records
        → BeginWith scene playing records }
{}
