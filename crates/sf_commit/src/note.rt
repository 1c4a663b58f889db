//! What later decisions rest on: which frames were committed for which layer, and which layers have
//! backpressure. It is noted at each commit.
ghost use Rattle.std.specs.Prelude.{◌≡◌, ◌++◌, ◌==◌, OnOk, if◌then◌else◌};
ghost use Rattle.sf_base.specs.declared.ids.LayerId.{LayerId as LayerIdValue};
ghost use Rattle.sf_commit.specs.Inside.{NotesOps, PressedByOp, PressedByOps};
ghost use Rattle.sf_commit.specs.Rounds.{frames_in, layers_in};
ghost use Rattle.sf_commit_next.specs.sf_ready.Facts.{HasSame, TellsSame, has_layer};

use sf_base::{LayerId, NoMemory};
use sf_commit_next::Facts;
use sf_view::sf_layer::{Op, Shown};

/// Buffers were committed for their layers.
fn note_shown(facts: &mut Facts, shown: &[(LayerId, Shown)]) -> Result<(), NoMemory>
    ensures frames { OnOk result (TellsSame facts.new.frames (frames_in shown.now ++ facts.old.frames)) }
    ensures fresh { OnOk result (HasSame facts.new.fresh (layers_in shown.now ++ facts.old.fresh)) }
    ensures pressed { OnOk result (facts.new.pressed ≡ facts.old.pressed) }
{
    for (layer, one) in shown {
        facts.add_frame(*layer, one.frame)?;
        facts.add_fresh(*layer)?;
    }
    Ok(())
}

/// The layer has backpressure now, or has none any more.
fn set_pressed(facts: &mut Facts, layer: LayerId, has: bool) -> Result<(), NoMemory>
    ensures rest { OnOk result (facts.new ≡ record facts.old { pressed = facts.new.pressed }) }
    ensures pressed { OnOk result ((id : LayerIdValue) → has_layer facts.new.pressed id ≡ (if layer.0 == id.0 then has else has_layer facts.old.pressed id)) }
{
    if has {
        return facts.add_pressed(layer);
    }
    facts.pressed.remove(&layer.0);
    Ok(())
}

/// An operation was applied to its layer: whether that has backpressure may have changed.
fn note_op(facts: &mut Facts, layer: LayerId, op: &Op) -> Result<(), NoMemory>
    ensures rest { OnOk result (facts.new ≡ record facts.old { pressed = facts.new.pressed }) }
    ensures pressed { OnOk result (PressedByOp layer op.now facts.old.pressed facts.new.pressed) }
{
    match *op {
        Op::Backpressure(has) => set_pressed(facts, layer, has),
        Op::Destroy => set_pressed(facts, layer, false),
        _ => Ok(()),
    }
}

/// Operations were applied, in their order.
fn note_ops(facts: &mut Facts, ops: &[(LayerId, Op)]) -> Result<(), NoMemory>
    ensures rest { OnOk result (facts.new ≡ record facts.old { pressed = facts.new.pressed }) }
    ensures pressed { OnOk result (PressedByOps ops.now facts.old.pressed facts.new.pressed) }
{
    for (layer, op) in ops {
        note_op(facts, *layer, op)?;
    }
    Ok(())
}

/// These buffers were committed with these operations, which were applied.
pub(crate) fn note(
    facts: &mut Facts,
    shown: &[(LayerId, Shown)],
    ops: &[(LayerId, Op)],
) -> Result<(), NoMemory>
    ensures { OnOk result (NotesOps ops.now shown.now facts.old facts.new) }
{
    note_shown(facts, shown)?;
    note_ops(facts, ops)
}
