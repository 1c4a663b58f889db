//! A law about an actor's walk over its seats, called for its clauses alone.
ghost use Rattle.std.specs.Prelude.{ℕ};
ghost use Rattle.sf_picture.specs.declared.picture.Picture.{Picture};
ghost use Rattle.sf_live_seats.specs.declared.locks.Locks.{Locks};
ghost use Rattle.sf_live_threads.specs.Walks.{Leaves, Moment, Signals, Walk};

use sf_turns::TableName;

/// On a walk an actor's seats signal just what its steps signal, and leave just the turns that they
/// end, in their order.
pub fn seats_do_what_steps_do<B: TableName>()
    ensures signals { (pictures : ℕ → Picture) (locks : Locks B) (start last : Moment B) → Walk B.table pictures locks start last → Signals start last }
    ensures leaves { (pictures : ℕ → Picture) (locks : Locks B) (start last : Moment B) (walk : Walk B.table pictures locks start last)
        → Leaves B.table pictures locks walk }
{}
