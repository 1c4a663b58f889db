//! Calls on turns at pixels.
ghost use Rattle.std.specs.Prelude.{◌≡◌, ℕ, ◌<◌, MatchResult};
ghost use Rattle.sf_turns.specs.Views.{Observes};

use sf_turns::{Inside, Stamped, Turn, TurnSeat};

/// A turn comes back from its enter exactly where a load showed that earlier ones have not left.
pub fn enter_observes<P: Stamped>(
    turn: Turn<P>,
    seat: &mut TurnSeat<P>,
) -> Result<(Inside<P>, P), Turn<P>>
    requires { turn.table ≡ seat.old.table }
    ensures observed { (n : ℕ) × Observes seat.old turn.buffer n seat.new × MatchResult result (λ _. n ≡ turn.number) (λ _. n < turn.number) }
{
    turn.enter(seat)
}
