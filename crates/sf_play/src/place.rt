//! Where a play stands: at a pick of the order, or in a round behind it. The player asks here which
//! action comes next.
ghost use Rattle.std.specs.Prelude.{◌≡◌};
ghost use Rattle.sf_play.specs.Places.{settled};

use sf_script_scene::Pick;

/// Where a play stands.
#[derive(Clone, Copy)]
pub enum Place {
    /// Before an action of a pick of the order: the pick's place, from 0, and how many of its actions are
    /// done.
    Order(usize, u32),
    /// In a round, before the actor of this place, from 0, or behind all actors before the vsync; and
    /// whether a step was done in the round.
    Round(usize, bool),
    /// Behind the last round.
    End,
}

impl Place {
    /// The place of the next action to be done: a pick that has no action left is passed, and the order is
    /// followed by a round.
    pub fn settled(self, order: &[Pick]) -> Place
        ensures { result ≡ settled order.now self }
    {
        match self {
            Place::Order(place, done) => match order.get(place) {
                Some(pick) => {
                    if done < pick.times {
                        self
                    } else if place + 1 < order.len() {
                        Place::Order(place + 1, 0)
                    } else {
                        Place::Round(0, false)
                    }
                }
                None => Place::Round(0, false),
            },
            _ => self,
        }
    }
}
