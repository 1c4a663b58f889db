//! The readers of an actor's steps on transactions.
ghost use Rattle.std.specs.Prelude.{◌≡◌, IfOk};
ghost use Rattle.sf_script_words.specs.Text.{words_of};
ghost use Rattle.sf_script_words.specs.Reading.{Gives};
ghost use Rattle.sf_script_scene.specs.Limits.{StepFits};
ghost use Rattle.sf_script_scene.specs.Ranges.{IsNumber, IsTransactionNumber};
ghost use Rattle.sf_script_scene.specs.Scene.{SceneValue};
ghost use Rattle.sf_script.specs.Transactions.{apply_at, barrier_at, buffer_at, desire_at, layer_at, merge_at, set_at, transaction_at, tx_at};

use crate::changes::change;
use crate::draft::Draft;
use crate::mentions::used_name;
use crate::parts::{moment, value};
use sf_script_scene::Step;
use sf_script_words::{WordFault, end, fixed, number32};

/// The number of a transaction.
fn transaction(line: &[u8]) -> Result<(u32, &[u8]), WordFault>
    ensures given { Gives (λ x. (x.0, words_of x.1.now)) result (transaction_at (words_of line.now)) }
    ensures range { IfOk result (λ x. IsTransactionNumber x.0) }
{
    number32(line, 1, 64)
}

/// The number of a layer, or a token.
fn layer(line: &[u8]) -> Result<(u32, &[u8]), WordFault>
    ensures given { Gives (λ x. (x.0, words_of x.1.now)) result (layer_at (words_of line.now)) }
    ensures range { IfOk result (λ x. IsNumber x.0) }
{
    number32(line, 1, u32::MAX)
}

/// `tx N`
#[tactic(auto, unfolding(crate::specs::Transactions::tx_at))]
pub fn tx(line: &[u8]) -> Result<Step, WordFault>
    ensures given { Gives (λ x. x) result (tx_at (words_of line.now)) }
    ensures fits { (scene : SceneValue) → IfOk result (StepFits scene) }
{
    let (number, rest) = transaction(line)?;
    end(rest)?;
    Ok(Step::Tx(number))
}

/// `desire N TIME`
#[tactic(auto, unfolding(crate::specs::Transactions::desire_at))]
pub fn desire(line: &[u8]) -> Result<Step, WordFault>
    ensures given { Gives (λ x. x) result (desire_at (words_of line.now)) }
    ensures fits { (scene : SceneValue) → IfOk result (StepFits scene) }
{
    let (number, rest) = transaction(line)?;
    let (time, rest) = moment(rest)?;
    end(rest)?;
    Ok(Step::Desire(number, time))
}

/// `buffer N LAYER I`
#[tactic(auto, unfolding(crate::specs::Transactions::buffer_at))]
pub fn buffer(draft: &Draft, line: &[u8]) -> Result<Step, WordFault>
    ensures given { Gives (λ x. x) result (buffer_at draft.now.names (words_of line.now)) }
    ensures fits { (scene : SceneValue) → IfOk result (StepFits scene) }
{
    let (number, rest) = transaction(line)?;
    let (layer, rest) = layer(rest)?;
    let (name, rest) = used_name(draft, rest)?;
    end(rest)?;
    Ok(Step::Buffer(number, layer, name))
}

/// `barrier N LAYER FRAME`
#[tactic(auto, unfolding(crate::specs::Transactions::barrier_at))]
pub fn barrier(line: &[u8]) -> Result<Step, WordFault>
    ensures given { Gives (λ x. x) result (barrier_at (words_of line.now)) }
    ensures fits { (scene : SceneValue) → IfOk result (StepFits scene) }
{
    let (number, rest) = transaction(line)?;
    let (layer, rest) = layer(rest)?;
    let (frame, rest) = value(rest)?;
    end(rest)?;
    Ok(Step::Barrier(number, layer, frame))
}

/// `merge N M`
#[tactic(auto, unfolding(crate::specs::Transactions::merge_at))]
pub fn merge(line: &[u8]) -> Result<Step, WordFault>
    ensures given { Gives (λ x. x) result (merge_at (words_of line.now)) }
    ensures fits { (scene : SceneValue) → IfOk result (StepFits scene) }
{
    let (number, rest) = transaction(line)?;
    let (other, rest) = transaction(rest)?;
    end(rest)?;
    Ok(Step::Merge(number, other))
}

/// `apply N token TOKEN`
#[tactic(auto, unfolding(crate::specs::Transactions::apply_at))]
pub fn apply(line: &[u8]) -> Result<Step, WordFault>
    ensures given { Gives (λ x. x) result (apply_at (words_of line.now)) }
    ensures fits { (scene : SceneValue) → IfOk result (StepFits scene) }
{
    let (number, rest) = transaction(line)?;
    let rest = fixed(rest, b"token")?;
    let (token, rest) = layer(rest)?;
    end(rest)?;
    Ok(Step::Apply(number, token))
}

/// `set N LAYER ..`
#[tactic(auto, unfolding(crate::specs::Transactions::set_at))]
pub fn set(line: &[u8]) -> Result<Step, WordFault>
    ensures given { Gives (λ x. x) result (set_at (words_of line.now)) }
    ensures fits { (scene : SceneValue) → IfOk result (StepFits scene) }
{
    let (number, rest) = transaction(line)?;
    let (layer, rest) = layer(rest)?;
    let (changed, rest) = change(rest)?;
    end(rest)?;
    Ok(Step::Set(number, layer, changed))
}
