//! The readers of an actor's steps on queues and timelines, and the choice among all forms of
//! steps.
ghost use Rattle.std.specs.Prelude.{◌≡◌, IfOk, Result};
ghost use Rattle.sf_script_words.specs.Text.{words_of};
ghost use Rattle.sf_script_words.specs.Reading.{Gives};
ghost use Rattle.sf_script_words.specs.declared.fault.WordFault.{WordFault};
ghost use Rattle.sf_script_scene.specs.Limits.{StepFits};
ghost use Rattle.sf_script_scene.specs.Ranges.{IsName};
ghost use Rattle.sf_script_scene.specs.declared.step.Step.{Step};
ghost use Rattle.sf_script.specs.Draft.{DraftValue};
ghost use Rattle.sf_script.specs.inner.Fits.{NameFits, NamedFits};
ghost use Rattle.sf_script.specs.inner.Memory.{GivesUnless};
ghost use Rattle.sf_script.specs.Steps.{acquire_at, as_name_at, async_at, attach_at, dequeue_at, detach_at, draw_at, most_at};
ghost use Rattle.sf_script.specs.Steps.{on_point_at, on_queue_at, plain, queue_at, request_at, return_at, step_at, step_of_attach};
ghost use Rattle.sf_script.specs.Steps.{step_of_dequeue, step_of_detach, step_of_most, step_of_return, step_on_point, step_on_queue, unnamed};

use crate::draft::Draft;
use crate::fault::LineFault;
use crate::line::{BoundName, NamedStep, PointForm, QueueForm, Side, StepForm};
use crate::mentions::{bound_name, declared_picture, declared_queue, declared_timeline, used_name};
use crate::parts::{asked_size, expected, fences, part, time, value};
use crate::transactions::{apply, barrier, buffer, desire, merge, set, tx};
use sf_script_scene::{Scene, Step};
use sf_script_words::{WordFault, end, fixed, flag, number32};
use std::alloc::Global;

/// `connect Q`, `disconnect Q`, `abandon Q`
#[tactic(auto, unfolding(crate::specs::Steps::on_queue_at))]
fn on_queue(scene: &Scene, form: QueueForm, line: &[u8]) -> Result<Step, WordFault>
    ensures given { Gives (λ x. x) result (on_queue_at scene.now form (words_of line.now)) }
    ensures fits { IfOk result (StepFits scene.now) }
{
    let (number, rest) = declared_queue(scene, line)?;
    end(rest)?;
    match form {
        QueueForm::Connect => Ok(Step::Connect(number)),
        QueueForm::Disconnect => Ok(Step::Disconnect(number)),
        QueueForm::Abandon => Ok(Step::Abandon(number)),
    }
}

/// `maxdequeued Q COUNT`, `maxacquired Q COUNT`
#[tactic(auto, unfolding(crate::specs::Steps::most_at))]
fn most(scene: &Scene, side: Side, line: &[u8]) -> Result<Step, WordFault>
    ensures given { Gives (λ x. x) result (most_at scene.now side (words_of line.now)) }
    ensures fits { IfOk result (StepFits scene.now) }
{
    let (number, rest) = declared_queue(scene, line)?;
    let (count, rest) = number32(rest, 0, u32::MAX)?;
    end(rest)?;
    match side {
        Side::Producer => Ok(Step::MaxDequeued(number, count)),
        Side::Consumer => Ok(Step::MaxAcquired(number, count)),
    }
}

/// `async Q FLAG`
#[tactic(auto, unfolding(crate::specs::Steps::async_at))]
fn asynchronous(scene: &Scene, line: &[u8]) -> Result<Step, WordFault>
    ensures given { Gives (λ x. x) result (async_at scene.now (words_of line.now)) }
    ensures fits { IfOk result (StepFits scene.now) }
{
    let (number, rest) = declared_queue(scene, line)?;
    let (flag, rest) = flag(rest)?;
    end(rest)?;
    Ok(Step::Async(number, flag))
}

/// `as NAME`
#[tactic(auto, unfolding(crate::specs::Steps::as_name_at))]
fn as_name<'a>(
    alloc: Global,
    draft: &Draft,
    line: &'a [u8],
) -> Result<(BoundName, &'a [u8]), LineFault>
    ensures given { GivesUnless (λ x. (x.0, words_of x.1.now)) result (as_name_at draft.now (words_of line.now)) }
    ensures range { IfOk result (λ x. IsName x.0.place) }
    ensures room { IfOk result (λ x. NameFits draft.now.names x.0.new_name) }
{
    let rest = fixed(line, b"as")?;
    bound_name(alloc, draft, rest)
}

/// `dequeue Q as S [size DW DH]`, `dequeuewait Q as S [size DW DH]`
#[tactic(auto, unfolding(crate::specs::Steps::dequeue_at))]
fn dequeue(alloc: Global, draft: &Draft, waits: bool, line: &[u8]) -> Result<NamedStep, LineFault>
    ensures given { GivesUnless (λ x. x) result (dequeue_at draft.now waits (words_of line.now)) }
    ensures fits { IfOk result (NamedFits draft.now) }
{
    let (number, rest) = declared_queue(draft.scene(), line)?;
    let (name, rest) = as_name(alloc, draft, rest)?;
    let size = asked_size(rest)?;
    let new_name = name.new_name;
    if waits {
        let step = Step::DequeueWait(number, name.place, size);
        Ok(NamedStep { step, new_name })
    } else {
        let step = Step::Dequeue(number, name.place, size);
        Ok(NamedStep { step, new_name })
    }
}

/// `request S`
#[tactic(auto, unfolding(crate::specs::Steps::request_at))]
fn request(draft: &Draft, line: &[u8]) -> Result<Step, WordFault>
    ensures given { Gives (λ x. x) result (request_at draft.now (words_of line.now)) }
    ensures fits { IfOk result (StepFits draft.now.scene) }
{
    let (name, rest) = used_name(draft, line)?;
    end(rest)?;
    Ok(Step::Request(name))
}

/// `draw S P`
#[tactic(auto, unfolding(crate::specs::Steps::draw_at))]
fn draw(draft: &Draft, line: &[u8]) -> Result<Step, WordFault>
    ensures given { Gives (λ x. x) result (draw_at draft.now (words_of line.now)) }
    ensures fits { IfOk result (StepFits draft.now.scene) }
{
    let (name, rest) = used_name(draft, line)?;
    let (picture, rest) = declared_picture(draft.scene(), rest)?;
    end(rest)?;
    Ok(Step::Draw(name, picture))
}

/// `queue S P [time TIME] [crop FX FY FW FH] [fence T V]*`
#[tactic(auto, unfolding(crate::specs::Steps::queue_at))]
fn queue(alloc: Global, draft: &Draft, line: &[u8]) -> Result<Step, LineFault>
    ensures given { GivesUnless (λ x. x) result (queue_at draft.now (words_of line.now)) }
    ensures fits { IfOk result (StepFits draft.now.scene) }
{
    let (name, rest) = used_name(draft, line)?;
    let (picture, rest) = declared_picture(draft.scene(), rest)?;
    let (time, rest) = time(rest)?;
    let (part, rest) = part(rest)?;
    let points = fences(alloc, draft.scene(), rest)?;
    Ok(Step::Queue(name, picture, time, part, points))
}

/// `cancel S [fence T V]*`, `release I [fence T V]*`
#[tactic(auto, unfolding(crate::specs::Steps::return_at))]
fn returned(alloc: Global, draft: &Draft, side: Side, line: &[u8]) -> Result<Step, LineFault>
    ensures given { GivesUnless (λ x. x) result (return_at draft.now side (words_of line.now)) }
    ensures fits { IfOk result (StepFits draft.now.scene) }
{
    let (name, rest) = used_name(draft, line)?;
    let points = fences(alloc, draft.scene(), rest)?;
    match side {
        Side::Producer => Ok(Step::Cancel(name, points)),
        Side::Consumer => Ok(Step::Release(name, points)),
    }
}

/// `pdetach S as B`, `cdetach I as B`
#[tactic(auto, unfolding(crate::specs::Steps::detach_at))]
fn detach(alloc: Global, draft: &Draft, side: Side, line: &[u8]) -> Result<NamedStep, LineFault>
    ensures given { GivesUnless (λ x. x) result (detach_at draft.now side (words_of line.now)) }
    ensures fits { IfOk result (NamedFits draft.now) }
{
    let (name, rest) = used_name(draft, line)?;
    let (loose, rest) = as_name(alloc, draft, rest)?;
    end(rest)?;
    let new_name = loose.new_name;
    match side {
        Side::Producer => {
            let step = Step::PDetach(name, loose.place);
            Ok(NamedStep { step, new_name })
        }
        Side::Consumer => {
            let step = Step::CDetach(name, loose.place);
            Ok(NamedStep { step, new_name })
        }
    }
}

/// `pattach Q B as S`, `cattach Q B as I`
#[tactic(auto, unfolding(crate::specs::Steps::attach_at))]
fn attach(alloc: Global, draft: &Draft, side: Side, line: &[u8]) -> Result<NamedStep, LineFault>
    ensures given { GivesUnless (λ x. x) result (attach_at draft.now side (words_of line.now)) }
    ensures fits { IfOk result (NamedFits draft.now) }
{
    let (number, rest) = declared_queue(draft.scene(), line)?;
    let (loose, rest) = used_name(draft, rest)?;
    let (name, rest) = as_name(alloc, draft, rest)?;
    end(rest)?;
    let new_name = name.new_name;
    match side {
        Side::Producer => {
            let step = Step::PAttach(number, loose, name.place);
            Ok(NamedStep { step, new_name })
        }
        Side::Consumer => {
            let step = Step::CAttach(number, loose, name.place);
            Ok(NamedStep { step, new_name })
        }
    }
}

/// `acquire Q as I [at TIME]`
#[tactic(auto, unfolding(crate::specs::Steps::acquire_at))]
fn acquire(alloc: Global, draft: &Draft, line: &[u8]) -> Result<NamedStep, LineFault>
    ensures given { GivesUnless (λ x. x) result (acquire_at draft.now (words_of line.now)) }
    ensures fits { IfOk result (NamedFits draft.now) }
{
    let (number, rest) = declared_queue(draft.scene(), line)?;
    let (name, rest) = as_name(alloc, draft, rest)?;
    let time = expected(rest)?;
    Ok(NamedStep {
        step: Step::Acquire(number, name.place, time),
        new_name: name.new_name,
    })
}

/// `signal T V`, `wait T V`
#[tactic(auto, unfolding(crate::specs::Steps::on_point_at))]
fn on_point(scene: &Scene, form: PointForm, line: &[u8]) -> Result<Step, WordFault>
    ensures given { Gives (λ x. x) result (on_point_at scene.now form (words_of line.now)) }
    ensures fits { IfOk result (StepFits scene.now) }
{
    let (timeline, rest) = declared_timeline(scene, line)?;
    let (value, rest) = value(rest)?;
    end(rest)?;
    match form {
        PointForm::Signal => Ok(Step::Signal(timeline, value)),
        PointForm::Wait => Ok(Step::Wait(timeline, value)),
    }
}

/// A step that binds no new name.
fn unnamed(step: Step) -> NamedStep
    ensures { result ≡ plain step }
{
    NamedStep {
        step,
        new_name: None,
    }
}

/// What a reader gave of a step that binds no new name.
fn unnamed_if_read(step: Result<Step, WordFault>) -> Result<NamedStep, LineFault>
    ensures given { (read : Result Step WordFault) → Gives (λ x. x) step read → GivesUnless (λ x. x) result (unnamed read) }
    ensures fits { (draft : DraftValue) → IfOk step (StepFits draft.scene) → IfOk result (NamedFits draft) }
{
    Ok(unnamed(step?))
}

/// A step of this form, by the words behind its first one.
#[tactic(auto, unfolding(crate::specs::Steps::step_at))]
pub fn step_line(
    alloc: Global,
    draft: &Draft,
    form: StepForm,
    line: &[u8],
) -> Result<NamedStep, LineFault>
    ensures given { GivesUnless (λ x. x) result (step_at draft.now form (words_of line.now)) }
    ensures fits { IfOk result (NamedFits draft.now) }
{
    match form {
        StepForm::OnQueue(form) => unnamed_if_read(on_queue(draft.scene(), form, line)),
        StepForm::Most(side) => unnamed_if_read(most(draft.scene(), side, line)),
        StepForm::Async => unnamed_if_read(asynchronous(draft.scene(), line)),
        StepForm::Dequeue(waits) => dequeue(alloc, draft, waits, line),
        StepForm::Request => unnamed_if_read(request(draft, line)),
        StepForm::Draw => unnamed_if_read(draw(draft, line)),
        StepForm::Queue => Ok(unnamed(queue(alloc, draft, line)?)),
        StepForm::Return(side) => Ok(unnamed(returned(alloc, draft, side, line)?)),
        StepForm::Detach(side) => detach(alloc, draft, side, line),
        StepForm::Attach(side) => attach(alloc, draft, side, line),
        StepForm::Acquire => acquire(alloc, draft, line),
        StepForm::OnPoint(form) => unnamed_if_read(on_point(draft.scene(), form, line)),
        StepForm::Tx => unnamed_if_read(tx(line)),
        StepForm::Desire => unnamed_if_read(desire(line)),
        StepForm::Buffer => unnamed_if_read(buffer(draft, line)),
        StepForm::Barrier => unnamed_if_read(barrier(line)),
        StepForm::Merge => unnamed_if_read(merge(line)),
        StepForm::Apply => unnamed_if_read(apply(line)),
        StepForm::Set => unnamed_if_read(set(line)),
    }
}
