//! What a scene asks each vsync to show, by rising number: asked once, before the first vsync.
ghost use Rattle.std.specs.Prelude.{◌≡◌, ◌++◌, ◌≤◌, ℕ, IfOk, OnOk, filter, map};
ghost use Rattle.law_played.specs.sf_output_plan.Due.{IsPlan};
ghost use Rattle.sf_play_report.specs.inner.Plans.{is_numbered};
ghost use Rattle.law_played.specs.Frames.{capture_plan, display_plan, hit_plan, plan_of};
ghost use Rattle.law_played.specs.Runs.{rising};

use law_played::{
    CaptureDecl, CapturePlan, DisplayDecl, DisplayPlan, HitDecl, HitPlan, Plan, Scene,
};
use sf_base::{Items, NoMemory};
use std::alloc::Global;

/// What is declared under a number.
trait Numbered: Copy {
    ghost number_of: { Self → ℕ };

    fn number(&self) -> u32
        ensures { result ≡ number_of self.now };
}

impl Numbered for DisplayDecl {
    ghost number_of = { λ d. d.number };

    fn number(&self) -> u32 {
        self.number
    }
}

impl Numbered for CaptureDecl {
    ghost number_of = { λ c. c.number };

    fn number(&self) -> u32 {
        self.number
    }
}

impl Numbered for HitDecl {
    ghost number_of = { λ h. h.number };

    fn number(&self) -> u32 {
        self.number
    }
}

/// Adds what is declared under a number.
fn push_numbered<T: Numbered>(list: &mut Vec<T>, items: &[T], number: u32) -> Result<(), NoMemory>
    ensures { OnOk result (list.new.items ≡ list.old.items ++ filter (is_numbered T.number_of number) items.now) }
{
    for item in items {
        if item.number() == number {
            list.push(*item)?;
        }
    }
    Ok(())
}

/// What is declared, by rising number, where a number is at most so great.
fn rising<T: Numbered>(alloc: Global, greatest: u32, items: &[T]) -> Result<Vec<T>, NoMemory>
    requires { greatest ≤ 64 }
    ensures { IfOk result (λ list. list.items ≡ rising T.number_of greatest items.now) }
{
    let mut list = Vec::new(alloc);
    for number in 1..greatest + 1 {
        push_numbered(&mut list, items, number)?;
    }
    Ok(list)
}

/// The plans of these displays.
fn display_plans(alloc: Global, displays: &[DisplayDecl]) -> Result<Items<DisplayPlan>, NoMemory>
    ensures { IfOk result (λ plans. plans ≡ map display_plan displays.now) }
{
    let mut plans = Vec::new(alloc);
    for display in displays {
        plans.push(DisplayPlan {
            number: display.number,
            width: display.width,
            height: display.height,
            stack: display.stack,
        })?;
    }
    Ok(Items::new(plans))
}

/// The plans of these captures.
fn capture_plans(alloc: Global, captures: &[CaptureDecl]) -> Result<Items<CapturePlan>, NoMemory>
    ensures { IfOk result (λ plans. plans ≡ map capture_plan captures.now) }
{
    let mut plans = Vec::new(alloc);
    for capture in captures {
        plans.push(CapturePlan {
            number: capture.number,
            layer: capture.layer,
            width: capture.width,
            height: capture.height,
        })?;
    }
    Ok(Items::new(plans))
}

/// The plans of these hit tests.
fn hit_plans(alloc: Global, hits: &[HitDecl]) -> Result<Items<HitPlan>, NoMemory>
    ensures { IfOk result (λ plans. plans ≡ map hit_plan hits.now) }
{
    let mut plans = Vec::new(alloc);
    for hit in hits {
        plans.push(HitPlan {
            number: hit.number,
            x: hit.x,
            y: hit.y,
        })?;
    }
    Ok(Items::new(plans))
}

/// A copy of pairs of numbers, as a plain list.
fn pairs(alloc: Global, pairs: &[(u32, u32)]) -> Result<Items<(u32, u32)>, NoMemory>
    ensures { IfOk result (λ copied. copied ≡ pairs.now) }
{
    let mut copied = Vec::new(alloc);
    copied.extend_from_slice(pairs)?;
    Ok(Items::new(copied))
}

/// What a scene asks to be shown of its layers.
#[tactic(auto, unfolding(law_played::specs::Frames::plan_of))]
pub fn plan_of(alloc: Global, scene: &Scene) -> Result<Plan, NoMemory>
    ensures value { IfOk result (λ plan. plan ≡ plan_of scene.now) }
    ensures kept { IfOk result IsPlan }
{
    let displays = rising(alloc, 8, scene.displays.as_slice())?;
    let captures = rising(alloc, 8, scene.captures.as_slice())?;
    let hits = rising(alloc, 64, scene.hits.as_slice())?;
    Ok(Plan {
        width: scene.width,
        height: scene.height,
        stacks: pairs(alloc, scene.stacks.as_slice())?,
        mirrors: pairs(alloc, scene.mirrors.as_slice())?,
        displays: display_plans(alloc, &displays)?,
        captures: capture_plans(alloc, &captures)?,
        hits: hit_plans(alloc, &hits)?,
    })
}
