//! From the layer tree behind a vsync to the views that are due: of each display, of each captured
//! layer that is there, and what hit tests answer. Composing begins with these views.
ghost use Rattle.std.specs.List.{All, flat_map};
ghost use Rattle.std.specs.Prelude.{◌≡◌, ◌≤◌, [], IfOk, List, length, map, true};
ghost use Rattle.sf_display.specs.sf_layer.declared.layer.Layer.{Layer as LayerOf};
ghost use Rattle.sf_output_plan.specs.Due.{AreShown, IsFrameDue, IsPlan, SameOrders, ShowsAll, ShowsDue, capture_due, display_due, frame_due, hit_due, hit_number, others_due};
ghost use Rattle.sf_output_plan.specs.declared.plan.CapturePlan.{CapturePlan as CaptureOf};
ghost use Rattle.sf_output_plan.specs.declared.plan.DisplayPlan.{DisplayPlan as DisplayOf};
ghost use Rattle.sf_output_plan.specs.declared.plan.Plan.{Plan as PlanOf};
ghost use Rattle.sf_display.specs.sf_output_shown.Copies.{written};
ghost use Rattle.sf_display.specs.sf_output_shown.Displays.{order_on};
ghost use Rattle.sf_display.specs.sf_output_shown.Hits.{hit_of};
ghost use Rattle.sf_display.specs.sf_view.Views.{IsDisplay, ViewsInOrder};

use crate::plan::{CapturePlan, DisplayPlan, HitPlan, Plan};
use sf_base::{LayerId, NoMemory};
use sf_capture::{cut, hit};
use sf_display::sf_tree::Tree;
use sf_display::sf_view::{View, view_of};
use sf_display::{display_view, stacks_in};
use sf_mirror::written;
use sf_output::{Image, ImageId, Output};
use std::alloc::Global;

/// The views of what a vsync shows.
#[derive(Drop)]
pub struct ViewsDue {
    /// That of the scene's own display. There is none exactly where the plan has neither stacks nor
    /// mirrors: it is the view of the whole tree then.
    pub frame: Option<View>,
    /// All others, in order: of further displays, of captures, and hits.
    pub others: Vec<Output<View>>,
}

/// The view of each of these displays, where the layers are on these stacks.
fn displays(
    alloc: Global,
    layers: &Tree,
    stacks: &[(u32, u32)],
    displays: &[DisplayPlan],
) -> Result<Vec<Output<View>>, NoMemory>
    requires { All (λ (d : DisplayOf). IsDisplay d.width d.height) displays.now }
    ensures { IfOk result (λ views. AreShown (map (display_due stacks.now layers.now.layers) displays.now) views.items) }
{
    let mut views = Vec::new(alloc);
    for display in displays {
        let view = display_view(
            alloc,
            layers,
            stacks,
            display.stack,
            display.width,
            display.height,
        )?;
        views.push(Output::Image(Image {
            of: ImageId::Display(display.number),
            shows: view,
        }))?;
    }
    Ok(views)
}

/// The view of each captured layer that is there.
fn captures(
    alloc: Global,
    tree: &Tree,
    captures: &[CapturePlan],
) -> Result<Vec<Output<View>>, NoMemory>
    requires { All (λ (c : CaptureOf). IsDisplay c.width c.height) captures.now }
    ensures { IfOk result (λ views. AreShown (flat_map (capture_due tree.now.layers) captures.now) views.items) }
{
    let mut views = Vec::new(alloc);
    for capture in captures {
        let Some(layers) = cut(alloc, tree, LayerId(capture.layer))? else {
            continue;
        };
        let view = view_of(alloc, &layers, capture.width, capture.height)?;
        views.push(Output::Image(Image {
            of: ImageId::Capture(capture.number),
            shows: view,
        }))?;
    }
    Ok(views)
}

/// The number of the layer in front at a point of a view, 0 for none.
fn number_at(view: &View, x: i32, y: i32) -> u32
    ensures { (plan : PlanOf) (tree : List LayerOf) → ShowsDue (frame_due plan tree) view.now
        → result ≡ hit_number (hit_of tree plan.stacks plan.width plan.height x y) }
{
    match hit(view, x, y) {
        Some(id) => id.0,
        None => 0,
    }
}

/// What a view of the scene's own display answers to each of these hit tests.
fn hits_in(alloc: Global, view: &View, hits: &[HitPlan]) -> Result<Vec<Output<View>>, NoMemory>
    ensures { IfOk result (λ views. (plan : PlanOf) (tree : List LayerOf) → ShowsDue (frame_due plan tree) view.now
        → AreShown (map (hit_due plan tree) hits.now) views.items) }
{
    let mut views = Vec::new(alloc);
    for test in hits {
        let layer = number_at(view, test.x, test.y);
        views.push(Output::Hit(test.number, layer))?;
    }
    Ok(views)
}

/// The view of the scene's own display, where the layers are on these stacks.
fn own_view(
    alloc: Global,
    plan: &Plan,
    layers: &Tree,
    stacks: &[(u32, u32)],
) -> Result<View, NoMemory>
    requires plan { IsPlan plan.now }
    requires stacks { SameOrders layers.now.layers stacks.now plan.now.stacks }
    ensures { IfOk result (ViewsInOrder layers.now.layers (order_on layers.now.layers plan.now.stacks 0) plan.now.width plan.now.height) }
{
    display_view(alloc, layers, stacks, 0, plan.width, plan.height)
}

/// What each hit test answers for the scene's own display without mirrors.
fn hits(alloc: Global, plan: &Plan, tree: &Tree) -> Result<Vec<Output<View>>, NoMemory>
    requires { IsPlan plan.now }
    ensures { IfOk result (λ views. AreShown (map (hit_due plan.now tree.now.layers) plan.now.hits) views.items) }
{
    let tests = plan.hits.as_slice();
    if tests.is_empty() {
        return Ok(Vec::new(alloc));
    }
    let stacks = stacks_in(alloc, tree, plan.stacks.as_slice())?;
    let view = own_view(alloc, plan, tree, &stacks)?;
    hits_in(alloc, &view, tests)
}

fn has_no_mirrors(plan: &Plan) -> bool
    ensures none { result ≡ true → plan.now.mirrors ≡ [] }
    ensures all { plan.now.mirrors ≡ [] → result ≡ true }
{
    plan.mirrors.as_slice().is_empty()
}

/// Whether the scene's own display shows the whole tree as it is.
fn shows_all(plan: &Plan) -> bool
    ensures stacks { result ≡ true → plan.now.stacks ≡ [] }
    ensures mirrors { result ≡ true → plan.now.mirrors ≡ [] }
    ensures all { ShowsAll plan.now → result ≡ true }
{
    plan.stacks.as_slice().is_empty() && has_no_mirrors(plan)
}

/// The frames of all displays, of layers in which mirrors are written out.
fn frames(alloc: Global, plan: &Plan, layers: &Tree) -> Result<ViewsDue, NoMemory>
    requires { IsPlan plan.now }
    ensures frame { IfOk result (λ due. IsFrameDue plan.now layers.now.layers due.frame) }
    ensures others { IfOk result (λ due. AreShown (map (display_due plan.now.stacks layers.now.layers) plan.now.displays) due.others.items) }
{
    let stacks = stacks_in(alloc, layers, plan.stacks.as_slice())?;
    let frame = if shows_all(plan) {
        None
    } else {
        Some(own_view(alloc, plan, layers, &stacks)?)
    };
    let others = displays(alloc, layers, &stacks, plan.displays.as_slice())?;
    Ok(ViewsDue { frame, others })
}

/// The frames of all displays.
fn all_frames(alloc: Global, plan: &Plan, tree: &Tree) -> Result<ViewsDue, NoMemory>
    requires plan { IsPlan plan.now }
    requires small { length tree.now.layers ≤ 1024 }
    ensures frame { IfOk result (λ due. IsFrameDue plan.now (written tree.now.layers plan.now.mirrors) due.frame) }
    ensures others { IfOk result (λ due. AreShown (map (display_due plan.now.stacks (written tree.now.layers plan.now.mirrors)) plan.now.displays) due.others.items) }
{
    if has_no_mirrors(plan) {
        return frames(alloc, plan, tree);
    }
    let layers = written(alloc, tree, plan.mirrors.as_slice())?;
    frames(alloc, plan, &layers)
}

/// The views of what a vsync shows of a tree of at most 1,024 layers, as the plan asks for it.
pub fn views_due(alloc: Global, plan: &Plan, tree: &Tree) -> Result<ViewsDue, NoMemory>
    requires plan { IsPlan plan.now }
    requires small { length tree.now.layers ≤ 1024 }
    ensures frame { IfOk result (λ due. IsFrameDue plan.now (written tree.now.layers plan.now.mirrors) due.frame) }
    ensures others { IfOk result (λ due. AreShown (others_due plan.now tree.now.layers) due.others.items) }
{
    let ViewsDue { frame, mut others } = all_frames(alloc, plan, tree)?;
    let mut captures = captures(alloc, tree, plan.captures.as_slice())?;
    let mut hits = hits(alloc, plan, tree)?;
    others.append(&mut captures)?;
    others.append(&mut hits)?;
    Ok(ViewsDue { frame, others })
}
