//! From the tree behind a vsync to the outputs due, as views that are ready to be composed: each
//! with the places of its pixels.
ghost use Rattle.std.specs.List.{All, AllZip};
ghost use Rattle.std.specs.Prelude.{ℕ, IfOk, IfSome, map};
ghost use Rattle.law_played.specs.sf_output.Outputs.{IsOutput, OfImage};
ghost use Rattle.law_played.specs.sf_commit.Standing.{Stands};
ghost use Rattle.law_played.specs.sf_output_plan.Due.{IsFrameDue, frame_due};
ghost use Rattle.law_played.specs.sf_output_shown.Copies.{written};
ghost use Rattle.law_played.specs.sf_view.Views.{IsDisplay, Views};
ghost use Rattle.sf_play_report.specs.Stages.{AllFindExpected, AllShowOn, AreSourced, AreSourcesOf, IsSourceOf, IsSourcedBy, IsSourcedDue, IsStage, ShowsOn};
ghost use Rattle.law_played.specs.sf_view.declared.drawn.Drawn.{Drawn as DrawnOf};

use crate::sourced::SourcedView;
use law_played::{
    Content, Drawn, Handler, Image, ImageId, Lease, Output, Plan, View, ViewsDue, views_due,
};
use sf_base::{Items, NoMemory};
use sf_view::view_of;
use std::alloc::Global;

/// The place of the buffer that a drawn layer shows, 0 for a colour.
fn source<L: Lease + Drop>(handler: &Handler<L>, drawn: &Drawn) -> u32
where
    L::Reading: Drop,
    requires { ShowsOn handler.now.on drawn.now.content }
    ensures { IsSourceOf handler.now.on drawn.now.content result }
{
    match drawn.content {
        Content::Buffer(shown) => handler.source(&shown).unwrap(),
        Content::Colour(_) => 0,
    }
}

/// The place of the buffer that each drawn layer shows.
fn sources<L: Lease + Drop>(
    alloc: Global,
    handler: &Handler<L>,
    drawn: &[Drawn],
) -> Result<Items<u32>, NoMemory>
where
    L::Reading: Drop,
    requires { AllShowOn handler.now.on drawn.now }
    ensures { IfOk result (λ sources. AllZip (λ (one : DrawnOf) (source : ℕ). IsSourceOf handler.now.on one.content source) drawn.now sources) }
{
    let mut sources = Vec::new(alloc);
    for one in drawn {
        sources.push(source(handler, one))?;
    }
    Ok(Items::new(sources))
}

/// A view with the places of its buffers.
fn sourced<L: Lease + Drop>(
    alloc: Global,
    handler: &Handler<L>,
    view: View,
) -> Result<SourcedView, NoMemory>
where
    L::Reading: Drop,
    requires { AllShowOn handler.now.on view.drawn }
    ensures { IfOk result (IsSourcedBy handler.now.on view) }
{
    let sources = sources(alloc, handler, view.drawn.as_slice())?;
    Ok(SourcedView { view, sources })
}

/// The view of the whole tree on a display of this size, with the places of its buffers.
fn whole_sourced<L: Lease + Drop>(
    alloc: Global,
    handler: &Handler<L>,
    width: u32,
    height: u32,
) -> Result<SourcedView, NoMemory>
where
    L::Reading: Drop,
    requires display { IsDisplay width height }
    requires stands { Stands handler.now.tree.layers handler.now.on }
    ensures views { IfOk result (λ sourced. Views handler.now.tree.layers width height sourced.view) }
    ensures sources { IfOk result (λ sourced. AreSourcesOf handler.now.on sourced.view.drawn sourced.sources) }
{
    let view = view_of(alloc, handler.tree(), width, height)?;
    let sources = handler.sources(view.drawn.as_slice())?;
    Ok(SourcedView { view, sources })
}

/// The view of the scene's own display with the places of its buffers: that of the whole tree where
/// there is no other one.
fn own_sourced<L: Lease + Drop>(
    alloc: Global,
    plan: &Plan,
    handler: &Handler<L>,
    own: Option<View>,
) -> Result<SourcedView, NoMemory>
where
    L::Reading: Drop,
    requires stage { IsStage (λ one. L.picture one.lease) plan.now handler.now }
    requires shows { IfSome own (λ view. AllShowOn handler.now.on view.drawn) }
    requires due { IsFrameDue plan.now (written handler.now.tree.layers plan.now.mirrors) own }
    ensures { IfOk result (IsSourcedDue handler.now.on (frame_due plan.now (written handler.now.tree.layers plan.now.mirrors))) }
{
    match own {
        Some(view) => sourced(alloc, handler, view),
        None => whole_sourced(alloc, handler, plan.width, plan.height),
    }
}

/// An output whose view has the places of its buffers.
fn sourced_output<L: Lease + Drop>(
    alloc: Global,
    handler: &Handler<L>,
    output: Output<View>,
) -> Result<Output<SourcedView>, NoMemory>
where
    L::Reading: Drop,
    requires { OfImage (λ view. AllShowOn handler.now.on view.drawn) output }
    ensures { IfOk result (IsOutput (IsSourcedBy handler.now.on) output) }
{
    Ok(match output {
        Output::Image(Image { of, shows }) => Output::Image(Image {
            of,
            shows: sourced(alloc, handler, shows)?,
        }),
        Output::Hit(number, layer) => Output::Hit(number, layer),
    })
}

/// These outputs, whose views have the places of their buffers.
fn sourced_outputs<L: Lease + Drop>(
    alloc: Global,
    handler: &Handler<L>,
    outputs: Vec<Output<View>>,
) -> Result<Vec<Output<SourcedView>>, NoMemory>
where
    L::Reading: Drop,
    requires { All (OfImage (λ view. AllShowOn handler.now.on view.drawn)) outputs.items }
    ensures { IfOk result (λ views. AllZip (IsOutput (IsSourcedBy handler.now.on)) outputs.items views.items) }
{
    let mut views = Vec::new(alloc);
    for output in outputs {
        views.push(sourced_output(alloc, handler, output)?)?;
    }
    Ok(views)
}

/// What a vsync shows, as the plan asks for it, ready to be composed: after its commits, and before
/// another vsync. It may be asked while the pixels are lent.
pub fn sourced_views<L: Lease + Drop>(
    alloc: Global,
    plan: &Plan,
    handler: &Handler<L>,
) -> Result<Vec<Output<SourcedView>>, NoMemory>
where
    L::Reading: Drop,
    requires { IsStage (λ one. L.picture one.lease) plan.now handler.now }
    ensures views { IfOk result (λ views. AreSourced plan.now handler.now.tree (map (λ one. L.picture one.lease) handler.now.on) views.items) }
    ensures found { IfOk result (λ views. AllFindExpected (λ one. L.picture one.lease) handler.now views.items) }
{
    let tree = handler.tree();
    tree.layers();
    let ViewsDue { frame, others } = views_due(alloc, plan, tree)?;
    let frame = own_sourced(alloc, plan, handler, frame)?;
    let mut views = Vec::new(alloc);
    views.push(Output::Image(Image {
        of: ImageId::Frame,
        shows: frame,
    }))?;
    let mut others = sourced_outputs(alloc, handler, others)?;
    views.append(&mut others)?;
    Ok(views)
}
