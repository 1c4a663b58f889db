//! How the operations of a transaction are taken back, the last one first, where a later one is
//! rejected.
ghost use Rattle.std.specs.Prelude.{◌≡◌, List, is_some, OnOk, OnErr, IfErr, unwrap_or};
ghost use Rattle.sf_layer.specs.declared.layer.Layer.{Layer as LayerValue};
ghost use Rattle.sf_tree.specs.inner.Journal.{back, CanGoBack, CanUndo, GoesBack, undone};

use crate::layers::Layers;
use sf_base::NoMemory;
use sf_layer::Layer;
use std::alloc::Global;

// How a change is taken back.
#[derive(Drop)]
pub enum Undo {
    // The newest layer goes.
    Created,
    // The layer at a place is as it was.
    Edited(usize, Layer),
}

/// Takes one change back.
pub fn take_back(layers: &mut Layers, undo: Undo)
    requires { CanUndo undo layers.old }
    ensures { layers.new ≡ undone undo layers.old }
{
    match undo {
        Undo::Created => layers.pop(),
        Undo::Edited(place, layer) => layers.set(place, layer),
    }
}

/// Takes changes back, the last one first.
fn take_all_back(layers: &mut Layers, mut changes: Vec<Undo>)
    requires { CanGoBack changes.items layers.old }
    ensures { layers.new ≡ back changes.items layers.old }
{
    while let Some(undo) = changes.pop() {
        take_back(layers, undo);
    }
}

// How the changes of one transaction are taken back: all layers as they were before the first
// layer was destroyed, if one was, and the changes before that, the last one first.
#[derive(Drop)]
pub struct Journal {
    pub changes: Vec<Undo>,
    pub before: Option<Layers>,
}

impl Journal {
    pub fn new(alloc: Global) -> Journal
        ensures { (layers : List LayerValue) → GoesBack result layers layers }
    {
        Journal {
            changes: Vec::new(alloc),
            before: None,
        }
    }

    /// Whether it has all layers as they were, so that later changes need not be noted.
    pub fn has_all(&self) -> bool
        ensures { result ≡ is_some self.now.before }
    {
        self.before.is_some()
    }

    /// Keeps all layers as they are now, unless it has them already. Whatever is made of the layers
    /// from then on is taken back.
    pub fn keep_all(&mut self, alloc: Global, layers: &Layers) -> Result<(), NoMemory>
        ensures ok { OnOk result ((next first : List LayerValue) → GoesBack self.old layers.now first → GoesBack self.new next first) }
        ensures err { OnErr result ((first : List LayerValue) → GoesBack self.old layers.now first → GoesBack self.new layers.now first) }
    {
        if self.has_all() {
            return Ok(());
        }
        self.before = Some(layers.copy(alloc)?);
        Ok(())
    }

    /// Notes how the last change is taken back, or hands it back where memory runs out.
    pub fn remember(&mut self, undo: Undo) -> Result<(), Undo>
        ensures ok { OnOk result ((layers first : List LayerValue) → CanUndo undo layers →
            GoesBack self.old (undone undo layers) first → GoesBack self.new layers first) }
        ensures same { IfErr result (λ given. given ≡ undo) }
        ensures err { OnErr result ((layers first : List LayerValue) → GoesBack self.old layers first → GoesBack self.new layers first) }
    {
        if self.has_all() {
            return Ok(());
        }
        match self.changes.push(undo) {
            Ok(()) => Ok(()),
            Err(refused) => Err(refused.value),
        }
    }

    /// Takes all changes back.
    pub fn go_back(self, layers: &mut Layers)
        requires { CanGoBack self.changes.items (unwrap_or self.before layers.old) }
        ensures { layers.new ≡ back self.changes.items (unwrap_or self.before layers.old) }
    {
        let Journal { changes, before } = self;
        if let Some(before) = before {
            *layers = before;
        }
        take_all_back(layers, changes);
    }
}
