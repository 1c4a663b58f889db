//! The screens of all images of a run: one is taken out for each image of a vsync and put back
//! once that is written.
ghost use Rattle.std.specs.List.{position};
ghost use Rattle.std.specs.Prelude.{◌≡◌};
ghost use Rattle.sf_output_screen.specs.ScreenLists.{is_of, is_same};

use crate::screen::Screen;
use sf_base::NoMemory;
use sf_compose::View;
use sf_output::ImageId;
use std::alloc::Global;
use std::marker::Model;

/// A screen, and the image that it shows.
#[derive(Drop)]
pub struct OutputScreen {
    of: ImageId,
    screen: Screen,
}

/// Whether two images are the same.
fn is_same(one: ImageId, other: ImageId) -> bool
    ensures { result ≡ is_same one other }
{
    match (one, other) {
        (ImageId::Frame, ImageId::Frame) => true,
        (ImageId::Display(one), ImageId::Display(other)) => one == other,
        (ImageId::Capture(one), ImageId::Capture(other)) => one == other,
        _ => false,
    }
}

/// The index of the screen of an image, if it has one.
fn index_of(screens: &[OutputScreen], of: ImageId) -> Option<usize>
    ensures { result ≡ position (is_of of) screens.now }
{
    screens.iter().position(|one| is_same(one.of, of))
}

/// The screens of several images, one for each that was shown. To be shown a screen is taken out, and
/// put back.
pub struct Screens {
    alloc: Global,
    list: Vec<OutputScreen>,
}

impl Model for Screens {
    ghost use Rattle.std.specs.Prelude.{List};
    ghost use Rattle.sf_output_screen.specs.declared.screens.OutputScreen.{OutputScreen};

    ghost Value = { List OutputScreen };

    ghost view = { λ s. s.list.items };
}

impl Screens {
    ghost use Rattle.std.specs.Prelude.{◌≡◌, ◌++◌, ◌∷◌, [], ℕ, OnErr, OnOk};
    ghost use Rattle.sf_compose.specs.sf_picture.declared.picture.Picture.{Picture};
    ghost use Rattle.sf_output_screen.specs.Screens.{IsShown};
    ghost use Rattle.sf_output_screen.specs.ScreenLists.{AreShown, screen_of};

    /// No screens yet. It takes no memory.
    pub fn new(alloc: Global) -> Screens
        ensures { result ≡ [] }
    {
        Screens {
            alloc,
            list: Vec::new(alloc),
        }
    }

    /// At most so many points of layers are painted to show a view as this image, where memory
    /// suffices to find out.
    pub fn work(&self, of: ImageId, view: &View) -> u64 {
        match self.list.iter().find(|one| is_same(one.of, of)) {
            Some(one) => one.screen.work(view),
            None => Screen::new(self.alloc).work(view),
        }
    }

    /// Takes the screen of an image out, or a new one where it has none. It takes no memory.
    pub fn take(&mut self, of: ImageId) -> Screen
        ensures own { result ≡ screen_of self.old of }
        ensures shown { (pictures : ℕ → Picture) → AreShown pictures self.old → IsShown pictures result }
        ensures others { (pictures : ℕ → Picture) → AreShown pictures self.old → AreShown pictures self.new }
    {
        match index_of(&self.list, of) {
            Some(index) => {
                let OutputScreen { of: _, screen } = self.list.remove(index);
                screen
            }
            None => Screen::new(self.alloc),
        }
    }

    /// Puts the screen of an image back. Where memory runs out it is gone.
    pub fn put(&mut self, of: ImageId, screen: Screen) -> Result<(), NoMemory>
        ensures ok { OnOk result (self.new ≡ self.old ++ record { of = of; screen = screen } ∷ []) }
        ensures err { OnErr result (self.new ≡ self.old) }
    {
        self.list.push(OutputScreen { of, screen })?;
        Ok(())
    }
}

impl Drop for Screens {
    fn drop(self) {
        let Screens { alloc: _, list: _ } = self;
    }
}
