//! Searched texts that are folded once.
ghost use Rattle.std.specs.Prelude.{◌≡◌, IfOk, IfSome};
ghost use Rattle.dav_matching.specs.Folded.{IsKeptAt};
ghost use Rattle.dav_matching.specs.Texts as form;

use crate::fold::Fold;
use crate::texts::folded;
use dav_io::{NoMemory, Text};
use std::alloc::Global;

/// The most texts that are kept: to look through more would cost more than to fold one.
const MOST: usize = 64;

/// The texts that filters searched for so far, each of which was folded once. Lent to the matching of one resource after
/// the other it spares all but the first the folding of what a filter searches for.
#[derive(Drop)]
pub struct Folds {
    kept: Vec<Fold>,
}

impl Folds {
    /// None yet. It takes no memory before a text is searched for.
    pub fn new(alloc: Global) -> Self {
        Folds {
            kept: Vec::new(alloc),
        }
    }

    /// Where memory comes from.
    pub(crate) fn alloc(&self) -> Global {
        *self.kept.allocator()
    }

    // Where a text is kept.
    fn place_of(&self, text: &Text) -> Option<usize>
        ensures { IfSome result (λ place. IsKeptAt place text.now self.now) }
    {
        for place in 0..self.kept.len() {
            if self.kept[place].text == *text {
                return Some(place);
            }
        }
        None
    }

    // Folds a text, and keeps it. It answers where.
    fn keep(&mut self, text: &Text) -> Result<usize, NoMemory>
        ensures { IfOk result (λ place. IsKeptAt place text.now self.new) }
    {
        let fold = Fold {
            folded: folded(self.alloc(), text)?,
            text: text.try_clone()?,
        };
        if self.kept.len() >= MOST {
            self.kept.clear();
        }
        let place = self.kept.len();
        self.kept.push(fold)?;
        Ok(place)
    }

    /// The text by Unicode's default full case folding. It is folded only where it isn't kept.
    pub(crate) fn folded(&mut self, text: &Text) -> Result<&Text, NoMemory>
        ensures { IfOk result (λ folded. folded.now ≡ form.folded text.now) }
    {
        let place = match self.place_of(text) {
            Some(place) => place,
            None => self.keep(text)?,
        };
        Ok(&self.kept[place].folded)
    }
}
