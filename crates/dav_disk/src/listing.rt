// An open listing of a disk in memory.
ghost use Rattle.std.specs.Prelude.{◌≡◌, ◌++◌, ◌<◌, ◌^◌, [], None, Some, IfOk, IfSome, IfNone, OnErr, length, true, option_to_list};
ghost use Rattle.std.specs.List.{AllPass};
ghost use Rattle.std.specs.Arc.{arc_value};
ghost use Rattle.dav_core.specs.Path.{is_plain};

use dav_io::{NoMemory, Text};
use std::sync::Arc;

// An open listing: the names that stood in its directory when it began, which it may share with others, and how many
// of them were given.
#[derive(Drop)]
pub struct Listing {
    names: Arc<Vec<Text>>,
    given: usize,
    ghost plain: { AllPass is_plain (arc_value names).items },
}

impl Listing {
    ghost use Rattle.dav_disk.specs.Listings.{names_left};

    // These names are to come.
    pub fn new(names: Arc<Vec<Text>>) -> Self
        requires { AllPass is_plain (arc_value names).items }
        ensures { names_left result ≡ (arc_value names).items }
    {
        Listing { names, given: 0 }
    }

    // Takes the first of the names to come, if there is one. Where memory is refused none is taken.
    pub fn take(&mut self) -> Result<Option<Text>, NoMemory>
        ensures items { IfOk result (λ found. names_left self.old ≡ option_to_list found ++ names_left self.new) }
        ensures plain { IfOk result (λ found. IfSome found (λ name. is_plain name ≡ true)) }
        ensures none { IfOk result (λ found. IfNone found (names_left self.new ≡ [])) }
        ensures err { OnErr result (names_left self.new ≡ names_left self.old) }
    {
        let names = self.names.as_slice();
        if self.given >= names.len() {
            return Ok(None);
        }
        let name = names[self.given].try_clone()?;
        self.given += 1;
        Ok(Some(name))
    }
}
