// A text that was folded.
ghost use Rattle.std.specs.Prelude.{◌≡◌};
ghost use Rattle.dav_matching.specs.Texts as form;

use dav_io::Text;

/// A text, and what folding made of it.
#[derive(Drop)]
pub(crate) struct Fold {
    pub(crate) text: Text,
    pub(crate) folded: Text,
    ghost is: { folded ≡ form.folded text },
}
