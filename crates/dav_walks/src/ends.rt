// The two paths of a copy.
ghost use Rattle.std.specs.Prelude.{◌≡◌, OnOk};
ghost use Rattle.dav_walks.specs.Walking.{ends_above, ends_below};

use crate::member::Member;
use crate::pending::go_down;
use dav_core::DavPath;
use dav_io::NoMemory;

// Where a copy is at: the path that it comes from, and the one that it goes to.
#[derive(Drop)]
pub struct Ends {
    pub from: DavPath,
    pub to: DavPath,
}

impl Ends {
    // Goes down to a member, under its name on both sides.
    pub fn down(&mut self, member: &Member) -> Result<(), NoMemory>
        ensures { OnOk result (self.new ≡ ends_below self.old member.now) }
    {
        go_down(&mut self.from, member)?;
        go_down(&mut self.to, member)?;
        Ok(())
    }

    // Goes up to the directories above.
    pub fn up(&mut self)
        ensures { self.new ≡ ends_above self.old }
    {
        self.from.pop_segment();
        self.to.pop_segment();
    }
}
