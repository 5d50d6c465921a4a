//! A desk publishes its own decks, in one turn. They have their objects, and no text is made of them here: so a turn
//! is no longer with many decks of many cards.
ghost use Rattle.std.specs.Prelude.{◌≡◌, Some, false, IfOk};
ghost use Rattle.std.specs.List.{list_any};
ghost use Rattle.desk_core.specs.Desks.{decks_of};
ghost use Rattle.desk_core.specs.Answers.{answers};
ghost use Rattle.desk_core.specs.Joins.Calls.{Do, Publish, Published, Refused};
ghost use Rattle.desk_core.specs.Claiming.{is_behind};
ghost use Rattle.desk_core.specs.Delivering.{own_publication, unlinked};
ghost use Rattle.desk_core.specs.Steps.{Steps};
ghost use Rattle.desk_core.specs.Joins.Turns.{IsAnswer};

use crate::claiming::objects;
use crate::desk::Desk;
use crate::leases::is_leased;
use crate::replies::{Refusal, Reply};
use crate::shared_publication::SharedPublication;
use deck_linker::ListedPublication;
use std::alloc::AllocError;
use std::mem::replace;

impl Desk {
    /// The desk publishes its decks. The lease ends in each case: where there is no memory for a publication too.
    pub(crate) fn publish(&mut self, lease: u64) -> Reply
        ensures { Steps self.old (Do (Publish lease)) result self.new }
    {
        if !is_leased(lease, self.link) {
            return Reply::Refused(Refusal::UnknownJob);
        }
        if !self.is_linked() {
            return self.end_link(Refusal::Stale(self.version));
        }
        if self.has_behind() {
            return self.end_link(Refusal::Foreign);
        }
        match self.own_publication() {
            Ok(publication) => self.put_up(publication),
            Err(_) => self.end_link(Refusal::OutOfMemory),
        }
    }

    /// The lease of the link ends, for this reason.
    fn end_link(&mut self, refusal: Refusal) -> Reply
        ensures { IsAnswer (answers (Refused refusal) (unlinked self.old)) result self.new }
    {
        self.link = None;
        Reply::Refused(refusal)
    }

    /// What is published of its decks as they are.
    fn own_publication(&self) -> Result<SharedPublication, AllocError>
        requires { list_any is_behind self.now.decks ≡ false }
        ensures { IfOk result (λ publication. publication ≡ own_publication self.now) }
    {
        let objects = objects(self.alloc, self.decks())?;
        SharedPublication::new(self.alloc, ListedPublication::new(self.version, objects))
    }

    /// A publication of its decks is the last one.
    fn put_up(&mut self, publication: SharedPublication) -> Reply
        requires { publication.decks ≡ decks_of self.old }
        ensures { IsAnswer (answers (Published self.old.publication) (record (unlinked self.old) { publication = Some publication })) result self.new }
    {
        self.link = None;
        let before = replace(&mut self.publication, Some(publication));
        Reply::Published(before)
    }
}
