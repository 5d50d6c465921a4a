//! Who hears of publications.
ghost use Rattle.deck_workers.specs.Subscribers.{HearsAfter, HearsIf};

use desk_core::Reply;

/// Who hears of each publication that a desk made for a worker. The member says what such a one makes of it.
pub trait Subscriber {
    ghost use Rattle.std.specs.Prelude.{ℕ};

    // The subscriber before, the version that was published, and the subscriber after.
    ghost hears: { Self → ℕ → Self → Type 0 };

    /// Reports to it the publication of a version.
    fn hear(&mut self, version: u64)
        ensures { hears self.old version self.new };
}

/// Nobody, who hears of nothing.
#[derive(Clone, Copy, Drop)]
pub struct NoSubscriber;

impl Subscriber for NoSubscriber {
    ghost use Rattle.std.specs.Prelude.{◌≡◌};

    ghost hears = { λ old version new. new ≡ old };

    fn hear(&mut self, version: u64) {
        let _ = version;
    }
}

/// Reports a publication to a subscriber, where there is one.
fn tell_if<S: Subscriber>(subscriber: &mut S, published: Option<u64>)
    ensures { HearsIf S.hears published subscriber.old subscriber.new }
{
    if let Some(version) = published {
        subscriber.hear(version);
    }
}

/// Reports a publication to a subscriber, where the desk made it, which its reply shows.
pub(crate) fn tell_after<S: Subscriber>(subscriber: &mut S, published: Option<u64>, reply: &Reply)
    ensures { HearsAfter S.hears reply.now published subscriber.old subscriber.new }
{
    if matches!(reply, Reply::Published(_)) {
        tell_if(subscriber, published);
    }
}
