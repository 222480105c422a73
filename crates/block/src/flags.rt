// The Rust's three flags: `dispatch_timer_scheduled`, `announce_dropped_scheduled` and `init`.
use crate::panel::Panel;

impl<'a> Panel<'a> {
    ghost use Rattle.std.specs.Prelude.{true, false};
    ghost use Rattle.protocol.specs.State.{with_dispatch_scheduled, with_announce_scheduled, with_init};
    ghost use Rattle.block.specs.NoteSteps.{standing};
    ghost use Rattle.block.specs.Panels.{Goes};

    // The dispatch tick is scheduled: the flag alone.
    pub fn flag_dispatch(&mut self)
        ensures { Goes (with_dispatch_scheduled true) self.old self.new }
    {
        self.head.live.dispatch_timer_scheduled = true;
    }

    // The dispatch tick has come: the flag alone.
    pub fn unflag_dispatch(&mut self)
        ensures { Goes (with_dispatch_scheduled false) self.old self.new }
    {
        self.head.live.dispatch_timer_scheduled = false;
    }

    // A record that holds anything has its timer scheduled: the flag alone.
    pub fn flag_announce(&mut self)
        ensures { Goes standing self.old self.new }
    {
        if self.head.live.dropped > 0 {
            self.head.live.announce_dropped_scheduled = true;
        }
    }

    // AnnounceDropped has come: the flag alone.
    pub fn unflag_announce(&mut self)
        ensures { Goes (with_announce_scheduled false) self.old self.new }
    {
        self.head.live.announce_dropped_scheduled = false;
    }

    // A first event's work is done: the flag alone.
    pub fn flag_init(&mut self)
        ensures { Goes (with_init true) self.old self.new }
    {
        self.head.live.init = true;
    }
}
