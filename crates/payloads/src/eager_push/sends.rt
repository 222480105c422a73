// What an eager push sends.
ghost use Rattle.std.specs.Prelude.{◌≡◌, not, length};
ghost use Rattle.storage.specs.Lists.Base.{is_empty};
ghost use Rattle.wire.specs.Encode.Intake.{after};
ghost use Rattle.block.specs.Views.{shown};
ghost use Rattle.block.specs.Panels.{AtRest};
ghost use Rattle.steps.specs.LinkSets.{AllBelow};
ghost use Rattle.payloads.specs.EagerPush.Targets.{push_backs};
ghost use Rattle.payloads.specs.EagerPush.Sends.{sends_bytes, push_bytes};

use block::panel::View;
use steps::call::Call;
use steps::link_set::LinkSet;
use steps::schedule::schedule_announce_dropped;
use wire::encode::Encode;
use wire::encode::action::Send;
use wire::encode::message::Gossip;
use wire::encode::sink::Sink;

// The sends of a push, ascending, and whether any was handed back. Its time is that of one pass over the links.
fn push_sends<S: Sink>(view: &View, call: &Call, out: &mut S, to: LinkSet, message: &Gossip) -> bool
    requires rest { AtRest (shown view.now) × AllBelow to (length (shown view.now).links) }
    ensures sent { S.intake out.new ≡ after (sends_bytes call.now to message.now (shown view.now)) (S.intake out.old) }
    ensures back { result ≡ not (is_empty (push_backs call.now to (shown view.now))) }
{
    let mut back = false;
    for link in 0..view.link_count() {
        if to.contains(link) {
            let taken = call.rooms.takes(link);
            Send {
                peer: view.link(link).peer,
                taken,
                message: *message,
            }
            .encode(out);
            back |= !taken;
        }
    }
    back
}

// `eager_push`, of a cached message: the sends, and `schedule_announce_dropped` behind them all, as "handed back are noted after all sends". Its time is that of
// one pass over the links.
pub fn eager_push<S: Sink>(view: &View, call: &Call, out: &mut S, to: LinkSet, message: &Gossip)
    requires rest { AtRest (shown view.now) × AllBelow to (length (shown view.now).links) }
    ensures { S.intake out.new ≡ after (push_bytes call.now to message.now (shown view.now)) (S.intake out.old) }
{
    let back = push_sends(view, call, out, to, message);
    schedule_announce_dropped(out, back, view.head.live.announce_dropped_scheduled);
}
