// The peer of a link is grafted for a message.
ghost use Rattle.storage.specs.Rows.Ident.{id_of};
ghost use Rattle.block.specs.Panels.{state, Goes};
ghost use Rattle.steps.specs.Asked.{grafted_until, Graftable};

use crate::call::Call;
use block::hops::Hop;
use block::panel::Panel;
use postcard::units::{Millis, Round};
use storage::rows::id::Id;

// The peer of a link is grafted for a message, for as long as a message is cached; where a round is known, the lower stays. Its time is that of an insert into a time
// cache.
pub fn note_graft(panel: &mut Panel, call: &Call, link: usize, id: Id, round: Round)
    requires { Graftable call.now.instant.0 link (id_of id) round.0 (state panel.old) }
    ensures { Goes (grafted_until call.now.instant.0 link (id_of id) round.0) panel.old panel.new }
{
    let retention = panel.head.settings.config.message_cache_retention;
    let expires = Millis(call.instant.0 + retention.0);
    panel.insert_grafted(id, Hop { link, round }, expires);
}
