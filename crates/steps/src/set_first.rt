// `set_first`: who sent the first copy of a grafted message (the specification, "Gossip").
ghost use Rattle.std.specs.Prelude.{◌≡◌, true};
ghost use Rattle.storage.specs.Rows.Ident.{id_of};
ghost use Rattle.decide.specs.StateAfter.{first_set_state};
ghost use Rattle.block.specs.Panels.{state, Goes, AtRest};

use crate::call::Call;
use crate::lookups::grafted_entry_then;
use block::panel::Panel;
use postcard::units::Round;
use storage::rows::id::Id;

// "set a grafted entry's `first` to sender and r", where a first event's work is done. Its time is that of a look-up by halving.
pub fn set_first(panel: &mut Panel, call: &Call, id: Id, sender: u64, round: Round)
    requires { AtRest (state panel.old) × ((state panel.old).init ≡ true) }
    ensures { Goes (first_set_state (id_of id) sender round.0) panel.old panel.new }
{
    if let Some(entry) = grafted_entry_then(&panel.view(), call.instant, id) {
        panel.set_first(entry, sender, round);
    }
}
