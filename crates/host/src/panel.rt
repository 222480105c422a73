// The panel.
ghost use Rattle.std.specs.Prelude.{◌≡◌, IfOk, IfErr, length};
ghost use Rattle.protocol.specs.State.{zero_counts, create, not_created};
ghost use Rattle.block.specs.View.{settings_of, limits_of};
ghost use Rattle.whole.specs.Stats.{counts_of};
ghost use Rattle.machine.specs.Called.{lent, call_of, Called};
ghost use Rattle.plumtree.specs.Calls.{entries, Made};
ghost use Rattle.plumtree.specs.CallList.{fresh_list, with_call, LeadsTo};

use crate::past::{Call, Past};
use block::head::{Limits, Settings};
use plumtree::LinkRoom;
use postcard::units::Millis;
use refusal::Refusal;
use whole::stats::Stats;

// A panel: a block that is lent, and the counts, as the calls of `past` left them; and so the guarantee holds of that list (`LeadsTo`).
#[derive(Drop)]
pub struct Panel<'a> {
    block: &'a mut [u8],
    counts: Stats,
    pub past: Past,
    pub ghost leads: { ∥ LeadsTo past.list block.now (counts_of counts) ∥₁ },
}

// Why a creation was refused, with the block, which is untouched.
#[derive(Drop)]
pub struct NotMade<'a> {
    pub refusal: Refusal,
    pub block: &'a mut [u8],
}

impl<'a> Panel<'a> {
    ghost use Rattle.refusal.specs.Numbers.{number_of, answer_of};
    ghost use Rattle.host.specs.Seen.{seen_in, length_in};

    // A creation, questions 1 to 4.
    pub fn new(
        block: &'a mut [u8],
        settings: Settings,
        limits: Limits,
    ) -> Result<Panel<'a>, NotMade<'a>>
        ensures begins { IfOk result (λ panel. panel.past.list ≡ fresh_list settings limits) }
        ensures made { IfOk result (λ panel. Made settings limits block.old zero_counts panel.block.now (counts_of panel.counts) 0 0) }
        ensures lender { IfOk result (λ panel. panel.block.ghost_name ≡ block.entry.ghost_name) }
        ensures refused { IfErr result (λ no. create (settings_of settings) (limits_of limits) (length block.old) ≡ not_created (number_of no.refusal)) }
        ensures untouched { IfErr result (λ no. no.block.now ≡ block.old) }
        ensures handed_back { IfErr result (λ no. no.block.ghost_name ≡ block.entry.ghost_name) }
    {
        let mut counts = Stats::ZERO;
        let answer = plumtree::plumtree_create(block, &mut counts, settings, limits);
        match Refusal::of(answer.number) {
            Some(refusal) => Err(NotMade { refusal, block }),
            None => {
                let past = Past::new(&settings, &limits);
                Ok(Panel {
                    block,
                    counts,
                    past,
                })
            }
        }
    }

    // An event call, questions 5 to 14 and 23: the length of the output. Refused or not, it is one more of the list, of which the guarantee holds again (`leads`).
    pub fn event(
        &mut self,
        at: Millis,
        event: &[u8],
        rooms: &[LinkRoom],
        output: &mut [u8],
    ) -> Result<usize, Refusal>
        ensures past { self.new.past.list ≡ with_call (call_of at.0 event.now (entries rooms.now) output.old) (seen_in result output.new) self.old.past.list }
        ensures called { Called (call_of at.0 event.now (entries rooms.now) output.old) (lent self.old.block.now self.old.counts output.old) (lent self.new.block.now self.new.counts output.new) (answer_of result) (length_in result) }
        ensures lender { self.new.block.ghost_name ≡ self.old.block.ghost_name }
    {
        let lent = output.len();
        let answer = plumtree::plumtree_event(
            self.block,
            &mut self.counts,
            at,
            event,
            rooms,
            output,
        );
        self.past = self.past.with_call(&Call {
            at: at.0,
            event,
            rooms,
            lent,
            number: answer.number,
            length: answer.length,
            output,
        });
        match Refusal::of(answer.number) {
            Some(refusal) => Err(refusal),
            None => Ok(answer.length),
        }
    }
}
