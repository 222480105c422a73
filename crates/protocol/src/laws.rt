// The theorems over the definitions, each the contract of a function. Nothing runs: a contract is proved, and so these are.
ghost use Rattle.std.specs.Prelude.{ℕ, List};
ghost use Rattle.protocol.specs.NoNeighbourPassedOver.{NoNeighbourPassedOver};
ghost use Rattle.protocol.specs.ReadingsFollowTheTree.{ReadingsFollowTheTree};
ghost use Rattle.protocol.specs.Unasked.{NoUnaskedPayload};
ghost use Rattle.protocol.specs.FourTicks.{FourTicks};
ghost use Rattle.protocol.specs.Notings.{MetFullExact};
ghost use Rattle.protocol.specs.SameMeaning.{SameMeaning};
ghost use Rattle.protocol.specs.AlikeCalls.AlikeFiner.{AlikeFiner};
ghost use Rattle.protocol.specs.AlikeCalls.CommissioningSheet.{CommissioningSheet};
ghost use Rattle.protocol.specs.AnyQuestions.{AnyQuestions};
ghost use Rattle.protocol.specs.TookExact.{TookExact};
ghost use Rattle.protocol.specs.NeverFive.{NeverFive};
ghost use Rattle.protocol.specs.RetiredBroadcasts.{RetiredBroadcasts};
ghost use Rattle.protocol.specs.Numbers.{Numbers};
ghost use Rattle.protocol.specs.WorkedCalls.{WorkedCalls};
ghost use Rattle.protocol.specs.GuaranteeExamples.{GuaranteeExamples};
ghost use Rattle.protocol.specs.WhereAPortGoesAstray.{WhereAPortGoesAstray};

// Whatever the identifier function: "for every list of event calls (…; refused ones too) from a fresh panel, after it this holds".
pub fn no_neighbour_passed_over()
    ensures { (hash : List ℕ → ℕ) → NoNeighbourPassedOver hash }
{}

// Whatever the identifier function: tree links carry the reading, other links its identifier only, of each accepted call of every list of event calls from a fresh panel.
pub fn readings_follow_the_tree()
    ensures { (hash : List ℕ → ℕ) → ReadingsFollowTheTree hash }
{}

// "Some links must never carry unasked payload", whatever the identifier function.
pub fn quiet_links_carry_no_unasked_payload()
    ensures { (hash : List ℕ → ℕ) → NoUnaskedPayload hash }
{}

// "For every list of accepted calls: an identifier put on a neighbour's record has left it by the fourth AnnounceDropped tick after."
pub fn no_announcement_waits()
    ensures { (hash : List ℕ → ℕ) → FourTicks hash }
{}

// "It met a full record when …": what a call's actions and state tell of it is exactly what `note_dropped` came to.
pub fn met_full_is_exact()
    ensures { (hash : List ℕ → ℕ) → MetFullExact hash }
{}

// Two spellings of one event lead to the same answers and states.
pub fn spellings_have_one_meaning()
    ensures { (hash : List ℕ → ℕ) → SameMeaning hash }
{}

// "Two blocks alike in the new way are alike in the old way."
pub fn alike_is_finer()
    ensures { AlikeFiner }
{}

// "from alike blocks and equal counts, the same list of events, times, link room and output space gives the same answers and actions".
pub fn alike_panels_answer_alike()
    ensures { (hash : List ℕ → ℕ) → CommissioningSheet hash }
{}

// The guarantee, and that no announcement waits past four ticks, stand on no question: they hold of every list of events, each refused, with any number, or run.
pub fn any_questions()
    ensures { (hash : List ℕ → ℕ) → AnyQuestions hash }
{}

// "It is taken in by the call that puts it into the message cache": `took` is exact.
pub fn took_is_exact()
    ensures { (hash : List ℕ → ℕ) → TookExact hash }
{}

// A panel does not refuse its own block: no call since an accepted creation is answered 5.
pub fn never_answered_five()
    ensures { (hash : List ℕ → ℕ) → NeverFive hash }
{}

// "A broadcast event with byte 1 is turned down … Such a broadcast answers 23, asked between 9 and 10": 23 is answered of it, and of nothing else.
pub fn retired_broadcasts_are_answered_23()
    ensures { (hash : List ℕ → ℕ) → RetiredBroadcasts hash }
{}

// "Calls worked through": the starred ones, "proved together, as one theorem about the definitions", and the example of `panelrun`.
pub fn worked_calls()
    ensures { (hash : List ℕ → ℕ) → WorkedCalls hash }
{}

// The examples of docs/GUARANTEE.md: lists of calls, and what the definitions compute of them.
pub fn guarantee_examples()
    ensures { GuaranteeExamples }
{}

// "Where a port goes astray", computed; and "65 recorded: the ticks move 64, then 1".
pub fn where_a_port_goes_astray()
    ensures { WhereAPortGoesAstray }
{}

// The numbers of the specification that definitions and code share, each as it says.
pub fn numbers_are_the_specifications()
    ensures { Numbers }
{}
