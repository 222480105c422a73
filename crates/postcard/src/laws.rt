// What holds of the definitions, a theorem each. Nothing runs: a contract is proved, and so these are.
ghost use Rattle.postcard.specs.Spellings.{TakesSpellings};
ghost use Rattle.postcard.specs.Rewrite.{OneSpelling};
ghost use Rattle.postcard.specs.DecodeWritten.{DecodeWritten};
ghost use Rattle.postcard.specs.Retired.{RetiredIsExact};

// Each spelling of a message is read as that message, and whatever is read as a message stands there in one of its spellings.
pub fn reader_takes_the_spellings()
    ensures { TakesSpellings }
{}

// Rewriting writes the shortest form, one for each meaning.
pub fn rewriting_leaves_one_spelling()
    ensures { OneSpelling }
{}

// An event that is written is read back: `event_bytes` and `decode_event` fit together.
pub fn events_are_read_back()
    ensures { DecodeWritten }
{}

// 23 is answered of a broadcast for neighbours alone whose fields are all read and which ends there, and of nothing else.
pub fn retired_is_exact()
    ensures { RetiredIsExact }
{}
