// Why bytes are not an event: the question that is answered no.
ghost use Rattle.std.specs.Prelude.{◌≡◌};
ghost use Rattle.wire.specs.Reader.Gives.{refusal_of, number_of};

use refusal::Refusal;

#[derive(Clone, Copy)]
pub enum Fault {
    // (7) "Does each field end within the bytes?"
    Ends,
    // (8) "Is each kind known, each number in its width and shortest?"
    Form,
    // (9) "Do the bytes end there?"
    Left,
    // (23) "Such a broadcast answers 23".
    Retired,
    // (14) "Do the actions fit the output?"
    Output,
}

impl From<Fault> for Refusal {
    ghost from_gives = { λ fault refusal. refusal ≡ refusal_of fault };

    fn from(fault: Fault) -> Refusal {
        match fault {
            Fault::Ends => Refusal::EventCut,
            Fault::Form => Refusal::EventMalformed,
            Fault::Left => Refusal::EventTooLong,
            Fault::Retired => Refusal::NeighborsBroadcast,
            Fault::Output => Refusal::OutputTooShort,
        }
    }
}

impl Fault {
    // Its number in the specification.
    pub fn number(self) -> u8
        ensures { result ≡ number_of self }
    {
        Refusal::from(self).number()
    }
}
