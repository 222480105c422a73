// What holds of every call upon every block, a theorem each. Nothing runs: a contract is proved, and so these are.
ghost use Rattle.machine.specs.LimitMet.Exact.{LimitMetExact};

// A call is told a limit exactly if it is answered 13 with the counts zero; and one that is answered 13 is told one, whatever its counts.
pub fn limit_met_is_exact()
    ensures { LimitMetExact }
{}
