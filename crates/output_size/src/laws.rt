// The theorem, as the contract of a function. Nothing runs: a contract is proved, and so this is.
ghost use Rattle.std.specs.Prelude.{ℕ, List};
ghost use Rattle.output_size.specs.OutputSize.{OutputSize};

// Whatever the identifier function: an output of `output_size` bytes is enough for every event call of a panel that comes from a creation.
pub fn output_size_is_enough()
    ensures { (hash : List ℕ → ℕ) → OutputSize hash }
{}
