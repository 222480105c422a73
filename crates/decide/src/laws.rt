// A theorem over the definitions of `protocol` that goes through those of this crate, as the contract of a function. Nothing runs: a contract is proved, and so this is.
ghost use Rattle.std.specs.Prelude.{ℕ, List};
ghost use Rattle.protocol.specs.Screen.{ScreenRight};

// "The screen counts as right if …", whatever the identifier function.
pub fn the_screen_is_right()
    ensures { (hash : List ℕ → ℕ) → ScreenRight hash }
{}
