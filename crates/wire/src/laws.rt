// What holds of every call, a theorem each. Nothing runs: a contract is proved, and so these are.
ghost use Rattle.wire.specs.Rewrite.RewriteCalls.{RewriteCalls};

// What a rewriting answers and leaves, and that rewriting twice gives the first result.
pub fn rewriting_is_canonical()
    ensures { RewriteCalls }
{}
