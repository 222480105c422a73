// What holds of the definitions, a theorem each. Nothing runs: a contract is proved, and so these are.
ghost use Rattle.blake3.specs.IdentifierBytes.{IdentifierBytes};
ghost use Rattle.blake3.specs.OrderTable.{OrderTable};

// The identifier is the 32 bytes of the hash, as one number.
pub fn identifiers_are_the_hash()
    ensures { IdentifierBytes }
{}

// The table of the word order has the rule from row to row, and each of its rows takes each message word once.
pub fn word_order_is_the_specifications()
    ensures { OrderTable }
{}
