// The theorems over chains of calls upon blocks, each the contract of a function. Nothing runs: a contract is proved, and so these are.
ghost use Rattle.plumtree.specs.Chain.{Guarantee};
ghost use Rattle.plumtree.specs.Histories.History.{Histories};
ghost use Rattle.plumtree.specs.Histories.Sheet.{CommissioningSheetOfBlocks};
ghost use Rattle.plumtree.specs.OutputSize.{OutputSizeOfBlocks};

// Over blocks: "for every list of event calls (…; refused ones too) from a fresh panel, after it this holds".
pub fn no_neighbour_passed_over()
    ensures { Guarantee }
{}

// "From a return on, the list of calls that the guarantees speak about is the one up to the saving, followed by the calls since the return."
pub fn guarantees_follow_savings_and_returns()
    ensures { Histories }
{}

// Over blocks: from blocks that are told alike and equal counts, the same calls give the same answers and actions.
pub fn alike_blocks_answer_alike()
    ensures { CommissioningSheetOfBlocks }
{}

// Over blocks: a panel that comes from a creation never answers 14 to an output of `output_size` bytes, and its actions never take more.
pub fn output_size_is_enough()
    ensures { OutputSizeOfBlocks }
{}
