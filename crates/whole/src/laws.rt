// What holds of every area and every block, a theorem each. Nothing runs: a contract is proved, and so these are.
ghost use Rattle.whole.specs.CreationWhole.{CreationWhole};
ghost use Rattle.whole.specs.States.Area.{AreaExact};

// Question 17 is answered yes exactly of the areas that savings of blocks of this length left.
pub fn areas_are_exact()
    ensures { AreaExact }
{}

// Question 5 is answered yes of the block that an accepted creation leaves.
pub fn creations_are_whole()
    ensures { CreationWhole }
{}
