// Repair of found tables: what is proved of its definition. Each function promises one statement and does nothing.
#![tactic(auto)]

ghost use Rattle.repair_rules.specs.RepairFacts.{ChainsExactly, StaysExactly, EmptiesExactly, SoundAfter, RepairsOnce, RepairAnswers};
ghost use Rattle.repair_rules.specs.RepairExamples.{RepairExamples};

// Chains are judged exactly, and the bound on steps loses nothing.
pub fn chains_exactly()
    ensures { ChainsExactly }
{}

// A place stays exactly where it is live and lies in domain 0 or has a whole chain.
pub fn stays_exactly()
    ensures { StaysExactly }
{}

// Repair empties exactly the places that the manual says, and changes nothing else.
pub fn empties_exactly()
    ensures { EmptiesExactly }
{}

// The repaired tables are sound if the records and domain 0 were.
pub fn sound_after()
    ensures { SoundAfter }
{}

// Sound tables stay, and repairing once more changes nothing.
pub fn repairs_once()
    ensures { RepairsOnce }
{}

// What the operation answers and leaves.
pub fn repair_answers()
    ensures { RepairAnswers }
{}

// The manual's examples.
pub fn repair_examples()
    ensures { RepairExamples }
{}
