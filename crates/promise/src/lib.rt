#![tactic(auto)]
// The laws of the repair, and the promise, over every language and every transformation that keeps the rules: each function's contract is one theorem.

ghost use Rattle.promise.specs.Rounds.{FreshSpelling, DraftsClassed, RoundKeeps, RespelledOnce, RepairEnds, MarksSmall};
ghost use Rattle.promise.specs.Reaching.{MendedReaches, MendedAgain};
ghost use Rattle.promise.specs.Staging.{RepairedKeeps, ForeignAdopted};
ghost use Rattle.promise.specs.Holds.{PromiseHolds};

// A fresh spelling has the stem, and the smallest mark from 1 that no name has with it.
pub fn fresh_spelling()
    ensures { FreshSpelling }
{}

// Every draft has what the laws of the rounds ask for: a class for each name, and past the checks one spelling to a class and no outer declaration.
pub fn drafts_classed()
    ensures { DraftsClassed }
{}

// A round keeps kinds, numbers, stems, one spelling to a class, and the names of outer classes.
pub fn round_keeps()
    ensures { RoundKeeps }
{}

// A class that is respelled is alone with its spelling after that round and every later one, and is never respelled again.
pub fn respelled_once()
    ensures { RespelledOnce }
{}

// The repair ends with one result, within as many rounds as classes have a declaration.
pub fn repair_ends()
    ensures { RepairEnds }
{}

// A fresh mark is below the number of nodes, so at most 1,023.
pub fn marks_small()
    ensures { MarksSmall }
{}

// Past the checks a name reaches the first declaration of its class in sight, an outer name nothing, and all but names is the draft's.
pub fn mended_reaches()
    ensures { MendedReaches }
{}

// The program of an accepted draft, mended again with the draft's origins, is accepted as it is, in no round.
pub fn mended_again()
    ensures { MendedAgain }
{}

// A repaired transformation is again a transformation that keeps the rules.
pub fn repaired_keeps()
    ensures { RepairedKeeps }
{}

// A given draft as a stage does what adopting it does.
pub fn foreign_is_adopted()
    ensures { ForeignAdopted }
{}

// The promise whole, for every world that keeps the rules: true to names, alike in alike runs, refused exactly when nothing serves.
// The standard stages are such a world.
pub fn promise_holds()
    ensures { PromiseHolds }
{}
