#![tactic(auto)]
// What follows from the definitions of texts, trees, scopes and stages: each function's contract is one theorem.
ghost use Rattle.model.specs.Kinds.{Grammar as KindsAllowed};
ghost use Rattle.model.specs.Scopes.{Order};
ghost use Rattle.laws.specs.RoundTrips.{RoundTrips, DraftRoundTrips, WrittenIsShort, DraftWrittenIsShort};
ghost use Rattle.laws.specs.Forests.{ForestLaws};
ghost use Rattle.laws.specs.Orders.{OrdersVisible, LanguagesParts, ReachesLawful, ByLikeness};
ghost use Rattle.laws.specs.Stages.{StageLaws, ForeignLawful, DraftsUnfaulted};
ghost use Rattle.laws.specs.Walks.{WalkLaws, WalkSteps};

// Texts

// Over every grammar, a script read and written is the same text, and a program written and read
// has the same kinds, numbers and names.
pub fn round_trips()
    ensures { (g : KindsAllowed) → RoundTrips g }
{}

// The same of drafts, with their origins.
pub fn draft_round_trips()
    ensures { (g : KindsAllowed) → DraftRoundTrips g }
{}

// No program is too long to be read: a line takes at most 25 bytes, in a draft 32.
pub fn written_is_short()
    ensures script { WrittenIsShort }
    ensures draft { DraftWrittenIsShort }
{}

// Trees and scopes

// A list of nodes grown into a forest and read off again is the same list, and names are no part of its shape.
pub fn forest_laws()
    ensures { ForestLaws }
{}

// Each of the four visible orders holds declarations alone, of a declaration itself alone, and of a node without a name nothing.
pub fn orders_visible()
    ensures { OrdersVisible }
{}

// Card, tree and flat are each a part of the language that goes by the root.
pub fn languages_parts()
    ensures { LanguagesParts }
{}

// By any visible order a name reaches nothing, or the first declaration of its list that is spelled alike, which
// reaches itself; and by any order, which names are spelled alike is all that reaches depend on in their spelling.
pub fn reaches_lawful()
    ensures reaches { ReachesLawful }
    ensures likeness { (order : Order) → ByLikeness order }
{}

// Stages

// Lower and flatten make drafts of their target language, agreeing ones of alike programs, and leave refusals 7 and 8 to their meaning.
pub fn stage_laws()
    ensures { StageLaws }
{}

// So does every draft that is given, in any language that it is of.
pub fn foreign_lawful()
    ensures { ForeignLawful }
{}

// Of no program of its source is the draft of lower or flatten refused with 9, 10, 11 or 12.
pub fn drafts_unfaulted()
    ensures { DraftsUnfaulted }
{}

// Rows of nodes, tree by tree

// What stands after so many trees, and what lower and flatten make of trees in turn.
pub fn walk_laws()
    ensures { WalkLaws }
{}

// The same one node at a time.
pub fn walk_steps()
    ensures { WalkSteps }
{}
