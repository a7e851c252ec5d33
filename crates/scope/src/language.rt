// A language is a grammar and its visible order: of every name it finds the declaration that the name reaches.
ghost use Rattle.std.specs.Prelude.{◌≡◌};
ghost use Rattle.model.specs.Names.{nodes};
ghost use Rattle.model.specs.Scopes.{Order, reaches};
ghost use Rattle.model.specs.Rules.{Visible};
ghost use Rattle.laws.specs.Orders.{ReachLaws, ByLikeness};
ghost use Rattle.scope.specs.Finding.{Found, overlaid};
ghost use Rattle.scope.specs.Parts.{PartOf};

use model::grammar::Grammar;
use model::nodes::Entry;

// A program and a place in it go as two arguments: callers have them so, and a struct of both would say no more.
pub trait Language: Grammar {
    ghost visible: { Order };

    ghost lawful: { Visible visible };

    // What the name at a place reaches.
    fn find(program: &[Entry], at: usize) -> Option<usize>
        ensures { Found Self.Grammar.grammar visible (nodes program.now) at result };

    // What each node reaches, laid over the row from its front, as far as there is room.
    fn find_all(program: &[Entry], reached: &mut [Option<usize>])
        ensures { reached.new ≡ overlaid (reaches visible (nodes program.now)) reached.old }
    {
        let count = program.len().min(reached.len());
        for (at, reach) in reached[..count].iter_mut().enumerate() {
            *reach = Self::find(program, at);
        }
    }
}

// A language that is a part of another: at its own roots it has the other's kinds, and sees as the other does.
pub trait Part<W: Language>: Language {
    ghost part: { PartOf Self.Grammar.grammar Self.Language.visible W.Grammar.grammar W.Language.visible };
}

// In every language a name reaches nothing, or the first declaration in its list that is spelled alike, which
// reaches itself; and which names are spelled alike is all that it depends on in their spelling.
pub fn reach_laws<L: Language>()
    ensures reaches { ReachLaws L.Language.visible }
    ensures likeness { ByLikeness L.Language.visible }
{}
