// Grammars: which kinds may be the root of a program, and which may stand below it.
ghost use Rattle.std.specs.Prelude.{◌≡◌};
ghost use Rattle.model.specs.Kinds.{Grammar as KindsAllowed, is, stands_under, allowed, of_roots, root_grammar};

use crate::kinds::{Kind, Sort};

pub trait Grammar {
    ghost grammar: { KindsAllowed };

    // Whether a kind may be a root.
    fn is_root(kind: Kind) -> bool
        ensures { result ≡ grammar.roots kind };

    // Whether a kind may stand in a program of that root.
    fn is_below(root: Kind, kind: Kind) -> bool
        ensures { result ≡ grammar.below root kind };
}

// Card scripts.
#[derive(Clone, Copy)]
pub struct Cards;

// Trees.
#[derive(Clone, Copy)]
pub struct Trees;

// Flats.
#[derive(Clone, Copy)]
pub struct Flats;

// All three, each below its own root.
#[derive(Clone, Copy)]
pub struct ByRoot;

// Whether the kind's row names the root.
fn stands_under(root: Kind, kind: Kind) -> bool
    ensures { result ≡ stands_under root kind }
{
    kind.row().under.contains(&root)
}

// A grammar with roots of one kind.
trait OneRoot {
    ghost use Rattle.model.specs.declared.kinds.Kind.{Kind};

    ghost root: { Kind };

    fn root() -> Kind
        ensures { result ≡ root };
}

impl OneRoot for Cards {
    ghost use Rattle.model.specs.declared.kinds.Kind.TheVariants.{Card};

    ghost root = { Card };

    fn root() -> Kind {
        Kind::Card
    }
}

impl OneRoot for Trees {
    ghost use Rattle.model.specs.declared.kinds.Kind.TheVariants.{Tree};

    ghost root = { Tree };

    fn root() -> Kind {
        Kind::Tree
    }
}

impl OneRoot for Flats {
    ghost use Rattle.model.specs.declared.kinds.Kind.TheVariants.{Flat};

    ghost root = { Flat };

    fn root() -> Kind {
        Kind::Flat
    }
}

impl<R: OneRoot> Grammar for R {
    ghost grammar = { of_roots (is R.root) };

    fn is_root(kind: Kind) -> bool {
        R::root() == kind
    }

    fn is_below(root: Kind, kind: Kind) -> bool {
        stands_under(root, kind)
    }
}

// Below a root all four have the table's kinds; a body in the trait would bind every grammar to them.
impl Grammar for ByRoot {
    ghost grammar = { root_grammar };

    fn is_root(kind: Kind) -> bool {
        kind.row().sort == Sort::Root
    }

    fn is_below(root: Kind, kind: Kind) -> bool {
        stands_under(root, kind)
    }
}

// Whether the kind may stand where the sort is wanted, in a program of that root.
pub fn is_allowed<G: Grammar>(root: Kind, sort: Sort, kind: Kind) -> bool
    ensures { result ≡ allowed G.Grammar.grammar root sort kind }
{
    if kind.row().sort != sort {
        return false;
    }
    if sort == Sort::Root {
        G::is_root(kind)
    } else {
        G::is_below(root, kind)
    }
}
