// What the languages share: a declaration finds itself, a node without a name nothing, and a reference what stands in its scope.
ghost use Rattle.std.specs.Prelude.{◌≡◌, ℕ, ◌<◌, ◌&&◌, List, length};
ghost use Rattle.model.specs.Kinds.{declares, root_grammar};
ghost use Rattle.model.specs.Names.{alike, nodes};
ghost use Rattle.model.specs.Forest.{Shape};
ghost use Rattle.model.specs.Scopes.{order_of, root_order};
ghost use Rattle.model.specs.Rules.{Visible};
ghost use Rattle.scope.specs.Finding.{Found};
ghost use Rattle.scope.specs.Seeking.{sought};
ghost use Rattle.scope.specs.Parts.{PartOf};

use crate::language::{Language, Part};
use model::grammar::{ByRoot, Grammar};
use model::kinds::Role;
use model::nodes::{Entry, Name};

// A language by the scopes of its references.
pub trait Scopes: Grammar {
    ghost scopes: { Shape → List (List ℕ) };

    ghost lawful: { Visible (order_of scopes) };

    // The first declaration in scope at a place that is spelled as the name there.
    fn seek(program: &[Entry], at: usize) -> Option<usize>
        requires { at < length program.now }
        ensures { result ≡ sought scopes (nodes program.now) at };

    // What makes it a part of the language that goes by the root.
    ghost part: { PartOf Self.Grammar.grammar (order_of scopes) root_grammar root_order };
}

// Whether the entry declares a name that is spelled so.
pub fn declares_as(entry: &Entry, name: &Name) -> bool
    ensures { result ≡ (declares entry.now.node.kind && alike name.now entry.now.node.name) }
{
    entry.node.kind.is_declaration() && name.is_like(&entry.node.name)
}

// The language of those scopes: what the name at a place reaches goes by the role of its node.
impl<S: Scopes> Language for S {
    ghost visible = { order_of S.Scopes.scopes };

    ghost lawful = { S.Scopes.lawful };

    fn find(program: &[Entry], at: usize) -> Option<usize> {
        match program.get(at)?.node.kind.row().role {
            Role::Plain => None,
            Role::Declares => Some(at),
            Role::Refers => S::seek(program, at),
        }
    }
}

// Each of them is a part of the language that goes by the root.
impl<S: Scopes> Part<ByRoot> for S {
    ghost part = { S.part };
}
