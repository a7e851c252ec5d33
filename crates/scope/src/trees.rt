// Trees: a name sees the lets and binds in whose last child it stands, the innermost before the others.
ghost use Rattle.std.specs.Prelude.{◌≡◌, ◌&&◌};
ghost use Rattle.model.specs.Names.{alike};
ghost use Rattle.model.specs.Scopes.{scopes_its_last, tree_scopes};
ghost use Rattle.laws.proofs.Orders.{orders_visible_lem, languages_parts_lem};

use crate::scopes::Scopes;
use model::grammar::Trees;
use model::kinds::Kind;
use model::nodes::{Entry, Name};

// Whether the entry declares a name that is spelled so, for its last child to see.
// One function for this and `declares_as` would take the test of kinds as an argument, and be no plainer.
fn scopes_as(entry: &Entry, name: &Name) -> bool
    ensures { result ≡ (scopes_its_last entry.now.node.kind && alike name.now entry.now.node.name) }
{
    matches!(entry.node.kind, Kind::Let | Kind::Bind) && name.is_like(&entry.node.name)
}

impl Scopes for Trees {
    ghost scopes = { tree_scopes };

    ghost lawful = { orders_visible_lem.tree };

    ghost part = { languages_parts_lem.tree };

    // Goes back from the name to the root, and counts the trees that stand between.
    // A node that wants no more of them than there are has whole trees below it; one that wants more holds the name.
    fn seek(program: &[Entry], at: usize) -> Option<usize> {
        let name = program[at].node.name;
        let mut between: usize = 0;
        for (up, entry) in program[..at].iter().enumerate().rev() {
            let arity = entry.node.arity();
            if arity <= between {
                between = between - arity + 1;
            } else {
                let in_last_child = between > 0;
                if in_last_child && scopes_as(entry, &name) {
                    return Some(up);
                }
                between = 0;
            }
        }
        None
    }
}
