// Flats: a name sees every declaration of the program, the first before the others.
ghost use Rattle.std.specs.Prelude.{◌≡◌};
ghost use Rattle.model.specs.Scopes.{flat_scopes};
ghost use Rattle.laws.proofs.Orders.{orders_visible_lem, languages_parts_lem};

use crate::scopes::{Scopes, declares_as};
use model::grammar::Flats;
use model::nodes::Entry;

impl Scopes for Flats {
    ghost scopes = { flat_scopes };

    ghost lawful = { orders_visible_lem.flat };

    ghost part = { languages_parts_lem.flat };

    fn seek(program: &[Entry], at: usize) -> Option<usize> {
        let name = program[at].node.name;
        program.iter().position(|entry| declares_as(entry, &name))
    }
}
