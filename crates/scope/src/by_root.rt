// The language that goes by the root: cards, trees and flats in one.
ghost use Rattle.std.specs.Prelude.{◌≡◌};
ghost use Rattle.model.specs.Scopes.{root_scopes, by_root};
ghost use Rattle.laws.proofs.Orders.{orders_visible_lem, part_itself};

use crate::scopes::Scopes;
use model::grammar::{ByRoot, Cards, Flats, Trees};
use model::kinds::Kind;
use model::nodes::Entry;

impl Scopes for ByRoot {
    ghost scopes = { root_scopes };

    ghost lawful = { orders_visible_lem.by_root };

    ghost part = { part_itself by_root };

    fn seek(program: &[Entry], at: usize) -> Option<usize> {
        match program[0].node.kind {
            Kind::Card => Cards::seek(program, at),
            Kind::Tree => Trees::seek(program, at),
            _ => Flats::seek(program, at),
        }
    }
}
