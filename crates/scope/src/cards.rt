// Cards: a name sees the declarations among the lines before its own, the latest before the others.
ghost use Rattle.std.specs.Iterator.{at_most};
ghost use Rattle.model.specs.Scopes.{card_scopes};
ghost use Rattle.scope.specs.Lines.{LinesGive};
ghost use Rattle.laws.proofs.Orders.{orders_visible_lem, languages_parts_lem};

use crate::scopes::{Scopes, declares_as};
use crate::walk::next_tree;
use model::grammar::Cards;
use model::nodes::Entry;
use std::ops::Range;

// The lines of a card in turn, each as the range of its places.
#[derive(Drop)]
struct Lines<'a> {
    program: &'a [Entry],
    // where the next one begins
    begin: usize,
    // how many are to come
    left: usize,
}

impl Iterator for Lines<'_> {
    type Item = Range<usize>;

    ghost next_gives = { LinesGive };

    ghost remaining = { λ s. at_most s.left };

    fn next(&mut self) -> Option<Range<usize>> {
        self.left = self.left.checked_sub(1)?;
        let begin = self.begin;
        self.begin = next_tree(self.program, begin);
        Some(begin..self.begin)
    }
}

impl Scopes for Cards {
    ghost scopes = { card_scopes };

    ghost lawful = { orders_visible_lem.card };

    ghost part = { languages_parts_lem.card };

    // Goes through the lines from the first to the name's own.
    fn seek(program: &[Entry], at: usize) -> Option<usize> {
        if at == 0 {
            return None;
        }
        let name = program[at].node.name;
        let mut latest = None;
        let lines = Lines {
            program,
            begin: 1,
            left: program[0].node.arity(),
        };
        for line in lines {
            if at < line.end {
                return latest;
            }
            if declares_as(&program[line.start], &name) {
                latest = Some(line.start);
            }
        }
        None
    }
}
