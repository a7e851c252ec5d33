// The rounds of a repair: whoever captures a name of another class gets a fresh spelling, its whole
// class with it, until a round finds no captor.
ghost use Rattle.std.specs.Prelude.{◌≡◌, ◌<◌, ◌≤◌, not, ◌&&◌, length, replicate, None, slice_index_or};
ghost use Rattle.model.specs.Lists.{empty};
ghost use Rattle.model.specs.Names.{nodes, name_at};
ghost use Rattle.model.specs.Forest.{shape};
ghost use Rattle.model.specs.Classes.{together};
ghost use Rattle.model.specs.Repair.{class_reached, leads as leads_class, captures, captors, fresh, respell as respelled_class, round as one_round, repair};
ghost use Rattle.model.specs.Stages.{with_origins};
ghost use Rattle.promise.specs.Rounds.{Classed};
ghost use Rattle.repair.specs.Rounds.{classes_of, captured, lowest_captive};

use crate::marks::fresh_mark;
use model::classes::Class;
use model::nodes::{Entry, Name};
use scope::language::Language;

// A draft has as many nodes as this at most.
const MOST_NODES: usize = 1024;

// Whether both are names, of one class.
fn are_together(a: Option<Class>, b: Option<Class>) -> bool
    ensures { result ≡ together a b }
{
    a.is_some() && a == b
}

// The class of what a name reaches.
fn class_reached(classes: &[Option<Class>], reached: Option<usize>) -> Option<Class>
    ensures { result ≡ class_reached classes.now reached }
{
    *classes.get(reached?)?
}

// What the names of a draft belong to, and what they reach at the start of a round. Each method asks of its own
// number that it is a name's.
#[derive(Drop)]
struct Names<'a> {
    classes: &'a [Option<Class>],
    reached: &'a [Option<usize>],
    ghost long: { length classes.now ≤ length reached.now },
}

impl Names<'_> {
    // Whether no lower name is of its class.
    fn leads(&self, at: usize) -> bool
        requires { at < length self.now.classes.now }
        ensures { result ≡ leads_class self.now.classes.now at }
    {
        let class = self.classes[at];
        !self.classes[..at]
            .iter()
            .any(|lower| are_together(class, *lower))
    }

    // Whether a name is of another class than the captor, and reaches a declaration of the captor's.
    fn is_caught(&self, at: usize, captor: usize) -> bool
        requires within { at < length self.now.classes.now }
        requires captor { captor < length self.now.classes.now }
        ensures { result ≡ captured self.now.classes.now (classes_of self.now.classes.now self.now.reached.now) captor at }
    {
        let class = self.classes[captor];
        let found = class_reached(self.classes, self.reached[at]);
        are_together(class, found) && !are_together(class, self.classes[at])
    }

    // The lowest name that is caught.
    fn captive(&self, captor: usize) -> Option<usize>
        requires { captor < length self.now.classes.now }
        ensures { result ≡ lowest_captive self.now.classes.now (classes_of self.now.classes.now self.now.reached.now) captor }
    {
        (0..self.classes.len()).find(|at| self.is_caught(*at, captor))
    }

    // Whether the name is the lowest of a class that captures another. A node without a name is told at once: it
    // leads whatever there is, and catches nobody.
    fn is_captor(&self, at: usize) -> bool
        requires { at < length self.now.classes.now }
        ensures { result ≡ (leads_class self.now.classes.now at && captures self.now.classes.now (classes_of self.now.classes.now self.now.reached.now) at) }
    {
        if self.classes[at].is_none() {
            return false;
        }
        self.leads(at) && self.captive(at).is_some()
    }
}

// A draft under repair: its entries, the class of each, and a lent row for marks, zero between two searches.
// Entries and classes stay two rows: the entries are lent, and have no place for a class. That the same rows are
// lent is said by each method of its own two states.
#[derive(Drop)]
struct UnderRepair<'a> {
    entries: &'a mut [Entry],
    classes: &'a [Option<Class>],
    words: &'a mut [u64],
    ghost long: { length classes.now ≡ length entries.now },
    ghost few: { length entries.now ≤ 1024 },
    ghost wide: { 16 ≤ length words.now },
    ghost clear: { words.now ≡ replicate (length words.now) 0 },
}

impl UnderRepair<'_> {
    ghost use Rattle.repair.specs.Lent.{SameRows};

    // Spells every name of the captor's class so.
    fn respell(&mut self, captor: usize, name: Name)
        requires { captor < length self.old.classes.now }
        ensures after { self.new.entries.now ≡ with_origins self.old.entries.now (respelled_class (slice_index_or self.old.classes.now captor None) name self.old.classes.now (nodes self.old.entries.now)) }
        ensures rows { SameRows self.old self.new }
    {
        let classes = self.classes;
        let class = classes[captor];
        // No `zip` of both: after it nothing is known of what was written.
        for (place, entry) in self.entries.iter_mut().enumerate() {
            if are_together(class, classes[place]) {
                entry.node.name = name;
            }
        }
    }

    // Gives the captor's class a fresh spelling: the stem of the captor, and a mark that no name has with it.
    fn respell_freshly(&mut self, captor: usize)
        requires { captor < length self.old.classes.now }
        ensures after { self.new.entries.now ≡ with_origins self.old.entries.now (respelled_class (slice_index_or self.old.classes.now captor None) (fresh (name_at (nodes self.old.entries.now) captor) (nodes self.old.entries.now)) self.old.classes.now (nodes self.old.entries.now)) }
        ensures rows { SameRows self.old self.new }
    {
        // Lent from a variable: of entries lent from the field only their number is known afterwards.
        let entries = &mut *self.entries;
        let name = entries[captor].node.name;
        let mark = fresh_mark(entries, &name, self.words);
        self.respell(captor, name.marked(mark));
    }

    // One round: all captors are judged by what the names reach at its start. Whether there was one.
    fn round<T: Language>(&mut self) -> bool
        ensures found { result ≡ not (empty (captors (T.Language.visible (shape (nodes self.old.entries.now))) self.old.classes.now (nodes self.old.entries.now))) }
        ensures after { self.new.entries.now ≡ with_origins self.old.entries.now (one_round (T.Language.visible (shape (nodes self.old.entries.now))) self.old.classes.now (nodes self.old.entries.now)) }
        ensures rows { SameRows self.old self.new }
    {
        let mut reached = [None; MOST_NODES];
        // Lent from a variable, as above.
        let entries = &mut *self.entries;
        T::find_all(entries, &mut reached);
        let names = Names {
            classes: self.classes,
            reached: &reached,
        };
        let mut found = false;
        // A count, since no iterator may hold the entries while a class of them is respelled.
        for at in 0..self.entries.len() {
            if names.is_captor(at) {
                self.respell_freshly(at);
                found = true;
            }
        }
        found
    }

    // Goes on in rounds until one finds no captor, and answers how many found one.
    fn repair<T: Language>(&mut self) -> usize
        requires { Classed self.old.classes.now (nodes self.old.entries.now) }
        ensures rounds { result ≡ (repair (T.Language.visible (shape (nodes self.old.entries.now))) self.old.classes.now (nodes self.old.entries.now)).rounds }
        ensures after { self.new.entries.now ≡ with_origins self.old.entries.now (repair (T.Language.visible (shape (nodes self.old.entries.now))) self.old.classes.now (nodes self.old.entries.now)).program }
        ensures rows { SameRows self.old self.new }
    {
        // Counted by hand, as the loop of rounds ends with their number.
        let mut count: usize = 0;
        let rounds = loop {
            if !self.round::<T>() {
                break count;
            }
            count += 1;
        };
        rounds
    }
}

// The same of a draft whose entries, classes and marks are lent one by one.
pub fn repair_names<T: Language>(
    entries: &mut [Entry],
    classes: &[Option<Class>],
    words: &mut [u64],
) -> usize
    requires long { length classes.now ≡ length entries.old }
    requires few { length entries.old ≤ 1024 }
    requires wide { 16 ≤ length words.old }
    requires clear { words.old ≡ replicate (length words.old) 0 }
    requires classed { Classed classes.now (nodes entries.old) }
    ensures rounds { result ≡ (repair (T.Language.visible (shape (nodes entries.old))) classes.now (nodes entries.old)).rounds }
    ensures after { entries.new ≡ with_origins entries.old (repair (T.Language.visible (shape (nodes entries.old))) classes.now (nodes entries.old)).program }
    ensures clear { words.new ≡ replicate (length words.old) 0 }
{
    let mut draft = UnderRepair {
        entries,
        classes,
        words,
    };
    draft.repair::<T>()
}
