// Names, nodes, and where a name came from.
ghost use Rattle.std.specs.Prelude.{◌≡◌, length, replicate};
ghost use Rattle.model.specs.Names.{alike, same_stem, with_mark, unused_entry};
ghost use Rattle.model.specs.Forest.{arity as children_wanted};

use crate::kinds::{Children, Kind};

// A stem has 1 to 8 characters, with zeros after them, in eight bytes by the rules; mark 0 is the plain spelling.
#[derive(Clone, Copy, PartialEq, Eq, Debug)]
pub struct Name {
    pub stem: [u8; 8],
    pub mark: u16,
}

impl Name {
    // The name of a node that has none.
    pub const NONE: Name = Name {
        stem: [0; 8],
        mark: 0,
    };

    // Whether the stems are the same, whatever the marks.
    pub fn has_stem_of(&self, other: &Name) -> bool
        ensures { result ≡ same_stem self.now other.now }
    {
        self.stem == other.stem
    }

    // Whether two names are spelled alike: `==`, under the name that the rules have for it.
    pub fn is_like(&self, other: &Name) -> bool
        ensures { result ≡ alike self.now other.now }
    {
        self == other
    }

    // The same stem with another mark.
    pub fn marked(&self, mark: u16) -> Name
        ensures { result ≡ with_mark self.now mark }
    {
        Name { mark, ..*self }
    }
}

// A kind without a name has `Name::NONE`, one without a number has 0.
#[derive(Clone, Copy, PartialEq, Eq, Debug)]
pub struct Node {
    pub kind: Kind,
    pub name: Name,
    pub number: u32,
}

impl Node {
    // How many children it takes.
    pub fn arity(&self) -> usize
        ensures { result ≡ children_wanted self.now }
    {
        match self.kind.row().children {
            Children::Exactly(sorts) => sorts.len(),
            // there is no `From` for it, as a `usize` may have 16 bits in Rust
            Children::AsMany(_) => self.number as usize,
        }
    }
}

// Where a name came from: the outside world, a node of the program that the draft was made from,
// or a group of the transformation's own.
#[derive(Clone, Copy, PartialEq, Eq, Debug)]
pub enum Origin {
    Outer,
    Copied(u16),
    Private(u16),
}

// One place of a row: a node, and where its name came from. Where there is no name to come from
// anywhere, and in plain texts, the origin is `Outer` and means nothing.
#[derive(Clone, Copy, PartialEq, Eq, Debug)]
pub struct Entry {
    pub node: Node,
    pub origin: Origin,
}

impl Entry {
    // What an unused place of a row holds.
    pub const UNUSED: Entry = Entry {
        node: Node {
            kind: Kind::Card,
            name: Name::NONE,
            number: 0,
        },
        origin: Origin::Outer,
    };
}

// Makes every place of a row unused.
pub fn clear_row(row: &mut [Entry])
    ensures { row.new ≡ replicate (length row.old) unused_entry }
{
    row.fill(Entry::UNUSED);
}
