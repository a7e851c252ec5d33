// The class of a name: with which other names of a draft it belongs.
ghost use Rattle.std.specs.Prelude.{◌≡◌};
ghost use Rattle.model.specs.Classes.{same_class};

use crate::nodes::Name;

// Of a declaration of the program that the draft was made from, of the outside world by its spelling,
// or of a group of the transformation's own.
#[derive(Clone, Copy, PartialEq, Eq, Debug)]
pub enum Class {
    OfDeclaration(usize),
    OfOuter(Name),
    OfGroup(u16),
}

impl Class {
    // Whether two classes are the same: `==`, under the name that the rules have for it.
    pub fn is_same(&self, other: &Class) -> bool
        ensures { result ≡ same_class self.now other.now }
    {
        self == other
    }
}
