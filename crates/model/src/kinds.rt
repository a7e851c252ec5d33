// The 25 kinds, and the table that grammar, reader and writer go by.
ghost use Rattle.std.specs.Prelude.{◌≡◌, ◌+◌, map};
ghost use Rattle.model.specs.Kinds.{role_named, declares, kind_number};
ghost use Rattle.model.specs.Fields.{kind_of};
ghost use Rattle.model.specs.Table.{shown, table, row_of};

#[derive(Clone, Copy, PartialEq, Eq, Debug)]
pub enum Kind {
    Card,
    Tree,
    Flat,
    Field,
    Def,
    Out,
    Let,
    Put,
    End,
    Slot,
    Label,
    Set,
    Goto,
    Skip,
    Emit,
    Num,
    Ref,
    Byte,
    Add,
    Mul,
    Mean,
    If,
    Bind,
    First,
    Level,
}

// What a kind does with its name.
#[derive(Clone, Copy, PartialEq, Eq, Debug)]
pub enum Role {
    Plain,
    Declares,
    Refers,
}

// The sort of place that a kind stands at.
#[derive(Clone, Copy, PartialEq, Eq, Debug)]
pub enum Sort {
    Root,
    Line,
    Statement,
    Step,
    Expression,
}

// The definitions have a type of their own, of lists: a row of the table refers to lists that never move.
#[derive(Clone, Copy, PartialEq, Eq, Debug)]
pub enum Children {
    Exactly(&'static [Sort]),
    // as many as the node's number says
    AsMany(Sort),
}

// What is to be known of a kind. One without a number has no largest one.
#[derive(Clone, Copy, PartialEq, Eq, Debug)]
pub struct KindRow {
    pub kind: Kind,
    pub word: &'static str,
    pub sort: Sort,
    pub role: Role,
    pub most: Option<u32>,
    pub children: Children,
    // the roots of the programs that it may stand in
    pub under: &'static [Kind],
}

// A constant table, by the rules.
pub static KINDS: [KindRow; 25] = [
    KindRow {
        kind: Kind::Card,
        word: "card",
        sort: Sort::Root,
        role: Role::Plain,
        most: Some(255),
        children: Children::AsMany(Sort::Line),
        under: &[],
    },
    KindRow {
        kind: Kind::Tree,
        word: "tree",
        sort: Sort::Root,
        role: Role::Plain,
        most: None,
        children: Children::Exactly(&[Sort::Statement]),
        under: &[],
    },
    KindRow {
        kind: Kind::Flat,
        word: "flat",
        sort: Sort::Root,
        role: Role::Plain,
        most: Some(1023),
        children: Children::AsMany(Sort::Step),
        under: &[],
    },
    KindRow {
        kind: Kind::Field,
        word: "field",
        sort: Sort::Line,
        role: Role::Declares,
        most: Some(254),
        children: Children::Exactly(&[]),
        under: &[Kind::Card],
    },
    KindRow {
        kind: Kind::Def,
        word: "def",
        sort: Sort::Line,
        role: Role::Declares,
        most: None,
        children: Children::Exactly(&[Sort::Expression]),
        under: &[Kind::Card],
    },
    KindRow {
        kind: Kind::Out,
        word: "out",
        sort: Sort::Line,
        role: Role::Plain,
        most: None,
        children: Children::Exactly(&[Sort::Expression]),
        under: &[Kind::Card],
    },
    KindRow {
        kind: Kind::Let,
        word: "let",
        sort: Sort::Statement,
        role: Role::Declares,
        most: None,
        children: Children::Exactly(&[Sort::Expression, Sort::Statement]),
        under: &[Kind::Tree],
    },
    KindRow {
        kind: Kind::Put,
        word: "put",
        sort: Sort::Statement,
        role: Role::Plain,
        most: None,
        children: Children::Exactly(&[Sort::Expression, Sort::Statement]),
        under: &[Kind::Tree],
    },
    KindRow {
        kind: Kind::End,
        word: "end",
        sort: Sort::Statement,
        role: Role::Plain,
        most: None,
        children: Children::Exactly(&[]),
        under: &[Kind::Tree],
    },
    KindRow {
        kind: Kind::Slot,
        word: "slot",
        sort: Sort::Step,
        role: Role::Declares,
        most: None,
        children: Children::Exactly(&[]),
        under: &[Kind::Flat],
    },
    KindRow {
        kind: Kind::Label,
        word: "label",
        sort: Sort::Step,
        role: Role::Declares,
        most: None,
        children: Children::Exactly(&[]),
        under: &[Kind::Flat],
    },
    KindRow {
        kind: Kind::Set,
        word: "set",
        sort: Sort::Step,
        role: Role::Refers,
        most: None,
        children: Children::Exactly(&[Sort::Expression]),
        under: &[Kind::Flat],
    },
    KindRow {
        kind: Kind::Goto,
        word: "goto",
        sort: Sort::Step,
        role: Role::Refers,
        most: None,
        children: Children::Exactly(&[]),
        under: &[Kind::Flat],
    },
    KindRow {
        kind: Kind::Skip,
        word: "skip",
        sort: Sort::Step,
        role: Role::Refers,
        most: None,
        children: Children::Exactly(&[Sort::Expression]),
        under: &[Kind::Flat],
    },
    KindRow {
        kind: Kind::Emit,
        word: "emit",
        sort: Sort::Step,
        role: Role::Plain,
        most: None,
        children: Children::Exactly(&[Sort::Expression]),
        under: &[Kind::Flat],
    },
    KindRow {
        kind: Kind::Num,
        word: "num",
        sort: Sort::Expression,
        role: Role::Plain,
        most: Some(2147483647),
        children: Children::Exactly(&[]),
        under: &[Kind::Card, Kind::Tree, Kind::Flat],
    },
    KindRow {
        kind: Kind::Ref,
        word: "ref",
        sort: Sort::Expression,
        role: Role::Refers,
        most: None,
        children: Children::Exactly(&[]),
        under: &[Kind::Card, Kind::Tree, Kind::Flat],
    },
    KindRow {
        kind: Kind::Byte,
        word: "byte",
        sort: Sort::Expression,
        role: Role::Plain,
        most: Some(255),
        children: Children::Exactly(&[]),
        under: &[Kind::Card, Kind::Tree, Kind::Flat],
    },
    KindRow {
        kind: Kind::Add,
        word: "add",
        sort: Sort::Expression,
        role: Role::Plain,
        most: None,
        children: Children::Exactly(&[Sort::Expression, Sort::Expression]),
        under: &[Kind::Card, Kind::Tree, Kind::Flat],
    },
    KindRow {
        kind: Kind::Mul,
        word: "mul",
        sort: Sort::Expression,
        role: Role::Plain,
        most: None,
        children: Children::Exactly(&[Sort::Expression, Sort::Expression]),
        under: &[Kind::Card, Kind::Tree, Kind::Flat],
    },
    KindRow {
        kind: Kind::Mean,
        word: "mean",
        sort: Sort::Expression,
        role: Role::Plain,
        most: None,
        children: Children::Exactly(&[Sort::Expression, Sort::Expression]),
        under: &[Kind::Card, Kind::Tree, Kind::Flat],
    },
    KindRow {
        kind: Kind::If,
        word: "if",
        sort: Sort::Expression,
        role: Role::Plain,
        most: None,
        children: Children::Exactly(&[Sort::Expression, Sort::Expression, Sort::Expression]),
        under: &[Kind::Card, Kind::Tree],
    },
    KindRow {
        kind: Kind::Bind,
        word: "bind",
        sort: Sort::Expression,
        role: Role::Declares,
        most: None,
        children: Children::Exactly(&[Sort::Expression, Sort::Expression]),
        under: &[Kind::Tree],
    },
    KindRow {
        kind: Kind::First,
        word: "first",
        sort: Sort::Expression,
        role: Role::Plain,
        most: None,
        children: Children::Exactly(&[Sort::Expression, Sort::Expression]),
        under: &[Kind::Card],
    },
    KindRow {
        kind: Kind::Level,
        word: "level",
        sort: Sort::Expression,
        role: Role::Plain,
        most: None,
        children: Children::Exactly(&[Sort::Expression]),
        under: &[Kind::Card],
    },
];

// The whole table, which shows the rows of the rules: one computed test.
pub fn all_kinds() -> &'static [KindRow]
    ensures { map shown result.now ≡ table }
{
    &KINDS
}

impl Kind {
    // The place in the table.
    fn place(self) -> usize
        ensures { result + 1 ≡ kind_number self }
    {
        // a kind has no `From` for its number
        self as usize
    }

    // The kind's row.
    pub fn row(self) -> &'static KindRow
        ensures { shown result.now ≡ row_of self }
    {
        &all_kinds()[self.place()]
    }

    // The kind of a word, if it is one's.
    pub fn of_word(word: &[u8]) -> Option<Kind>
        ensures { result ≡ kind_of word.now }
    {
        for row in all_kinds() {
            if row.word.as_bytes() == word {
                return Some(row.kind);
            }
        }
        None
    }

    // Whether it declares its name.
    pub fn is_declaration(self) -> bool
        ensures { result ≡ declares self }
    {
        self.row().role == Role::Declares
    }
}

impl Role {
    // Whether a kind of that role has a name.
    pub fn has_name(self) -> bool
        ensures { result ≡ role_named self }
    {
        self != Role::Plain
    }
}
