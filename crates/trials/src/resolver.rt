// A resolver for the trials alone: it goes through the nodes once, forward, and keeps the open ones on a stack.
use model::grammar::{ByRoot, Grammar};
use model::kinds::{Kind, Role, all_kinds};
use model::nodes::{Entry, Name, Node, Origin};
use std::alloc::{AllocError, Global};

// A declaration, by its place.
#[derive(Clone, Copy)]
struct Declared {
    at: usize,
    name: Name,
}

// A node that may have children to come, and what it declares for its last one to see.
#[derive(Clone, Copy)]
struct Open {
    shows: Option<Declared>,
    left: usize,
}

#[derive(Drop)]
pub struct Resolver {
    open: Vec<Open>,
    // the declarations of the lines before the present one, and the present one's
    lines: Vec<Declared>,
    own_line: Option<Declared>,
    entered: usize,
    // whether the first tree goes on; in an option, the lines would be taken out and put back at each node
    in_card: bool,
}

impl Resolver {
    pub fn new(heap: Global) -> Self {
        Resolver {
            open: Vec::new(heap),
            lines: Vec::new(heap),
            own_line: None,
            entered: 0,
            in_card: false,
        }
    }

    // Closes what is complete, and counts one child more of what is not.
    fn close(&mut self) -> Result<(), AllocError> {
        while let Some(top) = self.open.pop() {
            if top.left > 0 {
                self.open.push(Open {
                    left: top.left - 1,
                    ..top
                })?;
                return Ok(());
            }
        }
        Ok(())
    }

    // A line begins where only the root is open.
    fn begin_line(&mut self, declared: Option<Declared>) -> Result<(), AllocError> {
        if let Some(before) = self.own_line {
            self.lines.push(before)?;
        }
        self.own_line = declared;
        Ok(())
    }

    // The next node.
    pub fn enter(&mut self, entry: &Entry) -> Result<(), AllocError> {
        self.close()?;
        let kind = entry.node.kind;
        let declared = Declared {
            at: self.entered,
            name: entry.node.name,
        };
        let depth = self.open.len();
        if self.entered == 0 {
            self.in_card = true;
        } else if depth == 0 {
            self.in_card = false;
        } else if depth == 1 && self.in_card {
            let declares = kind.row().role == Role::Declares;
            self.begin_line(declares.then_some(declared))?;
        }
        self.open.push(Open {
            shows: matches!(kind, Kind::Let | Kind::Bind).then_some(declared),
            left: entry.node.arity(),
        })?;
        self.entered = self.entered.saturating_add(1);
        Ok(())
    }

    // By role: none, itself, or what its language says.
    fn by_role(&self, entry: &Entry, reference: Option<usize>) -> Option<usize> {
        match entry.node.kind.row().role {
            Role::Plain => None,
            Role::Declares => Some(self.entered.saturating_sub(1)),
            Role::Refers => reference,
        }
    }

    // The innermost scope whose last child is open.
    pub fn in_tree(&self, entry: &Entry) -> Option<usize> {
        let found = self
            .open
            .iter()
            .rev()
            .filter(|scope| scope.left == 0)
            .find_map(|scope| scope.shows.filter(|shown| shown.name == entry.node.name));
        self.by_role(entry, found.map(|shown| shown.at))
    }

    // The latest of the lines that have ended.
    pub fn in_card(&self, entry: &Entry) -> Option<usize> {
        if !self.in_card {
            return self.by_role(entry, None);
        }
        let found = self
            .lines
            .iter()
            .rev()
            .find(|line| line.name == entry.node.name);
        self.by_role(entry, found.map(|line| line.at))
    }

    // The first declaration anywhere.
    pub fn in_flat(&self, program: &[Entry], entry: &Entry) -> Option<usize> {
        let found = program.iter().position(|other| {
            other.node.kind.row().role == Role::Declares && other.node.name == entry.node.name
        });
        self.by_role(entry, found)
    }
}

// Numbers that look random.
#[derive(Drop)]
struct Dice(u32);

impl Dice {
    fn roll(&mut self, sides: u32) -> u32 {
        self.0 = self.0.wrapping_mul(1664525).wrapping_add(1013904223);
        (self.0 >> 16).checked_rem(sides).unwrap_or(0)
    }
}

// A kind of any sort; of six that are drawn, the first that may stand below the root.
fn random_kind(dice: &mut Dice, root: Kind) -> Kind {
    let mut kind = root;
    for _turn in 0..6 {
        // there is no `From` for it, as a `usize` may have 16 bits in Rust
        if let Some(drawn) = all_kinds().get(dice.roll(25) as usize) {
            kind = drawn.kind;
            if ByRoot::is_below(root, kind) {
                return kind;
            }
        }
    }
    kind
}

// One of three stems, most without a mark.
fn random_name(dice: &mut Dice) -> Name {
    let mut stem = [0u8; 8];
    stem[0] = match dice.roll(3) {
        0 => b'a',
        1 => b'b',
        _ => b'c',
    };
    let mark = if dice.roll(4) == 0 { 1 } else { 0 };
    Name { stem, mark }
}

// A list of nodes below a random root, seldom a whole program.
pub fn random_row(heap: Global, seed: u32) -> Result<Vec<Entry>, AllocError> {
    let mut dice = Dice(seed);
    let root = match dice.roll(3) {
        0 => Kind::Card,
        1 => Kind::Tree,
        _ => Kind::Flat,
    };
    let mut row = Vec::new(heap);
    let mut kind = root;
    for _turn in 0..48 {
        let name = random_name(&mut dice);
        let number = dice.roll(9);
        row.push(Entry {
            node: Node { kind, name, number },
            origin: Origin::Outer,
        })?;
        kind = random_kind(&mut dice, root);
    }
    Ok(row)
}
