// What names reach: worked cases in each language, and random lists of nodes against a resolver of their own.
use crate::resolver::{Resolver, random_row};
use model::faults::TextFault;
use model::grammar::{ByRoot, Cards, Flats, Trees};
use model::nodes::Entry;
use scope::language::Language;
use script::reader::read;
use std::process::Abort;
use std::test::Fail;

struct Case {
    text: &'static [u8],
    // a node, and what it reaches
    reaches: &'static [(usize, Option<usize>)],
}

static CARDS: [Case; 5] = [
    // the latest before it, and not its own line
    Case {
        text: b"card\t3\ndef\ta\nnum\t1\ndef\ta\nref\ta\nout\nref\ta\n",
        reaches: &[(1, Some(1)), (3, Some(3)), (4, Some(1)), (6, Some(3))],
    },
    // a name is not seen before its line or in it
    Case {
        text: b"card\t3\nout\nref\ta\ndef\ta\nref\ta\nout\nref\ta\n",
        reaches: &[(2, None), (3, Some(3)), (4, None), (6, Some(3))],
    },
    // fields declare too, below deep expressions as well
    Case {
        text: b"card\t4\nfield\tf\t0\ndef\tf\nif\nref\tf\nfirst\nref\tf\nref\tg\nlevel\nref\tf\nfield\tg\t9\nout\nadd\nref\tf\nref\tg\n",
        reaches: &[
            (4, Some(1)),
            (6, Some(1)),
            (7, None),
            (9, Some(1)),
            (13, Some(2)),
            (14, Some(10)),
        ],
    },
    // marks tell names apart
    Case {
        text: b"card\t3\ndef\ta\nnum\t1\ndef\ta'1\nnum\t2\nout\nadd\nref\ta\nref\ta'1\n",
        reaches: &[(7, Some(1)), (8, Some(3))],
    },
    // nothing for what has no name, nor past the end
    Case {
        text: b"card\t1\nout\nnum\t1\n",
        reaches: &[(0, None), (1, None), (2, None), (3, None), (1000000, None)],
    },
];

static TREES: [Case; 5] = [
    // in a let's value and in its body
    Case {
        text: b"tree\nlet\tx\nnum\t1\nlet\tx\nref\tx\nput\nref\tx\nend\n",
        reaches: &[(1, Some(1)), (3, Some(3)), (4, Some(1)), (6, Some(3))],
    },
    // in a bind's value and in its body
    Case {
        text: b"tree\nlet\tx\nnum\t1\nput\nbind\tx\nref\tx\nref\tx\nput\nref\tx\nend\n",
        reaches: &[(5, Some(1)), (6, Some(4)), (8, Some(1))],
    },
    // a bind in a let's value is not seen in the let's body
    Case {
        text: b"tree\nlet\ta\nbind\tb\nnum\t1\nref\tb\nput\nadd\nref\ta\nref\tb\nend\n",
        reaches: &[(4, Some(2)), (7, Some(1)), (8, None)],
    },
    // through the branches of an if, and from within nested binds outwards
    Case {
        text: b"tree\nput\nbind\ta\nnum\t1\nbind\tb\nref\ta\nif\nref\ta\nref\tb\nref\tc\nput\nref\ta\nend\n",
        reaches: &[
            (5, Some(2)),
            (7, Some(2)),
            (8, Some(4)),
            (9, None),
            (11, None),
        ],
    },
    Case {
        text: b"tree\nput\nref\tz\nend\n",
        reaches: &[(2, None), (4, None)],
    },
];

static FLATS: [Case; 4] = [
    // forward
    Case {
        text: b"flat\t4\ngoto\tdone\nslot\tx\nset\tx\nnum\t1\nlabel\tdone\n",
        reaches: &[(1, Some(5)), (2, Some(2)), (3, Some(2)), (5, Some(5))],
    },
    // the first of two, from before and after
    Case {
        text: b"flat\t5\nset\tx\nref\tx\nslot\tx\nslot\tx\nset\tx\nnum\t1\nemit\nref\tx\n",
        reaches: &[
            (1, Some(3)),
            (2, Some(3)),
            (4, Some(4)),
            (5, Some(3)),
            (8, Some(3)),
        ],
    },
    // slots and labels stand in one list
    Case {
        text: b"flat\t3\nslot\ta\nlabel\ta\ngoto\ta\n",
        reaches: &[(2, Some(2)), (3, Some(1))],
    },
    Case {
        text: b"flat\t2\nskip\tno\nnum\t1\nemit\nref\tno\n",
        reaches: &[(1, None), (4, None)],
    },
];

// How many of the cases' nodes are found otherwise, by the language and by the one that goes by the root.
fn misses<L: Language>(case: &Case) -> Result<usize, TextFault> {
    let mut row = [Entry::UNUSED; 1024];
    let count = read::<ByRoot>(case.text, &mut row)?;
    let program = &row[..count];
    let missed = case
        .reaches
        .iter()
        .filter(|(at, reach)| {
            L::find(program, *at) != *reach || ByRoot::find(program, *at) != *reach
        })
        .count();
    Ok(missed)
}

fn all_found<L: Language>(rt: &impl Abort, cases: &[Case]) {
    for case in cases {
        assert_eq!(rt; misses::<L>(case), Ok(0));
    }
}

#[test]
fn cards(rt: HostRuntime) {
    all_found::<Cards>(&rt, &CARDS);
}

#[test]
fn trees(rt: HostRuntime) {
    all_found::<Trees>(&rt, &TREES);
}

#[test]
fn flats(rt: HostRuntime) {
    all_found::<Flats>(&rt, &FLATS);
}

// All reaches at once: as far as there is room, and no further.
#[test]
fn all_at_once(rt: HostRuntime) -> Result<(), Fail> {
    let mut row = vec![in rt.alloc(); Entry::UNUSED; 1024]?;
    let count = read::<ByRoot>(b"card\t2\ndef\ta\nnum\t1\nout\nref\ta\n", &mut row)?;
    assert_eq!(rt; count, 5);
    let program = &row[..count];
    let mut reached = [Some(7); 6];
    ByRoot::find_all(program, &mut reached);
    assert_eq!(rt; reached, [None, Some(1), None, None, Some(1), Some(7)]);
    let mut few = [Some(7); 2];
    ByRoot::find_all(program, &mut few);
    assert_eq!(rt; few, [None, Some(1)]);
    Ok(())
}

// Random lists of nodes, most of them no programs, in each language and by the root.
#[test]
fn as_resolved(rt: HostRuntime) -> Result<(), Fail> {
    for seed in 0..300u32 {
        let row = random_row(rt.alloc(), seed)?;
        let mut resolver = Resolver::new(rt.alloc());
        for (at, entry) in row.iter().enumerate() {
            resolver.enter(entry)?;
            let tree = resolver.in_tree(entry);
            let card = resolver.in_card(entry);
            let flat = resolver.in_flat(&row, entry);
            assert_eq!(rt; Trees::find(&row, at), tree);
            assert_eq!(rt; Cards::find(&row, at), card);
            assert_eq!(rt; Flats::find(&row, at), flat);
        }
    }
    Ok(())
}
