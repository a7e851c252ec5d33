// Every refusal of a text at its edge, and what the row holds then.
use crate::refused::{Refused, heard};
use crate::texts::repeated;
use model::grammar::{ByRoot, Cards, Flats, Trees};
use model::nodes::{Entry, Origin};
use script::reader::{read, read_draft};
use std::test::Fail;

struct Case {
    text: &'static [u8],
    script: Result<usize, Refused>,
    draft: Result<usize, Refused>,
}

// A script's outcome, then that of the same text as a draft.
static CASES: [Case; 46] = [
    // whole programs
    Case {
        text: b"card\t0\n",
        script: Ok(1),
        draft: Ok(1),
    },
    Case {
        text: b"tree\nend\n",
        script: Ok(2),
        draft: Ok(2),
    },
    Case {
        text: b"flat\t0\n",
        script: Ok(1),
        draft: Ok(1),
    },
    Case {
        text: b"tree\nput\nnum\t2147483647\nend\n",
        script: Ok(4),
        draft: Ok(4),
    },
    // no text, and lines that are none
    Case {
        text: b"",
        script: Err(Refused(4, 0)),
        draft: Err(Refused(4, 0)),
    },
    Case {
        text: b"\n",
        script: Err(Refused(2, 0)),
        draft: Err(Refused(2, 0)),
    },
    Case {
        text: b"tree\n\n",
        script: Err(Refused(2, 1)),
        draft: Err(Refused(2, 1)),
    },
    Case {
        text: b"tree",
        script: Err(Refused(2, 0)),
        draft: Err(Refused(2, 0)),
    },
    Case {
        text: b"tree\nend",
        script: Err(Refused(2, 1)),
        draft: Err(Refused(2, 1)),
    },
    Case {
        text: b"tree\r\nend\n",
        script: Err(Refused(2, 0)),
        draft: Err(Refused(2, 0)),
    },
    Case {
        text: b"Tree\nend\n",
        script: Err(Refused(2, 0)),
        draft: Err(Refused(2, 0)),
    },
    Case {
        text: b"trees\nend\n",
        script: Err(Refused(2, 0)),
        draft: Err(Refused(2, 0)),
    },
    // fields missing, too many, or parted otherwise than by one tab
    Case {
        text: b"card\n",
        script: Err(Refused(2, 0)),
        draft: Err(Refused(2, 0)),
    },
    Case {
        text: b"card\t\n",
        script: Err(Refused(2, 0)),
        draft: Err(Refused(2, 0)),
    },
    Case {
        text: b"card\t0\t\n",
        script: Err(Refused(2, 0)),
        draft: Err(Refused(2, 0)),
    },
    Case {
        text: b"card\t\t0\n",
        script: Err(Refused(2, 0)),
        draft: Err(Refused(2, 0)),
    },
    Case {
        text: b"card 0\n",
        script: Err(Refused(2, 0)),
        draft: Err(Refused(2, 0)),
    },
    Case {
        text: b"tree\t\nend\n",
        script: Err(Refused(2, 0)),
        draft: Err(Refused(2, 0)),
    },
    // numbers
    Case {
        text: b"card\t255\n",
        script: Err(Refused(4, 1)),
        draft: Err(Refused(4, 1)),
    },
    Case {
        text: b"card\t256\n",
        script: Err(Refused(2, 0)),
        draft: Err(Refused(2, 0)),
    },
    Case {
        text: b"card\t00\n",
        script: Err(Refused(2, 0)),
        draft: Err(Refused(2, 0)),
    },
    Case {
        text: b"card\t+1\n",
        script: Err(Refused(2, 0)),
        draft: Err(Refused(2, 0)),
    },
    Case {
        text: b"flat\t1023\n",
        script: Err(Refused(4, 1)),
        draft: Err(Refused(4, 1)),
    },
    Case {
        text: b"flat\t1024\n",
        script: Err(Refused(2, 0)),
        draft: Err(Refused(2, 0)),
    },
    Case {
        text: b"card\t1\nfield\ta\t254\n",
        script: Ok(2),
        draft: Err(Refused(2, 1)),
    },
    Case {
        text: b"card\t1\nfield\ta\t255\n",
        script: Err(Refused(2, 1)),
        draft: Err(Refused(2, 1)),
    },
    Case {
        text: b"tree\nput\nnum\t2147483648\nend\n",
        script: Err(Refused(2, 2)),
        draft: Err(Refused(2, 2)),
    },
    Case {
        text: b"tree\nput\nnum\t99999999999999999999999999\nend\n",
        script: Err(Refused(2, 2)),
        draft: Err(Refused(2, 2)),
    },
    Case {
        text: b"tree\nput\nbyte\t256\nend\n",
        script: Err(Refused(2, 2)),
        draft: Err(Refused(2, 2)),
    },
    // names
    Case {
        text: b"flat\t1\nslot\tabcdefg8\n",
        script: Ok(2),
        draft: Err(Refused(2, 1)),
    },
    Case {
        text: b"flat\t1\nslot\tabcdefgh9\n",
        script: Err(Refused(2, 1)),
        draft: Err(Refused(2, 1)),
    },
    Case {
        text: b"flat\t1\nslot\t8a\n",
        script: Err(Refused(2, 1)),
        draft: Err(Refused(2, 1)),
    },
    Case {
        text: b"flat\t1\nslot\ta'65535\n",
        script: Ok(2),
        draft: Err(Refused(2, 1)),
    },
    Case {
        text: b"flat\t1\nslot\ta'65536\n",
        script: Err(Refused(2, 1)),
        draft: Err(Refused(2, 1)),
    },
    Case {
        text: b"flat\t1\nslot\ta'0\n",
        script: Err(Refused(2, 1)),
        draft: Err(Refused(2, 1)),
    },
    Case {
        text: b"flat\t1\nslot\ta'1'1\n",
        script: Err(Refused(2, 1)),
        draft: Err(Refused(2, 1)),
    },
    // origins: the last field of a name's line in a draft, and of no line in a script
    Case {
        text: b"flat\t1\nslot\ta\to\n",
        script: Err(Refused(2, 1)),
        draft: Ok(2),
    },
    Case {
        text: b"flat\t1\nslot\ta\ts1023\n",
        script: Err(Refused(2, 1)),
        draft: Ok(2),
    },
    Case {
        text: b"flat\t1\nslot\ta\ts1024\n",
        script: Err(Refused(2, 1)),
        draft: Err(Refused(2, 1)),
    },
    Case {
        text: b"flat\t1\nslot\ta\tp65535\n",
        script: Err(Refused(2, 1)),
        draft: Ok(2),
    },
    Case {
        text: b"flat\t1\nslot\ta\tp65536\n",
        script: Err(Refused(2, 1)),
        draft: Err(Refused(2, 1)),
    },
    Case {
        text: b"card\t1\nfield\ta\t7\tp0\n",
        script: Err(Refused(2, 1)),
        draft: Ok(2),
    },
    // kinds and ends
    Case {
        text: b"end\n",
        script: Err(Refused(3, 0)),
        draft: Err(Refused(3, 0)),
    },
    Case {
        text: b"tree\nput\nlevel\n",
        script: Err(Refused(3, 2)),
        draft: Err(Refused(3, 2)),
    },
    Case {
        text: b"flat\t1\nemit\nif\n",
        script: Err(Refused(3, 2)),
        draft: Err(Refused(3, 2)),
    },
    Case {
        text: b"card\t0\nbogus\n",
        script: Err(Refused(4, 1)),
        draft: Err(Refused(4, 1)),
    },
];

#[test]
fn edges(rt: HostRuntime) -> Result<(), Fail> {
    let mut row = vec![in rt.alloc(); Entry::UNUSED; 1024]?;
    for case in &CASES {
        assert_eq!(rt; heard(read::<ByRoot>(case.text, &mut row)), case.script);
        assert_eq!(rt;
            heard(read_draft::<ByRoot>(case.text, &mut row)),
            case.draft
        );
    }
    Ok(())
}

#[test]
fn roots(rt: HostRuntime) -> Result<(), Fail> {
    let mut row = vec![in rt.alloc(); Entry::UNUSED; 1024]?;
    let card = b"card\t0\n";
    let tree = b"tree\nend\n";
    assert_eq!(rt; heard(read::<Cards>(card, &mut row)), Ok(1));
    assert_eq!(rt; heard(read::<Trees>(card, &mut row)), Err(Refused(3, 0)));
    assert_eq!(rt; heard(read::<Flats>(card, &mut row)), Err(Refused(3, 0)));
    assert_eq!(rt; heard(read::<Trees>(tree, &mut row)), Ok(2));
    assert_eq!(rt; heard(read::<Cards>(tree, &mut row)), Err(Refused(3, 0)));
    assert_eq!(rt; heard(read::<Flats>(b"flat\t0\n", &mut row)), Ok(1));
    Ok(())
}

#[test]
fn sizes(rt: HostRuntime) -> Result<(), Fail> {
    let heap = rt.alloc();
    let mut row = vec![in heap; Entry::UNUSED; 1025]?;
    let full = repeated(heap, b"flat\t1023\n", b"slot\ta\n", 1023, b"")?;
    assert_eq!(rt; heard(read::<ByRoot>(&full, &mut row)), Ok(1024));
    let after = repeated(heap, b"flat\t1023\n", b"slot\ta\n", 1024, b"")?;
    assert_eq!(rt;
        heard(read::<ByRoot>(&after, &mut row)),
        Err(Refused(4, 1024))
    );
    let early = repeated(heap, b"tree\n", b"put\nnum\t1\n", 511, b"put\n")?;
    assert_eq!(rt;
        heard(read::<ByRoot>(&early, &mut row)),
        Err(Refused(4, 1024))
    );
    let many = repeated(heap, b"tree\n", b"put\nnum\t1\n", 511, b"put\nbogus\n")?;
    assert_eq!(rt;
        heard(read::<ByRoot>(&many, &mut row)),
        Err(Refused(5, 1024))
    );
    Ok(())
}

#[test]
fn lengths(rt: HostRuntime) -> Result<(), Fail> {
    let heap = rt.alloc();
    let mut row = vec![in heap; Entry::UNUSED; 1024]?;
    let longest = repeated(heap, b"", b"x", 32768, b"")?;
    assert_eq!(rt;
        heard(read::<ByRoot>(&longest, &mut row)),
        Err(Refused(2, 0))
    );
    let longer = repeated(heap, b"", b"x", 32769, b"")?;
    assert_eq!(rt;
        heard(read::<ByRoot>(&longer, &mut row)),
        Err(Refused(1, 0))
    );
    let mut short = vec![in heap; Entry::UNUSED; 1023]?;
    assert_eq!(rt;
        heard(read::<ByRoot>(b"card\t0\n", &mut short)),
        Err(Refused(13, 0))
    );
    assert_eq!(rt;
        heard(read::<ByRoot>(&longer, &mut short)),
        Err(Refused(13, 0))
    );
    Ok(())
}

// Beyond what was read a row is as it was; after a refusal every place is unused.
#[test]
fn rows(rt: HostRuntime) -> Result<(), Fail> {
    let mut row = vec![in rt.alloc(); Entry::UNUSED; 1024]?;
    assert_eq!(rt;
        heard(read_draft::<ByRoot>(b"flat\t1\nslot\tab'3\tp7\n", &mut row)),
        Ok(2)
    );
    assert_eq!(rt; row[1].node.name.stem, [97, 98, 0, 0, 0, 0, 0, 0]);
    assert_eq!(rt; row[1].node.name.mark, 3);
    assert!(rt; matches!(row[1].origin, Origin::Private(7)));
    assert_eq!(rt; heard(read::<ByRoot>(b"card\t0\n", &mut row)), Ok(1));
    assert_eq!(rt; row[1].node.name.mark, 3);
    assert_eq!(rt;
        heard(read::<ByRoot>(b"card\t1\n", &mut row)),
        Err(Refused(4, 1))
    );
    assert_eq!(rt; row[1].node.name.mark, 0);
    Ok(())
}
