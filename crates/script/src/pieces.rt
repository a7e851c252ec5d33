// The fields of a line, one by one.
ghost use Rattle.std.specs.Prelude.{◌≡◌};
ghost use Rattle.model.specs.Fields.{pieces};
ghost use Rattle.script.specs.FieldsLeft.{fields_left};

use crate::fields::place_of;

// What is left of a line; nothing after its last field. It has a type of its own, as the one of
// `split` names a closure, and a function that takes the fields could not.
#[derive(Clone, Copy)]
pub struct Fields<'a> {
    rest: Option<&'a [u8]>,
}

impl<'a> Fields<'a> {
    pub fn of(line: &'a [u8]) -> Fields<'a>
        ensures { fields_left result ≡ pieces 9 line.now }
    {
        Fields { rest: Some(line) }
    }
}

impl<'a> Iterator for Fields<'a> {
    type Item = &'a [u8];

    ghost use Rattle.std.specs.Iterator.{YieldsFirstRef, item_count};

    ghost next_gives = { YieldsFirstRef fields_left };

    ghost remaining = { item_count fields_left };

    fn next(&mut self) -> Option<&'a [u8]> {
        let rest = self.rest?;
        let Some(tab) = place_of(rest, b'\t') else {
            self.rest = None;
            return Some(rest);
        };
        self.rest = Some(&rest[tab + 1..]);
        Some(&rest[..tab])
    }
}
