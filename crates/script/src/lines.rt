// One line of a text.
ghost use Rattle.std.specs.Prelude.{◌≡◌};
ghost use Rattle.script.specs.LineReads.{IsTaken, name_from, number_from, origin_from, origin_wanted, entry_of};
ghost use Rattle.script.specs.FieldsLeft.{fields_left};
ghost use Rattle.script.specs.Forms.{form_of};

use crate::fields::{name, number, origin};
use crate::pieces::Fields;
use model::kinds::{Kind, Role};
use model::nodes::{Entry, Name, Node, Origin};

// Whether a text is a script, or a draft with the origins of its names. The definitions call them `plain` and
// `draft`; one type for both would take the names of a role and of a draft's own type there. It is never compared
// or printed.
#[derive(Clone, Copy)]
pub enum Form {
    Script,
    Draft,
}

// The name, if the role has one.
fn next_name(role: Role, fields: &mut Fields<'_>) -> Option<Name>
    ensures { IsTaken (name_from role (fields_left fields.old)) result (fields_left fields.new) }
{
    if role.has_name() {
        name(fields.next()?)
    } else {
        Some(Name::NONE)
    }
}

// The number, if the kind has one.
fn next_number(most: Option<u32>, fields: &mut Fields<'_>) -> Option<u32>
    ensures { IsTaken (number_from most (fields_left fields.old)) result (fields_left fields.new) }
{
    match most {
        Some(most) => number(fields.next()?, most),
        None => Some(0),
    }
}

fn has_origin(form: Form, role: Role) -> bool
    ensures { result ≡ origin_wanted (form_of form) role }
{
    match form {
        Form::Script => false,
        Form::Draft => role.has_name(),
    }
}

// The origin, if the text gives one to such a kind.
fn next_origin(form: Form, role: Role, fields: &mut Fields<'_>) -> Option<Origin>
    ensures { IsTaken (origin_from (form_of form) role (fields_left fields.old)) result (fields_left fields.new) }
{
    if has_origin(form, role) {
        origin(fields.next()?)
    } else {
        Some(Origin::Outer)
    }
}

// The entry of a line, if its word and its fields are right.
pub fn read_line(form: Form, line: &[u8]) -> Option<Entry>
    ensures { result ≡ entry_of (form_of form) line.now }
{
    let mut fields = Fields::of(line);
    let kind = Kind::of_word(fields.next()?)?;
    let row = kind.row();
    let name = next_name(row.role, &mut fields)?;
    let number = next_number(row.most, &mut fields)?;
    let origin = next_origin(form, row.role, &mut fields)?;
    match fields.next() {
        None => {
            let node = Node { kind, name, number };
            Some(Entry { node, origin })
        }
        Some(_) => None,
    }
}
