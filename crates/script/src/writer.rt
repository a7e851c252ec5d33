// Writes a program as text into a lent buffer.
ghost use Rattle.std.specs.Prelude.{◌≡◌, ◌≤◌, ◌*◌, length, min, decimal, IfOk};
ghost use Rattle.model.specs.Names.{letters, nodes};
ghost use Rattle.model.specs.Fields.{plain, write_mark, write_name};
ghost use Rattle.model.specs.Writing.{write_line, write_lines, write_into, measured, buffer_after};
ghost use Rattle.script.specs.Buffers.{name_text, number_text};
ghost use Rattle.script.specs.Trips.{WriteBack};

use crate::fields::place_of;
use crate::reader::MOST_NODES;
use crate::sink::{Counter, Page, Sink};
use model::faults::{ReadFault, TextFault};
use model::kinds::Role;
use model::nodes::{Entry, Name};

// A word of at most 5 bytes, a tab and a name of at most 14, a tab and a number of at most 10,
// and the line's end.
const LONGEST_LINE: usize = 32;

// The characters of a stem, which stand before its zeros.
fn characters(stem: &[u8]) -> &[u8]
    ensures are { result.now ≡ letters stem.now }
    ensures within { length result.now ≤ length stem.now }
{
    match place_of(stem, 0) {
        Some(end) => &stem[..end],
        None => stem,
    }
}

// What a call asks room for is its own text, so each says it; a type could not. Behind a reference
// it is not known how long the text can be, so there as much room as for the longest is enough too.
// The digits are found from the last on, and put at once; by hand, as the library prints to a formatter that may fail.
// `as` is proved to lose nothing here; `try_from` would have an error that cannot be.
fn put_number<S: Sink>(out: &mut S, n: u32)
    requires { S.room out.old (length (decimal n)) }
    ensures put { S.grown out.old (decimal n) out.new }
    ensures short { length (decimal n) ≤ 10 }
{
    let mut digits = [0; 10];
    let mut first = 9;
    let mut left = n;
    while left >= 10 {
        digits[first] = b'0' + (left % 10) as u8;
        left /= 10;
        first -= 1;
    }
    digits[first] = b'0' + left as u8;
    out.put(&digits[first..]);
}

// An apostrophe and the mark, unless it is 0.
fn put_mark<S: Sink>(out: &mut S, mark: u16)
    requires { S.room out.old (length (write_mark mark)) }
    ensures put { S.grown out.old (write_mark mark) out.new }
    ensures short { length (write_mark mark) ≤ 6 }
{
    if mark == 0 {
        return;
    }
    out.put(b"'");
    put_number(out, u32::from(mark));
}

fn put_name<S: Sink>(out: &mut S, name: &Name)
    requires { S.room out.old (min (length (write_name name.now)) 14) }
    ensures put { S.grown out.old (write_name name.now) out.new }
    ensures short { length (write_name name.now) ≤ 14 }
{
    out.put(characters(&name.stem));
    put_mark(out, name.mark);
}

// A tab and the name, where the kind has one.
fn put_name_field<S: Sink>(out: &mut S, role: Role, name: &Name)
    requires { S.room out.old (min (length (name_text role name.now)) 15) }
    ensures put { S.grown out.old (name_text role name.now) out.new }
    ensures short { length (name_text role name.now) ≤ 15 }
{
    if !role.has_name() {
        return;
    }
    out.put(b"\t");
    put_name(out, name);
}

// A tab and the number, where the kind has one.
fn put_number_field<S: Sink>(out: &mut S, most: Option<u32>, n: u32)
    requires { S.room out.old (length (number_text most n)) }
    ensures put { S.grown out.old (number_text most n) out.new }
    ensures short { length (number_text most n) ≤ 11 }
{
    let Some(_) = most else {
        return;
    };
    out.put(b"\t");
    put_number(out, n);
}

// One line.
fn put_line<S: Sink>(out: &mut S, entry: &Entry)
    requires { S.room out.old (min (length (write_line plain entry.now)) 32) }
    ensures put { S.grown out.old (write_line plain entry.now) out.new }
    ensures short { length (write_line plain entry.now) ≤ 32 }
{
    let row = entry.node.kind.row();
    out.put(row.word.as_bytes());
    put_name_field(out, row.role, &entry.node.name);
    put_number_field(out, row.most, entry.node.number);
    out.put(b"\n");
}

// How long the text is.
fn text_length(entries: &[Entry]) -> usize
    requires { length entries.now ≤ 1024 }
    ensures { result ≡ length (write_lines plain entries.now) }
{
    let mut counter = Counter { length: 0 };
    put_lines(&mut counter, entries);
    counter.length
}

// All lines.
fn put_lines<S: Sink>(out: &mut S, entries: &[Entry])
    requires { S.room out.old (min (length (write_lines plain entries.now)) (32 * length entries.now)) }
    ensures put { S.grown out.old (write_lines plain entries.now) out.new }
    ensures short { length (write_lines plain entries.now) ≤ 32 * length entries.now }
{
    for entry in entries {
        put_line(out, entry);
    }
}

// Writes the text of a program into the buffer, and says how long it is; origins are not written.
// More than 1,024 nodes are no program. After a refusal the buffer is as it was.
pub fn write(program: &[Entry], buffer: &mut [u8]) -> Result<usize, TextFault>
    ensures value { result ≡ measured (write_into (nodes program.now) (length buffer.old)) }
    ensures after { buffer.new ≡ buffer_after (write_into (nodes program.now) (length buffer.old)) buffer.old }
    ensures back { WriteBack (nodes program.now) result buffer.new }
    ensures within { IfOk result (λ n. n ≤ length buffer.new) }
{
    if program.len() > MOST_NODES {
        return Err(TextFault::Read(ReadFault::TooManyNodes));
    }
    // with room for the longest lines there is room for these, and they need not be counted first
    if buffer.len() < program.len() * LONGEST_LINE {
        let needed = text_length(program);
        if needed > buffer.len() {
            return Err(TextFault::TooShort(needed));
        }
    }
    let mut page = Page {
        bytes: buffer,
        end: 0,
    };
    put_lines(&mut page, program);
    Ok(page.end)
}
