// Fresh marks: the marks in use with a stem are noted as bits of a lent row of words, mark 0 lowest
// in the first, and the lowest bit that is clear above bit 0 is the mark to take.
// A program and a name are two arguments, as callers have them; a struct of both would say no more.
ghost use Rattle.std.specs.Prelude.{◌≡◌, ◌/◌, ◌%◌, ◌^◌, ◌<◌, ◌≤◌, length, replicate, bit_or, nat_eq, slice_index, slice_set};
ghost use Rattle.model.specs.Lists.{any};
ghost use Rattle.model.specs.Names.{nodes};
ghost use Rattle.model.specs.Repair.{marks, unused};
ghost use Rattle.model.specs.MarkRow.{Shows};
ghost use Rattle.repair.specs.Marks.{of_stem, lowest_free};

use model::nodes::{Entry, Name, Node};

// Marks are noted in the first words of a row, as many as this.
const WORDS: usize = 16;

// Only the marks below this are noted.
const NOTED: u16 = 1024;

// A row in use: whoever has lent the words finds them zero again, whichever way the search is left.
// What notes and reads marks takes the words: of the row each method would have to promise that it
// still holds the same ones.
struct MarkRow<'a> {
    words: &'a mut [u64; WORDS],
}

impl Drop for MarkRow<'_> {
    fn drop(self)
        ensures { self.exit.0.now ≡ replicate 16 0 }
    {
        self.words.fill(0);
        let MarkRow { words: _ } = self;
    }
}

// Whether a node has a name, and one with that stem.
fn is_of_stem(node: &Node, name: &Name) -> bool
    ensures { result ≡ of_stem name.now node.now }
{
    node.kind.row().role.has_name() && name.has_stem_of(&node.name)
}

// Sets the bit of a mark.
fn note_mark(words: &mut [u64; WORDS], mark: u16)
    requires { mark < 1024 }
    ensures { words.new ≡ slice_set words.old (mark / 64) (bit_or (slice_index words.old (mark / 64)) (2 ^ (mark % 64))) }
{
    words[usize::from(mark) / 64] |= 1 << (mark % 64);
}

// Notes the marks of all names with that stem; one that is too large to be noted is left out.
fn note_marks(words: &mut [u64; WORDS], program: &[Entry], name: &Name)
    requires { words.old ≡ replicate 16 0 }
    ensures { Shows words.new (marks name.now (nodes program.now)) }
{
    for entry in program {
        let mark = entry.node.name.mark;
        if is_of_stem(&entry.node, name) && mark < NOTED {
            note_mark(words, mark);
        }
    }
}

// The lowest mark from 1 on that is not noted: mark 0 is the plain spelling and regarded as noted.
fn lowest_clear(words: &[u64; WORDS]) -> Option<u16>
    ensures { result ≡ lowest_free words.now }
{
    for (at, word) in words.iter().enumerate() {
        let low = (!(*word | u64::from(at == 0))).trailing_zeros();
        if low < 64 {
            // `as` is proved to lose nothing here; `try_from` would have an error to take care of.
            return Some(at as u16 * 64 + low as u16);
        }
    }
    None
}

// Whether a name with that stem has the mark.
fn is_in_use(program: &[Entry], name: &Name, mark: u16) -> bool
    ensures { result ≡ any (nat_eq mark) (marks name.now (nodes program.now)) }
{
    program.iter().any(|entry| is_of_stem(&entry.node, name) && entry.node.name.mark == mark)
}

// The smallest mark from 1 on that no name with that stem has, by noting them. Where all that can be
// noted are in use, at most one name is left, so it is the next mark or the one after it. Words are lent by
// themselves here, so each call says that they are clear.
fn seek_mark(program: &[Entry], name: &Name, words: &mut [u64; WORDS]) -> u16
    requires few { length program.now ≤ 1024 }
    requires clear { words.old ≡ replicate 16 0 }
    ensures value { result ≡ unused (marks name.now (nodes program.now)) }
    ensures clear { words.new ≡ replicate 16 0 }
{
    let row = MarkRow { words };
    note_marks(row.words, program, name);
    if let Some(mark) = lowest_clear(row.words) {
        return mark;
    }
    if is_in_use(program, name, NOTED) {
        NOTED + 1
    } else {
        NOTED
    }
}

// The smallest mark from 1 on that no name with that stem has.
pub fn fresh_mark(program: &[Entry], name: &Name, words: &mut [u64]) -> u16
    requires few { length program.now ≤ 1024 }
    requires long { 16 ≤ length words.old }
    requires clear { words.old ≡ replicate (length words.old) 0 }
    ensures value { result ≡ unused (marks name.now (nodes program.now)) }
    ensures clear { words.new ≡ replicate (length words.old) 0 }
{
    let Some(front) = words.first_chunk_mut() else {
        unreachable!()
    };
    seek_mark(program, name, front)
}
