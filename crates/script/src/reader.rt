// Reads a text, script or draft, into a lent row of entries. A text is bytes, as it may hold any: a line that is
// no text is refused by its number. The form goes along as an enum of two cases, matched once; form, text and row
// are three arguments, as callers have them.
ghost use Rattle.std.specs.Prelude.{◌≡◌, ◌≤◌, [], ◌∷◌, length, IfOk, None};
ghost use Rattle.model.specs.declared.kinds.Sort.TheVariants.{Root};
ghost use Rattle.model.specs.Fields.{plain, draft};
ghost use Rattle.model.specs.Reading.{lines, read_into, counted, row_after};
ghost use Rattle.laws.specs.RoundTrips.{DraftWrittenIsRead};
ghost use Rattle.script.specs.Forms.{form_of};
ghost use Rattle.script.specs.Reads.{IsFirstLine, Returned, Filled, rest_read};
ghost use Rattle.script.specs.Trips.{ReadBack, DraftBack};

use crate::fields::place_of;
use crate::lines::{Form, read_line};
use crate::pending::{self, Pending};
use model::faults::{ReadFault, TextFault};
use model::grammar::{Grammar, is_allowed};
use model::kinds::Kind;
use model::nodes::{Entry, clear_row};

// As many nodes as a program has at most, and places as a row has at least.
pub const MOST_NODES: usize = 1024;

// As many bytes as a text has at most.
pub const LONGEST_TEXT: usize = 32768;

// The first line of a text, and what comes after it.
#[derive(Clone, Copy)]
struct FirstLine<'a> {
    entry: Entry,
    rest: &'a [u8],
}

// The entry of the first line, if a line end follows.
fn first_line(form: Form, text: &[u8]) -> Option<FirstLine<'_>>
    ensures { IsFirstLine (form_of form) text.now result }
{
    let end = place_of(text, b'\n')?;
    let entry = read_line(form, &text[..end])?;
    Some(FirstLine {
        entry,
        rest: &text[end + 1..],
    })
}

// The lines of a text that is short enough.
fn read_lines<G: Grammar>(form: Form, text: &[u8], row: &mut [Entry]) -> Result<usize, ReadFault>
    requires { 1024 ≤ length row.old }
    ensures { Returned (rest_read G.Grammar.grammar (form_of form) None (Root ∷ []) 0 (lines text.now)) result row.old row.new }
{
    let mut room = pending::EMPTY;
    let mut pending = Pending::for_root(&mut room);
    let mut rest = text;
    // the answer, and the place in the lent row: numbers from an iterator would end with the loop
    let mut count = 0;
    let mut root: Option<Kind> = None;
    while !rest.is_empty() {
        let Some(sort) = pending.take() else {
            return Err(ReadFault::AfterEnd(count));
        };
        if count == MOST_NODES {
            return Err(ReadFault::TooManyNodes);
        }
        let Some(line) = first_line(form, rest) else {
            return Err(ReadFault::WrongLine(count));
        };
        let node = line.entry.node;
        let head = root.unwrap_or(node.kind);
        if !is_allowed::<G>(head, sort, node.kind) {
            return Err(ReadFault::Misplaced(count));
        }
        pending.push_children(node.kind, node.number);
        row[count] = line.entry;
        count += 1;
        rest = line.rest;
        root = Some(head);
    }
    match pending.take() {
        None => Ok(count),
        Some(_) => Err(ReadFault::EndsEarly(count)),
    }
}

// The text into a row that is long enough.
fn fill_row<G: Grammar>(form: Form, text: &[u8], row: &mut [Entry]) -> Result<usize, TextFault>
    ensures { Filled (read_into G.Grammar.grammar (form_of form) text.now (length row.old)) result row.old row.new }
{
    if row.len() < MOST_NODES {
        return Err(TextFault::TooShort(0));
    }
    if text.len() > LONGEST_TEXT {
        return Err(TextFault::Read(ReadFault::TooLong));
    }
    Ok(read_lines::<G>(form, text, row)?)
}

// The same, with every place of the row unused after a refusal.
fn read_form<G: Grammar>(form: Form, text: &[u8], row: &mut [Entry]) -> Result<usize, TextFault>
    ensures value { result ≡ counted (read_into G.Grammar.grammar (form_of form) text.now (length row.old)) }
    ensures after { row.new ≡ row_after (read_into G.Grammar.grammar (form_of form) text.now (length row.old)) row.old }
{
    let filled = fill_row::<G>(form, text, row);
    if filled.is_err() {
        clear_row(row);
    }
    filled
}

// Scripts and drafts are two calls, since each promises its own way back; one call over both would have to say so by a trait.

// Reads a script: how many entries stand at the front of the row, or why it is refused.
// The row has at least 1,024 places. Beyond the entries it is as it was; after a refusal all places are unused.
pub fn read<G: Grammar>(text: &[u8], row: &mut [Entry]) -> Result<usize, TextFault>
    ensures value { result ≡ counted (read_into G.Grammar.grammar plain text.now (length row.old)) }
    ensures after { row.new ≡ row_after (read_into G.Grammar.grammar plain text.now (length row.old)) row.old }
    ensures back { ReadBack G.Grammar.grammar text.now result row.new }
    ensures within { IfOk result (λ n. (n ≤ 1024) × (n ≤ length row.new)) }
{
    read_form::<G>(Form::Script, text, row)
}

// Reads a draft in the same way, with the origins of its names.
pub fn read_draft<G: Grammar>(text: &[u8], row: &mut [Entry]) -> Result<usize, TextFault>
    ensures value { result ≡ counted (read_into G.Grammar.grammar draft text.now (length row.old)) }
    ensures after { row.new ≡ row_after (read_into G.Grammar.grammar draft text.now (length row.old)) row.old }
    ensures back { DraftBack G.Grammar.grammar text.now result row.new }
    ensures within { IfOk result (λ n. (n ≤ 1024) × (n ≤ length row.new)) }
    ensures again { DraftWrittenIsRead G.Grammar.grammar }
{
    read_form::<G>(Form::Draft, text, row)
}
