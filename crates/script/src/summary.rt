// What there is to say of a text: how many nodes of a kind, and which line a number means.
ghost use Rattle.std.specs.Prelude.{◌≡◌, length, slice_index_or};
ghost use Rattle.model.specs.Reading.{lines};
ghost use Rattle.script.specs.Summaries.{of_kind, no_line};

use model::kinds::Kind;
use model::nodes::Entry;

// How many nodes are of a kind.
pub fn count_kind(program: &[Entry], kind: Kind) -> usize
    ensures { result ≡ length (of_kind kind program.now) }
{
    program
        .iter()
        .map(|entry| usize::from(kind == entry.node.kind))
        .sum()
}

// The bytes of a line, without its end; none past the last line.
pub fn line(text: &[u8], number: usize) -> &[u8]
    ensures { result.now ≡ (slice_index_or (lines text.now) number no_line).bytes }
{
    text.split(|b| *b == b'\n').nth(number).unwrap_or(&[])
}
