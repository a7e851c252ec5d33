// Where a text goes, piece by piece: it is only counted, or written over a lent buffer.
ghost use Rattle.std.specs.Prelude.{◌≡◌, ℕ, List, length};

pub trait Sink {
    ghost use Rattle.std.specs.Prelude.{ℕ, List, length};
    ghost use Rattle.script.specs.Sinks.{SinkLaws};

    // room for so many bytes more
    ghost room: { Self → ℕ → Type 0 };

    // what it is with those bytes behind the others
    ghost grown: { Self → List ℕ → Self → Type 0 };

    ghost laws: { SinkLaws room grown };

    fn put(&mut self, bytes: &[u8])
        requires { room self.old (length bytes.now) }
        ensures { grown self.old bytes.now self.new };
}

// Counts the bytes of a text, as far as can be counted.
#[derive(Clone, Copy)]
pub struct Counter {
    pub length: usize,
}

impl Sink for Counter {
    ghost use Rattle.script.specs.Pages.{CanCount, Counts};
    ghost use Rattle.script.specs.PageLaws.{counter_laws};

    ghost room = { CanCount };

    ghost grown = { Counts };

    ghost laws = { counter_laws };

    fn put(&mut self, bytes: &[u8]) {
        self.length = self.length.saturating_add(bytes.len());
    }
}

// A lent buffer, and how far it is written.
#[derive(Drop)]
pub struct Page<'a> {
    pub bytes: &'a mut [u8],
    pub end: usize,
}

impl Sink for Page<'_> {
    ghost use Rattle.script.specs.Pages.{HasRoom, Pastes};
    ghost use Rattle.script.specs.PageLaws.{page_laws};

    ghost room = { HasRoom };

    ghost grown = { Pastes };

    ghost laws = { page_laws };

    fn put(&mut self, bytes: &[u8]) {
        let end = self.end + bytes.len();
        self.bytes[self.end..end].copy_from_slice(bytes);
        self.end = end;
    }
}
