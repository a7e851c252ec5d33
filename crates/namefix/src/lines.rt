// Files read, and texts as they can be shown.
use anyhow::anyhow;
use model::nodes::Name;
use script::reader::LONGEST_TEXT;
use std::fs::File;
use std::io::Read;
use std::{fmt, io};

// One byte more than a text may have tells that a file is too long. By `as`, since a constant calls no `From`.
const ENOUGH: u64 = LONGEST_TEXT as u64 + 1;

fn first_bytes(rt: &HostRuntime, file: &str) -> io::Result<Vec<u8>> {
    let mut text = Vec::new(rt.alloc());
    File::open(rt, file)?.take(ENOUGH).read_to_end(&mut text)?;
    Ok(text)
}

// The bytes of a file, of a long one as many as are needed to refuse it.
pub fn read_file(rt: &HostRuntime, file: &str) -> anyhow::Result<Vec<u8>> {
    match first_bytes(rt, file) {
        Ok(text) => Ok(text),
        Err(error) => {
            eprintln!(rt; "namefix: {file}: {error}")?;
            Err(anyhow!("the file cannot be read"))
        }
    }
}

// Bytes as they can be shown, with that between the fields: what is no printed character goes by its number.
#[derive(Clone, Copy)]
pub struct Shown<'a> {
    pub bytes: &'a [u8],
    pub tab: &'static str,
}

fn is_printed(b: u8) -> bool {
    matches!(b, 32..=126)
}

impl fmt::Display for Shown<'_> {
    fn fmt<W: fmt::Write>(&self, f: &mut fmt::Formatter<W>) -> fmt::Result {
        // printed characters go out together, as each write by itself costs more than a byte
        for piece in self.bytes.chunk_by(|a, b| is_printed(*a) && is_printed(*b)) {
            match piece {
                [b'\t'] => f.write_str(self.tab)?,
                [other] if !is_printed(*other) => write!(f, "\\x{other:02x}")?,
                printed => f.write_str(str::from_utf8(printed).unwrap_or_default())?,
            }
        }
        Ok(())
    }
}

// A name as a text has it, for a formatter; what the writer puts into a buffer is bytes.
#[derive(Clone, Copy)]
pub struct Spelling<'a>(pub &'a Name);

impl fmt::Display for Spelling<'_> {
    fn fmt<W: fmt::Write>(&self, f: &mut fmt::Formatter<W>) -> fmt::Result {
        let Name { stem, mark } = self.0;
        for b in stem.iter().filter(|b| **b != 0) {
            f.write_char(char::from(*b))?;
        }
        if *mark > 0 {
            write!(f, "'{mark}")?;
        }
        Ok(())
    }
}
