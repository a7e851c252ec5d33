// Writing at the edges of a buffer, and back again.
use crate::refused::{Refused, heard};
use crate::texts::repeated;
use model::faults::TextFault;
use model::grammar::ByRoot;
use model::nodes::Entry;
use script::reader::{read, read_draft};
use script::writer::write;
use std::test::Fail;

// Whether a program is written as that script.
fn is_written_as(script: &[u8], program: &[Entry], buffer: &mut [u8]) -> Result<bool, TextFault> {
    let length = write(program, buffer)?;
    Ok(&buffer[..length] == script)
}

// Whether a script comes back.
fn write_back(text: &[u8], row: &mut [Entry], buffer: &mut [u8]) -> Result<bool, TextFault> {
    let count = read::<ByRoot>(text, row)?;
    is_written_as(text, &row[..count], buffer)
}

// Whether a draft is written as that script.
fn write_program(
    draft: &[u8],
    script: &[u8],
    row: &mut [Entry],
    buffer: &mut [u8],
) -> Result<bool, TextFault> {
    let count = read_draft::<ByRoot>(draft, row)?;
    is_written_as(script, &row[..count], buffer)
}

const TEXT: &[u8] = b"flat\t2\nslot\ta'65535\nemit\nnum\t2147483647\n";

// One byte short, just long enough, and longer.
#[test]
fn buffers(rt: HostRuntime) -> Result<(), Fail> {
    let mut row = vec![in rt.alloc(); Entry::UNUSED; 1024]?;
    let mut short = [7u8; 39];
    assert_eq!(rt;
        heard(write_back(TEXT, &mut row, &mut short)),
        Err(Refused(13, 40))
    );
    assert_eq!(rt; short, [7u8; 39]);
    let mut exact = [7u8; 40];
    assert_eq!(rt; heard(write_back(TEXT, &mut row, &mut exact)), Ok(true));
    let mut long = [7u8; 42];
    assert_eq!(rt; heard(write_back(TEXT, &mut row, &mut long)), Ok(true));
    assert_eq!(rt; long[39], 10);
    assert_eq!(rt; long[40], 7);
    assert_eq!(rt; long[41], 7);
    Ok(())
}

// A draft's program is written without its origins.
#[test]
fn origins_are_not_written(rt: HostRuntime) -> Result<(), Fail> {
    let mut row = vec![in rt.alloc(); Entry::UNUSED; 1024]?;
    let mut buffer = [0u8; 64];
    let draft = b"flat\t1\nslot\ta\ts5\n";
    let script = b"flat\t1\nslot\ta\n";
    assert_eq!(rt;
        heard(write_program(draft, script, &mut row, &mut buffer)),
        Ok(true)
    );
    Ok(())
}

#[test]
fn largest(rt: HostRuntime) -> Result<(), Fail> {
    let heap = rt.alloc();
    let text = repeated(heap, b"flat\t1023\n", b"label\tabcdefgh'65535\n", 1023, b"")?;
    let mut row = vec![in heap; Entry::UNUSED; 1025]?;
    let mut buffer = vec![in heap; 0u8; 32768]?;
    assert_eq!(rt; heard(write_back(&text, &mut row, &mut buffer)), Ok(true));
    // 1,025 nodes are no program
    assert_eq!(rt; heard(write(&row, &mut buffer)), Err(Refused(5, 1024)));
    Ok(())
}
