// Texts made for the trials.
use std::alloc::{AllocError, Global};

// A head, a piece so many times, and a tail.
pub fn repeated(
    heap: Global,
    head: &[u8],
    piece: &[u8],
    times: usize,
    tail: &[u8],
) -> Result<Vec<u8>, AllocError> {
    let mut text = head.to_vec(heap)?;
    for _turn in 0..times {
        text.extend_from_slice(piece)?;
    }
    text.extend_from_slice(tail)?;
    Ok(text)
}
