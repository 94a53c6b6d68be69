// The shortest and the longest book.
use crate::books::{DIP, DIP_COUNT, EMPTY, TRAILER};
use crate::refusals::refusal_of;
use std::alloc::{AllocError, Global};
use std::test::Fail;
use yearbook::book::{Book, MOST_BYTES};

fn longest(heap: Global) -> Result<Vec<u8>, AllocError> {
    let mut bytes = DIP.repeat(heap, DIP_COUNT)?;
    bytes.extend_from_slice(TRAILER)?;
    Ok(bytes)
}

#[test]
fn shortest_book(rt: HostRuntime) -> Result<(), Fail> {
    assert!(rt; Book::read(EMPTY).is_ok());
    let shorter = EMPTY.get(1..).ok_or("no byte")?;
    assert_eq!(rt; refusal_of(shorter)?, (7, 0, "BOOK"));
    Ok(())
}

#[test]
fn longest_book(rt: HostRuntime) -> Result<(), Fail> {
    let mut bytes = longest(rt.alloc())?;
    assert_eq!(rt; bytes.len(), MOST_BYTES);
    let book = Book::read(bytes.as_slice())?;
    assert_eq!(rt; book.records().count(), DIP_COUNT);
    bytes.push(0)?;
    assert_eq!(rt; refusal_of(bytes.as_slice())?, (7, 0, "BOOK"));
    Ok(())
}
