// A book for each cause of refusal, and for the order of the checks.
use crate::books::{DIPS, MIXED};
use std::alloc::Global;
use std::process::Abort;
use std::test::Fail;
use yearbook::book::Book;

// What is wrong, a good book, the bytes that are changed in it, and the refusal: number, byte and layer.
struct Case(
    &'static str,
    &'static [u8],
    &'static [(usize, u8)],
    (u8, usize, &'static str),
);

const CASES: [Case; 22] = [
    Case("level", MIXED, &[(14, 0x7f)], (1, 7, "VALUE")),
    Case("head", MIXED, &[(22, 0x7f)], (1, 15, "VALUE")),
    Case("dipped level", MIXED, &[(29, 0x7f)], (2, 26, "VALUE")),
    Case("dipped head", MIXED, &[(35, 0x80)], (2, 32, "VALUE")),
    Case("level's tolerance", MIXED, &[(31, 4)], (3, 30, "VALUE")),
    Case("head's tolerance", MIXED, &[(37, 4)], (3, 36, "VALUE")),
    Case("kind", MIXED, &[(23, b'd')], (4, 23, "RECORD")),
    Case("last kind", MIXED, &[(41, 3), (45, 0)], (4, 45, "RECORD")),
    Case("visit", MIXED, &[(41, 3)], (5, 45, "RECORD")),
    Case("length", MIXED, &[(41, 1), (43, b'N')], (5, 43, "RECORD")),
    Case("fixed part", DIPS, &[(30, b'L')], (5, 30, "RECORD")),
    Case("text of 5", MIXED, &[(41, 5)], (5, 38, "RECORD")),
    Case("text of 200", MIXED, &[(41, 200)], (5, 38, "RECORD")),
    Case("text of 201", MIXED, &[(41, 201)], (6, 38, "RECORD")),
    Case("mark", DIPS, &[(56, 0x43)], (8, 53, "BOOK")),
    Case("size", DIPS, &[(45, 0x2e)], (9, 45, "BOOK")),
    Case("size, last byte", MIXED, &[(49, 1)], (9, 46, "BOOK")),
    Case("1899", DIPS, &[(51, 0x6b)], (10, 51, "BOOK")),
    Case("2200", MIXED, &[(52, 0x98)], (10, 52, "BOOK")),
    Case("too few records", DIPS, &[(49, 4)], (11, 49, "BOOK")),
    Case("too many records", DIPS, &[(49, 2)], (11, 49, "BOOK")),
    Case("no records", MIXED, &[(46, 0)], (11, 50, "BOOK")),
];

// Two things are wrong: what is checked first is reported.
const ORDER: [Case; 6] = [
    Case("mark, size", DIPS, &[(45, 0x2e), (56, 0)], (8, 53, "BOOK")),
    Case("size, year", DIPS, &[(45, 0x2e), (51, 0)], (9, 45, "BOOK")),
    Case("year, kind", DIPS, &[(0, b'X'), (51, 0)], (10, 51, "BOOK")),
    Case("kind, count", DIPS, &[(15, 0), (49, 2)], (4, 15, "RECORD")),
    Case("dip, kind", DIPS, &[(6, 1), (15, 0)], (2, 3, "VALUE")),
    Case("dip, dip", MIXED, &[(31, 4), (35, 1)], (3, 30, "VALUE")),
];

fn changed(heap: Global, book: &[u8], changes: &[(usize, u8)]) -> Result<Vec<u8>, Fail> {
    let mut bytes = book.to_vec(heap)?;
    for (place, byte) in changes {
        *bytes.get_mut(*place).ok_or("no such byte")? = *byte;
    }
    Ok(bytes)
}

pub(crate) fn refusal_of(bytes: &[u8]) -> Result<(u8, usize, &'static str), Fail> {
    let refusal = Book::read(bytes).err().ok_or("the book is taken")?;
    let layer = refusal.cause.layer().ok_or("no layer")?;
    Ok((u8::from(refusal.cause), refusal.byte, layer.name()))
}

fn check_cases(rt: &impl Abort, heap: Global, cases: &[Case]) -> Result<(), Fail> {
    for Case(wrong, book, changes, refusal) in cases {
        let bytes = changed(heap, *book, *changes)?;
        assert_eq!(rt; refusal_of(bytes.as_slice())?, *refusal, "{}", *wrong);
    }
    Ok(())
}

// A test for each list, so that a failure names it.
#[test]
fn each_cause(rt: HostRuntime) -> Result<(), Fail> {
    check_cases(&rt, rt.alloc(), &CASES)
}

#[test]
fn first_of_two(rt: HostRuntime) -> Result<(), Fail> {
    check_cases(&rt, rt.alloc(), &ORDER)
}
