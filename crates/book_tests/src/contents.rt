// What is handed out of a book that is taken.
use crate::books::{DIPS, EMPTY, MIXED};
use std::test::Fail;
use yearbook::book::Book;
use yearbook::noted::Noted;
use yearbook::record::Record;

// As Noted, but of plain numbers: a constant can't hold a reading, which is made by a call.
#[derive(Clone, Copy, PartialEq, Debug)]
enum Values<'a> {
    Logged(f64, f64),
    Dipped((i32, u16), (i32, u16)),
    Note(&'a [u8]),
}

fn values_of<'a>(record: Record<'a>) -> Result<Values<'a>, Fail> {
    Ok(match Noted::try_from(record)? {
        Noted::Logged(logged) => Values::Logged(logged.level(), logged.head()),
        Noted::Dipped(dipped) => Values::Dipped(
            (dipped.level(), dipped.level_tolerance()),
            (dipped.head(), dipped.head_tolerance()),
        ),
        Noted::Note(text) => Values::Note(text),
    })
}

struct Sample {
    bytes: &'static [u8],
    cover: &'static [u8],
    year: u16,
    // the first byte, the visit number and the values
    records: &'static [(usize, u16, Values<'static>)],
}

const SAMPLES: [Sample; 3] = [
    Sample {
        bytes: EMPTY,
        cover: b"",
        year: 1900,
        records: &[],
    },
    Sample {
        bytes: DIPS,
        cover: b"",
        year: 2023,
        records: &[
            (0, 5, Values::Dipped((0, 0), (0, 0))),
            (15, 6, Values::Dipped((10, 0), (0, 0))),
            (30, 7, Values::Dipped((0, 0), (10, 0))),
        ],
    },
    Sample {
        bytes: MIXED,
        cover: b"WEIR",
        year: 2199,
        records: &[
            (4, 513, Values::Logged(1.5, -2.5)),
            (23, 3, Values::Dipped((-1000, 2), (2000, 1))),
            (38, 65_535, Values::Note(b"RAIN")),
        ],
    },
];

#[test]
fn handed_out(rt: HostRuntime) -> Result<(), Fail> {
    for sample in &SAMPLES {
        let book = Book::read(sample.bytes)?;
        assert_eq!(rt; book.cover(), sample.cover);
        assert_eq!(rt; book.year(), sample.year);
        let mut seen = Vec::new(rt.alloc());
        for visit in book.records() {
            seen.push((visit.byte, visit.number, values_of(visit.record)?))?;
        }
        assert_eq!(rt; seen.as_slice(), sample.records);
    }
    Ok(())
}
