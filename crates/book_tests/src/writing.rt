// Books that are written: their bytes, the memory that they need, and the longest one.
use crate::books::{DIPS, MIXED};
use bookwriter::rewrite::rewrite;
use bookwriter::writer::{Unfinished, Writer};
use reading::cause::Cause;
use reading::dipped::Dipped;
use std::process::Abort;
use std::test::Fail;
use yearbook::book::MOST_BYTES;
use yearbook::noted::Noted;

// A visit number, a level and a head.
const THREE_DIPS: [(u16, i32, i32); 3] = [(5, 0, 0), (6, 10, 0), (7, 0, 10)];

// Of a refused end: why, and the writer, which can still be used.
fn refused(ended: Result<usize, Unfinished>) -> Result<Unfinished, Fail> {
    Ok(ended.err().ok_or("the book is ended")?)
}

fn put_dips(rt: &impl Abort, writer: &mut Writer, out: &mut [u8]) -> Result<(), Fail> {
    for (visit, level, head) in &THREE_DIPS {
        let reading = Dipped::new(*level, 0, *head, 0)?;
        assert_eq!(rt; writer.put(out, *visit, Noted::Dipped(reading)), Ok(15));
    }
    Ok(())
}

// Each call is refused first where memory is one byte too short, and then it has just enough.
#[test]
fn small_book(rt: HostRuntime) -> Result<(), Fail> {
    let mut out = vec![in rt.alloc(); 7; DIPS.len()]?;
    let (mut writer, added) = Writer::begin(&mut out, b"")?;
    assert_eq!(rt; added, 0);
    let reading = Dipped::new(0, 0, 0, 0)?;
    assert_eq!(rt;
        writer.put(&mut [7; 14], 5, Noted::Dipped(reading)),
        Err(Cause::OutputMemory)
    );
    put_dips(&rt, &mut writer, &mut out)?;
    let mut short = [7; 56];
    let Unfinished { writer, cause } = refused(writer.finish(&mut short, 2023))?;
    assert_eq!(rt; cause, Cause::OutputMemory);
    assert_eq!(rt; short, [7; 56]);
    let Unfinished { writer, cause } = refused(writer.finish(&mut out, 2200))?;
    assert_eq!(rt; cause, Cause::Year);
    assert_eq!(rt; writer.finish(&mut out, 2023).map_err(Cause::from)?, 12);
    assert_eq!(rt; out.as_slice(), DIPS);
    Ok(())
}

#[test]
fn cover_needs_memory(rt: HostRuntime) {
    let mut out = [7; 3];
    assert_eq!(rt;
        Writer::begin(&mut out, b"WEIR").err(),
        Some(Cause::OutputMemory)
    );
    assert_eq!(rt; out, [7; 3]);
}

#[test]
fn long_note(rt: HostRuntime) -> Result<(), Fail> {
    let mut out = [7; 300];
    let (mut writer, _) = Writer::begin(&mut out, b"")?;
    assert_eq!(rt;
        writer.put(&mut out, 1, Noted::Note(&[b'n'; 201])),
        Err(Cause::NoteLength)
    );
    assert_eq!(rt; out[0], 7);
    assert_eq!(rt; writer.put(&mut out, 1, Noted::Note(&[b'n'; 200])), Ok(204));
    Ok(())
}

// With this many bytes of cover one empty note still fits, and no other.
const LONG_COVER: usize = MOST_BYTES - 16;

#[test]
fn fullest_book(rt: HostRuntime) -> Result<(), Fail> {
    let mut out = vec![in rt.alloc(); 7; MOST_BYTES + 8]?;
    let cover = vec![in rt.alloc(); b'c'; LONG_COVER + 5]?;
    assert_eq!(rt;
        Writer::begin(&mut out, &cover).err(),
        Some(Cause::BookFull)
    );
    let (mut writer, added) = Writer::begin(&mut out, &cover[0..LONG_COVER])?;
    assert_eq!(rt; added, LONG_COVER);
    assert_eq!(rt;
        writer.put(&mut out, 1, Noted::Note(b"n")),
        Err(Cause::BookFull)
    );
    assert_eq!(rt; writer.put(&mut out, 1, Noted::Note(b"")), Ok(4));
    assert_eq!(rt;
        writer.put(&mut out, 2, Noted::Note(b"")),
        Err(Cause::BookFull)
    );
    assert_eq!(rt; writer.finish(&mut out, 1900).map_err(Cause::from)?, 12);
    assert_eq!(rt; out.iter().skip(MOST_BYTES).count(), 8);
    assert_eq!(rt; out.last().copied(), Some(7));
    Ok(())
}

#[test]
fn written_again(rt: HostRuntime) {
    let mut out = [7; 61];
    assert_eq!(rt; rewrite(MIXED, &mut out), Ok(MIXED.len()));
    assert_eq!(rt; out.get(0..58), Some(MIXED));
    assert_eq!(rt; out.get(58..), Some(&[7u8; 3][0..3]));
    assert_eq!(rt; rewrite(MIXED, &mut [7; 57]), Err(Cause::OutputMemory));
    assert_eq!(rt; rewrite(b"no book", &mut out), Err(Cause::BookLength));
}
