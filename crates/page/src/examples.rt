// Small pages, in memory that is just long enough, longer, and one byte too short.
use crate::page::write_page;
use reading::cause::Cause;
use rules::standing::Standing;

#[test]
fn three_corners(rt: HostRuntime) {
    let mut out = [7; 32];
    assert_eq!(rt;
        write_page("DIPPED", &[Standing::Corner; 3], &[0, 1, 2], &mut out),
        Ok(32)
    );
    assert_eq!(rt; &out, b"DIPPED 3\n0 C\n1 C\n2 C\nRING 0 1 2\n");
}

#[test]
fn nothing_read(rt: HostRuntime) {
    let mut out = [7; 16];
    assert_eq!(rt; write_page("LOGGED", &[], &[], &mut out), Ok(14));
    assert_eq!(rt; &out, b"LOGGED 0\nRING\n\x07\x07");
}

#[test]
fn largest_number(rt: HostRuntime) {
    let standings = [Standing::Inside, Standing::Held];
    let mut short = [7; 36];
    assert_eq!(rt;
        write_page("", &standings, &[usize::MAX], &mut short),
        Err(Cause::OutputMemory)
    );
    assert_eq!(rt; short, [7; 36]);
    let mut out = [7; 37];
    assert_eq!(rt; write_page("", &standings, &[usize::MAX], &mut out), Ok(37));
    assert_eq!(rt; &out, b" 2\n0 I\n1 H\nRING 18446744073709551615\n");
}
