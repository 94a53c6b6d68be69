// Three dips, and what each judge of dips says of them.
use anyhow::anyhow;
use judge::centre::Centre;
use judge::corner::Corner;
use judge::judge::Judge;
use judge::staged::Staged;
use reading::dipped::Dipped;

pub(crate) fn dip(
    level: i32,
    level_tolerance: u16,
    head: i32,
    head_tolerance: u16,
) -> anyhow::Result<Dipped> {
    Dipped::new(level, level_tolerance, head, head_tolerance).map_err(|_| anyhow!(
        "a dip was refused"
    ))
}

pub(crate) fn ask_about_dips(
    rt: &HostRuntime,
    a: &Dipped,
    b: &Dipped,
    c: &Dipped,
) -> anyhow::Result<()> {
    println!(rt; "a D {a}\nb D {b}\nc D {c}")?;
    let area = Centre.area(a, b, c);
    let doubt = Centre.doubt(a, b, c);
    let word = Centre.ask(a, b, c);
    println!(rt; "  centre: C {area} R {doubt} {word}")?;
    let (least, greatest) = Corner.sweep(a, b, c);
    let word = Corner.ask(a, b, c);
    println!(rt; "  corner: least {least} greatest {greatest} {word}")?;
    let staged = Staged {
        first: Centre,
        second: Corner,
    };
    let word = staged.ask(a, b, c);
    println!(rt; "  centre, then corner: {word}")?;
    Ok(())
}
