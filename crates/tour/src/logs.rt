// Three logged readings, and what the quick judge says of them.
use anyhow::anyhow;
use judge::judge::Judge;
use judge::quick::Quick;
use reading::logged::Logged;

pub(crate) fn log(level: f64, head: f64) -> anyhow::Result<Logged> {
    Logged::new(level, head).map_err(|_| anyhow!("a logged reading was refused"))
}

// No Display: how a binary64 number is printed has no contract, so one of Logged would promise nothing.
fn show(rt: &HostRuntime, name: &str, reading: &Logged) -> anyhow::Result<()> {
    let level = reading.level();
    let head = reading.head();
    println!(rt; "{name} L {level} {head}")?;
    Ok(())
}

pub(crate) fn ask_about_logs(
    rt: &HostRuntime,
    a: &Logged,
    b: &Logged,
    c: &Logged,
) -> anyhow::Result<()> {
    show(rt, "a", a)?;
    show(rt, "b", b)?;
    show(rt, "c", c)?;
    let difference = Quick.difference(a, b, c);
    let weight = Quick.weight(a, b, c);
    let allowance = Quick.allowance(a, b, c);
    let word = Quick.ask(a, b, c);
    println!(rt; "  quick: D {difference:e} T {weight} E {allowance:e} {word}")?;
    Ok(())
}
