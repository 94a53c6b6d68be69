// Follows worked readings through the library, call by call, and prints each question and each answer.
#![tactic(auto)]

mod dips;
mod logs;

use dips::ask_about_dips;
use logs::ask_about_logs;
use worked::rows_that_hold;

// Beside the line from (0, 0) to (10, 0), dipped without tolerance.
fn beside_dips(rt: &HostRuntime) -> anyhow::Result<()> {
    let a = dips::dip(0, 0, 0, 0)?;
    let b = dips::dip(10, 0, 0, 0)?;
    ask_about_dips(rt, &a, &b, &dips::dip(0, 0, 10, 0)?)?;
    ask_about_dips(rt, &a, &b, &dips::dip(5, 3, 2, 1)?)?;
    ask_about_dips(rt, &a, &b, &dips::dip(5, 1, 1, 1)?)?;
    ask_about_dips(rt, &a, &b, &dips::dip(5, 1, -2, 1)?)
}

// Beside the line from (1, 1) to (2, 2), logged: 2^-45 above it, and 2^-46.
fn beside_logs(rt: &HostRuntime) -> anyhow::Result<()> {
    let a = logs::log(1.0, 1.0)?;
    let b = logs::log(2.0, 2.0)?;
    ask_about_logs(
        rt,
        &a,
        &b,
        &logs::log(3.0, 3.000000000000028421709430404007434844970703125)?,
    )?;
    ask_about_logs(
        rt,
        &a,
        &b,
        &logs::log(3.0, 3.0000000000000142108547152020037174224853515625)?,
    )
}

fn tour(rt: &HostRuntime) -> anyhow::Result<()> {
    beside_dips(rt)?;
    beside_logs(rt)?;
    let rows = rows_that_hold();
    println!(rt; "{rows} worked rows hold of the definitions")?;
    Ok(())
}

fn main(rt: HostRuntime) -> anyhow::Result<()> {
    tour(&rt)
}
