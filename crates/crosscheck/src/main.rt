// Compares the quick judge's binary64 with the same operations in whole numbers, on a fixed set of triples.
#![tactic(auto)]

mod asked;
mod limits;
mod report;
mod source;
mod steps;
mod tally;
mod triples;
mod twice;
mod whole;

use crate::limits::Limits;
use crate::report::Report;
use crate::source::Source;
use crate::tally::Words;
use crate::triples::{
    Triple, edge, extremes, last_ties, line, near, product_ties, random, sum_ties,
};
use anyhow::anyhow;
use std::io;

#[derive(Drop)]
struct Comparison<'a> {
    rt: &'a HostRuntime,
    source: Source,
    report: Report,
}

impl Comparison<'_> {
    // Compares the triples of a family, as many as are wanted.
    fn add<F: Fn(&mut Source) -> Triple>(
        &mut self,
        family: &str,
        size: u64,
        draw: F,
    ) -> io::Result<()>
        requires { F.IsAlwaysCallable draw }
    {
        let mut words = Words::default();
        for _ in 0..size {
            if let Some(word) = self.report.add(&draw(&mut self.source)) {
                words.add(word);
            }
        }
        println!(self.rt; "{family:<16}{size:>10}{words}")
    }
}

fn compare_all(rt: &HostRuntime) -> io::Result<Report> {
    let mut all = Comparison {
        rt,
        source: Source::new(),
        report: Report::new(),
    };
    println!(rt; "FAMILY             TRIPLES      LEFT     RIGHT  UNDECIDED")?;
    all.add("random", 30_000, random)?;
    all.add("extremes", 20_000, extremes)?;
    all.add("sum ties", 10_000, sum_ties)?;
    all.add("product ties", 10_000, product_ties)?;
    all.add("D and T ties", 10_000, last_ties)?;
    all.add("near", 10_000, near)?;
    all.add("on a line", 20_000, line)?;
    all.add("D at E", 10_000, edge)?;
    Ok(all.report)
}

fn print_steps(rt: &HostRuntime, report: &Report) -> io::Result<()> {
    println!(rt; "OPERATION            AGREE   INEXACT  TIES DOWN   TIES UP")?;
    for tally in &report.steps {
        println!(rt; "{tally}")?;
    }
    Ok(())
}

fn run(rt: &HostRuntime) -> anyhow::Result<()> {
    let report = compare_all(rt)?;
    print_steps(rt, &report)?;
    let answers = &report.answers;
    println!(rt; "{answers}")?;
    let limits = Limits::tried();
    println!(rt; "{limits}")?;
    let triples = report.triples;
    let differences = report.differences();
    println!(rt; "{triples} triples, {differences} differences")?;
    if differences > 0 || !limits.hold() {
        return Err(anyhow!("the judge is not as stated"));
    }
    Ok(())
}

fn main(rt: HostRuntime) -> anyhow::Result<()> {
    run(&rt)
}
