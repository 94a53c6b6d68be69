// Lists what a book on standard input holds, record by record, or prints why it is refused.
#![tactic(auto)]

use lines::listing::listing;
use std::io;
use std::io::Read;
use yearbook::book::MOST_BYTES;

fn main(rt: HostRuntime) -> io::Result<()> {
    let mut bytes = Vec::new(rt.alloc());
    // one byte more than a book may have is enough to refuse it
    rt.stdin()
        .take(MOST_BYTES as u64 + 1)
        .read_to_end(&mut bytes)?;
    rt.print(listing(rt.alloc(), &bytes)?)
}
