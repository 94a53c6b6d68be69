// How logged readings are made, within their limits, and read again.
ghost use Rattle.std.specs.Prelude.{◌≡◌};
ghost use Rattle.reading.specs.Limits.{loggable};
ghost use Rattle.reading.specs.Makes.{logged_made, logged_seen, logged_numbers};

use crate::logged::Logged;
use crate::refusal::ReadingRefusal;

fn in_range(x: f64) -> bool
    ensures { result ≡ loggable x }
{
    if x != x {
        false
    } else if x == 0.0 {
        x.is_sign_positive()
    } else {
        let size = x.abs();
        // and no range: the definition has these two comparisons
        9.5367431640625e-7 <= size && size <= 1048576.0
    }
}

impl Logged {
    pub fn new(level: f64, head: f64) -> Result<Logged, ReadingRefusal>
        ensures { logged_seen result ≡ logged_made level head }
    {
        if !in_range(level) {
            return Err(ReadingRefusal::LoggedLevel);
        }
        if !in_range(head) {
            return Err(ReadingRefusal::LoggedHead);
        }
        Ok(Logged { level, head })
    }

    pub fn level(&self) -> f64
        ensures { result ≡ (logged_numbers self.now).0 }
    {
        self.level
    }

    pub fn head(&self) -> f64
        ensures { result ≡ (logged_numbers self.now).1 }
    {
        self.head
    }
}
