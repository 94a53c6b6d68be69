// What is answered of a reading's number, and of a position of the ring.
ghost use Rattle.std.specs.Prelude.{◌≡◌, length, not, nat_lt};
ghost use Rattle.rules.specs.Envelopes.{standing_at, corner_at};

use crate::table::Table;
use reading::cause::Cause;
use rules::standing::Standing;

impl<R> Table<R> {
    // How many readings there are; each has a standing.
    pub(crate) fn len(&self) -> usize
        ensures readings { result ≡ length self.now.envelope.readings }
        ensures standings { result ≡ length self.now.envelope.standings }
    {
        self.readings.len()
    }

    pub(crate) fn is_full(&self) -> bool
        ensures { result ≡ not (nat_lt (length self.now.envelope.readings) self.now.capacity) }
    {
        self.readings.len() >= self.readings.capacity()
    }

    pub(crate) fn standing(&self, number: usize) -> Result<Standing, Cause>
        ensures { result ≡ standing_at self.now.envelope number }
    {
        self.standings
            .get(number)
            .copied()
            .ok_or(Cause::NoSuchReading)
    }

    pub(crate) fn corner(&self, position: usize) -> Result<usize, Cause>
        ensures { result ≡ corner_at self.now.envelope position }
    {
        self.ring.get(position).copied().ok_or(Cause::NoSuchCorner)
    }
}
