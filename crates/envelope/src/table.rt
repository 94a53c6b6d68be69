// The lists of an envelope. All their memory is reserved when a year is opened.
ghost use Rattle.std.specs.Prelude.{◌≡◌, ◌<◌, IfOk, length, min};
ghost use Rattle.rules.specs.Envelopes.{empty};
ghost use Rattle.rules.specs.Settling.{added};

use rules::standing::Standing;
use std::alloc::{AllocError, Global};
use std::marker::Model;

// The most readings that a year takes.
const MOST: usize = 512;

#[derive(Drop)]
pub(crate) struct Table<R> {
    pub(crate) readings: Vec<R>,
    pub(crate) standings: Vec<Standing>,
    pub(crate) ring: Vec<usize>,
}

impl<R> Model for Table<R> {
    ghost use Rattle.envelope.specs.Years.{Year};

    ghost Value = { Year R };

    ghost use Rattle.envelope.specs.Rooms.{year_of, Ready};

    ghost view = { year_of };

    ghost invariant = { Ready };
}

impl<R> Table<R> {
    // Places for so many readings, but for no more than a year takes.
    pub(crate) fn new(heap: Global, places: usize) -> Result<Table<R>, AllocError>
    where
        R: Drop,
        ensures { IfOk result (λ t. t ≡ record { envelope = empty; capacity = min places 512 }) }
    {
        let capacity = places.min(MOST);
        let readings = Vec::with_capacity(heap, capacity)?;
        let standings = Vec::with_capacity(heap, capacity)?;
        let ring = Vec::with_capacity(heap, capacity)?;
        Ok(Table {
            readings,
            standings,
            ring,
        })
    }

    // One reading more, which is held. There must be a place for it.
    pub(crate) fn add(&mut self, x: R)
        requires { length self.old.envelope.readings < self.old.capacity }
        ensures { self.new ≡ record self.old { envelope = added self.old.envelope x } }
    {
        self.readings.push_reserved(x);
        self.standings.push_reserved(Standing::Held);
    }
}
