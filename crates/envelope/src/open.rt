// A year that takes readings, until it is bound.
ghost use Rattle.std.specs.Prelude.{◌≡◌, IfOk, min};
ghost use Rattle.rules.specs.Envelopes.{empty, standing_at, corner_at};
ghost use Rattle.rules.specs.Asking.{located};
ghost use Rattle.rules.specs.Calls.{enter as entering, recheck as rechecking, entered, rechecked};
ghost use Rattle.rules.specs.Promise.{Promise};
ghost use Rattle.envelope.specs.Calling.{Called};

use crate::bound::BoundYear;
use crate::table::Table;
use judge::judge::Judge;
use reading::cause::Cause;
use reading::kind::Kind;
use rules::location::Location;
use rules::promise::promise;
use rules::standing::Standing;
use std::alloc::{AllocError, Global};
use std::marker::Model;

#[derive(Drop)]
pub struct OpenYear<R> {
    table: Table<R>,
}

impl<R> Model for OpenYear<R> {
    ghost use Rattle.envelope.specs.Years.{Year};

    ghost Value = { Year R };

    ghost view = { λ y. y.table };
}

impl<R: Kind> OpenYear<R> {
    // A year with places for so many readings, but for no more than 512.
    pub fn new(heap: Global, places: usize) -> Result<OpenYear<R>, AllocError>
    where
        R: Drop,
        ensures year { IfOk result (λ y. y ≡ record { envelope = empty; capacity = min places 512 }) }
        ensures promise { Promise R.Kind.stands }
    {
        promise::<R>();
        let table = Table::new(heap, places)?;
        Ok(OpenYear { table })
    }

    // The number of the reading, and its standing once all is settled; a year that is full refuses and does not change.
    pub fn enter<J: Judge<Reading = R>>(
        &mut self,
        reading: R,
        judge: &J,
    ) -> Result<(usize, Standing), Cause>
    where
        R: Drop,
        ensures { Called R.Kind.stands (J.Judge.word judge.now) (entering reading) self.old (entered result) self.new }
    {
        if self.table.is_full() {
            return Err(Cause::EnvelopeFull);
        }
        let newest = self.table.len();
        self.table.add(reading);
        self.table.settle(judge);
        Ok((newest, self.table.standing(newest)?))
    }

    // How many readings are no longer held.
    pub fn recheck<J: Judge<Reading = R>>(&mut self, judge: &J) -> usize
        ensures { Called R.Kind.stands (J.Judge.word judge.now) rechecking self.old (rechecked result) self.new }
    {
        let before = self.table.held();
        self.table.settle(judge);
        before - self.table.held()
    }

    pub fn locate<J: Judge<Reading = R>>(&self, judge: &J, reading: &R) -> Location
        ensures { result ≡ located (J.Judge.word judge.now) self.now.envelope reading.now }
    {
        self.table.located(judge, reading)
    }

    // The standing of the reading of a number.
    pub fn standing(&self, number: usize) -> Result<Standing, Cause>
        ensures { result ≡ standing_at self.now.envelope number }
    {
        self.table.standing(number)
    }

    // The number of the corner at a position of the ring.
    pub fn corner(&self, position: usize) -> Result<usize, Cause>
        ensures { result ≡ corner_at self.now.envelope position }
    {
        self.table.corner(position)
    }

    // The same year, which takes no more readings.
    pub fn bind(self) -> BoundYear<R>
        ensures { result ≡ self }
    {
        BoundYear { table: self.table }
    }
}
