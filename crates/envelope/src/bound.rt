// A year that takes no more readings: it answers, and writes its page.
ghost use Rattle.std.specs.Prelude.{◌≡◌};
ghost use Rattle.rules.specs.Envelopes.{standing_at, corner_at};
ghost use Rattle.rules.specs.Asking.{located};
ghost use Rattle.page.specs.Text.{page_text};
ghost use Rattle.page.specs.Placing.{came, paged};

use crate::table::Table;
use judge::judge::Judge;
use page::page::write_page;
use reading::cause::Cause;
use reading::kind::Kind;
use rules::location::Location;
use rules::standing::Standing;
use std::marker::Model;

#[derive(Drop)]
pub struct BoundYear<R> {
    pub(crate) table: Table<R>,
}

impl<R> Model for BoundYear<R> {
    ghost use Rattle.envelope.specs.Years.{Year};

    ghost Value = { Year R };

    ghost view = { λ y. y.table };
}

// The answers are the table's, as they are of an open year.
impl<R: Kind> BoundYear<R> {
    pub fn locate<J: Judge<Reading = R>>(&self, judge: &J, reading: &R) -> Location
        ensures { result ≡ located (J.Judge.word judge.now) self.now.envelope reading.now }
    {
        self.table.located(judge, reading)
    }

    // The standing of the reading of a number.
    pub fn standing(&self, number: usize) -> Result<Standing, Cause>
        ensures { result ≡ standing_at self.now.envelope number }
    {
        self.table.standing(number)
    }

    // The number of the corner at a position of the ring.
    pub fn corner(&self, position: usize) -> Result<usize, Cause>
        ensures { result ≡ corner_at self.now.envelope position }
    {
        self.table.corner(position)
    }

    // Writes the page to the front of `out` and answers its length, or refuses where it does not fit and changes nothing.
    pub fn page(&self, out: &mut [u8]) -> Result<usize, Cause>
        ensures { came result out.new ≡ paged (page_text R.Kind.title self.now.envelope.standings self.now.envelope.ring) out.old }
    {
        let table = &self.table;
        write_page(R::name(), &table.standings, &table.ring, out)
    }
}
