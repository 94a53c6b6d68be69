// A page: a title with the count of readings, a line for each reading's standing, and the ring.
ghost use Rattle.std.specs.Prelude.{◌≡◌, ◌^◌, ◌-◌, ◌≤◌, ◌++◌, length, drop, min, decimal};
ghost use Rattle.page.specs.Text.{letter as letter_of, standing_lines, ring_line, page_text};
ghost use Rattle.page.specs.Placing.{came, paged};
ghost use Rattle.page.specs.Sheet.{Puts};

use itoa::Buffer;
use reading::cause::Cause;
use rules::standing::Standing;

// Memory that bytes are put into one after another. What is past its end is counted and not written, so that with no
// memory a text is only measured.
// `Display` and `write!` will not do: no contract rules out their `Err`, and a page that fits must not be refused.
#[derive(Drop)]
struct Sheet<'a> {
    out: &'a mut [u8],
    // How many bytes were put, or `usize::MAX` where there were more. No memory has so many, so an Option would only add
    // a case.
    end: usize,
}

impl<'a> Sheet<'a> {
    fn put(&mut self, bytes: &[u8])
        ensures { Puts self.old bytes.now self.new }
    {
        let at = self.end;
        self.end = at.saturating_add(bytes.len());
        if self.end <= self.out.len() {
            self.out[at..self.end].copy_from_slice(bytes);
        }
    }

    fn put_number(&mut self, number: usize)
        ensures { Puts self.old (decimal number) self.new }
    {
        self.put(Buffer::new().format(number).as_bytes());
    }

    fn put_standings(&mut self, standings: &[Standing])
        ensures { Puts self.old (standing_lines 0 standings.now) self.new }
    {
        for (i, standing) in standings.iter().enumerate() {
            self.put_number(i);
            self.put(&[b' ', letter(*standing), b'\n']);
        }
    }

    fn put_ring(&mut self, ring: &[usize])
        ensures { Puts self.old (ring_line ring.now) self.new }
    {
        self.put(b"RING");
        for number in ring {
            self.put(b" ");
            self.put_number(*number);
        }
        self.put(b"\n");
    }
}

// Both types are other crates', so neither `From` nor a method can stand here.
fn letter(standing: Standing) -> u8
    ensures { result ≡ letter_of standing }
{
    match standing {
        Standing::Corner => b'C',
        Standing::Inside => b'I',
        Standing::Held => b'H',
    }
}

// What makes a page is given one by one, as to write_page, which alone calls this.
// Puts a page where it fits, and answers its length, or `usize::MAX` where that is beyond it.
fn put_page(out: &mut [u8], title: &str, standings: &[Standing], ring: &[usize]) -> usize
    ensures end { let text = page_text title.now standings.now ring.now in
        result ≡ min (length text) (2 ^ 64 - 1) }
    ensures there { let text = page_text title.now standings.now ring.now in
        length text ≤ length out.old → out.new ≡ text ++ drop (length text) out.old }
{
    let mut sheet = Sheet { out, end: 0 };
    sheet.put(title.as_bytes());
    sheet.put(b" ");
    sheet.put_number(standings.len());
    sheet.put(b"\n");
    sheet.put_standings(standings);
    sheet.put_ring(ring);
    sheet.end
}

// Writes a page to the front of `out` and answers its length, or refuses where it does not fit and changes nothing.
#[tactic(auto, unfolding(crate::specs::Placing::paged))]
pub fn write_page(
    title: &str,
    standings: &[Standing],
    ring: &[usize],
    out: &mut [u8],
) -> Result<usize, Cause>
    ensures { came result out.new ≡ paged (page_text title.now standings.now ring.now) out.old }
{
    if put_page(&mut [], title, standings, ring) > out.len() {
        return Err(Cause::OutputMemory);
    }
    Ok(put_page(out, title, standings, ring))
}
