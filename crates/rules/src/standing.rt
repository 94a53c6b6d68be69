// What has become of a reading: a corner of the ring, known to lie inside, or held until more is known.
#[derive(Clone, Copy, PartialEq, Eq, Debug)]
pub enum Standing {
    Corner,
    Inside,
    Held,
}
