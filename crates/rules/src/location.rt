// Where a reading lies that is only located, and not entered.
#[derive(Clone, Copy, PartialEq, Eq, Debug)]
pub enum Location {
    Inside,
    Outside,
    Undecided,
}
