// A reading from a dip tape: two whole numbers of millimetres, each with a tolerance.
ghost use Rattle.std.specs.Prelude.{T};
ghost use Rattle.reading.specs.Limits.{reachable, tolerable};

// No model, as for a logged reading. Four numbers and not two pairs, as a book and a page have them.
#[derive(Clone, Copy, Drop)]
pub struct Dipped {
    pub(crate) level: i32,
    pub(crate) level_tolerance: u16,
    pub(crate) head: i32,
    pub(crate) head_tolerance: u16,
    ghost ok: { T (reachable level) × T (tolerable level_tolerance) × T (reachable head) × T (tolerable head_tolerance) },
}
