// A reading from a logger: two binary64 numbers, in millimetres.
ghost use Rattle.std.specs.Prelude.{T};
ghost use Rattle.reading.specs.Limits.{loggable};

// No model, by which contracts would speak of its numbers alone: a judge is certain of readings within their limits, and
// a model has no place for that.
#[derive(Clone, Copy, Drop)]
pub struct Logged {
    pub(crate) level: f64,
    pub(crate) head: f64,
    ghost ok: { T (loggable level) × T (loggable head) },
}
