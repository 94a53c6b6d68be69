// The run of sides that say right, of a ring on whose sides the judge is never undecided.
#[derive(Clone, Copy)]
pub(crate) struct Run {
    // the position where it begins, if it does
    pub(crate) start: usize,
    // how many sides say right
    pub(crate) rights: usize,
}
