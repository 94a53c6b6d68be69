// Changes of a ring: one corner more, and a start at the lowest number.
ghost use Rattle.std.specs.Prelude.{◌≡◌, ℕ, ◌<◌, ◌≤◌, length, slice_index, vec_capacity, vec_len};
ghost use Rattle.rules.specs.Placing.{placed, lowest_at as lowest_position};
ghost use Rattle.rules.specs.Trying.{all_inside};

use rules::standing::Standing;

// The corners become inside.
pub(crate) fn retire(standings: &mut [Standing], corners: &[usize])
    requires { (p : ℕ) → p < length corners.now → slice_index corners.now p < length standings.old }
    ensures { standings.new ≡ all_inside corners.now standings.old }
{
    for corner in corners {
        standings[*corner] = Standing::Inside;
    }
}

// k comes between the first corner and the one at position n, in place of those between.
pub(crate) fn place(ring: &mut Vec<usize>, n: usize, k: usize)
    requires some { 0 < n }
    requires within { n ≤ vec_len ring.old }
    requires room { vec_len ring.old < vec_capacity ring.old }
    ensures items { ring.new.items ≡ placed n ring.old.items k }
    ensures capacity { vec_capacity ring.new ≡ vec_capacity ring.old }
{
    ring.drain(1..n);
    ring.insert(1, k).unwrap();
}

// The position of the lowest number.
pub(crate) fn lowest_at(ring: &[usize]) -> usize
    ensures value { result ≡ lowest_position ring.now }
    ensures within { result ≤ length ring.now }
{
    let mut lowest = 0;
    for (p, number) in ring.iter().enumerate() {
        if *number <= ring[lowest] {
            lowest = p;
        }
    }
    lowest
}
