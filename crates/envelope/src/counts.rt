// How many readings are held.
ghost use Rattle.std.specs.Prelude.{◌≡◌};
ghost use Rattle.rules.specs.Trying.{is_held as held, held_count as held_among};

use rules::standing::Standing;

fn is_held(standing: Standing) -> bool
    ensures { result ≡ held standing }
{
    standing == Standing::Held
}

#[tactic(auto, using(crate::proofs::Counting::held_count_is))]
pub(crate) fn held_count(standings: &[Standing]) -> usize
    ensures { result ≡ held_among standings.now }
{
    standings.iter().filter(|s| is_held(**s)).count()
}
