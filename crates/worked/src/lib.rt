// Readings worked through by hand, as rows of one list, and that every row holds of the definitions.
#![tactic(auto)]

ghost use Rattle.std.specs.Prelude.{◌≡◌, length};
ghost use Rattle.std.specs.List.{AllByRecursion};
ghost use Rattle.worked.specs.Rows.{Holds, rows};

// How many rows there are. What matters is the second clause: they all hold.
pub fn rows_that_hold() -> usize
    ensures count { result ≡ length rows }
    ensures hold { AllByRecursion Holds rows }
{
    10
}
