//! A condition on the bricks below `n`, told for each of five.
ghost use Rattle.std.specs.Prelude.{◌≡◌, ℕ, Bool, ◌≤◌};
ghost use Rattle.afr_model_moves.specs.Register.{all};
ghost use Rattle.afr_discipline.specs.Five.{Gives};

/// Whether all of them meet it.
pub(crate) fn all_of(n: u8, a: bool, b: bool, c: bool, d: bool, e: bool) -> bool
    requires { n ≤ 5 }
    ensures { (test : ℕ → Bool) → Gives test a b c d e → result ≡ all n test }
{
    (n <= 4 || e) && (n <= 3 || d) && (n <= 2 || c) && (n <= 1 || b) && (n == 0 || a)
}
