// The examples of EN 300 231 clause 7.3.1: pages, and what they are answered.
#![tactic(auto)]

ghost use Rattle.std.specs.Prelude.{◌≡◌, true};
ghost use Rattle.clause.specs.Clause.{Clause};

// The examples, as a promise of the crate.
pub fn lawful() -> bool
    ensures { (result ≡ true) × Clause }
{
    true
}
