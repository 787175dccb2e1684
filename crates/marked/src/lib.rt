// The marked examples of document 01: one list, one statement.
#![tactic(auto)]

ghost use Rattle.std.specs.Prelude.{◌≡◌, true};
ghost use Rattle.marked.specs.Marked.{Marked};

// The examples, as a promise of the crate.
pub fn lawful() -> bool
    ensures { (result ≡ true) × Marked }
{
    true
}
