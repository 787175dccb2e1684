// Demand 3: what holds after every sequence of calls from a fresh desk. The statements are in specs/.
#![tactic(auto)]

ghost use Rattle.std.specs.Prelude.{true, ◌≡◌};
ghost use Rattle.history.specs.Laws.{Laws};

// The laws of every sequence of calls, as a promise of the crate.
pub fn lawful() -> bool
    ensures { (result ≡ true) × Laws }
{
    true
}
