// From a preview page to the desk: what a sheet that begins with the page's timers makes it say.
#![tactic(auto)]

ghost use Rattle.std.specs.Prelude.{◌≡◌, true};
ghost use Rattle.recording.specs.Recording.{Recording};

// The laws of it, as a promise of the crate.
pub fn lawful() -> bool
    ensures { (result ≡ true) × Recording }
{
    true
}
