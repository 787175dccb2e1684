// A preview page's programmes as plain bytes, for callers in another language. The call asks nothing of its caller.
#![tactic(auto)]

ghost use Rattle.std.specs.Prelude.{◌≤◌, true, ◌∷◌, ◌≡◌, length};
ghost use Rattle.viewed.specs.Viewed.{bytes_of, ReadInto};
ghost use Rattle.viewed.specs.Laws.{Laws};

use preview::Programme;

mod programme; // one programme's sixteen bytes

// The answer where lent bytes are more or fewer than those asked for: no number of the paper.
const WRONG_ROOM: u8 = 255;

fn fill(count: usize, programmes: [Programme; 24], out: &mut [u8])
    requires { (length out.old ≡ 385) × (count ≤ 24) }
    ensures { out.new ≡ count ∷ bytes_of programmes }
{
    out[0] = count as u8;
    for (i, q) in programmes.iter().enumerate() {
        programme::put(out, 1 + 16 * i, programme::bytes_of(*q));
    }
}

// The count, then 24 programmes of sixteen bytes. No refusal has the number 0.
pub fn read_into(page: &[u8], out: &mut [u8]) -> u8
    ensures read_into { ReadInto page.now out.old result out.new }
    ensures page_value { page.exit.now ≡ page.entry.now }
{
    if out.len() != 385 {
        return WRONG_ROOM;
    }
    match preview::read(page) {
        Err(refusal) => refusal.number(),
        Ok(got) => {
            fill(got.count, got.programmes, out);
            0
        }
    }
}

// The laws of this call, as a promise of the crate.
pub fn lawful() -> bool
    ensures { (result ≡ true) × Laws }
{
    true
}
