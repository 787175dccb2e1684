// The title that is being read.
ghost use Rattle.std.specs.Prelude.{cond, not, ◌&&◌, ◌||◌, ◌≡◌};
ghost use Rattle.rows.specs.Title.{is_plain, is_opening, is_forbidden};
ghost use Rattle.rows.specs.Taken.{is_filled, is_done, advanced, begun, kept};

use crate::Reading;
use codes::Colour;

fn is_plain(k: Colour) -> bool
    ensures { result ≡ is_plain k }
{
    matches!(k, Colour::Plain)
}

// 'A pair `++`, or a pair `%%` with plain in force.'
#[tactic(auto, unfolding(crate::specs::Title::is_opening))]
fn is_opening(k: Colour, c: u8) -> bool
    ensures { result ≡ is_opening k c }
{
    codes::is_colour(c) | ((c == codes::CONCEAL) & is_plain(k))
}

// 'The text has no graphics code and no `:`.'
fn is_forbidden(c: u8) -> bool
    ensures { result ≡ is_forbidden c }
{
    codes::is_graphics(c) | (c == codes::MAGENTA)
}

pub(crate) fn is_filled(t: Reading) -> bool
    ensures { result ≡ is_filled t }
{
    matches!(t, Reading::Filled)
}

fn is_done(t: Reading) -> bool
    ensures { result ≡ is_done t }
{
    matches!(t, Reading::Done)
}

fn advanced(t: Reading) -> Reading
    ensures { result ≡ advanced t }
{
    match t {
        Reading::Opened => Reading::Empty,
        Reading::Empty => Reading::Filled,
        _ => t,
    }
}

// 'In each row only the leftmost title counts.'
fn begun(had: bool, opens: bool) -> Reading
    ensures { result ≡ begun had opens }
{
    if had {
        return Reading::Done;
    }
    if opens {
        return Reading::Opened;
    }
    Reading::Nothing
}

fn kept(t: Reading, dropped: bool) -> Reading
    ensures { result ≡ kept t dropped }
{
    if dropped {
        return begun(is_done(t), false);
    }
    advanced(t)
}

// A pair begins or ends a title; otherwise a graphics code or a `:` drops it, and so does a format that is given out.
pub(crate) fn next(k: Colour, t: Reading, c: u8, pair: bool, text: bool) -> Reading
    ensures { result ≡ cond pair (begun (is_done t || (text && (pair && is_filled t))) (is_opening k c)) (kept t (is_forbidden c || not text)) }
{
    if pair {
        let had = is_done(t) | (text & (pair & is_filled(t)));
        return begun(had, is_opening(k, c));
    }
    kept(t, is_forbidden(c) | !text)
}

pub(crate) fn column(k: Colour, was: u8, c: u8, p: u8, pair: bool) -> u8
    ensures { result ≡ cond (pair && is_opening k c) p was }
{
    if pair & is_opening(k, c) {
        return p;
    }
    was
}
