// The place to copy a file from (Rules 5.7; 02, Ticket 11): the first that is not blamed, by the direction that is asked for, among the places of ordinary mirrors,
// so that it is never the proxy's. First the direction, then the search from either end.
ghost use Rattle.std.specs.Prelude.{◌≡◌, ◌<◌};
ghost use Rattle.std.specs.Option.{IfSome};
ghost use Rattle.places.specs.Places.{place_or};
ghost use Rattle.mirroring.specs.Direction.{head_or, last_or};
ghost use Rattle.mirroring.specs.Source.{ordinary, good_from, source_in};

use crate::mirrors::{MIRRORS, Mirror, PLACES};

// The end that a source is looked for from.
#[derive(Clone, Copy)]
pub enum Direction {
    Lowest,
    Highest,
}

// From the first place up.
fn lowest(mirrors: [Mirror; PLACES]) -> Option<usize>
    ensures place { place_or 255 result ≡ head_or 255 (good_from 0 (ordinary mirrors)) }
    ensures below { IfSome result (λ i. i < 4) }
{
    mirrors[..MIRRORS].iter().position(|m| m.good())
}

// From the last place down.
fn highest(mirrors: [Mirror; PLACES]) -> Option<usize>
    ensures place { place_or 255 result ≡ last_or 255 (good_from 0 (ordinary mirrors)) }
    ensures below { IfSome result (λ i. i < 4) }
{
    for i in (0..MIRRORS).rev() {
        if mirrors[i].good() {
            return Some(i);
        }
    }
    None
}

// The place to copy from; where there is none, the definition has 255.
pub fn source(mirrors: [Mirror; PLACES], direction: Direction) -> Option<usize>
    ensures place { place_or 255 result ≡ source_in direction mirrors }
    ensures below { IfSome result (λ i. i < 4) }
{
    match direction {
        Direction::Lowest => lowest(mirrors),
        Direction::Highest => highest(mirrors),
    }
}
