//! How many rows each of several streams takes that read a run of rows at the same time.

ghost use Rattle.std.specs.Prelude.{◌*◌, ◌≤◌};

/// The bytes of a page of memory.
const PAGE: u64 = 4096;

/// How many rows each of so many streams takes of so many rows of this width: an equal share, or up
/// to a sixteenth fewer.
pub fn share_of(rows: u32, width: u32, streams: u32) -> u32
    requires { 1 ≤ streams }
    ensures { streams * result ≤ rows }
{
    apart(rows / streams, width)
}

/// How many rows a stream takes of at most so many rows of this width. Streams that stand at the
/// same place of their pages come to new pages at the same time, which makes them slower; so it
/// looks for a number of rows that keeps each stream an eighth of a page or more apart there from
/// the three after it.
fn apart(most: u32, width: u32) -> u32
    ensures { result ≤ most }
{
    for less in 0..(most / 16).min(64) {
        let distance = u64::from(most - less) * u64::from(width) % PAGE;
        if is_apart(distance) && is_apart(2 * distance) && is_apart(3 * distance) {
            return most - less;
        }
    }
    most
}

/// Whether two streams so many bytes apart are an eighth of a page or more apart in their pages.
fn is_apart(distance: u64) -> bool {
    let place = distance % PAGE;
    PAGE / 8 <= place && place <= PAGE - PAGE / 8
}
