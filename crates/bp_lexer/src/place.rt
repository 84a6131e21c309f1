ghost use Rattle.std.specs.Prelude.{◌≡◌, ◌+◌, ◌<◌, ◌≤◌, ◌^◌, length};
ghost use Rattle.std.specs.List.{count_by};
ghost use Rattle.bp_faults.specs.declared.limits.TheConstants.{LARGEST_LIST_FILE};
ghost use Rattle.bp_lexer.specs.Places.{begins_char, place_at};
ghost use Rattle.bp_lexer.specs.Search.{place_after, place_along};

use bp_faults::Place;

fn begins_char(byte: u8) -> bool
    ensures { result ≡ begins_char byte }
{
    byte < 128 || byte >= 192
}

/// How many of the bytes begin a character.
pub fn char_count(bytes: &[u8]) -> usize
    ensures { result ≡ count_by begins_char bytes.now }
{
    let mut count = 0;
    for byte in bytes {
        if begins_char(*byte) {
            count += 1;
        }
    }
    count
}

/// The place behind a byte.
pub fn place_after(place: Place, byte: u8) -> Place
    requires line { place.line < 2 ^ 31 }
    requires col { place.col < 2 ^ 31 }
    ensures { result ≡ place_after place byte }
{
    if byte == b'\n' {
        Place {
            file: place.file,
            line: place.line + 1,
            col: 1,
        }
    } else if begins_char(byte) {
        Place {
            file: place.file,
            line: place.line,
            col: place.col + 1,
        }
    } else {
        place
    }
}

/// The place so many columns further on.
pub fn place_along(place: Place, count: usize) -> Place
    requires { place.col + count < 2 ^ 32 }
    ensures { result ≡ place_along place count }
{
    Place {
        file: place.file,
        line: place.line,
        col: place.col + count as u32,
    }
}

/// The place at `to`, from that at `from`.
pub fn advance(bytes: &[u8], from: usize, to: usize, place: Place) -> Place
    requires order { from ≤ to }
    requires within { to ≤ length bytes.now }
    requires short { length bytes.now ≤ LARGEST_LIST_FILE }
    requires at { place ≡ place_at place.file bytes.now from }
    ensures { result ≡ place_at place.file bytes.now to }
{
    let mut here = place;
    for i in from..to {
        here = place_after(here, bytes[i]);
    }
    here
}
