ghost use Rattle.std.specs.Prelude.{◌≡◌, ◌≤◌, length, IfSome, IfOk, IfErr};
ghost use Rattle.std.specs.Io.KnownBytes.{Consumes};
ghost use Rattle.check_series.specs.Loads.{Within};

use std::io::Read;
use std::rt::Files;
use std::{fmt, fs};

const MOST: usize = 16384;

// One byte more than a file may have, so that a longer one shows.
pub const ROOM: usize = MOST + 1;

// A file that can't be read or has too many bytes, by its name.
#[derive(Clone, Copy, Debug, PartialEq, Eq)]
pub struct Unread {
    pub name: &'static str,
}

impl fmt::Display for Unread {
    ghost use Rattle.std.specs.Prelude.{◌++◌, Some, codes};

    ghost output = { λ unread. Some (codes "unread " ++ unread.name.now) };

    fn fmt<W: fmt::Write>(&self, f: &mut fmt::Formatter<W>) -> fmt::Result {
        write!(f, "unread {}", self.name)
    }
}

// Reads a file that is open, in pieces as they come. A folder opens and can't be read. The bounds are of the result, here and below,
// as a slice of the room has them: a struct for them would be no plainer.
fn fill<'a, R: Read>(file: &mut R, room: &'a mut [u8]) -> Option<&'a [u8]>
    ensures within { IfSome result (λ read. length read.now ≤ length room.old) }
    ensures most { IfSome result (λ read. length read.now ≤ MOST) }
    ensures read { IfSome result (λ read. Consumes (R.remaining file.old) (R.remaining file.new) read.now) }
{
    // By hand: std's read_exact and copy don't say how much came before a read that fails.
    let mut all = 0;
    while all < room.len() {
        match file.read(&mut room[all..]) {
            Ok(0) => break,
            Ok(n) => all += n,
            // A read that fails at once leaves the file unread; one that fails later ends it.
            Err(_) if all == 0 => return None,
            Err(_) => break,
        }
    }
    if MOST < all {
        return None;
    }
    Some(&room[..all])
}

// A file by its name, in the part of the room that holds it. A name that is no text can't be read: std's paths are text.
pub fn load<'a>(rt: &impl Files, name: &[u8], room: &'a mut [u8]) -> Option<&'a [u8]>
    ensures within { Within (length room.old) result }
    ensures most { IfSome result (λ read. length read.now ≤ MOST) }
{
    let path = str::from_utf8(name).ok()?;
    let mut file = fs::open(rt, path).ok()?;
    fill(&mut file, room)
}

// A file of the series, or its name.
pub fn load_named<'a>(
    rt: &impl Files,
    name: &'static str,
    room: &'a mut [u8],
) -> Result<&'a [u8], Unread>
    ensures within { IfOk result (λ read. (length read.now ≤ length room.old) × (length read.now ≤ MOST)) }
    ensures unread { IfErr result (λ unread. unread.name.now ≡ name.now) }
{
    load(rt, name.as_bytes(), room).ok_or(Unread { name })
}
