ghost use Rattle.std.specs.Prelude.{◌≡◌, ◌≤◌};
ghost use Rattle.instance.specs.Limits.{most_weight};
ghost use Rattle.reader.specs.Said.{number_of};

use instance::Fault;

// The value of a token of digits without a leading zero, or none where it is over a limit. The value is held at one over the
// limit, so that a token of any length is read through.
pub fn read_number(token: &[u8], limit: u64) -> Result<Option<u64>, Fault>
    requires { limit ≤ most_weight }
    ensures { result ≡ number_of limit token.now }
{
    if token.is_empty() || token[0] == b'0' {
        return Err(Fault::WrongToken);
    }
    let mut value = 0;
    for &b in token {
        if !b.is_ascii_digit() {
            return Err(Fault::WrongToken);
        }
        value = (10 * value + u64::from(b - b'0')).min(limit + 1);
    }
    Ok((value <= limit).then_some(value))
}
