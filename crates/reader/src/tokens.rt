ghost use Rattle.std.specs.List.{prefix_len};
ghost use Rattle.std.specs.Prelude.{ℕ, ◌≡◌, ◌+◌, ◌<◌, ◌≤◌, ◌^◌, Bool, length};
ghost use Rattle.reader.specs.Lines.{blank, in_token};
ghost use Rattle.reader.specs.Spans.{in_line, past, TokenAt, LineAt};

// A token with the place of its first byte. An empty one stands for none, where the line has no more: it still has a place,
// the line's end, which the refusal of a clause without end tells.
#[derive(Clone, Copy)]
pub struct Token<'a> {
    pub place: usize,
    pub bytes: &'a [u8],
}

impl Token<'_> {
    // The place after its last byte.
    pub fn end(&self) -> usize
        requires { self.now.place + length self.now.bytes.now < 2 ^ 64 }
        ensures { result ≡ self.now.place + length self.now.bytes.now }
    {
        self.place + self.bytes.len()
    }
}

#[tactic(auto, unfolding(crate::specs::Lines::blank))]
fn is_blank(b: u8) -> bool
    ensures { result ≡ blank b }
{
    matches!(b, b' ' | b'\t')
}

#[tactic(auto, unfolding(crate::specs::Spans::in_line))]
fn is_in_line(b: u8) -> bool
    ensures { result ≡ in_line b }
{
    b != b'\n'
}

#[tactic(auto, unfolding(crate::specs::Lines::in_token))]
fn is_in_token(b: u8) -> bool
    ensures { result ≡ in_token b }
{
    !is_blank(b) && b != b'\n'
}

// How many bytes of a kind stand at the front.
fn span<F: Fn(u8) -> bool>(bytes: &[u8], is_of_kind: F) -> usize
    ghost kind: { ℕ → Bool }
    requires callable { F.IsAlwaysCallable is_of_kind }
    requires tells { (b : ℕ) (r : Bool) → F.post is_of_kind b r → r ≡ kind b }
    ensures count { result ≡ prefix_len kind bytes.now }
    ensures within { result ≤ length bytes.now }
{
    bytes.iter().take_while(|b| is_of_kind(**b)).count()
}

// The next token of the line, past the blanks. This and the functions after it ask that `from` lies in the text: it is
// the bound of an index, as `&text[from..]` asks it.
pub fn next_token(text: &[u8], from: usize) -> Token<'_>
    requires { from ≤ length text.now }
    ensures { TokenAt text.now from result.place result.bytes.now }
{
    let place = from + span(&text[from..], is_blank);
    let end = place + span(&text[place..], is_in_token);
    Token {
        place,
        bytes: &text[place..end],
    }
}

// The LF of the line that this place is on, or the text's length.
fn past_line(text: &[u8], from: usize) -> usize
    requires { from ≤ length text.now }
    ensures { result ≡ past in_line text.now from }
{
    from + span(&text[from..], is_in_line)
}

// The first token of the next clause: past lines without tokens, and comments. Empty at the text's end.
pub fn next_line(text: &[u8], from: usize) -> Token<'_>
    requires { from ≤ length text.now }
    ensures { LineAt text.now from result.place result.bytes.now }
{
    // By hand: each line says where the next one begins.
    let mut i = from;
    loop {
        let token = next_token(text, i);
        match token.bytes {
            [] if token.place < text.len() => i = token.place + 1,
            [b'c', ..] => i = past_line(text, token.end()),
            _ => return token,
        }
    }
}
