// Capital hexadecimal: two characters a byte, read and written. A character that is no digit counts as 0 where it is read.
ghost use Rattle.std.specs.Prelude.{◌≡◌, [], ◌∷◌, ◌+◌, ◌*◌, ◌≤◌, ◌<◌, length};
ghost use Rattle.std.proofs.lemmas.List.Edits.{sets};
ghost use Rattle.scope.specs.Text.{hex as the-hex, hexes, digit as the-digit};
ghost use Rattle.frames.specs.Bytes.{digit_answer, nibble_of, bytes_of, word_of};

// The value of a digit 0-9, A-F.
#[tactic(auto, unfolding(scope::specs::Text::digit))]
pub fn digit(c: u8) -> Option<u8>
    ensures { result ≡ digit_answer (the-digit c) }
{
    match c {
        b'0'..=b'9' => Some(c - b'0'),
        b'A'..=b'F' => Some(c - b'A' + 10),
        _ => None,
    }
}

// The value of a character, 0 for one that is no digit.
#[tactic(auto, unfolding(crate::specs::Bytes::nibble_of))]
pub fn nibble(c: u8) -> u8
    ensures { result ≡ nibble_of c }
{
    digit(c).unwrap_or(0)
}

// The N bytes whose characters begin at `at`.
#[tactic(auto, using(crate::proofs::Digits::nibble_small, crate::proofs::Digits::bytes_filled), unfolding(crate::specs::Bytes::byte_of))]
pub fn bytes<const N: usize>(text: &[u8], at: usize) -> [u8; N]
    requires { at + 2 * N ≤ length text.now }
    ensures { result ≡ bytes_of text.now at 0 N }
{
    let mut bytes = [0u8; N];
    for k in 0..N {
        bytes[k] = nibble(text[at + 2 * k]) * 16 + nibble(text[at + 2 * k + 1]);
    }
    bytes
}

// The word whose characters begin at `at`, the high byte first.
#[tactic(auto, unfolding(scope::specs::Text::word))]
pub fn word(text: &[u8], at: usize) -> u16
    requires { at + 4 ≤ length text.now }
    ensures { result ≡ word_of text.now at 0 }
{
    u16::from_be_bytes(bytes(text, at))
}

// The character of a digit.
#[tactic(auto, unfolding(scope::specs::Text::hex))]
pub fn hex(n: u8) -> u8
    requires { n < 16 }
    ensures { result ≡ the-hex n }
{
    if n < 10 { b'0' + n } else { b'A' + (n - 10) }
}

// A byte, written at `at`.
#[tactic(auto, unfolding(scope::specs::Text::hexes))]
pub fn put_byte(text: &mut [u8], at: usize, b: u8)
    requires { at + 2 ≤ length text.old }
    ensures { text.new ≡ sets text.old at (hexes (b ∷ [])) }
{
    text[at] = hex(b / 16);
    text[at + 1] = hex(b % 16);
}
