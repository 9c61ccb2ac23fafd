// What the programs have in common: the texts that they read, the call that they run on a text, and its answer, printed.
#![tactic(auto)]

ghost use Rattle.std.specs.Prelude.{◌≡◌, ◌≤◌, ◌<◌, length, IfSome, MatchOption};

use refusals::Refusal;
use std::fmt;

// The longest answer: a head of 13 bytes, 64 planes of 23, 1,000 nodes of 13 and an end of 3.
pub const LONGEST: usize = 14488;

// Standard output, for lines that are formatted. Bytes that it does not take are left out, as `say` leaves them, and what follows is written.
#[derive(Clone, Copy)]
pub struct Out;

impl fmt::Write for Out {
    fn write_str(&mut self, s: &str) -> fmt::Result {
        say(s.as_bytes());
        Ok(())
    }
}

// Prints bytes.
pub fn say(s: &[u8]) {
    io::write_all(1, s);
}

// The line of a refusal.
fn refused(r: Refusal) {
    let mut line = [0u8; 5];
    frames::put_refusal(&mut line, 0, u8::from(r));
    say(&line);
}

// What a call on a text answers: so many bytes of the text lent for it, or one 0F line.
pub fn answer(r: Result<usize, Refusal>, out: &[u8]) {
    match r {
        Ok(n) => {
            if let Some(text) = out.get(0..n) {
                say(text);
            }
        }
        Err(k) => refused(k),
    }
}

// Runs a call on a text, in tables of 7, and prints its answer.
pub fn run<F: FnOnce(&[u8], &mut [u8], &mut [i64]) -> Result<usize, Refusal>>(call: F, text: &[u8])
    requires { F.IsAlwaysCallable call }
{
    let mut out = [7u8; LONGEST];
    let mut work = [7i64; zeros::WORK];
    let r = call(text, &mut out, &mut work);
    answer(r, &out);
}

// Runs a call on standard input. One byte more than a text may have is read, so that a longer input is refused.
pub fn run_input<F: FnOnce(&[u8], &mut [u8], &mut [i64]) -> Result<usize, Refusal>>(call: F)
    requires { F.IsAlwaysCallable call }
{
    let mut text = [0u8; 32769];
    let n = io::read_full(0, &mut text);
    run(call, &text[0..n]);
}

// The number of bytes of a text, n, of which `got` were read: none where the text is cut short.
fn whole(n: usize, got: usize) -> Option<usize>
    ensures { MatchOption result (got < n) (λ m. (m ≡ n) × (n ≤ got)) }
{
    (n <= got).then_some(n)
}

// The next text of standard input: a head of four capital hexadecimal digits and LF, which is how many bytes it has, and then these. None if
// the head or the text is cut short, or the table is too small.
pub fn next_text(text: &mut [u8]) -> Option<usize>
    ensures { IfSome result (λ n. (n ≤ length text.old) × (n < 65536)) }
{
    let mut head = [0u8; 5];
    let got = io::read_full(0, &mut head);
    whole(5, got)?;
    let n = frames::word(&head, 0) as usize;
    if text.len() < n {
        return None;
    }
    let got = io::read_full(0, &mut text[0..n]);
    whole(n, got)?;
    Some(n)
}
