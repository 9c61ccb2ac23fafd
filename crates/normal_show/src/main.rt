// Runs normal forms, and holds the laws of sets against them. Standard input holds cases one after the other; a case is three texts A, B, C,
// each in two parts:
//     head    four capital hexadecimal digits and LF: how many bytes the text has
//     text    that many bytes, whichever they are
// It prints for each case what the normal form of A, of B and of C answers, the form or one 0F line, each followed by --. Then a line of nine
// signs: for each of eight laws whether both its sides have the same normal form, byte for byte (= or !, R if a merge or a form was
// refused), and last the same for A minus B and B minus A, which is no law. A head or a text that is cut short ends the run.
#![tactic(auto)]

use prints::{LONGEST, say};
use refusals::Refusal;

// The operations, by their codes.
#[derive(Clone, Copy)]
enum Operation {
    Union,
    Intersection,
    Minus,
}

// The normal form of a text, printed.
fn show_form(text: &[u8]) {
    prints::run(|text, out, work| zones::normal_text(text, out, work), text);
    say(b"--\n");
}

// ---- expressions: each leaves a text, and tells its length, or why it was refused; a merge within one goes on as an empty text where it is
// refused

// Puts a text behind the first n bytes of another: how many there are then, the same if it has no room.
fn append(text: &mut [u8], n: usize, s: &[u8]) -> usize {
    if text.len() < n {
        return n;
    }
    if text.len() - n < s.len() {
        return n;
    }
    text[n..n + s.len()].copy_from_slice(s);
    n + s.len()
}

// The line of an operation.
fn line(op: Operation) -> [u8; 5] {
    match op {
        Operation::Union => *b"0501\n",
        Operation::Intersection => *b"0502\n",
        Operation::Minus => *b"0503\n",
    }
}

// The first bytes of a text, none if it is not that long.
fn first(text: &[u8], n: usize) -> &[u8] {
    text.get(0..n).unwrap_or(&[])
}

// a op b
fn merge(op: Operation, a: &[u8], b: &[u8], out: &mut [u8]) -> Result<usize, Refusal> {
    let mut text = [0u8; 32768];
    let mut work = [7i64; zeros::WORK];
    let head = line(op);
    let l = append(&mut text, 0, &head);
    let m = append(&mut text, l, a);
    let n = append(&mut text, m, b);
    zones::merge_text(first(&text, n), out, &mut work)
}

// (a inner b) op c
fn before(
    op: Operation,
    inner: Operation,
    a: &[u8],
    b: &[u8],
    c: &[u8],
    out: &mut [u8],
) -> Result<usize, Refusal> {
    let mut x = [0u8; LONGEST];
    let n = merge(inner, a, b, &mut x).unwrap_or(0);
    merge(op, first(&x, n), c, out)
}

// a op (b inner c)
fn after(
    op: Operation,
    inner: Operation,
    a: &[u8],
    b: &[u8],
    c: &[u8],
    out: &mut [u8],
) -> Result<usize, Refusal> {
    let mut x = [0u8; LONGEST];
    let n = merge(inner, b, c, &mut x).unwrap_or(0);
    merge(op, a, first(&x, n), out)
}

// (a inner b) op (a inner c)
fn spread(
    op: Operation,
    inner: Operation,
    a: &[u8],
    b: &[u8],
    c: &[u8],
    out: &mut [u8],
) -> Result<usize, Refusal> {
    let mut x = [0u8; LONGEST];
    let n = merge(inner, a, b, &mut x).unwrap_or(0);
    after(op, inner, first(&x, n), a, c, out)
}

// ---- laws

// The normal form of the first n bytes of a text.
fn form(text: &[u8], n: usize, out: &mut [u8]) -> Result<usize, Refusal> {
    let mut work = [7i64; zeros::WORK];
    zones::normal_text(first(text, n), out, &mut work)
}

// Whether two sides, of m and n bytes, have the same normal form.
fn alike(x: &[u8], m: usize, y: &[u8], n: usize) -> Result<bool, Refusal> {
    let mut f = [0u8; LONGEST];
    let mut g = [0u8; LONGEST];
    let i = form(x, m, &mut f)?;
    let j = form(y, n, &mut g)?;
    Ok(check::same(first(&f, i), first(&g, j)))
}

// a op b against b op a
fn commutes(op: Operation, a: &[u8], b: &[u8]) -> Result<bool, Refusal> {
    let mut x = [0u8; LONGEST];
    let mut y = [0u8; LONGEST];
    let m = merge(op, a, b, &mut x)?;
    let n = merge(op, b, a, &mut y)?;
    alike(&x, m, &y, n)
}

// (a op b) op c against a op (b op c)
fn associates(op: Operation, a: &[u8], b: &[u8], c: &[u8]) -> Result<bool, Refusal> {
    let mut x = [0u8; LONGEST];
    let mut y = [0u8; LONGEST];
    let m = before(op, op, a, b, c, &mut x)?;
    let n = after(op, op, a, b, c, &mut y)?;
    alike(&x, m, &y, n)
}

// a op (b inner c) against (a op b) outer (a op c)
fn distributes(
    op: Operation,
    inner: Operation,
    outer: Operation,
    a: &[u8],
    b: &[u8],
    c: &[u8],
) -> Result<bool, Refusal> {
    let mut x = [0u8; LONGEST];
    let mut y = [0u8; LONGEST];
    let m = after(op, inner, a, b, c, &mut x)?;
    let n = spread(outer, op, a, b, c, &mut y)?;
    alike(&x, m, &y, n)
}

// The sign of a law.
fn sign(held: Result<bool, Refusal>) {
    say(match held {
        Ok(true) => b"=",
        Ok(false) => b"!",
        Err(_) => b"R",
    });
}

// The eight laws, and what is none.
fn laws(a: &[u8], b: &[u8], c: &[u8]) {
    use Operation::{Intersection, Minus, Union};
    sign(commutes(Union, a, b));
    sign(commutes(Intersection, a, b));
    sign(associates(Union, a, b, c));
    sign(associates(Intersection, a, b, c));
    sign(distributes(Intersection, Union, Union, a, b, c));
    sign(distributes(Union, Intersection, Intersection, a, b, c));
    sign(distributes(Minus, Union, Intersection, a, b, c)); // De Morgan
    sign(distributes(Minus, Intersection, Union, a, b, c));
    sign(commutes(Minus, a, b));
    say(b"\n");
}

// ---- cases

// The next case, none at the end. All three texts are read before one that is cut short ends the run.
fn case() -> Option<()> {
    let mut a = [0u8; 32769];
    let mut b = [0u8; 32769];
    let mut c = [0u8; 32769];
    let l = prints::next_text(&mut a);
    let m = prints::next_text(&mut b);
    let n = prints::next_text(&mut c);
    let (a, b, c) = (&a[0..l?], &b[0..m?], &c[0..n?]);
    show_form(a);
    show_form(b);
    show_form(c);
    laws(a, b, c);
    Some(())
}

// Case after case, at most 65,536.
fn main() {
    for _ in 0..65536usize {
        if case().is_none() {
            return;
        }
    }
}
