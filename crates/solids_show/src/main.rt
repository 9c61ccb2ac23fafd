// Runs the reading, the writing and the points of solids. Standard input holds cases one after the other; a case has three parts:
//     head    six words of four capital hexadecimal digits, a blank between two and LF after the last: how many bytes the text has, how
//             many numbers are lent for planes, for nodes and for work, how many bytes for the text written again, how many asks follow
//     text    that many bytes, whichever they are
//     asks    lines of 74 bytes: P or W, then four numbers, then LF. A number is a blank, + or -, and 16 capital hexadecimal digits.
//             P asks for a point x, y, z, w of the solid that was read. W asks for the text of the tables as they stand then: how many
//             numbers of planes and of nodes are lent to the call, the root code, and how many bytes for the text; of each number it
//             reads the last four digits.
// Each call writes into tables of 7. The program prints a line for each call, and -- after each case:
//     READ planes nodes root      then SAME, or the text written again, or REFUSED and its number
//     REFUSED number line         of the reading; points are asked of no planes and no nodes then, and of root code 0
//     IN, OUT, ON, REFUSED number for a point
// and on the same line ZEROS, if the places past the last entry and the work table are zeros, else LEFT; OVER for counts that the tables
// cannot hold. A head that is cut short, or that asks for more than the program has, ends the run.
#![tactic(auto)]

ghost use Rattle.std.specs.Prelude.{◌≤◌, length};

use planes::Point;
use points::Place;
use prints::say;
use refusals::{LineRefusal, Refusal};
use tables::{LentSolid, Solid};

// A blank and a number.
fn number(n: u64) {
    say(b" ");
    io::print_decimal(1, n);
}

fn refused(r: Refusal) {
    say(b"REFUSED");
    number(u64::from(u8::from(r)));
}

// The end of a call's line.
fn rest(zero: bool) {
    say(if zero { b" ZEROS\n" } else { b" LEFT\n" });
}

// ---- writing

// The first n bytes of what was written: SAME if they are `text`.
fn show(again: &[u8], n: usize, text: &[u8], idle: bool) {
    let Some((written, left)) = again.split_at_checked(n) else {
        say(b"OVER\n");
        return;
    };
    say(if written == text { b"SAME" } else { written });
    rest(idle && left.iter().all(|b| *b == 0));
}

// What a writing answers, and what it left.
fn written(r: Result<usize, Refusal>, again: &[u8], text: &[u8], idle: bool) {
    match r {
        Ok(n) => show(again, n, text, idle),
        Err(k) => {
            refused(k);
            rest(idle && again.iter().all(|b| *b == 0));
        }
    }
}

// The text of these tables, which may be `text` again.
fn write(s: &LentSolid, text: &[u8], again: &mut [u8], work: &mut [i64]) {
    let r = solids::write(s, again, work);
    let idle = work.iter().all(|x| *x == 0);
    written(r, again, text, idle);
}

// The same in bytes and numbers of 7: `room` of them for the text, `lent` for work.
fn write_in(s: &LentSolid, text: &[u8], room: usize, lent: usize)
    requires { (room ≤ 65536) × (lent ≤ 5000) }
{
    let mut again = [7u8; 65536];
    let mut work = [7i64; 5000];
    write(s, text, &mut again[0..room], &mut work[0..lent]);
}

// ---- asks

// The 16 digits at `at`.
fn digits(line: &[u8; 74], at: usize) -> u64
    requires { at ≤ 58 }
{
    let a = u64::from(frames::word(line, at));
    let b = u64::from(frames::word(line, at + 4));
    let c = u64::from(frames::word(line, at + 8));
    let d = u64::from(frames::word(line, at + 12));
    ((a * 65536 + b) * 65536 + c) * 65536 + d
}

// The number at `at`: a sign and 16 digits; 0 for one of 2^63 or more.
fn signed(line: &[u8; 74], at: usize) -> i64
    requires { at ≤ 57 }
{
    let v = digits(line, at + 1);
    if 9223372036854775807 < v {
        return 0;
    }
    if line[at] == b'-' {
        return -(v as i64);
    }
    v as i64
}

// Where a point lies.
fn answer(r: Result<Place, Refusal>) {
    match r {
        Ok(Place::In) => say(b"IN"),
        Ok(Place::Out) => say(b"OUT"),
        Ok(Place::On) => say(b"ON"),
        Err(k) => refused(k),
    }
}

fn ask_point(s: &LentSolid, line: &[u8; 74], work: &mut [i64]) {
    let x = Point {
        x: signed(line, 2),
        y: signed(line, 20),
        z: signed(line, 38),
        w: signed(line, 56),
    };
    answer(points::point(s, x, work));
    rest(work.iter().all(|x| *x == 0));
}

fn ask_text(planes: &[i64], nodes: &[u16], line: &[u8; 74], text: &[u8], lent: usize)
    requires { lent ≤ 5000 }
{
    let p = frames::word(line, 15) as usize;
    let q = frames::word(line, 33) as usize;
    let root = frames::word(line, 51);
    let room = frames::word(line, 69) as usize;
    if planes.len() < p || nodes.len() < q {
        return;
    }
    let s = LentSolid {
        planes: &planes[0..p],
        nodes: &nodes[0..q],
        root,
    };
    write_in(&s, text, room, lent);
}

// The next ask, of the solid s that was read, or of these tables.
fn ask(s: &LentSolid, planes: &[i64], nodes: &[u16], text: &[u8], lent: usize)
    requires { lent ≤ 5000 }
{
    let mut line = [0u8; 74];
    let mut work = [7i64; 5000];
    if io::read_full(0, &mut line) < 74 {
        return;
    }
    if line[0] == b'W' {
        ask_text(planes, nodes, &line, text, lent);
    } else {
        ask_point(s, &line, &mut work[0..lent]);
    }
}

fn ask_all(asks: usize, s: &LentSolid, planes: &[i64], nodes: &[u16], text: &[u8], lent: usize)
    requires { lent ≤ 5000 }
{
    for _ in 0..asks {
        ask(s, planes, nodes, text, lent);
    }
}

// ---- a case

// A solid that was read, its text written again, and the asks.
fn sound(
    s: Solid,
    idle: bool,
    planes: &[i64],
    nodes: &[u16],
    text: &[u8],
    room: usize,
    asks: usize,
    lent: usize,
)
    requires { (room ≤ 65536) × (lent ≤ 5000) }
{
    say(b"READ");
    number(s.planes as u64);
    number(s.nodes as u64);
    number(u64::from(s.root));
    if planes.len() / 4 < s.planes || nodes.len() / 3 < s.nodes {
        say(b" OVER\n");
        return;
    }
    let p = 4 * s.planes;
    let q = 3 * s.nodes;
    let clean = planes[p..].iter().all(|x| *x == 0);
    let bare = nodes[q..].iter().all(|x| *x == 0);
    rest(clean && bare && idle);
    let lent_solid = LentSolid {
        planes: &planes[0..p],
        nodes: &nodes[0..q],
        root: s.root,
    };
    write_in(&lent_solid, text, room, lent);
    ask_all(asks, &lent_solid, planes, nodes, text, lent);
}

// A text that was refused, and the asks.
fn unsound(
    l: LineRefusal,
    idle: bool,
    planes: &[i64],
    nodes: &[u16],
    text: &[u8],
    asks: usize,
    lent: usize,
)
    requires { lent ≤ 5000 }
{
    refused(l.refusal);
    number(l.line as u64);
    let clean = planes.iter().all(|x| *x == 0);
    let bare = nodes.iter().all(|x| *x == 0);
    rest(clean && bare && idle);
    let none = LentSolid {
        planes: &planes[0..0],
        nodes: &nodes[0..0],
        root: 0,
    };
    ask_all(asks, &none, planes, nodes, text, lent);
}

// A text, read into these tables: None if it was not there.
fn run(
    text: &mut [u8],
    planes: &mut [i64],
    nodes: &mut [u16],
    work: &mut [i64],
    room: usize,
    asks: usize,
) -> Option<()>
    requires { (length work.old ≤ 5000) × (room ≤ 65536) }
{
    if io::read_full(0, text) < text.len() {
        return None;
    }
    let lent = work.len();
    let j = solids::read(text, planes, nodes, work);
    let idle = work.iter().all(|x| *x == 0);
    match j {
        Ok(s) => sound(s, idle, planes, nodes, text, room, asks, lent),
        Err(l) => unsound(l, idle, planes, nodes, text, asks, lent),
    }
    say(b"--\n");
    Some(())
}

// The same with tables of 7: n bytes, p numbers of planes, q of nodes, `lent` for work.
fn lend(n: usize, p: usize, q: usize, lent: usize, room: usize, asks: usize) -> Option<()>
    requires { (n ≤ 65536) × (p ≤ 512) × (q ≤ 3072) × (lent ≤ 5000) × (room ≤ 65536) }
{
    let mut text = io::large_buffer();
    let mut planes = [7i64; 512];
    let mut nodes = [7u16; 3072];
    let mut work = [7i64; 5000];
    run(
        &mut text[0..n],
        &mut planes[0..p],
        &mut nodes[0..q],
        &mut work[0..lent],
        room,
        asks,
    )
}

// The next case: None if there was none.
fn case() -> Option<()> {
    let mut head = [0u8; 30];
    if io::read_full(0, &mut head) < 30 {
        return None;
    }
    let n = frames::word(&head, 0) as usize;
    let p = frames::word(&head, 5) as usize;
    let q = frames::word(&head, 10) as usize;
    let lent = frames::word(&head, 15) as usize;
    let room = frames::word(&head, 20) as usize;
    let asks = frames::word(&head, 25) as usize;
    if 512 < p || 3072 < q || 5000 < lent {
        return None;
    }
    lend(n, p, q, lent, room, asks)
}

fn main() {
    for _ in 0..65536usize {
        if case().is_none() {
            return;
        }
    }
}
