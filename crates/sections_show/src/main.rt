// Runs sections. Standard input holds cases: a plane and its half-spaces, frames 02, ended by 04. It prints a line for each bound, or
// NOTHING, or the number of the refusal, and -- after each case.
#![tactic(auto)]

ghost use Rattle.std.specs.Prelude.{◌≤◌, ◌<◌, length};
ghost use Rattle.sections_show.specs.Reads.{Onward};

use frames::Cursor;
use planes::Plane;
use prints::Out;
use refusals::Refusal;
use std::fmt::{self, Write};

// ---- printing

// The first n rows of a table, a line each.
fn rows(out: &mut Out, bounds: &[i64], n: usize) -> fmt::Result {
    for b in bounds.chunks_exact(4).take(n) {
        writeln!(out, "{} {} {} {} ", b[0], b[1], b[2], b[3])?;
    }
    Ok(())
}

fn answer(out: &mut Out, r: Result<Option<usize>, Refusal>, bounds: &[i64]) -> fmt::Result {
    match r {
        Ok(Some(n)) => rows(out, bounds, n)?,
        Ok(None) => writeln!(out, "NOTHING")?,
        Err(k) => writeln!(out, "REFUSED {}", u8::from(k))?,
    }
    writeln!(out, "--")
}

// ---- cases

// The tables of a case. At most 130 half-spaces are read.
#[derive(Drop)]
struct Tables {
    plane: [i64; 4],
    halves: [i64; 520],
    bounds: [i64; 540],
    work: [i64; 4096],
}

// The half-spaces from a cursor on: where they end, and how many they are.
fn read_halves(text: &[u8], start: Cursor, halves: &mut [i64; 520]) -> (Cursor, usize)
    requires { start.at ≤ length text.now }
    ensures { (start.at ≤ result.0.at) × (result.0.at ≤ length text.now) × (result.1 ≤ 130) }
{
    let mut c = start;
    for count in 0..130 {
        let Ok(next) = frames::plane_at(text, c, halves, count) else {
            return (c, count);
        };
        c = next;
    }
    (c, 130)
}

// A case, read into the tables: where it ends, and how many half-spaces it has.
fn read_case(text: &[u8], start: Cursor, tables: &mut Tables) -> Result<(Cursor, usize), Refusal>
    requires { start.at ≤ length text.now }
    ensures { Onward (length text.now) start.at result }
{
    let c = frames::plane_at(text, start, &mut tables.plane, 0)?;
    let (c, count) = read_halves(text, c, &mut tables.halves);
    let end = frames::end_at(text, c)?;
    Ok((end, count))
}

// The cases of a text, one after the other. A text that is no case ends them.
fn cases(out: &mut Out, text: &[u8], tables: &mut Tables) -> fmt::Result {
    let mut c = Cursor { at: 0 };
    while let Ok((next, count)) = read_case(text, c, tables) {
        let s = Plane::load(&tables.plane, 0);
        let r = sections::section(
            s,
            &tables.halves[..4 * count],
            &mut tables.bounds,
            &mut tables.work,
        );
        answer(out, r, &tables.bounds)?;
        c = next;
    }
    Ok(())
}

// A table of three rows for four bounds is refused and left as zeros, one of four rows is filled, and Nothing needs no rows.
fn rooms(out: &mut Out, work: &mut [i64]) -> fmt::Result {
    let middle = Plane {
        a: 1,
        b: 0,
        c: 0,
        d: 0,
    };
    let face = Plane {
        a: 1,
        b: 0,
        c: 0,
        d: 30000,
    };
    let mut three = [7i64; 12];
    let mut four = [7i64; 16];
    answer(
        out,
        sections::section(middle, &[], &mut three, work),
        &three,
    )?;
    rows(out, &three, 3)?;
    answer(out, sections::section(middle, &[], &mut four, work), &four)?;
    answer(out, sections::section(face, &[], &mut [], work), &four)
}

fn show(out: &mut Out) -> fmt::Result {
    let mut text = io::large_buffer();
    let n = io::read_full(0, &mut text);
    let mut tables = Tables {
        plane: [0; 4],
        halves: [0; 520],
        bounds: [0; 540],
        work: [0; 4096],
    };
    cases(out, &text[..n], &mut tables)?;
    rooms(out, &mut tables.work)
}

// A line that is not taken is left out, and the rest is printed.
fn main() {
    let _ = show(&mut Out);
}
