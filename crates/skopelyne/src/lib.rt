// The calls of the public page for programs in C and in Rust, as functions of a static library. Each takes every input and answers: the
// number of the refusal, or 0. What an answer counts stands in places lent for it, zeros after a refusal. A table crosses as a pointer and
// a length; that the two are true, and that nothing lent to be written overlaps anything else, is all that is asked of a caller.
#![tactic(auto)]

ghost use Rattle.std.specs.Prelude.{◌≡◌, ◌≤◌};
ghost use Rattle.planes.specs.Values.{quad};
ghost use Rattle.refusals.specs.Numbers.{numbered, lined};
ghost use Rattle.theory.specs.Text.Lent.{lent};
ghost use Rattle.results.specs.Results.{merge_of, form_of};
ghost use Rattle.texts.specs.Answers.{merging, forming};
ghost use Rattle.skopelyne.specs.Numbers.{told, given_as, read_as, section_as, place_as, point_as, Counted};
ghost use Rattle.skopelyne.specs.Exports.{GivenOut, ReadOut, WriteOut, TextOut, SectionOut, PointOut};

use planes::{Plane, Point};
use points::Place;
use refusals::{LineRefusal, Refusal};
use tables::{LentSolid, Solid};

// ---- answers as numbers

// A solid that was given, or the number.
fn give(g: Result<Solid, Refusal>, planes: &mut usize, nodes: &mut usize, root: &mut u16) -> u8
    ensures { Counted (given_as (numbered g)) result planes.new nodes.new root.new }
{
    match g {
        Ok(s) => {
            *planes = s.planes;
            *nodes = s.nodes;
            *root = s.root;
            0
        }
        Err(k) => {
            *planes = 0;
            *nodes = 0;
            *root = 0;
            u8::from(k)
        }
    }
}

// A solid that was read, or the number.
fn judged(
    j: Result<Solid, LineRefusal>,
    planes: &mut usize,
    nodes: &mut usize,
    root: &mut u16,
) -> u8
    ensures { Counted (read_as (lined j)) result planes.new nodes.new root.new }
{
    match j {
        Ok(s) => give(Ok(s), planes, nodes, root),
        Err(l) => give(Err(l.refusal), planes, nodes, root),
    }
}

// The number of a refusal, or 0; and what is told of an answer, `none` where it is a refusal.
fn tell<T: Copy>(r: Result<T, Refusal>, none: T, place: &mut T) -> u8
    ensures number { result ≡ (told none (numbered r)).0 }
    ensures value { place.new ≡ (told none (numbered r)).1 }
{
    match r {
        Ok(v) => {
            *place = v;
            0
        }
        Err(k) => {
            *place = none;
            u8::from(k)
        }
    }
}

// How many bounds a section has, none for Nothing, or the number.
fn bounded(r: Result<Option<usize>, Refusal>, count: &mut usize) -> u8
    ensures { (result ≡ (section_as (numbered r)).0) × (count.new ≡ (section_as (numbered r)).1) }
{
    tell(r.map(|n| n.unwrap_or(0)), 0, count)
}

// A place as a number: 1 for IN, 2 for OUT and 3 for ON.
fn place_number(p: Place) -> u8
    ensures { result ≡ place_as p }
{
    match p {
        Place::In => 1,
        Place::Out => 2,
        Place::On => 3,
    }
}

// Where a point lies, or the number.
fn placed(r: Result<Place, Refusal>, place: &mut u8) -> u8
    ensures { (result ≡ (point_as (numbered r)).0) × (place.new ≡ (point_as (numbered r)).1) }
{
    tell(r.map(place_number), 0, place)
}

// ---- solids

// Reads a text into tables.
#[unsafe(no_mangle)]
pub extern "C" fn skopelyne_read(
    text: &[u8],
    planes: &mut [i64],
    nodes: &mut [u16],
    work: &mut [i64],
    plane_count: &mut usize,
    node_count: &mut usize,
    root: &mut u16,
) -> u8
    ensures answer { ReadOut text.now planes.old planes.new nodes.old nodes.new work.old work.new result plane_count.new node_count.new root.new }
    ensures number { result ≤ 10 }
{
    let r = zones::read(text, planes, nodes, work);
    judged(r, plane_count, node_count, root)
}

// Writes the text of a solid.
#[unsafe(no_mangle)]
pub extern "C" fn skopelyne_write(
    planes: &[i64],
    nodes: &[u16],
    root: u16,
    text: &mut [u8],
    work: &mut [i64],
    length: &mut usize,
) -> u8
    ensures answer { WriteOut planes.now nodes.now root text.old text.new work.old work.new result length.new }
    ensures number { result ≤ 10 }
{
    let s = LentSolid {
        planes,
        nodes,
        root,
    };
    tell(zones::write(&s, text, work), 0, length)
}

// Where the point (x, y, z, w) lies to a solid: 1 for IN, 2 for OUT, 3 for ON.
#[unsafe(no_mangle)]
pub extern "C" fn skopelyne_point(
    planes: &[i64],
    nodes: &[u16],
    root: u16,
    x: i64,
    y: i64,
    z: i64,
    w: i64,
    work: &mut [i64],
    place: &mut u8,
) -> u8
    ensures answer { PointOut planes.now nodes.now root (quad x y z w) work.old work.new result place.new }
    ensures number { result ≤ 10 }
{
    let s = LentSolid {
        planes,
        nodes,
        root,
    };
    let r = zones::point(&s, Point { x, y, z, w }, work);
    placed(r, place)
}

// The merge of A and B by operation 1 union, 2 intersection, 3 A minus B.
#[unsafe(no_mangle)]
pub extern "C" fn skopelyne_merge(
    op: u8,
    ap: &[i64],
    an: &[u16],
    ar: u16,
    bp: &[i64],
    bn: &[u16],
    br: u16,
    planes: &mut [i64],
    nodes: &mut [u16],
    work: &mut [i64],
    plane_count: &mut usize,
    node_count: &mut usize,
    root: &mut u16,
) -> u8
    ensures answer { GivenOut (merge_of op (lent ap.now an.now ar) (lent bp.now bn.now br)) planes.old planes.new nodes.old nodes.new work.old work.new result plane_count.new node_count.new root.new }
    ensures number { result ≤ 10 }
{
    let a = LentSolid {
        planes: ap,
        nodes: an,
        root: ar,
    };
    let b = LentSolid {
        planes: bp,
        nodes: bn,
        root: br,
    };
    let r = zones::merge(op, &a, &b, planes, nodes, work);
    give(r, plane_count, node_count, root)
}

// The normal form of a solid.
#[unsafe(no_mangle)]
pub extern "C" fn skopelyne_normal(
    ap: &[i64],
    an: &[u16],
    ar: u16,
    planes: &mut [i64],
    nodes: &mut [u16],
    work: &mut [i64],
    plane_count: &mut usize,
    node_count: &mut usize,
    root: &mut u16,
) -> u8
    ensures answer { GivenOut (form_of (lent ap.now an.now ar)) planes.old planes.new nodes.old nodes.new work.old work.new result plane_count.new node_count.new root.new }
    ensures number { result ≤ 10 }
{
    let a = LentSolid {
        planes: ap,
        nodes: an,
        root: ar,
    };
    let r = zones::normal(&a, planes, nodes, work);
    give(r, plane_count, node_count, root)
}

// ---- texts

// The merge of a text: operation, A, B.
#[unsafe(no_mangle)]
pub extern "C" fn skopelyne_merge_text(
    text: &[u8],
    out: &mut [u8],
    work: &mut [i64],
    length: &mut usize,
) -> u8
    ensures answer { TextOut merging text.now out.old out.new work.old work.new result length.new }
    ensures number { result ≤ 10 }
{
    tell(zones::merge_text(text, out, work), 0, length)
}

// The normal form of a text: a solid.
#[unsafe(no_mangle)]
pub extern "C" fn skopelyne_normal_text(
    text: &[u8],
    out: &mut [u8],
    work: &mut [i64],
    length: &mut usize,
) -> u8
    ensures answer { TextOut forming text.now out.old out.new work.old work.new result length.new }
    ensures number { result ≤ 10 }
{
    tell(zones::normal_text(text, out, work), 0, length)
}

// ---- sections

// The section of half-spaces by the plane (a, b, c, d): its bounds.
#[unsafe(no_mangle)]
pub extern "C" fn skopelyne_section(
    a: i64,
    b: i64,
    c: i64,
    d: i64,
    halves: &[i64],
    bounds: &mut [i64],
    work: &mut [i64],
    count: &mut usize,
) -> u8
    ensures answer { SectionOut (record { a = a; b = b; c = c; d = d }) halves.now bounds.old bounds.new work.old work.new result count.new }
    ensures number { result ≤ 10 }
{
    let r = zones::section(Plane { a, b, c, d }, halves, bounds, work);
    bounded(r, count)
}
