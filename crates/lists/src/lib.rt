// Plane lists: those of two solids joined into one, and the planes that rows still use listed anew.
#![tactic(auto)]

ghost use Rattle.std.specs.Prelude.{◌≡◌, ◌*◌, ◌/◌, ◌≤◌, pos, length, take, replicate};
ghost use Rattle.refusals.specs.Numbers.{numbered};
ghost use Rattle.lists.specs.Lists.{JoinIn, JoinTold, ListIn, ListTold};
ghost use Rattle.lists.specs.Steps.{NextIn, Sooner, TakeIn, TakeTold, MarkIn, MarkTold, RankIn, RankTold, PutIn, Puts, NumberIn, Numbered};

use refusals::Refusal;
use std::cmp::Ordering;
use tables::{Solid, row};

// The planes of A and B, ascending and without repeats.
#[derive(Drop)]
pub struct JoinedList {
    planes: [i64; 2 * 4 * Solid::MOST_PLANES],
    // The number here of each plane of A and, from 64 on, of each plane of B.
    pub numbers: [u16; 2 * Solid::MOST_PLANES],
    // How many planes are joined.
    count: usize,
}

// How far the lists of A and of B are taken.
#[derive(Clone, Copy)]
struct Taken {
    a: usize,
    b: usize,
}

// ---- joining

// Which plane comes first, A's next or B's next. A list that has ended comes after the other.
fn sooner(a: &[i64], b: &[i64], t: Taken) -> Ordering
    requires { NextIn a.now b.now t }
    ensures { Sooner a.now b.now t result }
{
    if a.len() / 4 <= t.a {
        return Ordering::Greater;
    }
    if b.len() / 4 <= t.b {
        return Ordering::Less;
    }
    row(a, t.a).order(row(b, t.b))
}

impl JoinedList {
    // No planes, and zeros.
    pub fn new() -> JoinedList
        ensures { result ≡ record { planes = replicate 512 (pos 0); numbers = replicate 128 0; count = 0 } }
    {
        JoinedList {
            planes: [0; 2 * 4 * Solid::MOST_PLANES],
            numbers: [0; 2 * Solid::MOST_PLANES],
            count: 0,
        }
    }

    // The planes of A and B, joined here in place of what was here before.
    pub fn join(&mut self, a: &[i64], b: &[i64])
        requires { JoinIn a.now b.now }
        ensures { JoinTold a.now b.now self.new }
    {
        self.count = 0;
        let mut t = Taken { a: 0, b: 0 };
        while t.a < a.len() / 4 || t.b < b.len() / 4 {
            t = self.take(a, b, t);
        }
    }

    // The table of the joined planes.
    pub fn planes(&self) -> &[i64]
        requires { self.now.count ≤ 128 }
        ensures { result.now ≡ take (4 * self.now.count) self.now.planes }
    {
        &self.planes[0..4 * self.count]
    }

    // Joins the sooner of the next planes of A and of B, or both where they are the same.
    fn take(&mut self, a: &[i64], b: &[i64], t: Taken) -> Taken
        requires { TakeIn a.now b.now self.old t }
        ensures { TakeTold a.now b.now self.new t result }
    {
        let k = self.count;
        self.count = k + 1;
        match sooner(a, b, t) {
            Ordering::Less => {
                row(a, t.a).store(&mut self.planes, 4 * k);
                self.numbers[t.a] = k as u16;
                Taken { a: t.a + 1, b: t.b }
            }
            Ordering::Equal => {
                row(a, t.a).store(&mut self.planes, 4 * k);
                self.numbers[t.a] = k as u16;
                self.numbers[64 + t.b] = k as u16;
                Taken {
                    a: t.a + 1,
                    b: t.b + 1,
                }
            }
            Ordering::Greater => {
                row(b, t.b).store(&mut self.planes, 4 * k);
                self.numbers[64 + t.b] = k as u16; // of B alone
                Taken { a: t.a, b: t.b + 1 }
            }
        }
    }
}

// ---- what is used

// Marks each plane that one of the m rows uses.
fn mark_used(nodes: &[u16], m: usize, used: &mut [bool])
    requires { MarkIn nodes.now m used.old }
    ensures { MarkTold nodes.now m used.new }
{
    for i in 0..m {
        let p = nodes[3 * i] as usize;
        used[p] = true;
    }
}

// The rank of each of n planes, which is how many of the planes before it are used: how many are used in all.
fn rank(used: &[bool], n: usize, ranks: &mut [u16]) -> usize
    requires { RankIn used.now n ranks.old }
    ensures { RankTold used.now n ranks.new result }
{
    let mut k: u16 = 0;
    for i in 0..n {
        ranks[i] = k;
        k += u16::from(used[i]);
    }
    k as usize
}

// Puts the used ones among the joined planes into the lent table, each at its rank.
fn put_used(joined: &[i64], used: &[bool], ranks: &[u16], planes: &mut [i64])
    requires { PutIn joined.now used.now ranks.now planes.old }
    ensures { Puts joined.now (length joined.now / 4) used.now planes.new }
{
    for i in 0..joined.len() / 4 {
        if used[i] {
            row(joined, i).store(planes, 4 * ranks[i] as usize);
        }
    }
}

// Changes the plane numbers of the m rows to ranks.
fn to_ranks(nodes: &mut [u16], m: usize, ranks: &[u16])
    requires { NumberIn nodes.old m ranks.now }
    ensures { Numbered nodes.old m ranks.now nodes.new }
{
    for i in 0..m {
        let p = nodes[3 * i] as usize;
        nodes[3 * i] = ranks[p];
    }
}

// Lists the planes that the m rows use, in a table of zeros, and numbers the rows by that list: how many they are. Refused with 8 for more
// planes than the table has rows, and with 9 for more than 64.
pub fn list_used(
    joined: &[i64],
    planes: &mut [i64],
    nodes: &mut [u16],
    m: usize,
) -> Result<usize, Refusal>
    requires { ListIn joined.now planes.old nodes.old m }
    ensures { ListTold joined.now planes.old planes.new nodes.old nodes.new m (numbered result) }
{
    let mut used = [false; 2 * Solid::MOST_PLANES];
    let mut ranks = [0u16; 2 * Solid::MOST_PLANES];
    let n = joined.len() / 4;
    mark_used(nodes, m, &mut used);
    let count = rank(&used, n, &mut ranks);
    if planes.len() / 4 < count {
        return Err(Refusal::NoRoom);
    }
    if Solid::MOST_PLANES < count {
        return Err(Refusal::OverPlanes);
    }
    put_used(joined, &used, &ranks, planes);
    to_ranks(nodes, m, &ranks);
    Ok(count)
}
