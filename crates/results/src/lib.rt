// What a merge and a normal form share: two solids whose planes are joined in one list, the rows of a tree put out as a solid's tables, and
// the call that gives them. `list` is the joined list; rows are numbered by it, and then by the planes that they use.
#![tactic(auto)]

ghost use Rattle.std.specs.Prelude.{◌≤◌, length};
ghost use Rattle.refusals.specs.Numbers.{numbered};
ghost use Rattle.scope.specs.Limits.{stated};
ghost use Rattle.results.specs.Results.{Wiped, ZerosIn, Gives};
ghost use Rattle.results.specs.Putting.{PutIn, PutTold};

use refusals::Refusal;
use tables::Solid;

// ---- a result put out

// The rows that a walk put out, made the tables of a solid: the planes that they use become its list. A walk's refusal is handed on.
pub fn put_out(
    list: &[i64],
    planes: &mut [i64],
    nodes: &mut [u16],
    w: Result<(u16, usize), Refusal>,
) -> Result<Solid, Refusal>
    requires { PutIn list.now planes.old nodes.old (numbered w) }
    ensures { PutTold list.now planes.old planes.new nodes.old nodes.new (numbered w) (numbered result) }
{
    let (root, m) = w?;
    let n = lists::list_used(list, planes, nodes, m)?;
    Ok(Solid {
        planes: n,
        nodes: m,
        root,
    })
}

// ---- a call

// Makes the tables of a result zero.
pub fn wipe(planes: &mut [i64], nodes: &mut [u16])
    ensures { Wiped planes.old planes.new nodes.old nodes.new }
{
    zeros::clear(planes);
    zeros::clear(nodes);
}

// Gives what `make` puts out into tables of zeros, which has the work table to work in: 8 if that is shorter than zeros::WORK. A refusal
// leaves the tables zeros again, and the work table is left zeros whatever the answer is.
pub fn give<F: FnOnce(&mut [i64], &mut [u16], &mut [i64]) -> Result<Solid, Refusal>>(
    planes: &mut [i64],
    nodes: &mut [u16],
    work: &mut [i64],
    make: F,
) -> Result<Solid, Refusal>
    requires { (p : _) (n : _) (w : _) → ZerosIn p.now n.now → stated ≤ length w.now → F.pre make p n w }
    ensures { Gives (F.post make) planes.old planes.new nodes.old nodes.new work.old work.new result }
{
    wipe(planes, nodes); // of what was lent
    let given = if work.len() < zeros::WORK {
        Err(Refusal::NoRoom)
    } else {
        make(planes, nodes, work)
    };
    zeros::clear(work);
    if given.is_err() {
        wipe(planes, nodes); // of what a refusal left
    }
    given
}
