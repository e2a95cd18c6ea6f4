// The walk over a nest's row: an opener is gone over member by member, and so is each member that is an opener of the other kind. There is
// a function for each kind: one for both asks at every member which kind it is in, and takes 1.3 times as long (docs/DESIGN-PASS.md).
ghost use Rattle.std.specs.Prelude.{◌≡◌, ◌+◌, ◌≤◌, ◌<◌, max, length};
ghost use Rattle.terms.specs.Joins.{end_to_end, side_by_side};
ghost use Rattle.nests.specs.Walks.{CountsAt, GraphAt, OpenerAt};

// How far a walk came, and C and P of what it went over.
#[derive(Clone, Copy)]
pub struct Walk {
    pub next: usize,
    pub c: u32,
    pub p: u32,
}

impl Walk {
    // And over a further member of a sequence.
    fn then(self, member: Walk) -> Walk
        requires { (self.c + member.c < 4294967296) × (self.p + member.p < 4294967296) }
        ensures { result ≡ record { next = member.next; c = self.c + member.c; p = self.p + member.p } }
    {
        Walk {
            next: member.next,
            c: self.c + member.c,
            p: self.p + member.p,
        }
    }

    // And over a further member of a group.
    fn beside(self, member: Walk) -> Walk
        requires { self.c + member.c < 4294967296 }
        ensures { result ≡ record { next = member.next; c = self.c + member.c; p = max self.p member.p } }
    {
        Walk {
            next: member.next,
            c: self.c + member.c,
            p: self.p.max(member.p),
        }
    }
}

// How many members the opener at a place has, 1 to 16, where one of this kind stands there.
fn members_at(row: &[[u32; 3]], at: usize, kind: u32) -> Option<u32>
    ensures { CountsAt row.now at kind result }
{
    let &[number, members, last] = row.get(at)?;
    if number != kind {
        return None;
    }
    if last != 0 {
        return None;
    }
    if members < 1 {
        return None;
    }
    if 16 < members {
        return None;
    }
    Some(members)
}

// The graph at a place, where one stands there: P from 1 to C, C at most 16,776,960.
fn graph_at(row: &[[u32; 3]], at: usize) -> Option<Walk>
    ensures { GraphAt row.now at result }
{
    let &[number, c, p] = row.get(at)?;
    if number != 0 {
        return None;
    }
    if p < 1 {
        return None;
    }
    if c < p {
        return None;
    }
    if 16776960 < c {
        return None;
    }
    Some(Walk { next: at + 1, c, p })
}

// The sequence that opens at a place, at most so many openers deep, where one stands there: its members are graphs and groups.
#[cycle(group_sequence)]
pub fn sequence_at(row: &[[u32; 3]], at: usize, depth: usize) -> Option<Walk>
    requires { length row.now ≤ 256 }
    ensures { OpenerAt end_to_end depth row.now at result }
{
    let members = members_at(row, at, 1)?;
    if depth < 1 {
        return None;
    }
    let mut walk = Walk {
        next: at + 1,
        c: 0,
        p: 0,
    };
    for _ in 0..members {
        let member = match graph_at(row, walk.next) {
            Some(graph) => graph,
            None => group_at(row, walk.next, depth - 1)?,
        };
        walk = walk.then(member);
    }
    Some(walk)
}

// The group that opens at a place: its members are graphs and sequences.
#[cycle(group_sequence)]
fn group_at(row: &[[u32; 3]], at: usize, depth: usize) -> Option<Walk>
    requires { length row.now ≤ 256 }
    ensures { OpenerAt side_by_side depth row.now at result }
{
    let members = members_at(row, at, 2)?;
    if depth < 1 {
        return None;
    }
    let mut walk = Walk {
        next: at + 1,
        c: 0,
        p: 0,
    };
    for _ in 0..members {
        let member = match graph_at(row, walk.next) {
            Some(graph) => graph,
            None => sequence_at(row, walk.next, depth - 1)?,
        };
        walk = walk.beside(member);
    }
    Some(walk)
}
