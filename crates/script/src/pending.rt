// The sorts of the nodes still to come, as a stack of runs whose last comes first.
ghost use Rattle.std.specs.Prelude.{◌≡◌, ◌+◌, ◌<◌, ◌≤◌, [], ◌∷◌, ◌++◌, length, replicate};
ghost use Rattle.model.specs.declared.kinds.Sort.TheVariants.{Root};
ghost use Rattle.model.specs.Kinds.{child_sorts};
ghost use Rattle.script.specs.Runs.{Taken, IsLastLeft};

use model::kinds::{Children, Kind, Sort};
use std::marker::Model;

// As many nodes of a sort, one after another.
#[derive(Clone, Copy)]
pub struct Run {
    pub sort: Sort,
    pub left: u32,
}

// The last run that is not used up.
fn last_left(runs: &[Run]) -> Option<usize>
    ensures { IsLastLeft runs.now result }
{
    runs.iter().rposition(|run| run.left > 0)
}

// Room for three runs of each node of a program, with some to spare.
const MOST_RUNS: usize = 3080;

// What a stack is made in; a stack of its own would be copied to where it is used.
pub type Room = [Run; MOST_RUNS];

pub const EMPTY: Room = [Run {
    sort: Sort::Root,
    left: 0,
}; MOST_RUNS];

// A stack with its height, as there is no heap for a `Vec`; clauses see the sorts that it says, and the height.
#[derive(Drop)]
pub struct Pending<'a> {
    runs: &'a mut Room,
    height: usize,
}

impl<'a> Model for Pending<'a> {
    ghost use Rattle.std.specs.Prelude.{◌≡◌, ◌≤◌, length};
    ghost use Rattle.script.specs.Runs.{Coming, to_come};

    ghost Value = { Coming };

    ghost view = { λ p. record { sorts = to_come p.runs.now p.height; height = p.height } };

    ghost invariant = { λ p. (p.height ≤ 3080) × (length p.runs.now ≡ 3080) };
}

impl<'a> Pending<'a> {
    // A root, and nothing else yet.
    pub fn for_root(runs: &'a mut Room) -> Pending<'a>
        ensures sorts { result.sorts ≡ Root ∷ [] }
        ensures height { result.height ≡ 1 }
    {
        runs[0] = Run {
            sort: Sort::Root,
            left: 1,
        };
        Pending { runs, height: 1 }
    }

    // Takes the first sort that is still to come.
    pub fn take(&mut self) -> Option<Sort>
        ensures sorts { Taken self.old.sorts result self.new.sorts }
        ensures height { self.new.height ≤ self.old.height }
    {
        let top = last_left(&self.runs[..self.height])?;
        let run = self.runs[top];
        self.runs[top].left = run.left - 1;
        self.height = top + 1;
        Some(run.sort)
    }

    fn push(&mut self, run: Run)
        requires { self.old.height < 3080 }
        ensures sorts { self.new.sorts ≡ replicate run.left run.sort ++ self.old.sorts }
        ensures height { self.new.height ≡ self.old.height + 1 }
    {
        self.runs[self.height] = run;
        self.height += 1;
    }

    // Puts a list of sorts on top, the last first.
    fn push_all(&mut self, sorts: &[Sort])
        requires { self.old.height + length sorts.now ≤ 3080 }
        ensures sorts { self.new.sorts ≡ sorts.now ++ self.old.sorts }
        ensures height { self.new.height ≡ self.old.height + length sorts.now }
    {
        for sort in sorts.iter().rev() {
            self.push(Run {
                sort: *sort,
                left: 1,
            });
        }
    }

    // Puts the children of a node on top.
    pub fn push_children(&mut self, kind: Kind, number: u32)
        requires { self.old.height + 3 ≤ 3080 }
        ensures sorts { self.new.sorts ≡ child_sorts kind number ++ self.old.sorts }
        ensures height { self.new.height ≤ self.old.height + 3 }
    {
        match kind.row().children {
            Children::AsMany(sort) => self.push(Run { sort, left: number }),
            Children::Exactly(sorts) => self.push_all(sorts),
        }
    }
}
