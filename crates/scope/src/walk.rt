// Walks a program in preorder, tree by tree.
ghost use Rattle.std.specs.Prelude.{◌≡◌};
ghost use Rattle.model.specs.Names.{nodes};
ghost use Rattle.laws.specs.Walks.{beyond};

use model::nodes::Entry;

// Where the tree ends that begins at a place.
pub fn next_tree(program: &[Entry], from: usize) -> usize
    ensures { result ≡ beyond (nodes program.now) from 1 }
{
    if from > program.len() {
        return from;
    }
    let mut wanted: usize = 1;
    for (passed, entry) in program[from..].iter().enumerate() {
        // more than there are nodes can't come, so a sum too large to count is as good as any
        let below = entry.node.arity();
        wanted = (wanted - 1).saturating_add(below);
        if wanted == 0 {
            return from + passed + 1;
        }
    }
    program.len()
}
