// An element's eight indices: the first that names no node, and the first two places with one index.
// An inner crate: only the crates of the two inspectors call it.
// An element's place is the position 1 to 8 of one of its indices. Every answer is an equation with `Mesh` of the definitions.
#![tactic(auto)]

ghost use Rattle.std.specs.Prelude.{◌≡◌, ◌<◌, IfSome};
ghost use Rattle.definitions.specs.Mesh.{missing_index, named_twice};
ghost use Rattle.mesh_points.specs.Meaning.{first_of};
ghost use Rattle.mesh_indices.specs.Pairs.{same_after};

// The first of an element's eight indices that names no node, counted from 0.
pub fn missing_index(nodes: usize, ix: &[u32; 8]) -> Option<usize>
    ensures first { first_of result ≡ missing_index nodes ix.now }
    ensures bound { IfSome result (λ k. k < 8) }
{
    ix.iter().position(|index| nodes <= *index as usize)
}

// Of the pairs of places whose first is `first`, counted from 0, the first with one index; pair 8·i + j is of the places i and j, as the definition
// counts them.
fn same_after(ix: &[u32; 8], first: usize) -> Option<usize>
    requires { first < 8 }
    ensures first { first_of result ≡ same_after ix.now first }
    ensures bound { IfSome result (λ k. k < 64) }
{
    let index = ix[first];
    let next = first + 1;
    let later = ix[next..].iter().position(|other| index == *other)?;
    Some(8 * first + next + later)
}

// The first pair of an element's places with one index, counted likewise. (`find_map` leaves open which pair is returned.)
pub fn named_twice(ix: &[u32; 8]) -> Option<usize>
    ensures first { first_of result ≡ named_twice ix.now }
    ensures bound { IfSome result (λ k. k < 64) }
{
    for first in 0..8 {
        if let Some(pair) = same_after(ix, first) {
            return Some(pair);
        }
    }
    None
}
