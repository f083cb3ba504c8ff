// Sets of nodes 0 to 31 as 32-bit masks: whether a node is in a set, a set with a node and without it, whether a set is empty, and whether it lies in another.
// Paper 01, "Cluster epochs". Plain numbers and no type of their own: the sets are numbers in the struct `Epochs` that C has, whose definitions read them so.
// That a node is below 32 stands in three contracts and in no type: `mirroring` asks of places, and would have to make nodes of them first.
#![tactic(auto)]

ghost use Rattle.std.specs.Prelude.{◌≡◌, ◌<◌};
ghost use Rattle.masks.specs.Mask.{has, plus, minus, empty, within};

// Whether the node is in the set.
#[tactic(auto, using(crate::proofs::Laws::shr_is))]
pub fn test(mask: u32, node: u32) -> bool
    requires { node < 32 }
    ensures { result ≡ has mask node }
{
    (mask >> node) & 1 == 1
}

// The set with the node.
#[tactic(auto, using(crate::proofs::Laws::shifted_is))]
pub fn with(mask: u32, node: u32) -> u32
    requires { node < 32 }
    ensures { result ≡ plus mask node }
{
    mask | (1 << node)
}

// The set without the node.
#[tactic(auto, using(crate::proofs::Laws::clear_is))]
pub fn without(mask: u32, node: u32) -> u32
    requires { node < 32 }
    ensures { result ≡ minus mask node }
{
    mask & !(1 << node)
}

// Whether no node is in the set.
#[tactic(auto, using(crate::proofs::Laws::zero_is))]
pub fn none(mask: u32) -> bool
    ensures { result ≡ empty mask }
{
    mask == 0
}

// Whether each node of the set is in the other.
#[tactic(auto, using(crate::proofs::Laws::and_is))]
pub fn subset(mask: u32, other: u32) -> bool
    ensures { result ≡ within mask other }
{
    mask & other == mask
}
