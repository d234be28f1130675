// The slots of a nearest list that hold nodes: what they are, and how one node is put between them or taken from between them. `lent_list`
// has the same searches over bytes: each is one chain, here and there.
ghost use Rattle.std.specs.Prelude.{◌≡◌, ◌-◌, ◌<◌, ◌∷◌, ◌++◌, [], length, take, unwrap_or, position};
ghost use Rattle.key.specs.Keys.{same_key};
ghost use Rattle.nearest.specs.Lists.{all_known, rising, node_key};
ghost use Rattle.nearest.specs.Slots as slots;
ghost use Rattle.node.specs.Values.{blank_node};
ghost use Rattle.lists.specs.Insert.{insert_at, remove_at};

use key::Key;
use node::Node;

// Whether the family of each node is known.
pub(crate) fn all_known(nodes: &[Node]) -> bool
    ensures { result ≡ all_known nodes.now }
{
    nodes.iter().all(|node| node::family::known(node.family))
}

// Whether the nodes are strictly rising in distance: neighbours decide.
pub(crate) fn rising(target: Key, nodes: &[Node]) -> bool
    ensures { result ≡ rising target.0 nodes.now }
{
    nodes
        .windows(2)
        .all(|pair| target.nearer(pair[0].key, pair[1].key))
}

// How many nodes, from the front, are nearer than the key.
pub(crate) fn place(target: Key, nodes: &[Node], key: Key) -> usize
    ensures { result ≡ slots.position target.0 key.0 nodes.now }
{
    let further = nodes.iter().position(|held| !target.nearer(held.key, key));
    further.unwrap_or(nodes.len())
}

// Where the key stands.
pub(crate) fn find(nodes: &[Node], key: Key) -> Option<usize>
    ensures { result ≡ position (λ held. same_key (node_key held) key.0) nodes.now }
{
    nodes.iter().position(|held| held.key.equals(key))
}

// The node put at `place`, and those from there on moved back by one; the last is gone.
pub(crate) fn open_at(nodes: &mut [Node], place: usize, node: Node)
    requires { place < length nodes.old }
    ensures { nodes.new ≡ take (length nodes.old) (insert_at place node nodes.old) }
{
    nodes[place..].rotate_right(1);
    nodes[place] = node;
}

// The node at `place` taken out, those after it moved forward by one, and the last slot blank.
pub(crate) fn close_at(nodes: &mut [Node], place: usize)
    requires { place < length nodes.old }
    ensures { nodes.new ≡ remove_at place nodes.old ++ (blank_node ∷ []) }
{
    let last = nodes.len() - 1;
    nodes[place..].rotate_left(1);
    nodes[last] = Node::blank();
}
