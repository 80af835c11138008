// The node table: structs written from four tables of numbers, one for each field.
#![tactic(auto)]

ghost use Rattle.std.specs.Prelude.{◌≡◌, ◌<◌, ◌≤◌, length};
ghost use Rattle.tree.specs.Inside.Tables.{held, Hold};
ghost use Rattle.answer.specs.Tables.{front};
ghost use Rattle.nodes.specs.Inside.Rows.{row_at, rows};

use tree::nodes::Columns;

// A node of a dialectical tree: its argument's index in the argument list, its parent's node number, its kind, its mark.
// In C's layout, since C programs lend such a table.
#[repr(C)]
#[derive(Clone, Copy)]
pub struct Node {
    pub argument: u32,
    pub parent: u32,
    pub kind: u8,
    pub mark: u8,
}

// Row i of the four tables.
fn row(columns: &Columns<'_>, i: usize) -> Node
    requires { (i < length columns.now.indexes.now) × (i < length columns.now.parents.now) × (i < length columns.now.kinds.now) × (i < length columns.now.marks.now) }
    ensures { result ≡ row_at (held columns.now) i }
{
    Node {
        argument: columns.indexes[i],
        parent: columns.parents[i],
        kind: columns.kinds[i],
        mark: columns.marks[i],
    }
}

// Writes the first n rows of the four tables to the front of the node table.
pub fn write(nodes: &mut [Node], columns: &Columns<'_>, n: usize)
    requires { (n ≤ length nodes.old) × Hold n (held columns.now) }
    ensures { nodes.new ≡ front (rows n (held columns.now)) nodes.old }
{
    for i in 0..n {
        nodes[i] = row(columns, i);
    }
}
