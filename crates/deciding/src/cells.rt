// A node's record with its four marks: taken together and taken apart.
ghost use Rattle.std.specs.Prelude.{◌≡◌};
ghost use Rattle.charts.specs.View.{cell_of};

use charts::{Cell, Node};

pub fn cell_of(x: Node, won: bool, pending: bool, holder: bool, misled: bool) -> Cell
    ensures { result ≡ cell_of x won pending holder misled }
{
    Cell {
        mode: x.mode,
        buffer: x.buffer,
        sending: x.sending,
        won,
        pending,
        holder,
        misled,
    }
}

pub fn node_of(c: Cell) -> Node
    ensures { result ≡ record { mode = c.mode; buffer = c.buffer; sending = c.sending } }
{
    Node {
        mode: c.mode,
        buffer: c.buffer,
        sending: c.sending,
    }
}
