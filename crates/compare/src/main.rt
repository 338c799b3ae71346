// Compares pairs of messages that are given as term tables, and prints what it does: each table's size, the normal
// forms of its two sides and whether they are equal, or why the table is refused.
#![tactic(auto)]

ghost use Rattle.std.specs.Prelude.{◌<◌};
ghost use Rattle.kinds.specs.Names.{most_names};

use kinds::Kind;
use kinds::names::Names;
use messages::Message;
use std::io;
use tables::{MOST_NODES, Sides, normal_form};
use terms::nodes::Node;

// Prints the normal form of a side.
fn show_side(
    rt: &impl Print,
    label: &str,
    n: usize,
    table: &[Node<Names>],
    side: usize,
    work: &mut [u8],
) -> io::Result<()> {
    match normal_form(n, table, side, work) {
        Ok(form) => {
            let message = Message(form);
            println!(rt; "  {label} {message}")
        }
        Err(refusal) => println!(rt; "  {label} {refusal}"),
    }
}

// Compares two nodes of a table, for `n` variables and with so many working bytes, and prints all there is to say.
fn compare(
    rt: &impl Print,
    title: &str,
    n: usize,
    sides: Sides<Names>,
    room: usize,
) -> io::Result<()> {
    let mut bytes = [7; MOST_NODES + 1];
    let work = &mut bytes[..room.min(MOST_NODES + 1)];
    let Sides { table, left, right } = sides;
    let count = table.len();
    println!(rt; "{title}")?;
    println!(rt; "  nodes {count}")?;
    match sides.equivalent(n, work) {
        Ok(same) => {
            show_side(rt, "left ", n, table, left, work)?;
            show_side(rt, "right", n, table, right, work)?;
            let verdict = if same { "equal" } else { "not equal" };
            println!(rt; "  {verdict}")
        }
        Err(refusal) => println!(rt; "  {refusal}"),
    }
}

// A name alone, by its number: a, b, .. Asks that there is one of that number.
fn name(number: usize) -> Node<Names>
    requires { number < most_names }
{
    Node::of_constant(Names::one(number))
}

// Tables that are sound.
fn compare_messages(rt: &impl Print) -> io::Result<()> {
    let cancelling = [
        name(0),
        Node::of_variable(0),
        name(1),
        Node::of_join(2, 0),
        Node::of_join(1, 3),
        Node::of_join(0, 4),
        Node::of_join(5, 1),
    ];
    compare(
        rt,
        "a ^ (X0 ^ (b ^ a)) ^ X0 against b",
        1,
        Sides::new(&cancelling, 6, 2),
        7,
    )?;
    let zeros = [Node::of_constant(Names::zero()), Node::of_join(0, 0)];
    compare(rt, "0 ^ 0 against 0", 1, Sides::new(&zeros, 1, 0), 2)?;
    let masked = [
        Node::of_variable(0),
        Node::of_variable(1),
        name(0),
        Node::of_join(0, 2),
        Node::of_join(1, 2),
    ];
    compare(rt, "X0 ^ a against X1 ^ a", 2, Sides::new(&masked, 3, 4), 5)
}

// Node 0 is X0, node 1 is a, and every further node joins the two before it. Written out, the last node would have
// more parts than a number of 850 digits counts; the normal forms go round X0, a, X0 ^ a.
fn compare_shared(rt: &impl Print) -> io::Result<()> {
    let mut shared = [name(0); MOST_NODES];
    shared[0] = Node::of_variable(0);
    // by numbers, since it is numbers that are written; `timing` makes the same table, and a library would be longer
    for i in 2..4096u16 {
        shared[i as usize] = Node::of_join(i - 1, i - 2);
    }
    compare(
        rt,
        "4,096 nodes, each the join of the two before it: the last against X0",
        1,
        Sides::new(&shared, 4095, 0),
        4096,
    )?;
    compare(
        rt,
        "the same table: the last but one against the last",
        1,
        Sides::new(&shared, 4094, 4095),
        4096,
    )
}

// Tables whose size or memory is refused.
fn compare_refused(rt: &impl Print) -> io::Result<()> {
    let two = [name(0), name(1)];
    compare(rt, "no variable", 0, Sides::new(&two, 0, 1), 2)?;
    compare(rt, "65 variables", 65, Sides::new(&two, 0, 1), 2)?;
    compare(rt, "no node", 1, Sides::new(&[], 0, 1), 2)?;
    compare(
        rt,
        "4,097 nodes",
        1,
        Sides::new(&[name(0); MOST_NODES + 1], 0, 1),
        4097,
    )?;
    compare(
        rt,
        "fewer working bytes than nodes",
        1,
        Sides::new(&two, 0, 1),
        1,
    )?;
    compare(
        rt,
        "a left side that is not there",
        1,
        Sides::new(&two, 2, 1),
        2,
    )?;
    compare(
        rt,
        "a right side that is not there",
        1,
        Sides::new(&two, 0, 9),
        2,
    )
}

// Tables with a node at fault.
fn compare_faulty(rt: &impl Print) -> io::Result<()> {
    let mut odd = name(0);
    odd.form = 3;
    let faulty = [
        ("a form that is none of the three", [name(0), name(1), odd]),
        (
            "a variable that is not below 2",
            [name(0), Node::of_variable(2), odd],
        ),
        (
            "a join that is its own left operand",
            [name(0), name(1), Node::of_join(2, 1)],
        ),
        (
            "a join whose right operand comes later",
            [name(0), Node::of_join(0, 2), odd],
        ),
    ];
    for (title, table) in &faulty {
        compare(rt, title, 2, Sides::new(table, 0, 1), 3)?;
    }
    Ok(())
}

fn main(rt: HostRuntime) -> io::Result<()> {
    compare_messages(&rt)?;
    compare_shared(&rt)?;
    compare_refused(&rt)?;
    compare_faulty(&rt)
}
