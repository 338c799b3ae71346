// The worked samples of sessions over names, with two variables X0 and X1, each action printed with its answer; and the
// sizes that a session can have.
#![tactic(auto)]

use kinds::Kind;
use kinds::names::Names;
use messages::Message;
use replay::{Ask, Request, replay};
use session::Session;
use session::answer::{Answer, Reply};
use std::io;
use tables::Sides;
use terms::nodes::Node;
use terms::normal::Normal;

mod table;

// The nodes of the one table that all samples use, and what they are called.
const NODES: usize = 7;

const LABELS: [&str; NODES] = ["X0", "X1", "X0 ^ X1", "a", "b", "X0 ^ a", "0"];

fn nodes() -> [Node<Names>; NODES] {
    [
        Node::of_variable(0),
        Node::of_variable(1),
        Node::of_join(0, 1),
        Node::of_constant(Names::one(0)),
        Node::of_constant(Names::one(1)),
        Node::of_join(0, 3),
        Node::of_constant(Names::zero()),
    ]
}

fn label(node: usize) -> &'static str {
    LABELS.get(node).copied().unwrap_or("?")
}

// Prints an answer, on the line of its action.
fn print_answer(rt: &impl Print, answer: Answer<Names>) -> io::Result<()> {
    match answer {
        Ok(Reply::Done) => rt.println("done"),
        Ok(Reply::Posted) => rt.println("posted"),
        Ok(Reply::Told(verdict)) => rt.println(verdict),
        Ok(Reply::Image(form)) => rt.println(Message(form)),
        Err(refusal) => rt.println(refusal),
    }
}

fn print_equation(rt: &impl Print, verb: &str, sides: Sides<Names>) -> io::Result<()> {
    let left = label(sides.left);
    let right = label(sides.right);
    print!(rt; "  {verb} {left} = {right}: ")
}

fn print_ask(rt: &impl Print, ask: Ask<Names>) -> io::Result<()> {
    match ask {
        Ask::Post(sides) => print_equation(rt, "post", sides),
        Ask::Query(sides) => print_equation(rt, "query", sides),
        Ask::Mark => rt.print("  mark: "),
        Ask::ReturnToMark => rt.print("  return: "),
        Ask::Show(variable) => print!(rt; "  show X{variable}: "),
    }
}

// Replays a review on a fresh session of two variables, and prints every action with its answer.
fn review(rt: &impl Print, title: &str, requests: &mut [Request<Names>]) -> io::Result<()> {
    let mut slots = [Normal::zero(); 2];
    let mut ledger = [Normal::zero(); 4];
    let mut work = [9; NODES];
    let mut session = Session::new(&mut slots, &mut ledger);
    println!(rt; "{title}")?;
    if let Err(refusal) = replay(&mut session, 2, requests, &mut work) {
        return rt.println(refusal);
    }
    for request in requests.iter() {
        print_ask(rt, request.ask)?;
        print_answer(rt, request.answer)?;
    }
    Ok(())
}

fn asking<'a>(ask: Ask<'a, Names>) -> Request<'a, Names> {
    Request {
        ask,
        answer: Ok(Reply::Done),
    }
}

// A request of each sort by a line of its own: one function over both would be longer to call.
fn post<'a>(table: &'a [Node<Names>], left: usize, right: usize) -> Request<'a, Names> {
    asking(Ask::Post(Sides::new(table, left, right)))
}

fn query<'a>(table: &'a [Node<Names>], left: usize, right: usize) -> Request<'a, Names> {
    asking(Ask::Query(Sides::new(table, left, right)))
}

fn show<'a>(variable: usize) -> Request<'a, Names> {
    asking(Ask::Show(variable))
}

fn review_all(rt: &impl Print) -> io::Result<()> {
    let nodes = nodes();
    let table = &nodes[..];
    review(
        rt,
        "an equation that says nothing",
        &mut [post(table, 6, 6), show(0), show(1)],
    )?;
    review(rt, "a contradiction", &mut [post(table, 3, 6)])?;
    review(
        rt,
        "one equation, and what follows from it",
        &mut [
            post(table, 2, 3),
            show(1),
            show(0),
            post(table, 0, 1),
            query(table, 1, 5),
            query(table, 0, 3),
            post(table, 0, 4),
            show(0),
            show(1),
        ],
    )?;
    review(
        rt,
        "a mark and the return to it",
        &mut [
            asking(Ask::Mark),
            post(table, 0, 3),
            asking(Ask::ReturnToMark),
            show(0),
            asking(Ask::ReturnToMark),
        ],
    )
}

// Opens a session over 64 slots with so many variables.
fn open(rt: &impl Print, n: usize) -> io::Result<()> {
    let mut slots = [Normal::<Names>::zero(); 64];
    let mut ledger = [Normal::zero(); 4];
    let mut session = Session::new(&mut slots, &mut ledger);
    print!(rt; "open with {n}: ")?;
    match session.open(n) {
        Ok(()) => rt.println("done"),
        Err(refusal) => rt.println(refusal),
    }
}

fn main(rt: HostRuntime) -> io::Result<()> {
    table::table_of_samples();
    review_all(&rt)?;
    open(&rt, 1)?;
    open(&rt, 64)?;
    open(&rt, 0)?;
    open(&rt, 65)
}
