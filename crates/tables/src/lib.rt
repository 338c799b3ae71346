// Term tables with sides: their checks, the normal form of a side or of the join of two, and whether two sides are
// equivalent. Whatever the input, a call says what it gives and what the working bytes then hold.
#![tactic(auto)]

ghost use Rattle.std.specs.Prelude.{◌≡◌, ℕ, ◌<◌, ◌≤◌, length, MatchResult, slice_index};
ghost use Rattle.refusals.specs.declared.Refusal.{Refusal as Fault};
ghost use Rattle.tables.specs.Calls.{Outcome, Cleared, PastMemory, Worked, input, input_of, left_term, right_term, flipped, picked_sum};
ghost use Rattle.terms.specs.Decisions.{Decides};
ghost use Rattle.terms.specs.Limits.{most_variables};
ghost use Rattle.terms.specs.NormalForms.{SameNormal, normal, NormalFormsDecide};
ghost use Rattle.tables.specs.Tables.{NodeFault, LowestFault, Faultless, term_at};
ghost use Rattle.terms.specs.Terms.{Equiv, join};

use kinds::Kind;
use refusals::Refusal;
use terms::nodes::{Content, Node};
use terms::normal::Normal;
use terms::sets::MOST_VARIABLES;

// The most nodes of a table.
pub const MOST_NODES: usize = 4096;

// The two sides of an equation, as nodes of one table. The number of variables and the working bytes are no part of it and
// come with each call: a session knows the one, and the other are lent for the call and may be more than the nodes.
#[derive(Clone, Copy)]
pub struct Sides<'a, K> {
    pub table: &'a [Node<K>],
    pub left: usize,
    pub right: usize,
}

fn flip(work: &mut [u8], i: usize)
    requires { i < length work.old }
    ensures { work.new ≡ flipped work.old i }
{
    work[i] ^= 1;
}

// Whether a node is sound as node `i`, and what is wrong with it if not.
fn check_node<K: Kind>(n: usize, i: usize, node: Node<K>) -> Result<(), Refusal>
    ensures { MatchResult result (λ _. (q : Fault) → NodeFault n i node q → ⊥) (NodeFault n i node) }
{
    match node.content() {
        None => Err(Refusal::WrongForm(i)),
        Some(Content::Variable(v)) if v >= n => Err(Refusal::WrongVariable(i)),
        Some(Content::Join(left, right)) if left >= i || right >= i => {
            Err(Refusal::WrongOperand(i))
        }
        Some(_) => Ok(()),
    }
}

// All nodes in rising order, reached by a side or not, up to the lowest at fault.
fn check_nodes<K: Kind>(n: usize, table: &[Node<K>]) -> Result<(), Refusal>
    ensures { MatchResult result (λ _. Faultless n table.now) (LowestFault n table.now) }
{
    for (i, node) in table.iter().enumerate() {
        check_node(n, i, *node)?;
    }
    Ok(())
}

// The join of the normal forms of the nodes whose byte is set. The bytes count the uses of each node modulo two, from
// the highest node down: a join passes its byte on to its operands, so that a shared node is visited once.
fn collect<K: Kind>(table: &[Node<K>], work: &mut [u8]) -> Normal<K>
    requires nodes { Faultless most_variables table.now }
    requires room { length table.now ≤ length work.old }
    requires bits { (i : ℕ) → i < length table.now → slice_index work.old i ≤ 1 }
    ensures work { Cleared (length table.now) work.old work.new }
    ensures sum { SameNormal K.ops result (picked_sum K.ops table.now work.old) }
{
    let mut sum = Normal::zero();
    // by places, since a join writes the bytes of two lower ones
    for i in (0..table.len()).rev() {
        if work[i] != 0 {
            work[i] = 0;
            match table[i].content() {
                Some(Content::Constant(constant)) => sum = sum.join(Normal::of_constant(constant)),
                Some(Content::Variable(v)) => sum = sum.join(Normal::of_variable(v)),
                Some(Content::Join(left, right)) => {
                    flip(work, left);
                    flip(work, right);
                }
                None => {}
            }
        }
    }
    sum
}

// The normal form of a side, after the checks with that side as both. It and `joined_form` share `check` and `collect`, and
// differ in the bytes that they turn on between.
pub fn normal_form<K: Kind>(
    n: usize,
    table: &[Node<K>],
    side: usize,
    work: &mut [u8],
) -> Result<Normal<K>, Refusal>
    ensures result { Outcome n (input table.now side side (length work.old)) (λ x. SameNormal K.ops x (normal K.ops (term_at K.ops table.now side))) result }
    ensures work { Worked (PastMemory n (input table.now side side (length work.old))) (length table.now) work.old work.new }
{
    let sides = Sides {
        table,
        left: side,
        right: side,
    };
    sides.check(n, work)?;
    flip(work, side);
    Ok(collect(table, work))
}

impl<'a, K: Kind> Sides<'a, K> {
    pub fn new(table: &'a [Node<K>], left: usize, right: usize) -> Sides<'a, K>
        ensures { result ≡ record { table = table.entry; left = left; right = right } }
    {
        Sides { table, left, right }
    }

    // The checks of the table and the sides for `n` variables, and of the working bytes, in this order: the size `n`, the
    // number of nodes, the number of working bytes, the nodes, the left side, the right side.
    pub fn check(&self, n: usize, work: &mut [u8]) -> Result<(), Refusal>
        ensures result { Outcome n (input_of self.now (length work.old)) (λ _. Unit {0}) result }
        ensures work { Worked (PastMemory n (input_of self.now (length work.old))) (length self.now.table.now) work.old work.new }
    {
        let count = self.table.len();
        if n == 0 || n > MOST_VARIABLES {
            return Err(Refusal::BadSize);
        }
        if count == 0 || count > MOST_NODES {
            return Err(Refusal::TableSize);
        }
        if work.len() < count {
            return Err(Refusal::ShortMemory(count));
        }
        work[..count].fill(0);
        check_nodes(n, self.table)?;
        if self.left >= count {
            return Err(Refusal::NoSuchSide(self.left));
        }
        if self.right >= count {
            return Err(Refusal::NoSuchSide(self.right));
        }
        Ok(())
    }

    // The normal form of the join of the two sides, after the checks.
    pub fn joined_form(&self, n: usize, work: &mut [u8]) -> Result<Normal<K>, Refusal>
        ensures result { Outcome n (input_of self.now (length work.old)) (λ x. SameNormal K.ops x (normal K.ops (join (left_term K.ops self.now) (right_term K.ops self.now)))) result }
        ensures work { Worked (PastMemory n (input_of self.now (length work.old))) (length self.now.table.now) work.old work.new }
    {
        self.check(n, work)?;
        flip(work, self.left);
        flip(work, self.right);
        Ok(collect(self.table, work))
    }

    // Whether the axioms of exclusive or lead from one side to the other, after the checks.
    pub fn equivalent(&self, n: usize, work: &mut [u8]) -> Result<bool, Refusal>
        ensures result { Outcome n (input_of self.now (length work.old)) (λ b. Decides b (Equiv K.ops (left_term K.ops self.now) (right_term K.ops self.now))) result }
        ensures work { Worked (PastMemory n (input_of self.now (length work.old))) (length self.now.table.now) work.old work.new }
        ensures decide { NormalFormsDecide K.ops }
    {
        let form = self.joined_form(n, work)?;
        Ok(form.same(Normal::zero()))
    }
}
