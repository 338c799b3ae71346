// The nodes of a term table.
ghost use Rattle.std.specs.Prelude.{◌≡◌};
ghost use Rattle.terms.specs.Nodes.{constant_node, variable_node, join_node, content_of};

use kinds::Kind;

// The forms of a node, as the format of tables numbers them.
pub const CONSTANT: u8 = 0;

pub const VARIABLE: u8 = 1;

pub const JOIN: u8 = 2;

// A node as a table holds it. `form` says what it is; the fields that its form does not use are ignored. The form is a
// number, since the format of tables fixes its byte, and a byte that is no form is what a table can be refused for. So are
// `left` and `right`, the operands of a join: the format has the numbers of two nodes of the table, and any number can
// stand there.
#[derive(Clone, Copy)]
pub struct Node<K> {
    pub form: u8,
    pub variable: u8,
    pub left: u16,
    pub right: u16,
    pub constant: K,
}

// What a node is: a constant, a variable by its number, or the join of two nodes of its table by theirs.
#[derive(Clone, Copy)]
pub enum Content<K> {
    Constant(K),
    Variable(usize),
    Join(usize, usize),
}

impl<K: Copy> Node<K> {
    // What the node is, unless its form is none of the three.
    pub fn content(self) -> Option<Content<K>>
        ensures { result ≡ content_of self }
    {
        match self.form {
            CONSTANT => Some(Content::Constant(self.constant)),
            VARIABLE => Some(Content::Variable(self.variable as usize)),
            JOIN => Some(Content::Join(self.left as usize, self.right as usize)),
            _ => None,
        }
    }
}

// The nodes of each form, with their unused fields zero. Named by the form, since a number alone does not say that it is a
// variable's.
impl<K: Kind> Node<K> {
    pub fn of_constant(constant: K) -> Node<K>
        ensures { result ≡ constant_node constant }
    {
        Node {
            form: CONSTANT,
            variable: 0,
            left: 0,
            right: 0,
            constant,
        }
    }

    pub fn of_variable(variable: u8) -> Node<K>
        ensures { result ≡ variable_node K.ops variable }
    {
        Node {
            form: VARIABLE,
            variable,
            left: 0,
            right: 0,
            constant: K::zero(),
        }
    }

    pub fn of_join(left: u16, right: u16) -> Node<K>
        ensures { result ≡ join_node K.ops left right }
    {
        Node {
            form: JOIN,
            variable: 0,
            left,
            right,
            constant: K::zero(),
        }
    }
}
