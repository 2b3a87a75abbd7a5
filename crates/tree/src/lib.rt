// Trees of nodes, and which of them are one of the five forms, as the Rust's `try_take_usable_alg_expr`.
#![tactic(auto)]

ghost use Rattle.std.specs.Prelude.{◌≡◌};
ghost use Rattle.expr.specs.Forms.{form_of};
ghost use Rattle.tree.specs.Tree.{table_of, leaf_number, is_x, beside_x, addend as addend_of, factor as factor_of, with_two, sum as sum_of, product as product_of, usable};

use blocks::nodes::Node;
use expr::UsableAlgExpr;

// The form of a number from 1 to 5, with its numbers in the order of a sheet; none for any other.
#[tactic(auto, unfolding(expr::specs::Forms::form_of))]
pub fn of_form(number: u8, first: u64, second: u64) -> Option<UsableAlgExpr>
    ensures { result ≡ form_of number first second }
{
    match number {
        1 => Some(UsableAlgExpr::IdentOnly),
        2 => Some(UsableAlgExpr::SimpleAdd(first)),
        3 => Some(UsableAlgExpr::SimpleMult(first)),
        4 => Some(UsableAlgExpr::AddMult(first, second)),
        5 => Some(UsableAlgExpr::MultAdd(first, second)),
        _ => None,
    }
}

// The node at an index; past the table it is the number 0.
fn node_at(nodes: &[Node; 32], i: u8) -> Node
    ensures { result ≡ table_of nodes.now i }
{
    nodes.get(usize::from(i)).copied().unwrap_or(Node::Num(0))
}

// ---- leaves

fn number_of(n: Node) -> Option<u64>
    ensures { result ≡ leaf_number n }
{
    let Node::Num(c) = n else {
        return None;
    };
    Some(c)
}

fn is_x(n: Node) -> bool
    ensures { result ≡ is_x n }
{
    matches!(n, Node::Ident)
}

// ---- a number and x

// In either order: the number.
fn beside_x(p: Node, q: Node) -> Option<u64>
    ensures { result ≡ beside_x p q }
{
    if is_x(q) {
        return number_of(p);
    }
    if is_x(p) {
        return number_of(q);
    }
    None
}

// Added: the number. (`addend` and `factor`, `sum` and `product` are pairs in the rules too, two phrases each, and each has its
// definition.)
fn addend(nodes: &[Node; 32], n: Node) -> Option<u64>
    ensures { result ≡ addend_of (table_of nodes.now) n }
{
    let Node::Add(l, r) = n else {
        return None;
    };
    beside_x(node_at(nodes, l), node_at(nodes, r))
}

// Multiplied: the number.
fn factor(nodes: &[Node; 32], n: Node) -> Option<u64>
    ensures { result ≡ factor_of (table_of nodes.now) n }
{
    let Node::Mul(l, r) = n else {
        return None;
    };
    beside_x(node_at(nodes, l), node_at(nodes, r))
}

// ---- forms

fn mult_add(m: Option<u64>, a: Option<u64>) -> Option<UsableAlgExpr>
    ensures { result ≡ with_two UsableAlgExpr.MultAdd m a }
{
    Some(UsableAlgExpr::MultAdd(m?, a?))
}

fn add_mult(a: Option<u64>, m: Option<u64>) -> Option<UsableAlgExpr>
    ensures { result ≡ with_two UsableAlgExpr.AddMult a m }
{
    Some(UsableAlgExpr::AddMult(a?, m?))
}

// A number and x, or a product form plus a number.
fn sum(nodes: &[Node; 32], p: Node, q: Node) -> Option<UsableAlgExpr>
    ensures { result ≡ sum_of (table_of nodes.now) p q }
{
    if let Some(a) = beside_x(p, q) {
        return Some(UsableAlgExpr::SimpleAdd(a));
    }
    mult_add(factor(nodes, p), number_of(q)).or(mult_add(factor(nodes, q), number_of(p)))
}

// A number and x, or an addition form times a number.
fn product(nodes: &[Node; 32], p: Node, q: Node) -> Option<UsableAlgExpr>
    ensures { result ≡ product_of (table_of nodes.now) p q }
{
    if let Some(m) = beside_x(p, q) {
        return Some(UsableAlgExpr::SimpleMult(m));
    }
    add_mult(addend(nodes, p), number_of(q)).or(add_mult(addend(nodes, q), number_of(p)))
}

// A tree, by its root's node: x, a sum or a product.
fn form_of(nodes: &[Node; 32], n: Node) -> Option<UsableAlgExpr>
    ensures { result ≡ usable (table_of nodes.now) n }
{
    match n {
        Node::Ident => Some(UsableAlgExpr::IdentOnly),
        Node::Add(l, r) => sum(nodes, node_at(nodes, l), node_at(nodes, r)),
        Node::Mul(l, r) => product(nodes, node_at(nodes, l), node_at(nodes, r)),
        Node::Num(_) | Node::Sub(_, _) | Node::Div(_, _) => None,
    }
}

// The form that a tree is, by the table of its nodes and the index of its root.
pub fn try_take_usable_alg_expr(nodes: [Node; 32], root: u8) -> Option<UsableAlgExpr>
    ensures { result ≡ usable (table_of nodes) (table_of nodes root) }
{
    form_of(&nodes, node_at(&nodes, root))
}
