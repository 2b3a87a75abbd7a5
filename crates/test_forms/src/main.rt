// Asks single questions on both sides of a line: lengths forward and back, trees, ranges. The answers were worked out by hand.
// Prints which parts were right and which were not.
#![tactic(auto)]

use answer::{Group, OnPaper, Refusal};
use blocks::nodes::Node;
use bounds::CondBounds;
use expr::UsableAlgExpr;
use number::Bytes;
use std::io;
use std::ops::Bound;

const MOST: u64 = u64::MAX;

// ---- lengths

// Whether x forward is y.
fn gives(e: UsableAlgExpr, x: u64, y: u64) -> bool {
    e.exec(x) == Some(Bytes(y))
}

fn gives_none(e: UsableAlgExpr, x: u64) -> bool {
    e.exec(x).is_none()
}

fn forward() -> bool {
    gives(UsableAlgExpr::IdentOnly, MOST, MOST)
        && gives(UsableAlgExpr::AddMult(2, 4), 5, 28)
        && gives(UsableAlgExpr::MultAdd(4, 2), 5, 22)
        && gives(UsableAlgExpr::SimpleAdd(1), MOST - 1, MOST)
        && gives(UsableAlgExpr::SimpleMult(0), MOST, 0)
        && gives(UsableAlgExpr::SimpleMult(3), MOST / 3, MOST)
        && gives(UsableAlgExpr::MultAdd(2, 1), MOST / 2, MOST)
}

// A step counts even where the next one would bring it back.
fn passed() -> bool {
    gives_none(UsableAlgExpr::SimpleAdd(1), MOST)
        && gives_none(UsableAlgExpr::SimpleMult(2), 9223372036854775808)
        && gives_none(UsableAlgExpr::AddMult(1, 0), MOST)
        && gives_none(UsableAlgExpr::AddMult(1, 2), MOST / 2)
        && gives_none(UsableAlgExpr::MultAdd(2, 2), MOST / 2)
        && gives_none(UsableAlgExpr::MultAdd(4294967296, 0), 4294967296)
}

// Whether y goes back to x.
fn comes_from(e: UsableAlgExpr, y: u64, x: u64) -> bool {
    e.reverse_exec(Bytes(y)) == Some(x)
}

fn has_no_way_back(e: UsableAlgExpr, y: u64) -> bool {
    e.reverse_exec(Bytes(y)).is_none()
}

fn back() -> bool {
    comes_from(UsableAlgExpr::IdentOnly, MOST, MOST)
        && comes_from(UsableAlgExpr::SimpleAdd(7), 7, 0)
        && comes_from(UsableAlgExpr::SimpleMult(3), 9, 3)
        && comes_from(UsableAlgExpr::AddMult(2, 4), 28, 5)
        && comes_from(UsableAlgExpr::AddMult(2, 4), 8, 0)
        && comes_from(UsableAlgExpr::MultAdd(3, 7), 16, 3)
        && comes_from(UsableAlgExpr::MultAdd(3, 7), 7, 0)
}

fn no_way_back() -> bool {
    has_no_way_back(UsableAlgExpr::SimpleAdd(7), 6)
        && has_no_way_back(UsableAlgExpr::SimpleMult(3), 10)
        && has_no_way_back(UsableAlgExpr::AddMult(2, 4), 30)
        && has_no_way_back(UsableAlgExpr::AddMult(2, 4), 4)
        && has_no_way_back(UsableAlgExpr::MultAdd(3, 7), 17)
        && has_no_way_back(UsableAlgExpr::MultAdd(3, 7), 4)
}

// The Rust divides by zero here.
fn multiplier_zero() -> bool {
    has_no_way_back(UsableAlgExpr::SimpleMult(0), 0)
        && has_no_way_back(UsableAlgExpr::AddMult(1, 0), 0)
        && has_no_way_back(UsableAlgExpr::MultAdd(0, 7), 7)
}

// ---- trees

// Of five nodes, x, 2, an inner operator, 4 and an outer one, the form of the one at the root.
fn asked(inner: Node, outer: Node, root: u8) -> Option<UsableAlgExpr> {
    let mut nodes = [Node::Num(0); 32];
    nodes[0] = Node::Ident;
    nodes[1] = Node::Num(2);
    nodes[2] = inner;
    nodes[3] = Node::Num(4);
    nodes[4] = outer;
    tree::try_take_usable_alg_expr(nodes, root)
}

fn two_operators() -> bool {
    asked(Node::Add(0, 1), Node::Mul(2, 3), 4) == Some(UsableAlgExpr::AddMult(2, 4))
        && asked(Node::Add(1, 0), Node::Mul(3, 2), 4) == Some(UsableAlgExpr::AddMult(2, 4))
        && asked(Node::Mul(0, 1), Node::Add(2, 3), 4) == Some(UsableAlgExpr::MultAdd(2, 4))
        && asked(Node::Mul(1, 0), Node::Add(3, 2), 4) == Some(UsableAlgExpr::MultAdd(2, 4))
}

// What the root does not reach is not asked for, and past the table is the number 0.
fn one_operator() -> bool {
    let unreached = Node::Div(4, 4);
    asked(Node::Add(0, 1), unreached, 2) == Some(UsableAlgExpr::SimpleAdd(2))
        && asked(Node::Add(1, 0), unreached, 2) == Some(UsableAlgExpr::SimpleAdd(2))
        && asked(Node::Mul(0, 3), unreached, 2) == Some(UsableAlgExpr::SimpleMult(4))
        && asked(Node::Mul(3, 0), unreached, 2) == Some(UsableAlgExpr::SimpleMult(4))
        && asked(unreached, unreached, 0) == Some(UsableAlgExpr::IdentOnly)
        && asked(Node::Add(0, 32), unreached, 2) == Some(UsableAlgExpr::SimpleAdd(0))
}

fn no_forms() -> bool {
    asked(Node::Add(0, 0), Node::Ident, 2).is_none()
        && asked(Node::Add(1, 1), Node::Ident, 2).is_none()
        && asked(Node::Sub(0, 1), Node::Ident, 2).is_none()
        && asked(Node::Div(0, 1), Node::Ident, 2).is_none()
        && asked(Node::Add(0, 1), Node::Add(2, 3), 4).is_none()
        && asked(Node::Mul(0, 1), Node::Mul(2, 3), 4).is_none()
        && asked(Node::Add(0, 1), Node::Mul(2, 0), 4).is_none()
        && asked(Node::Mul(0, 1), Node::Sub(2, 3), 4).is_none()
        && asked(Node::Add(1, 3), Node::Mul(2, 0), 4).is_none()
        && asked(Node::Ident, Node::Ident, 1).is_none()
}

// ---- ranges

// Whether the end of a range is cut so, and its start left as it is.
fn clips(end: Bound<u64>, most: u64, to: Bound<u64>) -> bool {
    let start = Bound::Included(3);
    (CondBounds { start, end }).update_end(most) == CondBounds { start, end: to }
}

fn clipped() -> bool {
    clips(Bound::Excluded(256), 255, Bound::Excluded(256))
        && clips(Bound::Excluded(257), 255, Bound::Included(255))
        && clips(Bound::Excluded(MOST), MOST, Bound::Excluded(MOST))
        && clips(Bound::Included(255), 255, Bound::Included(255))
        && clips(Bound::Included(256), 255, Bound::Included(255))
        && clips(Bound::Unbounded, 255, Bound::Included(255))
}

// Bound 1, which has place 0.
fn is_bound_1(r: Refusal) -> bool {
    let on_paper = OnPaper {
        group: Group::Bound,
        number: 1,
        place: 0,
    };
    r.on_paper() == on_paper
}

fn is_empty(start: Bound<u64>, end: Bound<u64>) -> bool {
    (CondBounds { start, end }).is_empty() == Ok(true)
}

fn is_held(start: Bound<u64>, end: Bound<u64>) -> bool {
    (CondBounds { start, end }).is_empty() == Ok(false)
}

fn is_refused(start: Bound<u64>, end: Bound<u64>) -> bool {
    (CondBounds { start, end })
        .is_empty()
        .is_err_and(is_bound_1)
}

fn empty() -> bool {
    is_empty(Bound::Included(MOST), Bound::Unbounded)
        && is_empty(Bound::Included(MOST), Bound::Excluded(MOST))
        && is_empty(Bound::Unbounded, Bound::Excluded(0))
        && is_empty(Bound::Included(5), Bound::Excluded(5))
        && is_empty(Bound::Included(5), Bound::Included(4))
}

fn not_empty() -> bool {
    is_held(Bound::Included(MOST - 1), Bound::Unbounded)
        && is_held(Bound::Included(MOST), Bound::Included(MOST))
        && is_held(Bound::Unbounded, Bound::Unbounded)
        && is_held(Bound::Unbounded, Bound::Excluded(1))
        && is_held(Bound::Included(5), Bound::Included(5))
}

// Whether two ranges have just this in common.
fn share(r: CondBounds, q: CondBounds, both: CondBounds) -> bool {
    r.intersect(q) == Ok(both)
}

fn all_from(start: Bound<u64>) -> CondBounds {
    let end = Bound::Unbounded;
    CondBounds { start, end }
}

fn all_to(end: Bound<u64>) -> CondBounds {
    let start = Bound::Unbounded;
    CondBounds { start, end }
}

fn starts() -> bool {
    let none = all_from(Bound::Unbounded);
    let four = all_from(Bound::Included(4));
    let nine = all_from(Bound::Included(9));
    share(none, none, none)
        && share(none, four, four)
        && share(nine, none, nine)
        && share(four, nine, nine)
        && share(nine, four, nine)
}

// An included i stands before an excluded e where i < e.
fn ends() -> bool {
    let none = all_to(Bound::Unbounded);
    let three = all_to(Bound::Included(3));
    let to_four = all_to(Bound::Included(4));
    let below_four = all_to(Bound::Excluded(4));
    let below_nine = all_to(Bound::Excluded(9));
    share(none, three, three)
        && share(below_four, none, below_four)
        && share(three, to_four, three)
        && share(three, below_four, three)
        && share(to_four, below_four, below_four)
        && share(below_four, to_four, below_four)
        && share(below_nine, below_four, below_four)
}

fn share_nothing(r: CondBounds, q: CondBounds) -> bool {
    r.intersect(q).is_err_and(is_bound_1)
}

// An excluded start is refused, on either side.
fn excluded_starts() -> bool {
    let past = all_from(Bound::Excluded(0));
    let any = all_from(Bound::Unbounded);
    share_nothing(past, any)
        && share_nothing(any, past)
        && is_refused(Bound::Excluded(0), Bound::Excluded(1))
        && is_refused(Bound::Excluded(4), Bound::Unbounded)
}

fn holds(start: Bound<u64>, end: Bound<u64>, first: u64, last: u64) -> bool {
    (CondBounds { start, end }).first_last() == Some((first, last))
}

fn holds_none(start: Bound<u64>, end: Bound<u64>) -> bool {
    (CondBounds { start, end }).first_last().is_none()
}

fn numbers() -> bool {
    holds(Bound::Unbounded, Bound::Excluded(5), 0, 4)
        && holds(Bound::Included(7), Bound::Included(7), 7, 7)
        && holds(Bound::Excluded(3), Bound::Included(9), 4, 9)
        && holds(Bound::Included(MOST), Bound::Unbounded, MOST, MOST)
        && holds_none(Bound::Unbounded, Bound::Excluded(0))
        && holds_none(Bound::Excluded(3), Bound::Excluded(4))
        && holds_none(Bound::Excluded(MOST), Bound::Unbounded)
}

fn main(rt: HostRuntime) -> io::Result<()> {
    let parts = [
        ("forward", forward()),
        ("passed", passed()),
        ("back", back()),
        ("no way back", no_way_back()),
        ("multiplier zero", multiplier_zero()),
        ("two operators", two_operators()),
        ("one operator", one_operator()),
        ("no forms", no_forms()),
        ("clipped", clipped()),
        ("empty", empty()),
        ("not empty", not_empty()),
        ("starts", starts()),
        ("ends", ends()),
        ("excluded starts", excluded_starts()),
        ("numbers", numbers()),
    ];
    for (part, ok) in parts {
        let word = if ok { "right" } else { "wrong" };
        println!(rt; "{part} {word}")?;
    }
    Ok(())
}
