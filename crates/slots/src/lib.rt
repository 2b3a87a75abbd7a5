// Length slots: what the L blocks of a sheet hold, each one of the five forms, a tree that is one, or neither.
#![tactic(auto)]

ghost use Rattle.std.specs.Prelude.{◌≡◌, ◌&&◌};
ghost use Rattle.slots.specs.Slots.{root_in, tree_in, expr_in, held, block_of_slot, length_field, is_tree, no_form};
ghost use Rattle.answer.specs.Walk.{or_zero};

use expr::UsableAlgExpr;

// What a slot holds: no block gives it; it is given without an expression; or with one. (As an `Option` in an `Option` the first two would have no names.)
#[derive(Clone, Copy, Debug, PartialEq, Eq)]
pub enum LengthField {
    Absent,
    Undefined,
    Expr(UsableAlgExpr),
}

// The same, and the block that gives it; 0 where none does. (Whoever has one takes that block's name, and only `held` decides whether it
// is used: an `Option` would be taken apart there once more.)
#[derive(Clone, Copy, Debug, PartialEq, Eq)]
pub struct Slot {
    pub held: LengthField,
    pub at: usize,
}

// ---- what an L block holds

// The index of a tree's root, which is its last node.
fn root_in(b: &[u8]) -> u8
    ensures { result ≡ root_in b.now }
{
    blocks::node_count(b).saturating_sub(1)
}

fn tree_in(b: &[u8]) -> Option<UsableAlgExpr>
    ensures { result ≡ tree_in b.now }
{
    tree::try_take_usable_alg_expr(blocks::nodes::nodes_of(b), root_in(b))
}

#[tactic(auto, unfolding(crate::specs::Slots::expr_in))]
fn expr_in(b: &[u8]) -> Option<UsableAlgExpr>
    ensures { result ≡ expr_in b.now }
{
    let form = blocks::stated_form(b);
    if form == blocks::TREE {
        return tree_in(b);
    }
    let one = blocks::first_number(b);
    let two = blocks::second_number(b);
    tree::of_form(form, one, two)
}

fn held_in(b: &[u8]) -> LengthField
    ensures { result ≡ held (expr_in b.now) }
{
    expr_in(b).map_or(LengthField::Undefined, LengthField::Expr)
}

// What a slot holds, and the block that gives it. (A slot is asked for by its number, 0 to 2 in a sheet. No block of a sheet gives
// another, and that is an answer too: a type of three cases would ask more of who calls.)
pub fn slot_of(s: &[u8], slot: u8) -> Slot
    ensures { (result.held ≡ length_field s.now slot) × (result.at ≡ or_zero (block_of_slot s.now slot)) }
{
    match sheet::slot_block(s, slot) {
        Some(i) => Slot {
            held: held_in(sheet::block(s, i)),
            at: i,
        },
        None => Slot {
            held: LengthField::Absent,
            at: 0,
        },
    }
}

// ---- trees

fn is_tree(b: &[u8]) -> bool
    ensures { result ≡ is_tree b.now }
{
    blocks::kind(b) == b'L' && blocks::stated_form(b) == blocks::TREE
}

// Length 12 of a block: a tree that is none of the five forms.
pub fn no_form(b: &[u8]) -> bool
    ensures { result ≡ (is_tree b.now && no_form (expr_in b.now)) }
{
    is_tree(b) && expr_in(b).is_none()
}
