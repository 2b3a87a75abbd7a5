// What a sheet holds, compared with the facts of its record as they stand there, byte after byte.

use blocks::nodes::Node;
use expr::UsableAlgExpr;
use field::{DefaultVal, Field};
use header::Header;
use number::Bytes;
use octets::part;
use slots::LengthField;

// What is left of the facts behind those that were right so far; none once one was not.
#[derive(Drop)]
pub(crate) struct Facts<'a> {
    left: Option<&'a [u8]>,
}

// A text and what stands behind it, where its length of 2 bytes stands before it.
fn counted(facts: &[u8]) -> Option<(&[u8], &[u8])> {
    let (len, rest) = facts.split_first_chunk()?;
    rest.split_at_checked(usize::from(u16::from_be_bytes(*len)))
}

impl<'a> Facts<'a> {
    pub(crate) fn new(facts: &'a [u8]) -> Facts<'a> {
        Facts { left: Some(facts) }
    }

    // Whether all were right, with nothing left of them.
    pub(crate) fn are_read(&self) -> bool {
        self.left.is_some_and(|left| left.is_empty())
    }

    fn wrong(&mut self) {
        self.left = None;
    }

    // With one thing more that was right or not.
    pub(crate) fn and(&mut self, right: bool) {
        if !right {
            self.wrong();
        }
    }

    // ---- bytes and numbers

    fn bytes(&mut self, bytes: &[u8]) {
        if let Some(left) = self.left {
            self.left = left.strip_prefix(bytes);
        }
    }

    fn byte(&mut self, b: u8) {
        self.bytes(&[b]);
    }

    fn flag(&mut self, b: bool) {
        self.byte(u8::from(b));
    }

    fn one(&mut self, n: usize) {
        match u8::try_from(n) {
            Ok(n) => self.byte(n),
            Err(_) => self.wrong(),
        }
    }

    fn two(&mut self, n: usize) {
        match u16::try_from(n) {
            Ok(n) => self.bytes(&n.to_be_bytes()),
            Err(_) => self.wrong(),
        }
    }

    fn four(&mut self, n: u64) {
        match u32::try_from(n) {
            Ok(n) => self.bytes(&n.to_be_bytes()),
            Err(_) => self.wrong(),
        }
    }

    fn eight(&mut self, n: u64) {
        self.bytes(&n.to_be_bytes());
    }

    // The index of a block, of which there are at most 99; 255 for none.
    fn index(&mut self, i: Option<usize>) {
        self.one(i.unwrap_or(255));
    }

    // ---- what any sheet that passed steps 1 and 2 holds

    fn counts(&mut self, s: &[u8]) {
        let n = sheet::block_counts(s);
        self.one(n.fields);
        self.one(n.lengths);
        self.one(n.conds);
        for slot in 0..3 {
            self.index(sheet::slot_block(s, slot));
        }
    }

    fn name(&mut self, name: &[u8]) {
        self.one(name.len());
        self.bytes(name);
    }

    // A default, and as many of its bytes as the block states.
    fn default(&mut self, b: &[u8], default: DefaultVal) {
        match default {
            DefaultVal::Num(n) => {
                self.byte(1);
                self.eight(n);
                self.two(0);
            }
            DefaultVal::Bool(_) => self.wrong(),
            DefaultVal::Bytes(span) => {
                self.byte(2);
                self.eight(0);
                self.two(span.len);
                self.bytes(part(part(b, span.at, b.len()), 0, span.len));
            }
        }
    }

    fn resolved(&mut self, b: &[u8], f: Field) {
        self.four(f.width.0);
        self.byte(f.repr.code());
        self.byte(f.arg.code());
        self.flag(f.generate);
        self.flag(f.fixed);
        self.flag(f.need_write_guard());
        self.default(b, f.default);
    }

    // Of an F block.
    fn field(&mut self, b: &[u8], i: usize) {
        if blocks::kind(b) != b'F' {
            return;
        }
        match field_blocks::from_block(b, i) {
            Ok(f) => self.resolved(b, f),
            Err(_) => self.wrong(),
        }
    }

    fn node(&mut self, node: Node) {
        let (kind, left, right, n) = match node {
            Node::Num(n) => (0, 0, 0, n),
            Node::Ident => (1, 0, 0, 0),
            Node::Add(a, b) => (2, a, b, 0),
            Node::Sub(a, b) => (3, a, b, 0),
            Node::Mul(a, b) => (4, a, b, 0),
            Node::Div(a, b) => (5, a, b, 0),
        };
        self.bytes(&[kind, left, right]);
        self.eight(n);
    }

    // Of an L block that holds a tree.
    fn tree(&mut self, b: &[u8]) {
        if blocks::kind(b) != b'L' || blocks::stated_form(b) != blocks::TREE {
            return;
        }
        for node in blocks::nodes::nodes_of(b) {
            self.node(node);
        }
    }

    // Of the field in block i; past the last one there is nothing to say.
    fn start(&mut self, s: &[u8], i: usize) {
        if let Some((_, start)) = definition::unchecked_field(s, i) {
            self.four(start.to_global_pos().0);
        }
    }

    // First all names, then all fields, all trees, all starts, and for each name the field that it means.
    pub(crate) fn of_sheet(&mut self, s: &[u8]) {
        let n = sheet::block_count(s);
        self.counts(s);
        for i in 0..n {
            self.name(blocks::name(sheet::block(s, i)));
        }
        for i in 0..n {
            self.field(sheet::block(s, i), i);
        }
        for i in 0..n {
            self.tree(sheet::block(s, i));
        }
        for i in 0..n {
            self.start(s, i);
        }
        for i in 0..n {
            self.index(header::unchecked_field_named(s, blocks::name(sheet::block(s, i))));
        }
    }

    // ---- what one holds that passed step 3, 4 or 5 too

    // The header's length. Its template, which is packed, is not compared here but handed out.
    pub(crate) fn of_header(&mut self, header: Header) -> &'a [u8] {
        self.four(header.len.0);
        match self.left.and_then(counted) {
            Some((packed, left)) => {
                self.left = Some(left);
                packed
            }
            None => {
                self.wrong();
                b""
            }
        }
    }

    fn form(&mut self, e: UsableAlgExpr) {
        let (form, first, second) = match e {
            UsableAlgExpr::IdentOnly => (1, 0, 0),
            UsableAlgExpr::SimpleAdd(a) => (2, a, 0),
            UsableAlgExpr::SimpleMult(m) => (3, m, 0),
            UsableAlgExpr::AddMult(a, m) => (4, a, m),
            UsableAlgExpr::MultAdd(m, a) => (5, m, a),
        };
        self.byte(form);
        self.eight(first);
        self.eight(second);
    }

    fn length(&mut self, len: Option<Bytes>) {
        match len {
            Some(n) => self.eight(n.0),
            None => self.wrong(),
        }
    }

    pub(crate) fn of_lengths(&mut self, s: &[u8]) {
        for k in 0..3 {
            let slot = definition::unchecked_length_slot(s, k);
            match slot.held {
                LengthField::Absent => self.byte(0),
                LengthField::Undefined => self.byte(1),
                LengthField::Expr(e) => {
                    self.byte(2);
                    self.form(e);
                    self.length(slot.largest);
                    self.length(length::default_length(s, k));
                }
            }
        }
    }

    fn range(&mut self, s: &[u8], k: usize, j: u8) {
        match definition::unchecked_cond_range(s, k, j) {
            Some((first, last)) => {
                self.eight(first);
                self.eight(last);
            }
            None => self.wrong(),
        }
    }

    // Of condition k; past the last one there is nothing to say.
    fn cond(&mut self, s: &[u8], k: usize) {
        let Some(entry) = definition::unchecked_cond_entry(s, k) else {
            return;
        };
        self.byte(entry.ranges);
        for j in 0..entry.ranges {
            self.range(s, k, j);
        }
    }

    pub(crate) fn of_conds(&mut self, s: &[u8]) {
        for k in 0..sheet::block_count(s) {
            self.cond(s, k);
        }
    }
}
