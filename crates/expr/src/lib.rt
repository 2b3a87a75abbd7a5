// Length expressions, as the Rust's `UsableAlgExpr`: five forms over the value of one field, worked forward to a length and back.
// The name of the field stays in the block that has the expression.
#![tactic(auto)]

ghost use Rattle.std.specs.Prelude.{◌≡◌};
ghost use Rattle.expr.specs.Forms.{over, forward as forward_of, Back, back as back_of, length_says};

use number::Bytes;

#[derive(Clone, Copy, Debug, PartialEq, Eq)]
pub enum UsableAlgExpr {
    // x
    IdentOnly,
    // x + a
    SimpleAdd(u64),
    // x * m
    SimpleMult(u64),
    // (x + a) * m
    AddMult(u64, u64),
    // x * m + a
    MultAdd(u64, u64),
}

impl UsableAlgExpr {
    #[tactic(auto, unfolding(crate::specs::Forms::in64_bits))]
    fn forward(self, x: u64) -> Option<u64>
        ensures { result ≡ forward_of self x }
    {
        match self {
            UsableAlgExpr::IdentOnly => Some(x),
            UsableAlgExpr::SimpleAdd(a) => x.checked_add(a),
            UsableAlgExpr::SimpleMult(m) => x.checked_mul(m),
            UsableAlgExpr::AddMult(a, m) => x.checked_add(a)?.checked_mul(m),
            UsableAlgExpr::MultAdd(m, a) => x.checked_mul(m)?.checked_add(a),
        }
    }

    #[tactic(auto, unfolding(crate::specs::Forms::less))]
    fn back(self, y: u64) -> Option<u64>
        ensures { result ≡ back_of self y }
    {
        match self {
            UsableAlgExpr::IdentOnly => Some(y),
            UsableAlgExpr::SimpleAdd(a) => y.checked_sub(a),
            UsableAlgExpr::SimpleMult(m) => whole_quotient(y, m),
            UsableAlgExpr::AddMult(a, m) => whole_quotient(y, m)?.checked_sub(a),
            UsableAlgExpr::MultAdd(m, a) => whole_quotient(y.checked_sub(a)?, m),
        }
    }

    // The length of a field's value; none where a step passes 2^64 - 1.
    pub fn exec(self, x: u64) -> Option<Bytes>
        ensures { length_says result ≡ forward_of self x }
    {
        Some(Bytes(self.forward(x)?))
    }

    // The value whose length this is; none where there is no such value, or a multiplier is 0.
    pub fn reverse_exec(self, y: Bytes) -> Option<u64>
        ensures { Back self y.0 result }
    {
        self.back(y.0)
    }
}

// The number divided, where nothing is left over; by 0 there is no quotient.
#[tactic(auto, unfolding(crate::specs::Forms::over))]
fn whole_quotient(n: u64, m: u64) -> Option<u64>
    ensures { result ≡ over m n }
{
    if m == 0 || n % m != 0 {
        return None;
    }
    Some(n / m)
}
