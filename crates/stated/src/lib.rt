// What a block states, as data, and the bytes that state it. There is no code: `specs` builds the bytes of a block part after part, from the widths of its
// items and without an offset, and `proofs` shows that the layout of `blocks` is just that.
#![tactic(auto)]
