// What every accepted sheet owes to those who read and write its fields. There is no code: `specs` states it of the sheet's own bytes and of the promises
// that the template and the entries of `access` make, and `proofs` shows it.
#![tactic(auto)]
