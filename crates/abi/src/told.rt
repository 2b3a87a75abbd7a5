// What a call tells beside its answer: the refusal, in three numbers; or a number, where there is one.
ghost use Rattle.answer.specs.Paper.{says, refusal_says};
ghost use Rattle.abi.specs.Told.{zeros, Answered, Told, Found};

use answer::{OnPaper, Refusal};

// The group, the number and the place of a refusal; false, since it is one.
pub(crate) fn tell_refusal(refusal: &mut [u64; 3], reason: Refusal) -> bool
    ensures { Answered {A = Unit {0}} (refusal_says reason) refusal.old refusal.new result }
{
    let OnPaper {
        group,
        number,
        place,
    } = reason.on_paper();
    *refusal = [group.number() as u64, number as u64, place as u64];
    false
}

// What a check tells: nothing, or the refusal.
pub(crate) fn tell_verdict(refusal: &mut [u64; 3], v: Result<(), Refusal>) -> bool
    ensures { Answered (says v) refusal.old refusal.new result }
{
    match v {
        Ok(()) => true,
        Err(reason) => tell_refusal(refusal, reason),
    }
}

// An answer in so many numbers, or zeros and the refusal. (Compiled into each caller: a call would hand the answer over through memory.)
#[inline(always)]
pub(crate) fn tell<const N: usize>(
    out: &mut [u64; N],
    refusal: &mut [u64; 3],
    answer: Result<[u64; N], Refusal>,
) -> bool
    ensures { Told (zeros N) (λ x. x) (says answer.entry) out.new refusal.old refusal.new result }
{
    match answer {
        Ok(numbers) => {
            *out = numbers;
            true
        }
        Err(reason) => {
            out.fill(0);
            tell_refusal(refusal, reason)
        }
    }
}

// A number, or 0 where there is none; true where there is.
pub(crate) fn tell_found(number: &mut [u64; 1], v: Option<u64>) -> bool
    ensures { Found v number.new result }
{
    *number = [v.unwrap_or(0)];
    v.is_some()
}
