// A writer's answer, for C: a number, and two lent numbers.
#![tactic(auto)]

ghost use Rattle.telling.specs.Told.{Tells, NumberTells};

use note::{Numbered, Refusal};

/// Gives an answer's number, 0 where it is accepted; stores the next place, or a refusal's place, in the number that is lent for it, and leaves
/// the other as it was. A refusal may have any number.
#[tactic(auto, unfolding(crate::specs::Told::after_of))]
pub fn told(answer: Result<usize, Numbered>, next: &mut u64, refusal: &mut u64) -> u32
    ensures { NumberTells answer (record { next = next.old; refusal = refusal.old })
        (record { number = result; next = next.new; refusal = refusal.new }) }
{
    match answer {
        Ok(place) => {
            *next = place as u64;
            0
        }
        Err(refused) => {
            *refusal = refused.place as u64;
            refused.number
        }
    }
}

/// The same of an answer whose refusal has a fault, as a writer's has.
pub fn told_fault(answer: Result<usize, Refusal>, next: &mut u64, refusal: &mut u64) -> u32
    ensures { Tells answer (record { next = next.old; refusal = refusal.old })
        (record { number = result; next = next.new; refusal = refusal.new }) }
{
    let answer = match answer {
        Ok(place) => Ok(place),
        Err(refused) => Err(refused.into()),
    };
    told(answer, next, refusal)
}
