// The worked cases of the rules for values and words, and for the stamps of writes; and the numbers of the kinds.
#![tactic(auto)]

ghost use Rattle.std.specs.Prelude.{◌≡◌, ◌∷◌, [], length};
ghost use Rattle.cases.specs.Cases.{worked_cases, WorkedCasesHold};
ghost use Rattle.cases.specs.Kinds.{NoneTwice};

use kinds::{BinWeight, Kind};
use lots::LotCard;

// How many worked cases there are; each of them holds.
pub fn worked_cases() -> usize
    ensures count { result ≡ length worked_cases }
    ensures hold { WorkedCasesHold }
{
    8
}

// The numbers of the kinds that there are, none of them twice: no kind has the number of another.
pub fn kind_numbers() -> [u8; 2]
    ensures numbers { result ≡ ⟦<BinWeight as Kind>⟧.NUMBER ∷ ⟦<LotCard as Kind>⟧.NUMBER ∷ [] }
    ensures differ { NoneTwice result }
{
    [BinWeight::NUMBER, LotCard::NUMBER]
}
