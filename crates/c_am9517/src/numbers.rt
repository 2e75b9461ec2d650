// Numbers that stand for what is the chip's alone: a round of four channels, and a verdict on a log.
ghost use Rattle.std.specs.Prelude.{◌≡◌};
ghost use Rattle.c_am9517.specs.Numbers.{round_told_of, judge_told_of};

use crate::{JudgeTold, RoundTold};
use am9517_service::Rounded;
use c_told::{round_pair, wide};
use logs::Verdict;

pub(crate) fn round_told_of(rounded: Rounded) -> RoundTold
    ensures { result ≡ round_told_of rounded }
{
    let answer = rounded.answer;
    let pair = round_pair(answer);
    let services = rounded.services;
    RoundTold {
        refusal: pair.refusal,
        reason: pair.reason,
        services,
        transfers: rounded.totals.transfers,
        used: rounded.totals.used,
        written: rounded.totals.written,
        states: rounded.totals.states,
    }
}

// What is found of a log of this size.
pub(crate) fn judge_told_of(verdict: Verdict, size: usize) -> JudgeTold
    ensures { result ≡ judge_told_of size verdict }
{
    match verdict {
        Verdict::Accepted => JudgeTold {
            refusal: 0,
            error: 0,
            right: size,
        },
        Verdict::Wrong { at, error } => JudgeTold {
            refusal: 0,
            error,
            right: at,
        },
        Verdict::Refused(refusal) => JudgeTold {
            refusal: wide(refusal.number()),
            error: 0,
            right: 0,
        },
    }
}
