// Judging, for host programs.
ghost use Rattle.std.specs.Prelude.{◌≡◌};
ghost use Rattle.paper_entry.specs.Judging.{judge_of};
ghost use Rattle.exports_words.specs.Words.{answer_word, lent_after};
ghost use Rattle.exports_verdicts.specs.Verdicts.{verdict_answer, totals_numbers};

use entry::judge::judge;
use exports_verdicts::verdicts::put_verdict;

// The verdict on an entry: its totals, stored only where it is accepted.
#[unsafe(no_mangle)]
pub extern "C" fn x4_judge(entry: &[u8], totals: &mut [u64; 4]) -> u64
    ensures value { result ≡ answer_word (verdict_answer (judge_of entry.now)) }
    ensures totals_after { totals.new
        ≡ lent_after (judge_of entry.now).refusal totals.old
        (totals_numbers (judge_of entry.now).totals) }
{
    let v = judge(entry);
    put_verdict(v, totals)
}
