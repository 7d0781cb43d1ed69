// The archive of `exports_files` for C: judging files. Each function has the name, the arguments and
// the promise of one there, and calls it.

#![tactic(auto)]

ghost use Rattle.std.specs.Prelude.{◌≡◌};
ghost use Rattle.paper_files.specs.File.{judge_file};
ghost use Rattle.exports_words.specs.Words.{answer_word, lent_after};
ghost use Rattle.exports_verdicts.specs.Verdicts.{verdict_answer, totals_numbers};

// The verdict on a file: its totals, stored only where it is accepted.
#[unsafe(no_mangle)]
pub extern "C" fn x4_judge_file(file: &[u8], totals: &mut [u64; 4]) -> u64
    ensures value { result ≡ answer_word (verdict_answer (judge_file file.now)) }
    ensures totals_after { totals.new
        ≡ lent_after (judge_file file.now).refusal totals.old
        (totals_numbers (judge_file file.now).totals) }
{
    exports_files::transmissions::x4_judge_file(file, totals)
}
