// Judging files, for host programs.
ghost use Rattle.std.specs.Prelude.{◌≡◌};
ghost use Rattle.paper_files.specs.File.{judge_file};
ghost use Rattle.exports_words.specs.Words.{answer_word, lent_after};
ghost use Rattle.exports_verdicts.specs.Verdicts.{verdict_answer, totals_numbers};

use exports_verdicts::verdicts::put_verdict;
use files::judge_file::judge_file;

// The verdict on a file: its totals, stored only where it is accepted.
#[unsafe(no_mangle)]
pub extern "C" fn x4_judge_file(file: &[u8], totals: &mut [u64; 4]) -> u64
    ensures value { result ≡ answer_word (verdict_answer (judge_file file.now)) }
    ensures totals_after { totals.new
        ≡ lent_after (judge_file file.now).refusal totals.old
        (totals_numbers (judge_file file.now).totals) }
{
    let v = judge_file(file);
    put_verdict(v, totals)
}
