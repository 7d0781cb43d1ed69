// The archive of `exports_reasons` for C: why an entry or a file is refused. Each function has the name, the arguments and
// the promise of one there, and calls it.

#![tactic(auto)]

ghost use Rattle.std.specs.Prelude.{◌≡◌};
ghost use Rattle.paper_entry.specs.Judging.{judge_of};
ghost use Rattle.paper_files.specs.File.{judge_file};
ghost use Rattle.paper_reasons.specs.Reason.{explain};
ghost use Rattle.paper_reasons.specs.File.{explain_file};
ghost use Rattle.exports_words.specs.Words.{answer_word, lent_after};
ghost use Rattle.exports_verdicts.specs.Verdicts.{verdict_answer, totals_numbers};
ghost use Rattle.exports_facts.specs.Facts.{facts_numbers};

// The verdict on an entry, as `x4_judge` answers it, and its reason, stored whatever the verdict is.
#[unsafe(no_mangle)]
pub extern "C" fn x4_explain(
    entry: &[u8],
    totals: &mut [u64; 4],
    facts: &mut [u64; 3],
    characters: &mut [u8; 8],
) -> u64
    ensures value { result ≡ answer_word (verdict_answer (judge_of entry.now)) }
    ensures totals_after { totals.new
        ≡ lent_after (judge_of entry.now).refusal totals.old
        (totals_numbers (judge_of entry.now).totals) }
    ensures facts_after { facts.new ≡ facts_numbers (explain entry.now).reason.facts }
    ensures characters_after { characters.new ≡ (explain entry.now).reason.characters }
{
    exports_reasons::explaining::x4_explain(entry, totals, facts, characters)
}

// The same of a file: its verdict as `x4_judge_file` answers it.
#[unsafe(no_mangle)]
pub extern "C" fn x4_explain_file(
    file: &[u8],
    totals: &mut [u64; 4],
    facts: &mut [u64; 3],
    characters: &mut [u8; 8],
) -> u64
    ensures value { result ≡ answer_word (verdict_answer (judge_file file.now)) }
    ensures totals_after { totals.new
        ≡ lent_after (judge_file file.now).refusal totals.old
        (totals_numbers (judge_file file.now).totals) }
    ensures facts_after { facts.new ≡ facts_numbers (explain_file file.now).reason.facts }
    ensures characters_after { characters.new ≡ (explain_file file.now).reason.characters }
{
    exports_reasons::explaining::x4_explain_file(file, totals, facts, characters)
}
