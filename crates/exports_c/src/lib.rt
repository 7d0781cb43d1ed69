// The archive of `exports` for C: numbers and verdicts. Each function has the name, the arguments and
// the promise of one there, and calls it.

#![tactic(auto)]

ghost use Rattle.std.specs.Prelude.{◌≡◌, not, eqb};
ghost use Rattle.paper_entry.specs.Judging.{judge_of};
ghost use Rattle.exports_words.specs.Words.{answer_word, lent_after, VERSION};
ghost use Rattle.exports_verdicts.specs.Verdicts.{verdict_answer, totals_numbers};
ghost use Rattle.paper_number.specs.Value.{value_of};
ghost use Rattle.paper_number.specs.Digits.{number_read};
ghost use Rattle.paper_canonical.specs.Writing.{bytes, writing_refusal};
ghost use Rattle.exports_values.specs.Values.{reading_answer, reading_stored};

// The verdict on an entry: its totals, stored only where it is accepted.
#[unsafe(no_mangle)]
pub extern "C" fn x4_judge(entry: &[u8], totals: &mut [u64; 4]) -> u64
    ensures value { result ≡ answer_word (verdict_answer (judge_of entry.now)) }
    ensures totals_after { totals.new
        ≡ lent_after (judge_of entry.now).refusal totals.old
        (totals_numbers (judge_of entry.now).totals) }
{
    exports::judging::x4_judge(entry, totals)
}

// What a number field says and how many digits are written in it, stored only where that is a blank or a number.
#[unsafe(no_mangle)]
pub extern "C" fn x4_read_number(field: &[u8], value: &mut [u64; 8]) -> u64
    ensures value { result ≡ answer_word (reading_answer (number_read field.now).reading) }
    ensures value_after { value.new ≡ reading_stored value.old (number_read field.now) }
{
    exports::numbers::x4_read_number(field, value)
}

// Writes the canonical field of a value, below zero where `negative` is not 0: 0 done, 40 buffer not eleven bytes, 41 no
// field reads to the value.
#[unsafe(no_mangle)]
pub extern "C" fn x4_write_number(
    negative: u32,
    coefficient: u64,
    power: i32,
    out: &mut [u8],
) -> u32
    ensures value { result ≡ writing_refusal out.old (value_of (not (eqb negative 0)) coefficient power) }
    ensures out_after { out.new ≡ bytes out.old (value_of (not (eqb negative 0)) coefficient power) }
{
    exports::numbers::x4_write_number(negative, coefficient, power, out)
}

// A header says its own; the two are to be the same.
#[unsafe(no_mangle)]
pub extern "C" fn x4_version() -> u32
    ensures { result ≡ VERSION }
{
    exports::version::x4_version()
}
