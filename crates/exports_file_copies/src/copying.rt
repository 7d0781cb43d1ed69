// Entries of a file and its copy, for host programs.
ghost use Rattle.std.specs.Prelude.{◌≡◌, length};
ghost use Rattle.paper_files.specs.Parts.{entry_length};
ghost use Rattle.files_copy_laws.specs.CopyFile.{copied_file, stored_file};
ghost use Rattle.exports_words.specs.Words.{answer_word};

use exports_words::words::answer_word;
use files_copy::copy_file::copy_file;
use files_parts::parts::entry_length;

// How many bytes the entry has that begins with the byte `at` of a file, 0 where none does.
#[unsafe(no_mangle)]
pub extern "C" fn x4_entry_length(file: &[u8], at: usize) -> usize
    ensures { result ≡ entry_length file.now at }
{
    entry_length(file, at)
}

// Stores the copy of a file in a buffer that may be longer: 0 done, else the word of refusal 31 or 37.
#[unsafe(no_mangle)]
pub extern "C" fn x4_copy_file(file: &[u8], out: &mut [u8]) -> u64
    ensures value { result ≡ answer_word (copied_file file.now (length out.old)) }
    ensures out_after { out.new ≡ stored_file file.now out.old }
{
    answer_word(copy_file(file, out))
}
