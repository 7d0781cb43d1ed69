// The archive of `exports_file_copies` for C: the entries of a file, and copies of files. Each function has the name, the arguments and
// the promise of one there, and calls it.

#![tactic(auto)]

ghost use Rattle.std.specs.Prelude.{◌≡◌, length};
ghost use Rattle.paper_files.specs.Parts.{entry_length};
ghost use Rattle.files_copy_laws.specs.CopyFile.{copied_file, stored_file};
ghost use Rattle.exports_words.specs.Words.{answer_word};

// How many bytes the entry has that begins with the byte `at` of a file, 0 where none does.
#[unsafe(no_mangle)]
pub extern "C" fn x4_entry_length(file: &[u8], at: usize) -> usize
    ensures { result ≡ entry_length file.now at }
{
    exports_file_copies::copying::x4_entry_length(file, at)
}

// Stores the copy of a file in a buffer that may be longer: 0 done, else the word of refusal 31 or 37.
#[unsafe(no_mangle)]
pub extern "C" fn x4_copy_file(file: &[u8], out: &mut [u8]) -> u64
    ensures value { result ≡ answer_word (copied_file file.now (length out.old)) }
    ensures out_after { out.new ≡ stored_file file.now out.old }
{
    exports_file_copies::copying::x4_copy_file(file, out)
}
