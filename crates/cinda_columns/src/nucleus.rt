// The words of the target: "columns 2-4 are 999 where 5-7 hold MNY".
ghost use Rattle.std.specs.Prelude.{◌≡◌};
ghost use Rattle.paper_record.specs.Text.{text};
ghost use Rattle.paper_record.specs.Word.{equal_to};
ghost use Rattle.paper_cinda.specs.Layout.{WholeLine, columns_in};
ghost use Rattle.paper_cinda.specs.Rules.{is_many};

use record_words::word::equal_to;

// Whether columns 5 to 7 hold MNY.
pub fn is_many(line: &[u8]) -> bool
    requires { WholeLine line.now }
    ensures { result ≡ is_many line.now }
{
    equal_to(&line[4..7], b"MNY", 3)
}

// Whether columns 2 to 4 are 999.
pub fn is_nines(line: &[u8]) -> bool
    requires { WholeLine line.now }
    ensures { result ≡ equal_to 3 (columns_in line.now 2 3) (text "999") }
{
    equal_to(&line[1..4], b"999", 3)
}
