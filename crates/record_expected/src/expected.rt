// What is written in columns 67 to 79, and what is expected there.
ghost use Rattle.std.specs.Prelude.{◌≡◌};
ghost use Rattle.paper_record.specs.Columns.{Whole};
ghost use Rattle.paper_record.specs.Word.{equal_to};
ghost use Rattle.paper_record.specs.Expected.{accession_of, identification_of, sequence_of, in_digits};
ghost use Rattle.paper_record.specs.Expected.{identification_for, entry_accession, subent_accession};
ghost use Rattle.paper_record.specs.Expected.{subent_identification};

use columns::fields::columns_at;
use record_words::word::equal_to;

// Columns 67 to 71.
pub fn accession(rec: &[u8]) -> [u8; 5]
    requires { Whole rec.now }
    ensures { result ≡ accession_of rec.now }
{
    columns_at(rec, 66)
}

// Columns 67 to 74.
pub fn identification(rec: &[u8]) -> [u8; 8]
    requires { Whole rec.now }
    ensures { result ≡ identification_of rec.now }
{
    columns_at(rec, 66)
}

// Columns 75 to 79.
pub fn sequence(rec: &[u8]) -> [u8; 5]
    requires { Whole rec.now }
    ensures { result ≡ sequence_of rec.now }
{
    columns_at(rec, 74)
}

// A sequence number in five digits.
pub fn five_digits(n: u32) -> [u8; 5]
    ensures { result ≡ in_digits 5 n }
{
    [
        b'0' + (n / 10000 % 10) as u8,
        b'0' + (n / 1000 % 10) as u8,
        b'0' + (n / 100 % 10) as u8,
        b'0' + (n / 10 % 10) as u8,
        b'0' + (n % 10) as u8,
    ]
}

// An accession and a subentry's number in three digits.
pub fn identification_for(a: [u8; 5], n: u32) -> [u8; 8]
    ensures { result ≡ identification_for a n }
{
    let d = five_digits(n);
    [a[0], a[1], a[2], a[3], a[4], d[2], d[3], d[4]]
}

// The accession in ENTRY's N1.
pub fn entry_accession(f: [u8; 11]) -> [u8; 5]
    ensures { result ≡ entry_accession f }
{
    columns_at(&f, 6)
}

// The accession in the N1 of SUBENT or NOSUBENT.
pub fn subent_accession(f: [u8; 11]) -> [u8; 5]
    ensures { result ≡ subent_accession f }
{
    columns_at(&f, 3)
}

// The accession and the number in it.
pub fn subent_identification(f: [u8; 11]) -> [u8; 8]
    ensures { result ≡ subent_identification f }
{
    columns_at(&f, 3)
}

// Whether two identifications are equal.
pub fn same_identification(a: [u8; 8], b: [u8; 8]) -> bool
    ensures { result ≡ equal_to 8 a b }
{
    equal_to(&a, &b, 8)
}

// Whether two accessions, or two sequences, are equal.
pub fn same_five(a: [u8; 5], b: [u8; 5]) -> bool
    ensures { result ≡ equal_to 5 a b }
{
    equal_to(&a, &b, 5)
}
