// Lines with canonical energies, stored one behind the other.
ghost use Rattle.std.specs.Prelude.{◌≡◌, ◌++◌, ◌+◌, ◌*◌, ◌≤◌, length, drop};
ghost use Rattle.std.proofs.Math.Seq.{paste};
ghost use Rattle.paper_canonical.specs.Replacing.{canonical};
ghost use Rattle.paper_record.specs.Columns.{columns_at};
ghost use Rattle.paper_cinda.specs.Layout.{LINE, lines_count};
ghost use Rattle.paper_cinda.specs.Back.{line_back, lines_back};

use canonical_fields::fields::{put_canonical, put_plain};

// The n columns of a line behind its first `from`, as they are.
fn put_columns(out: &mut [u8], at: usize, line: &[u8], from: usize, n: usize)
    requires { (at + n ≤ length out.old) × (from + n ≤ length line.now) }
    ensures { out.new ≡ paste out.old at (columns_at from n line.now) n }
{
    let past = from + n;
    put_plain(out, at, &line[from..past]);
}

// The seven columns of a line behind its first `from`, canonical.
fn put_energy(out: &mut [u8], at: usize, line: &[u8], from: usize)
    requires { (at + 7 ≤ length out.old) × (from + 7 ≤ length line.now) }
    ensures { out.new
        ≡ paste out.old at (canonical (columns_at from 7 line.now)) 7 }
{
    let past = from + 7;
    put_canonical(out, at, &line[from..past]);
}

// A line, in its place.
fn put_line(out: &mut [u8], at: usize, line: &[u8])
    requires { (at + LINE ≤ length out.old) × (length line.now ≡ LINE) }
    ensures { out.new ≡ paste out.old at (line_back line.now) LINE }
{
    let least = at + 41;
    let greatest = at + 48;
    let behind = at + 55;
    put_columns(out, at, line, 0, 41);
    put_energy(out, least, line, 41);
    put_energy(out, greatest, line, 48);
    put_columns(out, behind, line, 55, 71);
}

// All lines; what stands behind them in the buffer stays.
pub fn put_lines(lines: &[u8], out: &mut [u8])
    requires { (length lines.now ≡ lines_count lines.now * LINE) × (length lines.now ≤ length out.old) }
    ensures { out.new
        ≡ lines_back lines.now ++ drop (length lines.now) out.old }
{
    let n = lines.len() / 126;
    for i in 0..n {
        let at = i * 126;
        let past = at + 126;
        put_line(out, at, &lines[at..past]);
    }
}
