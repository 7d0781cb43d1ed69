// Bytes stored as they are, from a place of a buffer on, as far as the buffer goes.
ghost use Rattle.std.specs.Prelude.{◌≡◌, ◌+◌, ◌<◌, ◌^◌, length};
ghost use Rattle.paper_decay_run.specs.Overlay.{overlay};

// The place behind them is handed back.
pub fn put_kept(out: &mut [u8], at: usize, text: &[u8]) -> usize
    requires { at + length text.now < 2 ^ 64 }
    ensures out_after { out.new ≡ overlay out.old at text.now }
    ensures value { result ≡ at + length text.now }
{
    let room = out.len();
    for (i, b) in text.iter().enumerate() {
        let to = at + i;
        if to < room {
            out[to] = *b;
        }
    }
    at + text.len()
}
