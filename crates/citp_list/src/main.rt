// Lists the packets of standard input, of which it reads the first 65,536 bytes.
#![tactic(auto)]

use intake::read_full;
use listing::list_from;

// Writes the listing of s part by part; a write that fails ends it.
fn list(stdout: &impl Print, s: &[u8], out: &mut [u8]) {
    for from in (0..0x8000_0000).step_by(65536) {
        let n = list_from(out, from, s);
        if stdout.write_all(&out[..n]).is_err() || n < 65536 {
            return;
        }
    }
}

fn main(rt: HostRuntime) {
    let mut stream = [0u8; 65536];
    let n = read_full(&mut rt.stdin(), &mut stream);
    let mut out = [0u8; 65536];
    list(&rt.stdout(), &stream[..n], &mut out);
}
