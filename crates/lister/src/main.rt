// The lister: standard input is one sheet; its listing, or the one line of its refusal, goes to standard output. Where it cannot be read or written, a line on
// standard error says so.
#![tactic(auto)]

use std::io;
use std::process::ExitCode;

// Lists standard input on standard output, or answers what failed, and why.
fn list(rt: &HostRuntime) -> Result<(), (&'static str, io::Error)> {
    let mut input = [0; 50689];
    let n = streams::read_to_end(&mut rt.stdin(), &mut input).map_err(|why| (
        "cannot read standard input",
        why,
    ))?;
    let mut out = [0; 40000];
    let k = listing::list_input(&input, n, &mut out);
    rt.write_all(&out[..k])
        .map_err(|why| ("cannot write standard output", why))
}

fn main(rt: HostRuntime) -> ExitCode {
    match list(&rt) {
        Ok(()) => ExitCode::SUCCESS,
        Err((what, why)) => {
            let _ = eprintln!(rt; "lister: {what}: {why}");
            ExitCode::FAILURE
        }
    }
}
