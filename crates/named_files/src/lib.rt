// The files that a program's arguments name.
#![tactic(auto)]

ghost use Rattle.std.specs.Prelude.{◌≤◌, length};

use std::fs::File;
use std::io::Read;
use std::{env, io};

// Opens the file at `path` and prints that name, with `behind` behind it. Where it cannot be opened, says so and answers none. A write that fails is
// passed over.
fn open_argument(rt: &HostRuntime, path: &str, behind: &str) -> Option<File> {
    match File::open(rt, path) {
        Ok(file) => {
            let _ = print!(rt; "{path}{behind}");
            Some(file)
        }
        Err(error) => {
            let _ = eprintln!(rt; "{path}: {error}");
            None
        }
    }
}

// Reads until `buf` is full, the input ends or a read fails, and answers how many bytes it put at the front of `buf`.
// A `while`, since the library's `read_exact` does not say how many it read, and `read_to_end` asks for a heap.
pub fn read_full(input: &mut impl Read, buf: &mut [u8]) -> usize
    ensures { result ≤ length buf.new }
{
    let mut done = 0;
    while done < buf.len() {
        let n = input.read(&mut buf[done..]).unwrap_or(0);
        if n == 0 {
            break;
        }
        done += n;
    }
    done
}

// Prints the name of each file that an argument names, with `behind` behind it, before the file is read; then hands `show` as many of its first bytes
// as `buf` has room for.
pub fn show_each<F: Fn(&[u8])>(
    rt: &HostRuntime,
    behind: &str,
    buf: &mut [u8],
    show: F,
) -> io::Result<()>
    requires { F.IsAlwaysCallable show }
{
    for path in env::args(rt)?.skip(1) {
        if let Some(mut file) = open_argument(rt, path.as_str(), behind) {
            let n = read_full(&mut file, buf);
            show(&buf[..n]);
        }
    }
    Ok(())
}
