// Files named on the command line, for the programs.
#![tactic(auto)]

ghost use Rattle.std.specs.Prelude.{IfOk, ◌≤◌, length};

use std::env::{Env, FillError};
use std::fs::{self, Files};
use std::io::{self, ErrorKind, Write};

// How many arguments the program was started with, its own name among them.
pub fn arg_count<E: Env>(env: &E) -> usize {
    let mut name = [0u8; 4096];
    for i in 0..usize::MAX {
        if let Err(FillError::NotPresent) = env.arg(i, &mut name) {
            return i;
        }
    }
    usize::MAX
}

// Argument i of the command line, at the start of the space for a name; nothing where it is longer. `env::args` has only
// arguments that are text.
fn arg<'a, E: Env>(env: &E, i: usize, name: &'a mut [u8]) -> &'a [u8]
    ensures { length result.now ≤ length name.old }
{
    match env.arg(i, name) {
        Ok(n) => &name[..n],
        Err(_) => &[],
    }
}

// Writes argument i of the command line, or nothing where it is longer than any path.
pub fn print_name<E: Env, W: Write>(env: &E, i: usize, out: &mut W) -> io::Result<()> {
    out.write_all(arg(env, i, &mut [0u8; 4096]))
}

// Reads the file that argument i names, as far as the space reaches.
pub fn read<'a, R: Env + Files>(rt: &R, i: usize, space: &'a mut [u8]) -> io::Result<&'a [u8]>
    ensures { IfOk result (λ r. length r.now ≤ length space.old) }
{
    let mut name = [0u8; 4096];
    let Ok(path) = str::from_utf8(arg(rt, i, &mut name)) else {
        return Err(io::Error::from(ErrorKind::InvalidFilename));
    };
    let n = stdio::fill(&mut fs::open(rt, path)?, space)?;
    Ok(&space[..n])
}
