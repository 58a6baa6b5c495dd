// A file read whole.
ghost use Rattle.std.specs.Prelude.{◌≡◌, ◌≤◌, length, IfOk};
ghost use Rattle.disk.specs.Files.{read_of};

use links::{answered, reason, text_of};
use std::fs::File;
use std::io::Read;
use std::rt::{Clock, HostRuntime};
use streams::{Broken, read_whole};

fn read_by(read: Result<usize, Broken>) -> Result<usize, i32>
    ensures { result ≡ read_of read }
{
    read.map_err(|broken| reason(broken.error))
}

// Reads an input until the buffer is full or the input ends: how many bytes stand at the buffer's start, or the error number of a failure, which is never 0.
pub fn read_input<R: Read>(rt: &impl Clock, input: &mut R, buf: &mut [u8]) -> Result<usize, i32>
    ensures { IfOk result (λ count. count ≤ length buf.new) }
{
    read_by(read_whole(rt, input, buf))
}

// The file, open for reading.
pub fn open(rt: &HostRuntime, path: &[u8]) -> Result<File, i32> {
    let text = text_of(path)?;
    answered(File::open(rt, text))
}

// Reads the file until the buffer is full or the file ends.
pub fn read_file(rt: &HostRuntime, path: &[u8], buf: &mut [u8]) -> Result<usize, i32>
    ensures { IfOk result (λ count. count ≤ length buf.new) }
{
    read_opened(rt, open(rt, path), buf)
}

// The same of a file that was opened, or was not.
pub fn read_opened(
    rt: &HostRuntime,
    opened: Result<File, i32>,
    buf: &mut [u8],
) -> Result<usize, i32>
    ensures { IfOk result (λ count. count ≤ length buf.new) }
{
    let mut file = opened?;
    read_input(rt, &mut file, buf)
}
