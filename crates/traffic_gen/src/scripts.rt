// The scripts of a number.
ghost use Rattle.std.specs.Prelude.{◌≡◌, ◌++◌, IfOk, OnOk, length, string_bytes};
ghost use Rattle.traffic_gen.specs.Numbers.{drawn};
ghost use Rattle.traffic_gen.specs.Texts.{data_of, line, lines, platform_text, read_line, scripts, write_line};

use crate::numbers::next;
use crate::platform::PLATFORM;
use std::alloc::{AllocError, Global};
use std::fmt::Write;
use tlm_types::{Bytes, Memory};

/// How many lines a script has.
const LINES: u64 = 8000;

/// How many scripts there are.
const SCRIPTS: usize = 4;

/// The text of a platform, and those of its scripts, in the order of its initiators.
#[derive(Drop)]
pub struct Generated {
    pub platform: Bytes,
    pub scripts: Vec<Bytes>,
}

/// The platform and the scripts of a number. Its only error is want of memory.
pub fn generate(alloc: Global, seed: u64) -> Result<Generated, Memory>
    ensures platform { IfOk result (λ made. made.platform ≡ platform_text) }
    ensures scripts { IfOk result (λ made. made.scripts.items ≡ scripts 4 seed) }
{
    let platform = Bytes::from_slice(alloc, PLATFORM.as_bytes())?;
    let mut scripts = Vec::new(alloc);
    let mut number = seed;
    for _script in 0..SCRIPTS {
        let (script, last) = make_script(alloc, number)?;
        scripts.push(script)?;
        number = last;
    }
    Ok(Generated { platform, scripts })
}

// A script whose first line is made of the number that follows this one, and the number of its last line.
fn make_script(alloc: Global, first: u64) -> Result<(Bytes, u64), Memory>
    ensures script { IfOk result (λ made. made.0 ≡ lines 0 8000 first) }
    ensures last { IfOk result (λ made. made.1 ≡ drawn 8000 first) }
{
    let mut text = String::new(alloc);
    let mut number = first;
    for k in 0..LINES {
        number = next(number);
        put_line(&mut text, k % 8, number)?;
    }
    Ok((Bytes::from_vec(text.into_bytes()), number))
}

// The line of a number, by its place among eight.
fn put_line(text: &mut String, place: u64, number: u64) -> Result<(), AllocError>
    ensures { OnOk result (string_bytes text.new ≡ string_bytes text.old ++ line place number) }
{
    let value = number >> 33;
    let on_bus = 8 * (value % 8192);
    let behind_bridge = 8 * (value % 512);
    match place {
        0 | 2 => put_write(text, on_bus, number),
        4 => put_read(text, 0x100000 + behind_bridge),
        5 => put_write(text, 0x101000 + behind_bridge, number),
        6 => put_read(text, 0x101000 + behind_bridge),
        _ => put_read(text, on_bus),
    }
}

fn put_write(text: &mut String, address: u64, number: u64) -> Result<(), AllocError>
    ensures { OnOk result (string_bytes text.new ≡ string_bytes text.old ++ write_line address number) }
{
    write!(text, "write 0x{address:x} ")?;
    put_data(text, number)?;
    writeln!(text)
}

fn put_data(text: &mut String, number: u64) -> Result<(), AllocError>
    ensures { OnOk result (string_bytes text.new ≡ string_bytes text.old ++ data_of number) }
{
    write!(text, "{number:016x}")
}

fn put_read(text: &mut String, address: u64) -> Result<(), AllocError>
    ensures { OnOk result (string_bytes text.new ≡ string_bytes text.old ++ read_line address) }
{
    writeln!(text, "read 0x{address:x} 8")
}
