// A host's use of the register view: it writes lanes of a stored register in its own image and reads them back, and is handed an empty part for a
// register that is never stored.

#![tactic(auto)]

ghost use Rattle.std.specs.Prelude.{◌≡◌, get_or};
ghost use Rattle.runner.specs.Image.{view};
ghost use Rattle.registers.specs.Put.{with_lane};

use runner::view::{register_count, register_lanes, register_lanes_mut, register_start};
use std::io;

// Writes a word to a lane of a register, where there is one: by its place in the image, so that the image is known afterwards.
#[tactic(auto, using(runner::proofs::Views::part_within, runner::proofs::Views::part_small))]
fn put(image: &mut [u32], r: u32, lane: usize, word: u32)
    ensures { image.new ≡ with_lane image.old r lane word }
{
    let at = register_start(image.len(), r);
    if lane < register_count(image.len(), r) {
        image[at + lane] = word;
    }
}

// A lane of a register, or 0 where the view has none.
fn get(image: &[u32], r: u32, lane: usize) -> u32
    ensures { result ≡ get_or (view image.now r) lane 0 }
{
    register_lanes(image, r).get(lane).copied().unwrap_or(0)
}

// Writes a word to a lane of the view that the runner hands out.
fn put_through(image: &mut [u32], r: u32, lane: usize, word: u32) {
    if let Some(at) = register_lanes_mut(image, r).get_mut(lane) {
        *at = word;
    }
}

fn main(rt: HostRuntime) -> io::Result<()> {
    let mut image = [0u32; 768];
    put(&mut image, 11, 3, 5);
    put(&mut image, 8, 3, 7);
    put_through(&mut image, 11, 4, 6);
    // Register 11 is slot 8: its lanes 3 and 4 are words 259 and 260.
    println!(rt; "{}", get(&image, 11, 3))?;
    println!(rt; "{}", image[259])?;
    println!(rt; "{}", image[260])?;
    println!(rt; "{}", get(&image, 8, 3))
}
