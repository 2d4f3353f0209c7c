// The register view: the 32 words of a stored register as a part of the lent image.
ghost use Rattle.std.specs.Prelude.{◌≡◌, ◌+◌, ◌≤◌, length};
ghost use Rattle.runner.specs.Image as Image;

// Whether there is something to see of register `r` in an image of `size` words. Any number may be asked for here and below, where `is_stored` and `slot_of` (rows)
// ask for a register below 16 and would need a test before them.
fn in_view(size: usize, r: u32) -> bool
    ensures { result ≡ Image.in_view size r }
{
    (size == 768) & ((r < 8) | ((10 < r) & (r < 15)))
}

// Where register `r`'s words begin in an image of `size` words; 0 where there are none.
pub fn register_start(size: usize, r: u32) -> usize
    ensures { result ≡ Image.register_start size r }
{
    if in_view(size, r) {
        if r < 8 {
            32 * (r as usize)
        } else {
            32 * (r as usize - 3)
        }
    } else {
        0
    }
}

// How many words register `r` has in an image of `size` words: one for each lane, or none.
pub fn register_count(size: usize, r: u32) -> usize
    ensures { result ≡ Image.register_count size r }
{
    if in_view(size, r) { 32 } else { 0 }
}

// Register `r`'s lanes, to read.
pub fn register_lanes(image: &[u32], r: u32) -> &[u32]
    ensures { (result.now ≡ Image.view image.now r) × (result.ref_ptr ≡ Image.view_pointer image.entry.ref_ptr image.now r) }
{
    let at = register_start(image.len(), r);
    let count = register_count(image.len(), r);
    &image[at..at + count]
}

// Register `r`'s lanes, to write: a function of its own, since none is generic over & and &mut.
pub fn register_lanes_mut(image: &mut [u32], r: u32) -> &mut [u32]
    ensures { (result.now ≡ Image.view image.old r) × (result.ref_ptr ≡ Image.view_pointer image.entry.ref_ptr image.old r) }
{
    let at = register_start(image.len(), r);
    let count = register_count(image.len(), r);
    &mut image[at..at + count]
}
